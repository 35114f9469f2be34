//! How deep a tree may be.
ghost use Rattle.std.specs.Prelude.{◌≡◌, ◌≤◌, IsTrue, ◌↔◌};
ghost use Rattle.hs_forms.specs.Limits.{Within, lowered};

/// How deep a tree may be.
pub const MAX_DEPTH: usize = 200;

/// Whether a depth is within the limit.
pub fn allows(limit: Option<usize>, depth: usize) -> bool
    ensures { IsTrue result ↔ Within limit depth }
{
    match limit {
        None => true,
        Some(most) => depth <= most,
    }
}

/// What the limit leaves when so much of it is used.
pub fn lower(limit: Option<usize>, used: usize) -> Option<usize>
    ensures { result ≡ lowered limit used }
{
    match limit {
        None => None,
        Some(most) => Some(most.saturating_sub(used)),
    }
}

/// What bounds a list between commas.
#[derive(Clone, Copy)]
pub struct PartsLimit {
    /// How many parts may stand behind the first.
    pub most: Option<usize>,
    /// How deep a part may be.
    pub depth: Option<usize>,
}
