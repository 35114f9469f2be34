//! Why the types of a module are refused.
use bp_base::Name;
use std::alloc::AllocError;

/// Why the types of a module are refused, with the declared name: of a group of type declarations the first in the
/// order of the source, and of a pattern binding its first variable, or no bytes where it has none.
#[derive(Debug, Drop)]
pub enum KindsError {
    /// A group of type declarations has no kinds, or a written type hasn't kind `*`.
    Kind { name: Name },
    /// A synonym leads to itself, or isn't fully applied.
    SynonymUse { name: Name },
    /// An expanded type is deeper than 1,000.
    TypeDepth,
    NoMemory,
}

impl From<AllocError> for KindsError {
    ghost use Rattle.std.specs.Prelude.{◌≡◌};
    ghost use Rattle.kind_module.specs.declared.error.KindsError.TheVariants.{NoMemory};

    ghost from_gives = { λ _ e. e ≡ NoMemory };

    fn from(_error: AllocError) -> KindsError {
        KindsError::NoMemory
    }
}
