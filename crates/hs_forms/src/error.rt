//! Why tokens spell no tree.

use std::alloc::AllocError;

/// Why tokens spell no tree: a token, by its index, or their end, by their number.
#[derive(Debug, Drop)]
pub enum ParseError {
    /// The tokens up to and with this one begin no tree.
    Syntax { index: u64 },
    /// The tokens up to and with this one begin only trees that are too deep.
    DepthLimit { index: u64 },
    NoMemory,
}

impl From<AllocError> for ParseError {
    ghost use Rattle.std.specs.Prelude.{◌≡◌};
    ghost use Rattle.hs_forms.specs.declared.error.ParseError.TheVariants.{NoMemory};

    ghost from_gives = { λ _ e. e ≡ NoMemory };

    fn from(_error: AllocError) -> ParseError {
        ParseError::NoMemory
    }
}
