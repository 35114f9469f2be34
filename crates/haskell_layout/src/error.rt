//! Why there is no layout.
use std::alloc::AllocError;
use thiserror::Error;

/// Why there is no layout.
#[derive(Debug, PartialEq, Eq, Error, Drop)]
pub enum LayoutError {
    /// The token at the index is a `}` without its `{`; or the index is the number of tokens, and a `{` has no `}`.
    #[error("no layout at token {index}")]
    Layout { index: u64 },
    #[error("out of memory")]
    NoMemory,
}

impl From<AllocError> for LayoutError {
    ghost use Rattle.std.specs.Prelude.{◌≡◌};
    ghost use Rattle.haskell_layout.specs.declared.error.LayoutError.TheVariants.{NoMemory};

    ghost from_gives = { λ _ e. e ≡ NoMemory };

    fn from(_: AllocError) -> Self {
        LayoutError::NoMemory
    }
}
