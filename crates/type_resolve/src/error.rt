//! Why a name has no meaning.
use bp_base::Name;
use std::alloc::AllocError;

/// Why a name has no meaning, with the name as it is written.
#[derive(Debug, Drop)]
pub enum NameError {
    /// Nothing of this name is in scope, or it is no variable of the head.
    NotInScope { name: Name },
    /// The name may mean different things.
    AmbiguousName { name: Name },
    NoMemory,
}

impl From<AllocError> for NameError {
    ghost use Rattle.std.specs.Prelude.{◌≡◌};
    ghost use Rattle.type_resolve.specs.declared.error.NameError.TheVariants.{NoMemory};

    ghost from_gives = { λ _ e. e ≡ NoMemory };

    fn from(_error: AllocError) -> NameError {
        NameError::NoMemory
    }
}
