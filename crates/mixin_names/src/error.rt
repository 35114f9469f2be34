//! Names that an entry lists and that aren't there.
use bp_base::Name;
use std::alloc::AllocError;

/// Why an entry does not fit its dependency.
#[derive(Debug, Drop)]
pub enum NameError {
    /// A listed or hidden name that the dependency does not provide.
    NoProvision { name: Name },
    /// A name in `requires` that is no hole of the dependency.
    NoRequirement { name: Name },
    NoMemory,
}

impl From<AllocError> for NameError {
    ghost use Rattle.std.specs.Prelude.{◌≡◌};
    ghost use Rattle.mixin_names.specs.declared.error.NameError.TheVariants.{NoMemory};

    ghost from_gives = { λ _ e. e ≡ NoMemory };

    fn from(_error: AllocError) -> NameError {
        NameError::NoMemory
    }
}
