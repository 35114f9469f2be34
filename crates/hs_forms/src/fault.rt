//! Where a reader stops.
use std::alloc::AllocError;

/// Why a reader read nothing.
#[derive(Debug, Drop)]
pub enum Fault {
    /// At the token from which so many are left, or at the end where none is.
    At(usize),
    NoMemory,
}

impl From<AllocError> for Fault {
    ghost use Rattle.std.specs.Prelude.{◌≡◌};
    ghost use Rattle.hs_forms.specs.declared.fault.Fault.TheVariants.{NoMemory};

    ghost from_gives = { λ _ e. e ≡ NoMemory };

    fn from(_error: AllocError) -> Fault {
        Fault::NoMemory
    }
}
