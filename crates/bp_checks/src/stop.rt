//! Why a step of a command stops.
use bp_base::{Defect, LimitHit, Refusal};
use std::alloc::AllocError;

/// Why a step stopped: the project is refused, or passes a limit, or a file could not be read, or memory was wanting.
#[derive(Debug, Drop)]
pub enum Stop {
    Refused(Defect),
    Limit(LimitHit),
    ReadFault,
    NoMemory,
}

impl From<AllocError> for Stop {
    ghost use Rattle.std.specs.Prelude.{◌≡◌};
    ghost use Rattle.bp_checks.specs.declared.stop.Stop.TheVariants.{NoMemory};

    ghost from_gives = { λ _ e. e ≡ NoMemory };

    fn from(_: AllocError) -> Self {
        Stop::NoMemory
    }
}

impl From<Refusal> for Stop {
    ghost use Rattle.std.specs.Prelude.{◌≡◌};
    ghost use Rattle.bp_checks.specs.Stop.{stop_of};

    ghost from_gives = { λ r s. s ≡ stop_of r };

    fn from(refusal: Refusal) -> Self {
        match refusal {
            Refusal::Defect { defect } => Stop::Refused(defect),
            Refusal::Limit { hit } => Stop::Limit(hit),
            Refusal::NoMemory => Stop::NoMemory,
        }
    }
}
