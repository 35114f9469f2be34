//! Why no type was inferred.
use std::alloc::AllocError;
use type_equations::Failure;

/// Why no type was inferred: there is none, a form occurs that inference doesn't cover, or memory ran out.
#[derive(Clone, Copy, Debug, PartialEq, Eq)]
pub enum Refusal {
    NoTyping,
    Uncovered,
    NoMemory,
}

impl From<AllocError> for Refusal {
    ghost use Rattle.std.specs.Prelude.{◌≡◌};
    ghost use Rattle.infer_expressions.specs.declared.refusal.Refusal.{Refusal};

    ghost from_gives = { λ _ r. r ≡ Refusal.NoMemory };

    fn from(_error: AllocError) -> Self {
        Refusal::NoMemory
    }
}

impl From<Failure> for Refusal {
    ghost use Rattle.infer_expressions.specs.Inferred.{StandsFor};

    ghost from_gives = { λ f r. StandsFor f r };

    fn from(failure: Failure) -> Self {
        match failure {
            Failure::NoTyping => Refusal::NoTyping,
            Failure::NoMemory => Refusal::NoMemory,
        }
    }
}
