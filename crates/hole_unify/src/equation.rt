use bp_base::{Ident, Name};
use sqlite_items::Items;
use std::alloc::AllocError;

/// Equations in the order in which they are taken.
pub type Equations = Items<Equation>;

/// Two identities that are to become one, for the required name `label`.
#[derive(Debug, Drop)]
pub struct Equation {
    pub label: Name,
    pub left: Ident,
    pub right: Ident,
}

/// The component and the module of an identity that is no hole.
#[derive(Debug, Drop)]
pub struct Head {
    pub component: Name,
    pub module: Name,
}

/// Why equations have no unifier. The label is that of the first equation such that those up to it and with it have none.
#[derive(Debug, Drop)]
pub enum IdentUnifyError {
    /// Two different heads of one class.
    Clash { label: Name, one: Head, other: Head },
    /// No class has two different heads. The hole is the least in byte order of those whose class reaches itself through fills.
    Cycle { label: Name, hole: Name },
    NoMemory,
}

impl From<AllocError> for IdentUnifyError {
    ghost use Rattle.std.specs.Prelude.{◌≡◌};
    ghost use Rattle.hole_unify.specs.declared.equation.IdentUnifyError.TheVariants.{NoMemory};

    ghost from_gives = { λ _ e. e ≡ NoMemory };

    fn from(_error: AllocError) -> IdentUnifyError {
        IdentUnifyError::NoMemory
    }
}
