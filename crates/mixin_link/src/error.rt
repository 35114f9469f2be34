//! Why a component has no linking.
use bp_base::Name;
use std::alloc::AllocError;

/// Why a component can't be linked.
#[derive(Debug, Drop)]
pub enum LinkError {
    /// An entry lists or hides a name that its dependency does not provide.
    NoProvision { dep: Name, name: Name },
    /// An entry renames a requirement that its dependency does not have.
    NoRequirement { dep: Name, name: Name },
    /// An own module has the name of a requirement.
    NameTaken { name: Name },
    /// Two different modules are to be one. The name is that of the first equation that fails.
    LinkClash { name: Name },
    /// A module is to be part of itself. The name is that of the first equation that fails.
    LinkCycle { name: Name },
    NoMemory,
}

impl From<AllocError> for LinkError {
    ghost use Rattle.std.specs.Prelude.{◌≡◌};
    ghost use Rattle.mixin_link.specs.declared.error.LinkError.TheVariants.{NoMemory};

    ghost from_gives = { λ _ e. e ≡ NoMemory };

    fn from(_error: AllocError) -> LinkError {
        LinkError::NoMemory
    }
}
