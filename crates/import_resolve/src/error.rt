//! Why a module has no scope, or no exports.
use bp_base::Name;
use std::alloc::AllocError;

/// Why a module has no scope, or no exports, each with the name.
#[derive(Debug, Drop)]
pub enum ScopeError {
    /// An imported name shows no module.
    NoModule { name: Name },
    /// An imported name shows several modules.
    AmbiguousModule { name: Name },
    /// What an import or export list names, and is not there.
    NotInScope { name: Name },
    /// A name of an export list that may mean different things.
    AmbiguousName { name: Name },
    /// Two different things would be exported under one name.
    ExportClash { name: Name },
    NoMemory,
}

impl From<AllocError> for ScopeError {
    ghost use Rattle.std.specs.Prelude.{◌≡◌};
    ghost use Rattle.import_resolve.specs.declared.error.ScopeError.TheVariants.{NoMemory};

    ghost from_gives = { λ _ e. e ≡ NoMemory };

    fn from(_error: AllocError) -> ScopeError {
        ScopeError::NoMemory
    }
}
