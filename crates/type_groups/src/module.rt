//! The kinds of all type declarations of a module.
ghost use Rattle.std.specs.Prelude.{IfOk, IfErr};
ghost use Rattle.kind_check.specs.Scopes.{known_names};
ghost use Rattle.type_groups.specs.Modules.{AreModuleKinds, IsModuleError};

use crate::chosen::{TypeGroups, type_groups};
use kind_check::{GroupDecls, GroupError, KindEnv};
use kind_order::{GroupKindsList, kinds_in_order};
use std::alloc::Global;

/// The dependency groups of type declarations, and the kinds of each.
#[derive(Debug, Drop)]
pub struct ModuleKinds {
    pub groups: TypeGroups,
    pub kinds: GroupKindsList,
}

/// The kinds of type declarations: dependency group after dependency group, each with its least kinds where those before it have
/// theirs. The declarations are those of one module, or of several signatures that are taken together. Kind names the first
/// declaration of the first group that has no kinds.
pub fn kinds_of_module(
    alloc: Global,
    decls: &GroupDecls,
    env: KindEnv,
) -> Result<ModuleKinds, GroupError>
    ensures ok { IfOk result (λ m. AreModuleKinds (known_names env.names) decls.now m) }
    ensures err { IfErr result (λ e. IsModuleError (known_names env.names) decls.now e) }
{
    let groups = type_groups(alloc, decls)?;
    match kinds_in_order(alloc, groups.as_slice(), env) {
        Ok(kinds) => Ok(ModuleKinds { groups, kinds }),
        Err(error) => Err(error),
    }
}
