//! Types with their names known.
ghost use Rattle.std.specs.Prelude.{◌≡◌, List};
ghost use Rattle.std.specs.Option.{option_copied};
ghost use Rattle.hs_scopes.specs.declared.scope.ScopeItem.{ScopeItem};
ghost use Rattle.type_resolve.specs.Names.{IsTableOf};
ghost use Rattle.type_resolve.specs.Given.{Judges, atype_gives, btype_gives, type_gives};

use crate::error::NameError;
use crate::types::{atype_found, btype_found, type_found};
use bp_base::Name;
use hs_core::Written;
use hs_trees::{ATypeTree, BTypeTree, TypeTree};
use scope_table::ScopeTable;
use std::alloc::Global;

/// A type with its names known in the scope that the table was made of. The first of its names, from the left, that has
/// no meaning is refused: NotInScope where it may mean nothing, AmbiguousName where it may mean different things. `head`
/// has the variables that may stand in it, where it stands in the declaration of a type, and another variable is
/// NotInScope; elsewhere any may stand (Haskell 2010 Report, sections 4.1.2, 4.2.1 and 5.5.2).
pub fn resolve_type(
    alloc: Global,
    table: &ScopeTable,
    head: Option<&[Name]>,
    tree: &TypeTree,
) -> Result<Written, NameError>
    ensures { (items : List ScopeItem) → IsTableOf table.now items → Judges (type_gives items (option_copied head.entry) tree.now) result }
{
    type_found(alloc, table, head, tree)
}

/// The same for a type without arrows of its own.
pub fn resolve_btype(
    alloc: Global,
    table: &ScopeTable,
    head: Option<&[Name]>,
    tree: &BTypeTree,
) -> Result<Written, NameError>
    ensures { (items : List ScopeItem) → IsTableOf table.now items → Judges (btype_gives items (option_copied head.entry) tree.now) result }
{
    btype_found(alloc, table, head, tree)
}

/// The same for a type that stands as an argument.
pub fn resolve_atype(
    alloc: Global,
    table: &ScopeTable,
    head: Option<&[Name]>,
    tree: &ATypeTree,
) -> Result<Written, NameError>
    ensures { (items : List ScopeItem) → IsTableOf table.now items → Judges (atype_gives items (option_copied head.entry) tree.now) result }
{
    atype_found(alloc, table, head, tree)
}
