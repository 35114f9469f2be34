//! Types by the table of a scope.
ghost use Rattle.std.specs.Prelude.{◌≡◌};
ghost use Rattle.std.specs.Option.{option_copied};
ghost use Rattle.type_resolve.specs.Names.{Answers};
ghost use Rattle.type_resolve.specs.Found.{all_found, atype_found, btype_found, tuple_found, type_found};

use crate::build::{applied, arrow_chain, special_type, tuple_type};
use crate::error::NameError;
use crate::name::{meaning_found, variable_found};
use bp_base::{Name, Space, Special};
use hs_core::Written;
use hs_trees::{ATypeTree, BTypeTree, TypeTree};
use scope_table::ScopeTable;
use sqlite_items::Items;
use std::alloc::Global;

/// A type.
#[cycle(types)]
#[tactic(auto, using(crate::proofs::LayerLemmas::type_layers))]
pub fn type_found(
    alloc: Global,
    table: &ScopeTable,
    head: Option<&[Name]>,
    tree: &TypeTree,
) -> Result<Written, NameError>
    ensures { Answers (type_found table.now (option_copied head.entry) tree.now) result }
{
    let first = btype_found(alloc, table, head, &tree.first)?;
    let rest = btypes_found(alloc, table, head, tree.rest.as_slice())?;
    Ok(arrow_chain(alloc, first, rest)?)
}

#[cycle(types)]
fn btypes_found(
    alloc: Global,
    table: &ScopeTable,
    head: Option<&[Name]>,
    trees: &[BTypeTree],
) -> Result<Items<Written>, NameError>
    ensures { Answers (all_found (btype_found table.now (option_copied head.entry)) trees.now) result }
{
    let mut types = Items::new(alloc);
    for tree in trees {
        types.push(btype_found(alloc, table, head, tree)?)?;
    }
    Ok(types)
}

/// A type with its arguments.
#[cycle(types)]
#[tactic(auto, using(crate::proofs::LayerLemmas::type_layers))]
pub fn btype_found(
    alloc: Global,
    table: &ScopeTable,
    head: Option<&[Name]>,
    tree: &BTypeTree,
) -> Result<Written, NameError>
    ensures { Answers (btype_found table.now (option_copied head.entry) tree.now) result }
{
    let mut made = atype_found(alloc, table, head, &tree.first)?;
    for arg in tree.rest.as_slice() {
        let arg = atype_found(alloc, table, head, arg)?;
        made = applied(alloc, made, arg)?;
    }
    Ok(made)
}

/// A type that stands alone, or between brackets.
#[cycle(types)]
#[tactic(auto, using(crate::proofs::LayerLemmas::type_layers))]
pub fn atype_found(
    alloc: Global,
    table: &ScopeTable,
    head: Option<&[Name]>,
    tree: &ATypeTree,
) -> Result<Written, NameError>
    ensures { Answers (atype_found table.now (option_copied head.entry) tree.now) result }
{
    match tree {
        ATypeTree::Con(name) => Ok(Written::WCon {
            name: meaning_found(alloc, table, Space::Types, name)?,
        }),
        ATypeTree::Unit => Ok(special_type(alloc, Special::Unit)?),
        ATypeTree::ListCon => Ok(special_type(alloc, Special::List)?),
        ATypeTree::ArrowCon => Ok(special_type(alloc, Special::Arrow)?),
        ATypeTree::TupleCon(commas) => Ok(tuple_type(alloc, *commas)?),
        ATypeTree::Var(name) => Ok(Written::WVar {
            name: variable_found(alloc, head, name)?,
        }),
        ATypeTree::Parts(first, rest) => {
            let first = type_found(alloc, table, head, first.get())?;
            tuple_found(alloc, table, head, rest.as_slice(), first)
        }
        ATypeTree::List(inner) => {
            let list = special_type(alloc, Special::List)?;
            let item = type_found(alloc, table, head, inner.get())?;
            Ok(applied(alloc, list, item)?)
        }
    }
}

/// What stands between brackets: the first alone, or a tuple with the others.
#[cycle(types)]
fn tuple_found(
    alloc: Global,
    table: &ScopeTable,
    head: Option<&[Name]>,
    rest: &[TypeTree],
    first: Written,
) -> Result<Written, NameError>
    ensures { Answers (tuple_found (type_found table.now (option_copied head.entry)) first rest.now) result }
{
    if rest.is_empty() {
        return Ok(first);
    }
    let tuple = tuple_type(alloc, rest.len())?;
    let mut made = applied(alloc, tuple, first)?;
    for part in rest {
        let part = type_found(alloc, table, head, part)?;
        made = applied(alloc, made, part)?;
    }
    Ok(made)
}
