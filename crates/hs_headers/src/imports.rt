//! Imports (Haskell 2010 Report, section 5.3).
ghost use Rattle.std.specs.Prelude.{◌≡◌, ◌∷◌, false, codes};
ghost use Rattle.hs_tokens.specs.declared.terminal.Terminal.TheVariants as t;
ghost use Rattle.hs_readers.specs.Answers.{Answers};
ghost use Rattle.hs_modules.specs.Words.{has_dot};
ghost use Rattle.hs_headers.specs.Headers.{item_sort, list_sort, imported_sort, import_sort};
ghost use Rattle.hs_headers.specs.Elements.{item_element};

use crate::exports::read_subs;
use crate::leaf::{
    after_as, after_hiding, after_import, after_own_con, after_qualified, begins_left_paren,
    begins_list, begins_name, begins_var,
};
use crate::listed::{Listed, read_listed};
use crate::names::read_var;
use bp_base::{Bytes, Name};
use hs_forms::Fault;
use hs_modules::{ImpDeclTree, ImportList, ItemTree};
use hs_readers::{Read, after_con, after_left_paren};
use hs_tokens::Terminal;
use std::alloc::Global;

/// The part of an import that begins with the module's name.
#[derive(Drop)]
pub struct Imported {
    pub modid: Name,
    /// The name behind `as`.
    pub alias: Option<Name>,
    pub list: ImportList,
}

impl Listed for ItemTree {
    ghost element = { item_element };

    fn begins_part(tokens: &[Terminal]) -> bool {
        begins_name(tokens)
    }

    fn read_part(alloc: Global, tokens: &[Terminal]) -> Result<Read<'_, ItemTree>, Fault> {
        read_item(alloc, tokens)
    }
}

/// `item`: a variable, or a type that is not qualified, alone or with its names.
pub fn read_item(alloc: Global, tokens: &[Terminal]) -> Result<Read<'_, ItemTree>, Fault>
    ensures { Answers item_sort tokens.now result }
{
    if let Some((name, rest)) = after_own_con(tokens) {
        return read_type_item(alloc, name, rest);
    }
    if !begins_var(tokens) {
        return Err(Fault::At(tokens.len()));
    }
    let var = read_var(alloc, tokens)?;
    Ok(Read {
        tree: ItemTree::Var(var.tree),
        rest: var.rest,
        depth: var.depth,
    })
}

/// What stands behind the name of a type.
fn read_type_item<'a>(
    alloc: Global,
    name: &Bytes,
    tokens: &'a [Terminal],
) -> Result<Read<'a, ItemTree>, Fault>
    requires { has_dot name.now ≡ false }
    ensures { Answers item_sort (t.Con name.now ∷ tokens.now) result }
{
    let name = Name::from_bytes(alloc, name.as_bytes())?;
    if !begins_left_paren(tokens) {
        return Ok(Read {
            tree: ItemTree::Type(name),
            rest: tokens,
            depth: 0,
        });
    }
    let subs = read_subs(alloc, tokens)?;
    Ok(Read {
        tree: ItemTree::TypeWith(name, subs.tree),
        rest: subs.rest,
        depth: subs.depth,
    })
}

/// The list of an import, with or without `hiding`.
fn read_import_list(alloc: Global, tokens: &[Terminal]) -> Result<Read<'_, ImportList>, Fault>
    ensures { Answers list_sort tokens.now result }
{
    if let Some(next) = after_hiding(tokens) {
        return read_hidden(alloc, next);
    }
    let Some(next) = after_left_paren(tokens) else {
        return Err(Fault::At(tokens.len()));
    };
    let list = read_listed::<ItemTree>(alloc, next, true)?;
    let (items, trailing) = list.tree;
    Ok(Read {
        tree: ImportList::Only(items, trailing),
        rest: list.rest,
        depth: list.depth,
    })
}

/// The list behind `hiding`.
fn read_hidden(alloc: Global, tokens: &[Terminal]) -> Result<Read<'_, ImportList>, Fault>
    ensures { Answers list_sort (t.Var (codes "hiding") ∷ tokens.now) result }
{
    let Some(next) = after_left_paren(tokens) else {
        return Err(Fault::At(tokens.len()));
    };
    let list = read_listed::<ItemTree>(alloc, next, true)?;
    let (items, trailing) = list.tree;
    Ok(Read {
        tree: ImportList::Hiding(items, trailing),
        rest: list.rest,
        depth: list.depth,
    })
}

/// What stands behind the name of the module.
fn read_behind_name<'a>(
    alloc: Global,
    name: &Bytes,
    tokens: &'a [Terminal],
) -> Result<Read<'a, Imported>, Fault>
    ensures { Answers imported_sort (t.Con name.now ∷ tokens.now) result }
{
    if let Some(next) = after_as(tokens) {
        let Some((alias, rest)) = after_con(next) else {
            return Err(Fault::At(next.len()));
        };
        return read_behind_alias(alloc, name, alias, rest);
    }
    let modid = Name::from_bytes(alloc, name.as_bytes())?;
    if !begins_list(tokens) {
        return Ok(Read {
            tree: Imported {
                modid,
                alias: None,
                list: ImportList::Everything,
            },
            rest: tokens,
            depth: 0,
        });
    }
    let list = read_import_list(alloc, tokens)?;
    Ok(Read {
        tree: Imported {
            modid,
            alias: None,
            list: list.tree,
        },
        rest: list.rest,
        depth: list.depth,
    })
}

/// What stands behind the name that `as` gives.
fn read_behind_alias<'a>(
    alloc: Global,
    name: &Bytes,
    alias: &Bytes,
    tokens: &'a [Terminal],
) -> Result<Read<'a, Imported>, Fault>
    ensures { Answers imported_sort (t.Con name.now ∷ t.Var (codes "as") ∷ t.Con alias.now ∷ tokens.now) result }
{
    let modid = Name::from_bytes(alloc, name.as_bytes())?;
    let alias = Name::from_bytes(alloc, alias.as_bytes())?;
    if !begins_list(tokens) {
        return Ok(Read {
            tree: Imported {
                modid,
                alias: Some(alias),
                list: ImportList::Everything,
            },
            rest: tokens,
            depth: 0,
        });
    }
    let list = read_import_list(alloc, tokens)?;
    Ok(Read {
        tree: Imported {
            modid,
            alias: Some(alias),
            list: list.tree,
        },
        rest: list.rest,
        depth: list.depth,
    })
}

/// The part of an import that begins with the module's name.
fn read_imported(alloc: Global, tokens: &[Terminal]) -> Result<Read<'_, Imported>, Fault>
    ensures { Answers imported_sort tokens.now result }
{
    let Some((name, rest)) = after_con(tokens) else {
        return Err(Fault::At(tokens.len()));
    };
    read_behind_name(alloc, name, rest)
}

/// `impdecl`: an import.
pub fn read_import(alloc: Global, tokens: &[Terminal]) -> Result<Read<'_, ImpDeclTree>, Fault>
    ensures { Answers import_sort tokens.now result }
{
    let Some(next) = after_import(tokens) else {
        return Err(Fault::At(tokens.len()));
    };
    if let Some(behind) = after_qualified(next) {
        let part = read_imported(alloc, behind)?;
        let imported = part.tree;
        return Ok(Read {
            tree: ImpDeclTree {
                qualified: true,
                modid: imported.modid,
                alias: imported.alias,
                list: imported.list,
            },
            rest: part.rest,
            depth: part.depth,
        });
    }
    let part = read_imported(alloc, next)?;
    let imported = part.tree;
    Ok(Read {
        tree: ImpDeclTree {
            qualified: false,
            modid: imported.modid,
            alias: imported.alias,
            list: imported.list,
        },
        rest: part.rest,
        depth: part.depth,
    })
}
