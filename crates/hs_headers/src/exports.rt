//! Exports (Haskell 2010 Report, section 5.2).
ghost use Rattle.std.specs.Prelude.{◌≡◌, ◌∷◌};
ghost use Rattle.hs_tokens.specs.declared.terminal.Terminal.TheVariants as t;
ghost use Rattle.hs_tokens.specs.declared.word.Word.TheVariants as w;
ghost use Rattle.hs_readers.specs.Answers.{Answers};
ghost use Rattle.hs_headers.specs.Names.{subs_sort};
ghost use Rattle.hs_headers.specs.Headers.{export_sort, exports_sort};
ghost use Rattle.hs_headers.specs.Elements.{cname_element, export_element};

use crate::leaf::{
    after_dots, after_module, begins_export, begins_left_paren, begins_name, begins_qvar,
};
use crate::listed::{Listed, read_listed};
use crate::names::{read_cname, read_qvar};
use bp_base::{Bytes, Name};
use hs_forms::Fault;
use hs_modules::{CNameTree, ExportTree, ExportsTree, SubsTree};
use hs_readers::{Read, after_con, after_left_paren, after_right_paren};
use hs_tokens::Terminal;
use std::alloc::Global;

impl Listed for CNameTree {
    ghost element = { cname_element };

    fn begins_part(tokens: &[Terminal]) -> bool {
        begins_name(tokens)
    }

    fn read_part(alloc: Global, tokens: &[Terminal]) -> Result<Read<'_, CNameTree>, Fault> {
        read_cname(alloc, tokens)
    }
}

impl Listed for ExportTree {
    ghost element = { export_element };

    fn begins_part(tokens: &[Terminal]) -> bool {
        begins_export(tokens)
    }

    fn read_part(alloc: Global, tokens: &[Terminal]) -> Result<Read<'_, ExportTree>, Fault> {
        read_export(alloc, tokens)
    }
}

/// `subs`: `(..)`, or the names behind a type.
pub fn read_subs(alloc: Global, tokens: &[Terminal]) -> Result<Read<'_, SubsTree>, Fault>
    ensures { Answers subs_sort tokens.now result }
{
    let Some(next) = after_left_paren(tokens) else {
        return Err(Fault::At(tokens.len()));
    };
    if let Some(behind) = after_dots(next) {
        let Some(rest) = after_right_paren(behind) else {
            return Err(Fault::At(behind.len()));
        };
        return Ok(Read {
            tree: SubsTree::All,
            rest,
            depth: 0,
        });
    }
    let list = read_listed::<CNameTree>(alloc, next, false)?;
    let (names, _) = list.tree;
    Ok(Read {
        tree: SubsTree::Only(names),
        rest: list.rest,
        depth: list.depth,
    })
}

/// `export`: a variable, a type, alone or with its names, or a module.
pub fn read_export(alloc: Global, tokens: &[Terminal]) -> Result<Read<'_, ExportTree>, Fault>
    ensures { Answers export_sort tokens.now result }
{
    if let Some((name, rest)) = after_con(tokens) {
        return read_type_export(alloc, name, rest);
    }
    if let Some(next) = after_module(tokens) {
        return read_module_export(alloc, next);
    }
    if !begins_qvar(tokens) {
        return Err(Fault::At(tokens.len()));
    }
    let var = read_qvar(alloc, tokens)?;
    Ok(Read {
        tree: ExportTree::Var(var.tree),
        rest: var.rest,
        depth: var.depth,
    })
}

/// What stands behind the name of a type.
fn read_type_export<'a>(
    alloc: Global,
    name: &Bytes,
    tokens: &'a [Terminal],
) -> Result<Read<'a, ExportTree>, Fault>
    ensures { Answers export_sort (t.Con name.now ∷ tokens.now) result }
{
    let name = Name::from_bytes(alloc, name.as_bytes())?;
    if !begins_left_paren(tokens) {
        return Ok(Read {
            tree: ExportTree::Type(name),
            rest: tokens,
            depth: 0,
        });
    }
    let subs = read_subs(alloc, tokens)?;
    Ok(Read {
        tree: ExportTree::TypeWith(name, subs.tree),
        rest: subs.rest,
        depth: subs.depth,
    })
}

/// The name of a module, behind `module`.
fn read_module_export(alloc: Global, tokens: &[Terminal]) -> Result<Read<'_, ExportTree>, Fault>
    ensures { Answers export_sort (t.Word w.Module ∷ tokens.now) result }
{
    let Some((name, rest)) = after_con(tokens) else {
        return Err(Fault::At(tokens.len()));
    };
    let tree = ExportTree::Module(Name::from_bytes(alloc, name.as_bytes())?);
    Ok(Read {
        tree,
        rest,
        depth: 0,
    })
}

/// `exports`: what a module exports, in round brackets.
pub fn read_exports(alloc: Global, tokens: &[Terminal]) -> Result<Read<'_, ExportsTree>, Fault>
    ensures { Answers exports_sort tokens.now result }
{
    let Some(next) = after_left_paren(tokens) else {
        return Err(Fault::At(tokens.len()));
    };
    let list = read_listed::<ExportTree>(alloc, next, true)?;
    let (exports, trailing) = list.tree;
    Ok(Read {
        tree: ExportsTree { exports, trailing },
        rest: list.rest,
        depth: list.depth,
    })
}
