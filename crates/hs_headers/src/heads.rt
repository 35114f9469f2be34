//! The heads of modules and signatures (Haskell 2010 Report, section 5.1).
ghost use Rattle.std.specs.Prelude.{◌≡◌, ◌∷◌};
ghost use Rattle.hs_tokens.specs.declared.terminal.Terminal.TheVariants as t;
ghost use Rattle.hs_tokens.specs.declared.word.Word.TheVariants as w;
ghost use Rattle.hs_readers.specs.Answers.{Answers};
ghost use Rattle.hs_headers.specs.Heads.{module_head_sort, signature_head_sort};

use crate::exports::read_exports;
use crate::leaf::{after_module, after_signature, after_where};
use bp_base::{Bytes, Name};
use hs_forms::Fault;
use hs_modules::ExportsTree;
use hs_readers::{Read, after_con};
use hs_tokens::Terminal;
use std::alloc::Global;

/// The head of a module, with its `where`.
#[derive(Drop)]
pub enum ModuleHead {
    /// `"module" modid "where"`
    Named(Name),
    /// `"module" modid exports "where"`
    Exporting(Name, ExportsTree),
}

/// `"module" modid [exports] "where"`
pub fn read_module_head(alloc: Global, tokens: &[Terminal]) -> Result<Read<'_, ModuleHead>, Fault>
    ensures { Answers module_head_sort tokens.now result }
{
    let Some(next) = after_module(tokens) else {
        return Err(Fault::At(tokens.len()));
    };
    read_module_name(alloc, next)
}

/// What stands behind `module`.
fn read_module_name(alloc: Global, tokens: &[Terminal]) -> Result<Read<'_, ModuleHead>, Fault>
    ensures { Answers module_head_sort (t.Word w.Module ∷ tokens.now) result }
{
    let Some((name, rest)) = after_con(tokens) else {
        return Err(Fault::At(tokens.len()));
    };
    read_behind_modid(alloc, name, rest)
}

/// What stands behind the name of a module.
fn read_behind_modid<'a>(
    alloc: Global,
    name: &Bytes,
    tokens: &'a [Terminal],
) -> Result<Read<'a, ModuleHead>, Fault>
    ensures { Answers module_head_sort (t.Word w.Module ∷ t.Con name.now ∷ tokens.now) result }
{
    let name = Name::from_bytes(alloc, name.as_bytes())?;
    if let Some(rest) = after_where(tokens) {
        return Ok(Read {
            tree: ModuleHead::Named(name),
            rest,
            depth: 0,
        });
    }
    let exports = read_exports(alloc, tokens)?;
    let Some(rest) = after_where(exports.rest) else {
        return Err(Fault::At(exports.rest.len()));
    };
    Ok(Read {
        tree: ModuleHead::Exporting(name, exports.tree),
        rest,
        depth: exports.depth,
    })
}

/// `"signature" modid "where"`; the tree is the name.
pub fn read_signature_head(alloc: Global, tokens: &[Terminal]) -> Result<Read<'_, Name>, Fault>
    ensures { Answers signature_head_sort tokens.now result }
{
    let Some(next) = after_signature(tokens) else {
        return Err(Fault::At(tokens.len()));
    };
    let Some((name, behind)) = after_con(next) else {
        return Err(Fault::At(next.len()));
    };
    let Some(rest) = after_where(behind) else {
        return Err(Fault::At(behind.len()));
    };
    let tree = Name::from_bytes(alloc, name.as_bytes())?;
    Ok(Read {
        tree,
        rest,
        depth: 0,
    })
}
