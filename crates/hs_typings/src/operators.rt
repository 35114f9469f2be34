//! Operators that are not qualified (Haskell 2010 Report, section 3.2).
ghost use Rattle.std.specs.Prelude.{◌≡◌, ◌∷◌};
ghost use Rattle.hs_tokens.specs.declared.terminal.Terminal.TheVariants.{Backquote};
ghost use Rattle.hs_readers.specs.Answers.{Answers};
ghost use Rattle.hs_declaration_forms.specs.Typings.{op_sort};

use bp_base::Name;
use hs_forms::Fault;
use hs_headers::{after_own_con, after_own_con_sym, after_var, after_var_sym};
use hs_modules::{ConOpTree, OpTree, VarOpTree};
use hs_readers::{Read, after_backquote};
use hs_tokens::Terminal;
use std::alloc::Global;

/// `op`: a symbol, or a name between backquotes, not qualified.
pub fn read_op(alloc: Global, tokens: &[Terminal]) -> Result<Read<'_, OpTree>, Fault>
    ensures { Answers op_sort tokens.now result }
{
    if let Some((name, rest)) = after_var_sym(tokens) {
        let tree = OpTree::Var(VarOpTree::Sym(Name::from_bytes(alloc, name.as_bytes())?));
        return Ok(Read {
            tree,
            rest,
            depth: 0,
        });
    }
    if let Some((name, rest)) = after_own_con_sym(tokens) {
        let tree = OpTree::Con(ConOpTree::Sym(Name::from_bytes(alloc, name.as_bytes())?));
        return Ok(Read {
            tree,
            rest,
            depth: 0,
        });
    }
    let Some(next) = after_backquote(tokens) else {
        return Err(Fault::At(tokens.len()));
    };
    read_quoted(alloc, next)
}

/// A name and a backquote, behind the first backquote.
fn read_quoted(alloc: Global, tokens: &[Terminal]) -> Result<Read<'_, OpTree>, Fault>
    ensures { Answers op_sort (Backquote ∷ tokens.now) result }
{
    if let Some((name, next)) = after_var(tokens) {
        let Some(rest) = after_backquote(next) else {
            return Err(Fault::At(next.len()));
        };
        let tree = OpTree::Var(VarOpTree::Quoted(Name::from_bytes(alloc, name.as_bytes())?));
        return Ok(Read {
            tree,
            rest,
            depth: 0,
        });
    }
    let Some((name, next)) = after_own_con(tokens) else {
        return Err(Fault::At(tokens.len()));
    };
    let Some(rest) = after_backquote(next) else {
        return Err(Fault::At(next.len()));
    };
    let tree = OpTree::Con(ConOpTree::Quoted(Name::from_bytes(alloc, name.as_bytes())?));
    Ok(Read {
        tree,
        rest,
        depth: 0,
    })
}
