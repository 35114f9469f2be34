//! Operators that are variables, not qualified (Haskell 2010 Report, section 3.2).
ghost use Rattle.std.specs.Prelude.{◌≡◌, ◌∷◌};
ghost use Rattle.hs_tokens.specs.declared.terminal.Terminal.TheVariants.{Backquote};
ghost use Rattle.hs_readers.specs.Answers.{Answers};
ghost use Rattle.hs_left_forms.specs.Lefts.{varop_sort};

use bp_base::Name;
use hs_forms::Fault;
use hs_headers::{after_var, after_var_sym};
use hs_modules::VarOpTree;
use hs_readers::{Read, after_backquote};
use hs_tokens::Terminal;
use std::alloc::Global;

/// `varop`: a variable's symbol, or its name between backquotes, not qualified.
pub fn read_varop(alloc: Global, tokens: &[Terminal]) -> Result<Read<'_, VarOpTree>, Fault>
    ensures { Answers varop_sort tokens.now result }
{
    if let Some((name, rest)) = after_var_sym(tokens) {
        let tree = VarOpTree::Sym(Name::from_bytes(alloc, name.as_bytes())?);
        return Ok(Read {
            tree,
            rest,
            depth: 0,
        });
    }
    let Some(next) = after_backquote(tokens) else {
        return Err(Fault::At(tokens.len()));
    };
    read_quoted(alloc, next)
}

/// A name and a backquote, behind the first backquote.
fn read_quoted(alloc: Global, tokens: &[Terminal]) -> Result<Read<'_, VarOpTree>, Fault>
    ensures { Answers varop_sort (Backquote ∷ tokens.now) result }
{
    let Some((name, next)) = after_var(tokens) else {
        return Err(Fault::At(tokens.len()));
    };
    let Some(rest) = after_backquote(next) else {
        return Err(Fault::At(next.len()));
    };
    let tree = VarOpTree::Quoted(Name::from_bytes(alloc, name.as_bytes())?);
    Ok(Read {
        tree,
        rest,
        depth: 0,
    })
}
