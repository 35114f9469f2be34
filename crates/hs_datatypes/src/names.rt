//! The names and operators of constructors that are declared (Haskell 2010 Report, section 3.2).
ghost use Rattle.std.specs.Prelude.{◌≡◌, ◌∷◌};
ghost use Rattle.hs_tokens.specs.declared.terminal.Terminal.TheVariants.{Backquote, LeftParen};
ghost use Rattle.hs_readers.specs.Answers.{Answers};
ghost use Rattle.hs_declaration_forms.specs.Datatypes.{con_sort, conop_sort};

use bp_base::Name;
use hs_forms::Fault;
use hs_headers::{after_own_con, after_own_con_sym};
use hs_modules::{ConOpTree, ConTree};
use hs_readers::{Read, after_backquote, after_left_paren, after_right_paren};
use hs_tokens::Terminal;
use std::alloc::Global;

/// `con`: a constructor's name, or a symbol in brackets, not qualified.
pub fn read_con(alloc: Global, tokens: &[Terminal]) -> Result<Read<'_, ConTree>, Fault>
    ensures { Answers con_sort tokens.now result }
{
    if let Some((name, rest)) = after_own_con(tokens) {
        let tree = ConTree::Id(Name::from_bytes(alloc, name.as_bytes())?);
        return Ok(Read {
            tree,
            rest,
            depth: 0,
        });
    }
    let Some(next) = after_left_paren(tokens) else {
        return Err(Fault::At(tokens.len()));
    };
    read_con_symbol(alloc, next)
}

/// A symbol in brackets, behind its `(`.
fn read_con_symbol(alloc: Global, tokens: &[Terminal]) -> Result<Read<'_, ConTree>, Fault>
    ensures { Answers con_sort (LeftParen ∷ tokens.now) result }
{
    let Some((name, next)) = after_own_con_sym(tokens) else {
        return Err(Fault::At(tokens.len()));
    };
    let Some(rest) = after_right_paren(next) else {
        return Err(Fault::At(next.len()));
    };
    let tree = ConTree::Sym(Name::from_bytes(alloc, name.as_bytes())?);
    Ok(Read {
        tree,
        rest,
        depth: 0,
    })
}

/// `conop`: a constructor's symbol, or a name between backquotes, not qualified.
pub fn read_conop(alloc: Global, tokens: &[Terminal]) -> Result<Read<'_, ConOpTree>, Fault>
    ensures { Answers conop_sort tokens.now result }
{
    if let Some((name, rest)) = after_own_con_sym(tokens) {
        let tree = ConOpTree::Sym(Name::from_bytes(alloc, name.as_bytes())?);
        return Ok(Read {
            tree,
            rest,
            depth: 0,
        });
    }
    let Some(next) = after_backquote(tokens) else {
        return Err(Fault::At(tokens.len()));
    };
    read_quoted_con(alloc, next)
}

/// A name and a backquote, behind the first backquote.
fn read_quoted_con(alloc: Global, tokens: &[Terminal]) -> Result<Read<'_, ConOpTree>, Fault>
    ensures { Answers conop_sort (Backquote ∷ tokens.now) result }
{
    let Some((name, next)) = after_own_con(tokens) else {
        return Err(Fault::At(tokens.len()));
    };
    let Some(rest) = after_backquote(next) else {
        return Err(Fault::At(next.len()));
    };
    let tree = ConOpTree::Quoted(Name::from_bytes(alloc, name.as_bytes())?);
    Ok(Read {
        tree,
        rest,
        depth: 0,
    })
}
