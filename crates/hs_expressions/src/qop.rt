//! Operators (Haskell 2010 Report, section 3.2).
ghost use Rattle.std.specs.Prelude.{◌≡◌, ◌∷◌, ℕ, Option};
ghost use Rattle.hs_tokens.specs.declared.terminal.Terminal.TheVariants.{Backquote};
ghost use Rattle.hs_readers.specs.Answers.{Answers};
ghost use Rattle.hs_expression_forms.specs.Trees.{sort_of};
ghost use Rattle.hs_expression_forms.specs.Expressions.{qops};
ghost use Rattle.hs_expressions.specs.Leaves.{is_quotable};

use bp_base::Name;
use hs_forms::Fault;
use hs_modules::QOpTree;
use hs_readers::{Read, after_backquote};
use hs_tokens::Terminal;
use hs_trees::QConOpTree;
use std::alloc::Global;

/// An operator: a symbol, `:`, or a name between backquotes, qualified or not.
pub fn read_qop(alloc: Global, tokens: &[Terminal]) -> Result<Read<'_, QOpTree>, Fault>
    ensures { (limit : Option ℕ) → Answers (sort_of qops limit) tokens.now result }
{
    let Some((first, rest)) = tokens.split_first() else {
        return Err(Fault::At(0));
    };
    let tree = match first {
        Terminal::VarSym(name) => QOpTree::Sym(Name::from_bytes(alloc, name.as_bytes())?),
        Terminal::QVarSym(name) => QOpTree::QualifiedSym(Name::from_bytes(alloc, name.as_bytes())?),
        Terminal::ConSym(name) => {
            QOpTree::Con(QConOpTree::Sym(Name::from_bytes(alloc, name.as_bytes())?))
        }
        Terminal::Colon => QOpTree::Con(QConOpTree::Colon),
        Terminal::Backquote => return read_quoted(alloc, rest),
        _ => return Err(Fault::At(tokens.len())),
    };
    Ok(Read {
        tree,
        rest,
        depth: 0,
    })
}

/// A name and a backquote, after the first backquote.
fn read_quoted(alloc: Global, tokens: &[Terminal]) -> Result<Read<'_, QOpTree>, Fault>
    ensures { (limit : Option ℕ) → Answers (sort_of qops limit) (Backquote ∷ tokens.now) result }
{
    let Some((name, rest)) = tokens.split_first() else {
        return Err(Fault::At(0));
    };
    if !is_quotable(name) {
        return Err(Fault::At(tokens.len()));
    }
    let Some(after) = after_backquote(rest) else {
        return Err(Fault::At(rest.len()));
    };
    let tree = match name {
        Terminal::Var(name) => QOpTree::Quoted(Name::from_bytes(alloc, name.as_bytes())?),
        Terminal::QVar(name) => QOpTree::QualifiedQuoted(Name::from_bytes(alloc, name.as_bytes())?),
        Terminal::Con(name) => {
            QOpTree::Con(QConOpTree::Quoted(Name::from_bytes(alloc, name.as_bytes())?))
        }
        _ => return Err(Fault::At(tokens.len())),
    };
    Ok(Read {
        tree,
        rest: after,
        depth: 0,
    })
}

/// Whether a name may stand between backquotes.
fn is_quotable(name: &Terminal) -> bool
    ensures { result ≡ is_quotable name.now }
{
    match name {
        Terminal::Var(_) | Terminal::QVar(_) | Terminal::Con(_) => true,
        _ => false,
    }
}
