//! Constructor operators (Haskell 2010 Report, section 3.2).
ghost use Rattle.std.specs.Prelude.{◌≡◌, ◌∷◌};
ghost use Rattle.hs_trees.specs.Patterns.{qconop_sort};
ghost use Rattle.hs_tokens.specs.declared.terminal.Terminal.TheVariants.{Backquote};
ghost use Rattle.hs_readers.specs.Answers.{Answers};

use crate::pattern_leaf::{after_backquote, after_con};
use crate::read::Read;
use bp_base::Name;
use hs_forms::Fault;
use hs_tokens::Terminal;
use hs_trees::QConOpTree;
use std::alloc::Global;

/// A constructor operator: a symbol, `:`, or a constructor between backquotes.
pub fn read_qconop(alloc: Global, tokens: &[Terminal]) -> Result<Read<'_, QConOpTree>, Fault>
    ensures { Answers qconop_sort tokens.now result }
{
    let Some((first, rest)) = tokens.split_first() else {
        return Err(Fault::At(0));
    };
    match first {
        Terminal::ConSym(name) => {
            let tree = QConOpTree::Sym(Name::from_bytes(alloc, name.as_bytes())?);
            Ok(Read {
                tree,
                rest,
                depth: 0,
            })
        }
        Terminal::Colon => Ok(Read {
            tree: QConOpTree::Colon,
            rest,
            depth: 0,
        }),
        Terminal::Backquote => read_quoted(alloc, rest),
        _ => Err(Fault::At(tokens.len())),
    }
}

/// A constructor and a backquote, after the first backquote.
fn read_quoted(alloc: Global, tokens: &[Terminal]) -> Result<Read<'_, QConOpTree>, Fault>
    ensures { Answers qconop_sort (Backquote ∷ tokens.now) result }
{
    let Some((name, rest)) = after_con(tokens) else {
        return Err(Fault::At(tokens.len()));
    };
    match after_backquote(rest) {
        Some(after) => {
            let tree = QConOpTree::Quoted(Name::from_bytes(alloc, name.as_bytes())?);
            Ok(Read {
                tree,
                rest: after,
                depth: 0,
            })
        }
        None => Err(Fault::At(rest.len())),
    }
}
