//! Names and literals as expressions (Haskell 2010 Report, section 3.2).
ghost use Rattle.std.specs.Prelude.{◌≡◌, ℕ, Option, IfOk, true, false};
ghost use Rattle.hs_forms.specs.Reading.{begins};
ghost use Rattle.hs_readers.specs.Answers.{Answers};
ghost use Rattle.hs_trees.specs.Kinds.{is_left_paren};
ghost use Rattle.hs_expression_forms.specs.Trees.{sort_of};
ghost use Rattle.hs_expression_forms.specs.Expressions.{aexps};
ghost use Rattle.hs_operand_forms.specs.Brackets.{is_symbol, is_opening, named_symbol};

use bp_base::Name;
use hs_forms::Fault;
use hs_modules::{AExpTree, QVarTree};
use hs_readers::Read;
use hs_tokens::Terminal;
use hs_trees::{GConTree, LiteralTree};
use std::alloc::{AllocError, Global};

/// What a symbol in brackets is.
pub fn named_symbol(alloc: Global, symbol: &Terminal) -> Result<AExpTree, AllocError>
    requires { is_symbol symbol.now ≡ true }
    ensures { IfOk result (λ tree. tree ≡ named_symbol symbol.now) }
{
    match symbol {
        Terminal::VarSym(name) => {
            let name = Name::from_bytes(alloc, name.as_bytes())?;
            Ok(AExpTree::Var(QVarTree::Sym(name)))
        }
        Terminal::QVarSym(name) => {
            let name = Name::from_bytes(alloc, name.as_bytes())?;
            Ok(AExpTree::Var(QVarTree::QualifiedSym(name)))
        }
        Terminal::ConSym(name) => {
            let name = Name::from_bytes(alloc, name.as_bytes())?;
            Ok(AExpTree::Con(GConTree::Sym(name)))
        }
        _ => Ok(AExpTree::Con(GConTree::Colon)),
    }
}

/// A name or a literal, where no bracket stands.
pub fn read_word(alloc: Global, tokens: &[Terminal]) -> Result<Read<'_, AExpTree>, Fault>
    requires { begins is_opening tokens.now ≡ false }
    ensures { (limit : Option ℕ) → Answers (sort_of aexps limit) tokens.now result }
{
    let Some((first, rest)) = tokens.split_first() else {
        return Err(Fault::At(0));
    };
    match first {
        Terminal::Var(name) => {
            let tree = AExpTree::Var(QVarTree::Id(Name::from_bytes(alloc, name.as_bytes())?));
            Ok(Read {
                tree,
                rest,
                depth: 0,
            })
        }
        Terminal::QVar(name) => {
            let tree = AExpTree::Var(QVarTree::QualifiedId(Name::from_bytes(
                alloc,
                name.as_bytes(),
            )?));
            Ok(Read {
                tree,
                rest,
                depth: 0,
            })
        }
        Terminal::Con(name) => {
            let tree = AExpTree::Con(GConTree::Con(Name::from_bytes(alloc, name.as_bytes())?));
            Ok(Read {
                tree,
                rest,
                depth: 0,
            })
        }
        Terminal::Integer(text) => {
            let tree = AExpTree::Literal(LiteralTree::Integer(text.copied(alloc)?));
            Ok(Read {
                tree,
                rest,
                depth: 0,
            })
        }
        Terminal::Char(text) => {
            let tree = AExpTree::Literal(LiteralTree::Char(text.copied(alloc)?));
            Ok(Read {
                tree,
                rest,
                depth: 0,
            })
        }
        Terminal::Text(text) => {
            let tree = AExpTree::Literal(LiteralTree::Text(text.copied(alloc)?));
            Ok(Read {
                tree,
                rest,
                depth: 0,
            })
        }
        _ => Err(Fault::At(tokens.len())),
    }
}
