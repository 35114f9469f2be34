//! The expression that tokens spell, and the declarations in it.
ghost use Rattle.std.specs.Prelude.{◌≡◌, List, map, Some, None};
ghost use Rattle.hs_forms.specs.Whole.{Spells};
ghost use Rattle.hs_tokens.specs.Terminals.{terminal_of};
ghost use Rattle.hs_tokens.specs.declared.terminal.Terminal.{Terminal};
ghost use Rattle.hs_modules.specs.declared.expressions.DeclTree.{DeclTree};
ghost use Rattle.hs_modules.specs.declared.expressions.ExpTree.{ExpTree};
ghost use Rattle.hs_expression_forms.specs.Trees.{sort_of, within};
ghost use Rattle.hs_expression_forms.specs.Expressions.{exps};
ghost use Rattle.hs_binding_forms.specs.Bindings.{decls};
ghost use Rattle.hs_one_tree.proofs.WithinLemmas.{one_exp_within};
ghost use Rattle.hs_readers.specs.Answers.{Answers};
ghost use Rattle.haskell_parse.specs.Parsed.{IsParsed};

use crate::reading::{Readable, Unambiguous, parse};
use hs_forms::{Fault, ParseError};
use hs_modules::ExpTree;
use hs_nesting::read_exp;
use hs_readers::Read;
use hs_tokens::{Terminal, Tokens};
use std::alloc::Global;

impl Readable for ExpTree {
    type Tree = ExpTree;

    ghost sort = { sort_of exps };

    fn read<'a>(
        alloc: Global,
        tokens: &'a [Terminal],
        limit: Option<usize>,
    ) -> Result<Read<'a, ExpTree>, Fault>
        ensures { Answers (sort_of exps limit) tokens.now result }
    {
        read_exp(alloc, tokens, limit)
    }
}

impl Unambiguous for ExpTree {
    ghost unique = { one_exp_within };
}

/// The expression that all the tokens spell (Haskell 2010 Report, chapter 3).
///
/// A refusal has the index of the first token with which the tokens begin no expression of a depth up to 200, or their
/// number where each of them can stand there and more are needed. It is `DepthLimit` where they begin a deeper expression.
pub fn parse_exp(alloc: Global, tokens: &Tokens) -> Result<ExpTree, ParseError>
    ensures answer { IsParsed (within exps (Some 200)) (within exps None) (map terminal_of tokens.now) result }
{
    parse::<ExpTree>(alloc, tokens)
}

/// No two expressions have one spelling, whatever their depth.
pub fn one_exp()
    ensures { (tokens : List Terminal) (one other : ExpTree) → Spells (within exps None) one tokens → Spells (within exps None) other tokens → other ≡ one }
{}

/// No two declarations of a block have one spelling, whatever their depth.
pub fn one_decl()
    ensures { (tokens : List Terminal) (one other : DeclTree) → Spells (within decls None) one tokens → Spells (within decls None) other tokens → other ≡ one }
{}
