//! The type that tokens spell.
ghost use Rattle.std.specs.Prelude.{◌≡◌, List, map, Some, None};
ghost use Rattle.hs_forms.specs.Whole.{Spells};
ghost use Rattle.hs_tokens.specs.Terminals.{terminal_of};
ghost use Rattle.hs_tokens.specs.declared.terminal.Terminal.{Terminal};
ghost use Rattle.hs_trees.specs.Types.{type_form, type_sort};
ghost use Rattle.hs_trees.specs.declared.types.TypeTree.{TypeTree};
ghost use Rattle.hs_readers.specs.Answers.{Answers};
ghost use Rattle.hs_one_tree.proofs.WithinLemmas.{one_type_within};
ghost use Rattle.haskell_parse.specs.Parsed.{IsParsed};

use crate::reading::{Readable, Unambiguous, parse};
use hs_forms::{Fault, ParseError};
use hs_readers::{Read, read_type};
use hs_tokens::{Terminal, Tokens};
use hs_trees::TypeTree;
use std::alloc::Global;

impl Readable for TypeTree {
    type Tree = TypeTree;

    ghost sort = { type_sort };

    fn read<'a>(
        alloc: Global,
        tokens: &'a [Terminal],
        limit: Option<usize>,
    ) -> Result<Read<'a, TypeTree>, Fault>
        ensures { Answers (type_sort limit) tokens.now result }
    {
        read_type(alloc, tokens, limit)
    }
}

impl Unambiguous for TypeTree {
    ghost unique = { one_type_within };
}

/// The type that all the tokens spell (Haskell 2010 Report, section 4.1.2).
///
/// A refusal has the index of the first token with which the tokens begin no type of a depth up to 200, or their number
/// where each of them can stand there and more are needed. It is `DepthLimit` where they begin a deeper type.
pub fn parse_type(alloc: Global, tokens: &Tokens) -> Result<TypeTree, ParseError>
    ensures answer { IsParsed (type_form (Some 200)) (type_form None) (map terminal_of tokens.now) result }
{
    parse::<TypeTree>(alloc, tokens)
}

/// No two types have one spelling, whatever their depth.
pub fn one_type()
    ensures { (tokens : List Terminal) (one other : TypeTree) → Spells (type_form None) one tokens → Spells (type_form None) other tokens → other ≡ one }
{}
