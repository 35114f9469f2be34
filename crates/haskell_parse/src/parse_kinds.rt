//! The kind that tokens spell.
ghost use Rattle.std.specs.Prelude.{◌≡◌, List, map, Some, None};
ghost use Rattle.hs_forms.specs.Whole.{Spells};
ghost use Rattle.hs_tokens.specs.Terminals.{terminal_of};
ghost use Rattle.hs_tokens.specs.declared.terminal.Terminal.{Terminal};
ghost use Rattle.hs_trees.specs.Kinds.{kind_form, kind_sort};
ghost use Rattle.hs_trees.specs.declared.types.KindTree.{KindTree};
ghost use Rattle.hs_readers.specs.Answers.{Answers};
ghost use Rattle.hs_one_tree.proofs.WithinLemmas.{one_kind_within};
ghost use Rattle.haskell_parse.specs.Parsed.{IsParsed};

use crate::reading::{Readable, Unambiguous, parse};
use hs_forms::{Fault, ParseError};
use hs_readers::{Read, read_kind};
use hs_tokens::{Terminal, Tokens};
use hs_trees::KindTree;
use std::alloc::Global;

impl Readable for KindTree {
    type Tree = KindTree;

    ghost sort = { kind_sort };

    fn read<'a>(
        alloc: Global,
        tokens: &'a [Terminal],
        limit: Option<usize>,
    ) -> Result<Read<'a, KindTree>, Fault>
        ensures { Answers (kind_sort limit) tokens.now result }
    {
        read_kind(alloc, tokens, limit)
    }
}

impl Unambiguous for KindTree {
    ghost unique = { one_kind_within };
}

/// The kind that all the tokens spell (Haskell 2010 Report, section 4.1.1).
///
/// A refusal has the index of the first token with which the tokens begin no kind of a depth up to 200, or their number
/// where each of them can stand there and more are needed. It is `DepthLimit` where they begin a deeper kind.
pub fn parse_kind(alloc: Global, tokens: &Tokens) -> Result<KindTree, ParseError>
    ensures answer { IsParsed (kind_form (Some 200)) (kind_form None) (map terminal_of tokens.now) result }
{
    parse::<KindTree>(alloc, tokens)
}

/// No two kinds have one spelling, whatever their depth.
pub fn one_kind()
    ensures { (tokens : List Terminal) (one other : KindTree) → Spells (kind_form None) one tokens → Spells (kind_form None) other tokens → other ≡ one }
{}
