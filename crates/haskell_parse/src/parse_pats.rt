//! The pattern that tokens spell.
ghost use Rattle.std.specs.Prelude.{◌≡◌, ◌∷◌, ◌++◌, List, map, not, true, false, Some, None};
ghost use Rattle.hs_forms.specs.Reading.{begins};
ghost use Rattle.hs_forms.specs.Whole.{Spells};
ghost use Rattle.hs_tokens.specs.Terminals.{terminal_of};
ghost use Rattle.hs_tokens.specs.declared.terminal.Terminal.{Terminal};
ghost use Rattle.hs_tokens.specs.declared.terminal.Terminal.TheVariants.{LeftArrow};
ghost use Rattle.hs_trees.specs.Hits.{hits, follows_guard};
ghost use Rattle.hs_trees.specs.Patterns.{pat_form, pat_sort, spelling_pat};
ghost use Rattle.hs_trees.specs.declared.patterns.PatTree.{PatTree};
ghost use Rattle.hs_readers.specs.Answers.{Answers};
ghost use Rattle.hs_one_tree.proofs.WithinLemmas.{one_pattern_within};
ghost use Rattle.haskell_parse.specs.Parsed.{IsParsed};

use crate::reading::{Readable, Unambiguous, parse};
use hs_forms::{Fault, ParseError};
use hs_readers::{Read, read_pat};
use hs_tokens::{Terminal, Tokens};
use hs_trees::PatTree;
use std::alloc::Global;

impl Readable for PatTree {
    type Tree = PatTree;

    ghost sort = { pat_sort };

    fn read<'a>(
        alloc: Global,
        tokens: &'a [Terminal],
        limit: Option<usize>,
    ) -> Result<Read<'a, PatTree>, Fault>
        ensures { Answers (pat_sort limit) tokens.now result }
    {
        read_pat(alloc, tokens, limit)
    }
}

impl Unambiguous for PatTree {
    ghost unique = { one_pattern_within };
}

/// The pattern that all the tokens spell (Haskell 2010 Report, section 3.17.1).
///
/// A refusal has the index of the first token with which the tokens begin no pattern of a depth up to 200, or their number
/// where each of them can stand there and more are needed. It is `DepthLimit` where they begin a deeper pattern.
pub fn parse_pat(alloc: Global, tokens: &Tokens) -> Result<PatTree, ParseError>
    ensures answer { IsParsed (pat_form (Some 200)) (pat_form None) (map terminal_of tokens.now) result }
{
    parse::<PatTree>(alloc, tokens)
}

/// No two patterns have one spelling, whatever their depth.
pub fn one_pat()
    ensures { (tokens : List Terminal) (one other : PatTree) → Spells (pat_form None) one tokens → Spells (pat_form None) other tokens → other ≡ one }
{}

/// No pattern before `<-` goes past a token that may follow a guard (Haskell 2010 Report, section 3.13).
///
/// One scan tells: a pattern and `<-` make a hit, and where a token that follows a guard stands first there is none.
pub fn no_bind()
    ensures hit { (pattern : PatTree) (more : List Terminal) → hits (spelling_pat pattern ++ LeftArrow ∷ more) 0 ≡ true }
    ensures miss { (tokens : List Terminal) → begins (λ k. not (follows_guard k)) tokens ≡ false → hits tokens 0 ≡ false }
    ensures past { (tokens : List Terminal) (pattern : PatTree) (more : List Terminal) → hits tokens 0 ≡ false → tokens ≡ spelling_pat pattern ++ LeftArrow ∷ more → ⊥ }
{}
