//! The tree that all the tokens spell, for each kind of tree that has a reader.
ghost use Rattle.std.specs.Prelude.{◌≡◌, ◌≤◌, ◌↔◌, ℕ, List, length, map, IsTrue, MatchResult, Option, Result, Some, None};
ghost use Rattle.hs_forms.specs.Answers.{Sort};
ghost use Rattle.hs_forms.specs.Whole.{IsWhole, Begins, Spells};
ghost use Rattle.hs_forms.specs.declared.error.ParseError.{ParseError};
ghost use Rattle.hs_forms.specs.declared.error.ParseError.TheVariants.{NoMemory};
ghost use Rattle.hs_tokens.specs.Terminals.{terminal_of};
ghost use Rattle.hs_tokens.specs.declared.terminal.Terminal.{Terminal};
ghost use Rattle.hs_readers.specs.Answers.{Answers};
ghost use Rattle.haskell_parse.specs.Parsed.{IsParsed, GoesOn};

use hs_forms::{Fault, ParseError};
use hs_readers::{MAX_DEPTH, Read};
use hs_tokens::{Terminal, Tokens, terminals_of};
use std::alloc::Global;

/// A production that has a reader: the tree's own type, or an empty type where one type of trees has several.
pub trait Readable: Sized {
    type Tree: Drop;

    ghost sort: { Option ℕ → Sort Terminal Self.Tree };

    fn read<'a>(
        alloc: Global,
        tokens: &'a [Terminal],
        limit: Option<usize>,
    ) -> Result<Read<'a, Self::Tree>, Fault>
        ensures { Answers (sort limit) tokens.now result };
}

/// A production of whose trees no two have one spelling, within any limit.
pub trait Unambiguous: Readable {
    ghost unique: { (limit : Option ℕ) (tokens : List Terminal) (one other : Self.Tree) → Spells (Self.sort limit).form one tokens → Spells (Self.sort limit).form other tokens → other ≡ one };
}

/// The tree that all the terminals spell, within the limit.
fn whole<T: Readable>(
    alloc: Global,
    tokens: &[Terminal],
    limit: Option<usize>,
) -> Result<T::Tree, Fault>
    ensures { IsWhole (T.sort limit).form tokens.now result }
{
    let read = T::read(alloc, tokens, limit)?;
    if read.rest.is_empty() {
        Ok(read.tree)
    } else {
        Err(Fault::At(read.rest.len()))
    }
}

/// Whether the terminals begin a tree, of any depth.
fn begins<T: Readable>(alloc: Global, tokens: &[Terminal]) -> Result<bool, ParseError>
    ensures { MatchResult result (λ begun. IsTrue begun ↔ Begins (T.sort None).form tokens.now) (λ e. e ≡ NoMemory) }
{
    match whole::<T>(alloc, tokens, None) {
        Ok(_) => Ok(true),
        Err(Fault::At(left)) => Ok(left == 0),
        Err(Fault::NoMemory) => Err(ParseError::NoMemory),
    }
}

/// Whether the terminals spell a tree, of any depth.
fn is_whole<T: Readable>(alloc: Global, tokens: &[Terminal]) -> Result<bool, ParseError>
    ensures { MatchResult result (λ whole. IsTrue whole ↔ ((tree : T.Tree) × Spells (T.sort None).form tree tokens.now)) (λ e. e ≡ NoMemory) }
{
    match whole::<T>(alloc, tokens, None) {
        Ok(_) => Ok(true),
        Err(Fault::At(_)) => Ok(false),
        Err(Fault::NoMemory) => Err(ParseError::NoMemory),
    }
}

/// Whether the terminals up to and with the one at the index begin a tree of any depth, or all of them spell one.
fn goes_on<T: Readable>(alloc: Global, tokens: &[Terminal], at: usize) -> Result<bool, ParseError>
    requires { at ≤ length tokens.now }
    ensures { MatchResult result (λ goes. IsTrue goes ↔ GoesOn (T.sort None).form tokens.now at) (λ e. e ≡ NoMemory) }
{
    if at < tokens.len() {
        begins::<T>(alloc, &tokens[..at + 1])
    } else {
        is_whole::<T>(alloc, tokens)
    }
}

/// `parse`, of terminals.
fn of_terminals<T: Readable>(alloc: Global, tokens: &[Terminal]) -> Result<T::Tree, ParseError>
    ensures { IsParsed (T.sort (Some 200)).form (T.sort None).form tokens.now result }
{
    let left = match whole::<T>(alloc, tokens, Some(MAX_DEPTH)) {
        Ok(tree) => return Ok(tree),
        Err(Fault::NoMemory) => return Err(ParseError::NoMemory),
        Err(Fault::At(left)) => left,
    };
    let at = tokens.len() - left;
    let index = at as u64;
    if goes_on::<T>(alloc, tokens, at)? {
        return Err(ParseError::DepthLimit { index });
    }
    Err(ParseError::Syntax { index })
}

/// The tree that all the tokens spell.
///
/// A refusal has the index of the first token with which the tokens begin no tree of a depth up to 200, or their number
/// where each of them can stand there and more are needed. It is `DepthLimit` where they begin a deeper tree, or spell one.
pub fn parse<T: Readable>(alloc: Global, tokens: &Tokens) -> Result<T::Tree, ParseError>
    ensures { IsParsed (T.sort (Some 200)).form (T.sort None).form (map terminal_of tokens.now) result }
{
    let terminals = terminals_of(alloc, tokens)?;
    of_terminals::<T>(alloc, terminals.as_slice())
}

/// No two trees have one spelling, whatever their depth.
pub fn one_tree<T: Unambiguous>()
    ensures { (limit : Option ℕ) (tokens : List Terminal) (one other : T.Tree) → Spells (T.sort limit).form one tokens → Spells (T.sort limit).form other tokens → other ≡ one }
{}

/// What `parse` answers of the tokens of a tree within the limit is that tree, unless memory is wanting.
pub fn read_back<T: Unambiguous>()
    ensures { (tokens : List Terminal) (tree : T.Tree) (answer : Result T.Tree ParseError) → Spells (T.sort (Some 200)).form tree tokens → IsParsed (T.sort (Some 200)).form (T.sort None).form tokens answer → MatchResult answer (λ read. read ≡ tree) (λ e. e ≡ NoMemory) }
{}
