//! Blocks of modules: imports, then declarations (Haskell 2010 Report, section 5.1).
ghost use Rattle.std.specs.Prelude.{◌≡◌, ◌+◌, ◌<◌, ◌^◌, ◌↔◌, ℕ, Option, IsTrue, true, length, map, max};
ghost use Rattle.hs_forms.specs.Reading.{begins};
ghost use Rattle.hs_forms.specs.Limits.{deepest};
ghost use Rattle.hs_tokens.specs.declared.terminal.Terminal.TheVariants.{LeftBrace};
ghost use Rattle.hs_readers.specs.Answers.{Answers, item_sort};
ghost use Rattle.hs_expression_forms.specs.Trees.{sort_of, behind_token};
ghost use Rattle.hs_block_forms.specs.Blocks.{is_semicolon};
ghost use Rattle.hs_body_forms.specs.Bodies.{part_lists, parts, top_blocks, takes_rest};
ghost use Rattle.hs_expression_forms.specs.Expressions.{last_part};
ghost use Rattle.hs_body_forms.proofs.PartChainLemmas.{part_chain};

use crate::parts::read_top_part;
use crate::slots::flatten;
use hs_block_forms::{after_left_brace, after_right_brace, begins_semicolon};
use hs_body_forms::TopPart;
use hs_forms::Fault;
use hs_modules::TopBlock;
use hs_readers::{Chained, Read, after, read_chain};
use hs_tokens::Terminal;
use sqlite_items::Items;
use std::alloc::Global;

/// The parts of a block, up to a declaration and the places behind it.
pub struct PartChain;

/// Whether a declaration and the places behind it stand last.
fn ends_parts(head: &TopPart, items: &Items<TopPart>) -> bool
    ensures { result ≡ takes_rest (last_part head.now items.now) }
{
    match items.as_slice().last() {
        Some(part) => takes_rest(part),
        None => takes_rest(head),
    }
}

/// Whether a part is a declaration with the places behind it.
fn takes_rest(part: &TopPart) -> bool
    ensures { result ≡ takes_rest part.now }
{
    match part {
        TopPart::Decls(_, _) => true,
        TopPart::Empty => false,
        TopPart::Import(_) => false,
    }
}

impl Chained for PartChain {
    type Tree = (TopPart, Items<TopPart>);

    type Head = TopPart;

    type Item = TopPart;

    type Limit = Option<usize>;

    ghost chain = { part_chain };

    ghost depth = { part_lists.deep };

    fn begins_item(tokens: &[Terminal]) -> bool {
        begins_semicolon(tokens)
    }

    fn has_room(_limit: Option<usize>, _deep: usize, head: &TopPart, items: &Items<TopPart>) -> bool
        requires { _deep + length items.now + 1 < 2 ^ 64 }
        ensures { _deep ≡ max ((part_chain _limit).head_depth head.now) (deepest (map (part_chain _limit).item_depth items.now)) → (IsTrue result ↔ (part_chain _limit).Room head.now items.now) }
    {
        !ends_parts(head, items)
    }

    fn make(head: TopPart, items: Items<TopPart>) -> (TopPart, Items<TopPart>)
        ensures { (limit : Option ℕ) → result ≡ (part_chain limit).make head items }
    {
        (head, items)
    }

    fn total(deep: usize, _count: usize) -> usize {
        deep
    }
}

/// The first part, with the `{` before it.
fn read_first<'a>(
    alloc: Global,
    tokens: &'a [Terminal],
    limit: Option<usize>,
) -> Result<Read<'a, TopPart>, Fault>
    ensures { Answers (sort_of (behind_token LeftBrace parts) limit) tokens.now result }
{
    let Some(next) = after_left_brace(tokens) else {
        return Err(Fault::At(tokens.len()));
    };
    read_top_part(alloc, next, limit)
}

/// A part, with the `;` before it.
fn read_next<'a>(
    alloc: Global,
    tokens: &'a [Terminal],
    limit: Option<usize>,
    count: usize,
) -> Result<Read<'a, TopPart>, Fault>
    requires { begins is_semicolon tokens.now ≡ true }
    ensures { Answers (item_sort (part_chain limit) count) tokens.now result }
{
    let _ = &count;
    read_top_part(alloc, after(tokens, 1), limit)
}

/// The parts of a block, with its `{`.
fn read_parts<'a>(
    alloc: Global,
    tokens: &'a [Terminal],
    limit: Option<usize>,
) -> Result<Read<'a, (TopPart, Items<TopPart>)>, Fault>
    ensures { Answers (sort_of part_lists limit) tokens.now result }
{
    let head = read_first(alloc, tokens, limit)?;
    read_chain::<PartChain, _>(
        alloc,
        tokens,
        limit,
        head,
        |here, count|
            requires starts { begins is_semicolon here.now ≡ true }
            ensures { Answers (item_sort (part_chain limit) count) here.now result }
        {
            let _ = &tokens;
            read_next(alloc, here, limit, count)
        },
    )
}

/// `block(impdecl first, then topdecl)`
pub fn read_top_block<'a>(
    alloc: Global,
    tokens: &'a [Terminal],
    limit: Option<usize>,
) -> Result<Read<'a, TopBlock>, Fault>
    ensures { Answers (sort_of top_blocks limit) tokens.now result }
{
    let parts = read_parts(alloc, tokens, limit)?;
    let Some(rest) = after_right_brace(parts.rest) else {
        return Err(Fault::At(parts.rest.len()));
    };
    let (first, more) = parts.tree;
    let tree = flatten(alloc, first, more)?;
    Ok(Read {
        tree,
        rest,
        depth: parts.depth,
    })
}
