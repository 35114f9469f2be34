//! The parts of a module's block.
ghost use Rattle.std.specs.Prelude.{◌≡◌, ◌∷◌, ◌+◌, ◌<◌, ◌^◌, ◌↔◌, ℕ, Option, IsTrue, true, length, map, max};
ghost use Rattle.hs_forms.specs.Reading.{begins};
ghost use Rattle.hs_forms.specs.Limits.{deepest};
ghost use Rattle.hs_tokens.specs.declared.terminal.Terminal.{Terminal};
ghost use Rattle.hs_tokens.specs.declared.terminal.Terminal.TheVariants.{Semicolon};
ghost use Rattle.hs_readers.specs.Answers.{Answers, item_sort};
ghost use Rattle.hs_expression_forms.specs.Trees.{sort_of, behind_token};
ghost use Rattle.hs_block_forms.specs.Blocks.{is_semicolon};
ghost use Rattle.hs_body_forms.specs.Bodies.{decl_runs, later_slots, parts};
ghost use Rattle.hs_body_forms.proofs.PartLemmas.{run_chain};

use crate::declarations::read_top_decl;
use hs_block_forms::begins_semicolon;
use hs_body_forms::TopPart;
use hs_forms::Fault;
use hs_headers::{begins_import, read_import};
use hs_modules::{TopDeclTree, TopSlot};
use hs_readers::{Chained, Read, after, read_chain};
use hs_tokens::Terminal;
use hs_typings::begins_place;
use sqlite_items::Items;
use std::alloc::Global;

/// A declaration and the places behind it.
pub struct RunChain;

impl Chained for RunChain {
    type Tree = (TopDeclTree, Items<TopSlot>);

    type Head = TopDeclTree;

    type Item = TopSlot;

    type Limit = Option<usize>;

    ghost chain = { run_chain };

    ghost depth = { decl_runs.deep };

    fn begins_item(tokens: &[Terminal]) -> bool {
        begins_semicolon(tokens)
    }

    fn has_room(
        _limit: Option<usize>,
        _deep: usize,
        _head: &TopDeclTree,
        _items: &Items<TopSlot>,
    ) -> bool {
        true
    }

    fn make(head: TopDeclTree, items: Items<TopSlot>) -> (TopDeclTree, Items<TopSlot>)
        ensures { (limit : Option ℕ) → result ≡ (run_chain limit).make head items }
    {
        (head, items)
    }

    fn total(deep: usize, _count: usize) -> usize {
        deep
    }
}

/// A place behind a declaration, behind the token before it.
fn read_slot<'a>(
    alloc: Global,
    tokens: &'a [Terminal],
    limit: Option<usize>,
) -> Result<Read<'a, TopSlot>, Fault>
    ensures { (before : Terminal) → Answers (sort_of (behind_token before later_slots) limit) (before ∷ tokens.now) result }
{
    if !begins_place(tokens) {
        return Ok(Read {
            tree: TopSlot::Empty,
            rest: tokens,
            depth: 0,
        });
    }
    let decl = read_top_decl(alloc, tokens, limit)?;
    Ok(Read {
        tree: TopSlot::Decl(decl.tree),
        rest: decl.rest,
        depth: decl.depth,
    })
}

/// A place behind a `;`.
fn read_next<'a>(
    alloc: Global,
    tokens: &'a [Terminal],
    limit: Option<usize>,
    count: usize,
) -> Result<Read<'a, TopSlot>, Fault>
    requires { begins is_semicolon tokens.now ≡ true }
    ensures { Answers (item_sort (run_chain limit) count) tokens.now result }
{
    let _ = &count;
    read_slot(alloc, after(tokens, 1), limit)
}

/// A declaration and the places behind it, of which none is an import.
pub fn read_run<'a>(
    alloc: Global,
    tokens: &'a [Terminal],
    limit: Option<usize>,
) -> Result<Read<'a, (TopDeclTree, Items<TopSlot>)>, Fault>
    ensures { Answers (sort_of decl_runs limit) tokens.now result }
{
    let head = read_top_decl(alloc, tokens, limit)?;
    read_chain::<RunChain, _>(
        alloc,
        tokens,
        limit,
        head,
        |here, count|
            requires starts { begins is_semicolon here.now ≡ true }
            ensures { Answers (item_sort (run_chain limit) count) here.now result }
        {
            let _ = &tokens;
            read_next(alloc, here, limit, count)
        },
    )
}

/// A part of a block, behind the token before it: nothing, an import, or a declaration with the places behind it.
pub fn read_top_part<'a>(
    alloc: Global,
    tokens: &'a [Terminal],
    limit: Option<usize>,
) -> Result<Read<'a, TopPart>, Fault>
    ensures { (before : Terminal) → Answers (sort_of (behind_token before parts) limit) (before ∷ tokens.now) result }
{
    if !begins_place(tokens) {
        return Ok(Read {
            tree: TopPart::Empty,
            rest: tokens,
            depth: 0,
        });
    }
    if begins_import(tokens) {
        let import = read_import(alloc, tokens)?;
        return Ok(Read {
            tree: TopPart::Import(import.tree),
            rest: import.rest,
            depth: import.depth,
        });
    }
    let run = read_run(alloc, tokens, limit)?;
    let (decl, slots) = run.tree;
    Ok(Read {
        tree: TopPart::Decls(decl, slots),
        rest: run.rest,
        depth: run.depth,
    })
}
