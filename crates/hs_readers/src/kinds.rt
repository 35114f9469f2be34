//! Readers of kinds (Haskell 2010 Report, section 4.1.1).
ghost use Rattle.std.specs.Prelude.{◌↔◌, IsTrue, max, map, ◌≡◌, ◌<◌, ◌+◌, ◌^◌, ℕ, Option, true, length};
ghost use Rattle.hs_forms.specs.Reading.{begins};
ghost use Rattle.hs_forms.specs.Limits.{deepest};
ghost use Rattle.hs_tokens.specs.Terminals.{is_arrow};
ghost use Rattle.hs_trees.specs.Kinds.{depth_of_kind, kind_sort, akind_sort};
ghost use Rattle.hs_trees.proofs.KindLemmas.{kind_chain};
ghost use Rattle.hs_readers.specs.Answers.{Answers, item_sort};

use crate::chain::{Chained, read_chain};
use crate::leaf::{after, after_left_paren, after_right_paren, after_star, begins_arrow};
use crate::limit::{allows, lower};
use crate::read::Read;
use hs_forms::Fault;
use hs_tokens::Terminal;
use hs_trees::{AKindTree, KindTree};
use sqlite_items::{Boxed, Items};
use std::alloc::Global;

impl Chained for KindTree {
    type Tree = KindTree;

    type Head = AKindTree;

    type Item = AKindTree;

    type Limit = Option<usize>;

    ghost chain = { kind_chain };

    ghost depth = { depth_of_kind };

    fn begins_item(tokens: &[Terminal]) -> bool {
        begins_arrow(tokens)
    }

    fn has_room(
        limit: Option<usize>,
        deep: usize,
        _head: &AKindTree,
        items: &Items<AKindTree>,
    ) -> bool
        requires { deep + length items.now + 1 < 2 ^ 64 }
        ensures { deep ≡ max ((kind_chain limit).head_depth _head.now) (deepest (map (kind_chain limit).item_depth items.now)) → (IsTrue result ↔ (kind_chain limit).Room _head.now items.now) }
    {
        allows(limit, deep + (items.len() + 1))
    }

    fn make(head: AKindTree, items: Items<AKindTree>) -> KindTree
        ensures { (limit : Option ℕ) → result ≡ (kind_chain limit).make head items }
    {
        KindTree {
            first: head,
            rest: items,
        }
    }

    fn total(deep: usize, count: usize) -> usize {
        deep + count
    }
}

/// `"->" akind`, behind so many others.
#[cycle(kinds)]
fn read_arrow<'a>(
    alloc: Global,
    tokens: &'a [Terminal],
    limit: Option<usize>,
    count: usize,
) -> Result<Read<'a, AKindTree>, Fault>
    requires few { count + 1 < 2 ^ 64 }
    requires starts { begins is_arrow tokens.now ≡ true }
    ensures { Answers (item_sort (kind_chain limit) count) tokens.now result }
{
    read_akind(alloc, after(tokens, 1), lower(limit, count + 1))
}

/// `akind {"->" akind}`
#[cycle(kinds)]
pub fn read_kind<'a>(
    alloc: Global,
    tokens: &'a [Terminal],
    limit: Option<usize>,
) -> Result<Read<'a, KindTree>, Fault>
    ensures { Answers (kind_sort limit) tokens.now result }
{
    let head = read_akind(alloc, tokens, limit)?;
    read_chain::<KindTree, _>(
        alloc,
        tokens,
        limit,
        head,
        |here, count|
            requires few { count + 1 < 2 ^ 64 }
            requires less { count + length here.now < length tokens.now }
            requires starts { begins is_arrow here.now ≡ true }
            ensures { Answers (item_sort (kind_chain limit) count) here.now result }
        {
            let _ = &tokens;
            read_arrow(alloc, here, limit, count)
        },
    )
}

/// `"*" | "(" kind ")"`
#[cycle(kinds)]
fn read_akind<'a>(
    alloc: Global,
    tokens: &'a [Terminal],
    limit: Option<usize>,
) -> Result<Read<'a, AKindTree>, Fault>
    ensures { Answers (akind_sort limit) tokens.now result }
{
    if let Some(rest) = after_star(tokens) {
        return Ok(Read {
            tree: AKindTree::Star,
            rest,
            depth: 0,
        });
    }
    let Some(next) = after_left_paren(tokens) else {
        return Err(Fault::At(tokens.len()));
    };
    if !allows(limit, 1) {
        return Err(Fault::At(tokens.len()));
    }
    let inner = read_kind(alloc, next, lower(limit, 1))?;
    match after_right_paren(inner.rest) {
        Some(rest) => {
            let tree = Boxed::new(alloc, inner.tree)?;
            Ok(Read {
                tree: AKindTree::Parens(tree),
                rest,
                depth: inner.depth + 1,
            })
        }
        None => Err(Fault::At(inner.rest.len())),
    }
}
