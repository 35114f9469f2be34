//! A head and items behind it.
ghost use Rattle.std.specs.Prelude.{◌≡◌, ◌<◌, ◌≤◌, ◌+◌, ◌^◌, ◌↔◌, ℕ, true, List, length, map, max, IsTrue};
ghost use Rattle.hs_forms.specs.Reading.{begins};
ghost use Rattle.hs_forms.specs.Limits.{deepest};
ghost use Rattle.hs_forms.specs.Productions.{Chain};
ghost use Rattle.hs_tokens.specs.declared.terminal.Terminal.{Terminal};
ghost use Rattle.hs_readers.specs.Answers.{Answers, Has, item_sort, head_sort, whole_sort};

use crate::read::Read;
use hs_forms::Fault;
use hs_tokens::Terminal;
use sqlite_items::Items;
use std::alloc::Global;

/// A production of trees that are a head and items, such as `btype {"->" btype}`: what of its reader is its own.
pub trait Chained: Sized {
    type Tree;

    type Head: Drop;

    type Item: Drop;
    /// What bounds such a tree: its depth, or how many items it may have.
    type Limit: Copy;

    ghost chain: { Self.Limit → Chain Terminal Self.Tree Self.Head Self.Item };

    ghost depth: { Self.Tree → ℕ };

    /// Whether an item begins here.
    fn begins_item(tokens: &[Terminal]) -> bool
        ensures { (limit : Self.Limit) → result ≡ begins (chain limit).starter tokens.now };

    /// Whether one more item may stand behind these, the deepest part being so deep.
    fn has_room(
        limit: Self::Limit,
        deep: usize,
        head: &Self::Head,
        items: &Items<Self::Item>,
    ) -> bool
        requires { deep + length items.now + 1 < 2 ^ 64 }
        ensures { deep ≡ max ((chain limit).head_depth head.now) (deepest (map (chain limit).item_depth items.now)) → (IsTrue result ↔ (chain limit).Room head.now items.now) };

    /// The tree.
    fn make(head: Self::Head, items: Items<Self::Item>) -> Self::Tree
        ensures { (limit : Self.Limit) → result ≡ (chain limit).make head items };

    /// The depth of a tree with so many items, the deepest part being so deep.
    fn total(deep: usize, count: usize) -> usize
        requires { deep + count < 2 ^ 64 }
        ensures within { result ≤ deep + count }
        ensures exact { (limit : Self.Limit) (h : Self.Head) (xs : List Self.Item) → length xs ≡ count →
            deep ≡ max ((chain limit).head_depth h) (deepest (map (chain limit).item_depth xs)) → result ≡ depth ((chain limit).make h xs) };
}

/// A head and as many items as stand behind it. An item is read together with the token before it; its reader is told how
/// many stand before it.
pub fn read_chain<'a, C: Chained, F: Fn(&'a [Terminal], usize) -> Result<Read<'a, C::Item>, Fault>>(
    alloc: Global,
    tokens: &'a [Terminal],
    limit: C::Limit,
    head: Read<'a, C::Head>,
    item: F,
) -> Result<Read<'a, C::Tree>, Fault>
    requires head { Has (head_sort (C.chain limit)) tokens.now head }
    requires may { (here : _) (n : ℕ) → n + 1 < 2 ^ 64 → n + length here.now < length tokens.now → begins (C.chain limit).starter here.now ≡ true → F.pre item here n }
    requires says { (here : _) (n : ℕ) (r : _) → F.post item here n r → Answers (item_sort (C.chain limit) n) here.now r }
    ensures { Answers (whole_sort (C.chain limit) C.depth) tokens.now result }
{
    let mut more = Items::new(alloc);
    let mut rest = head.rest;
    let mut deep = head.depth;
    let first = head.tree;
    'items: while C::begins_item(rest) {
        let count = more.len();
        if !C::has_room(limit, deep, &first, &more) {
            return Err(Fault::At(rest.len()));
        }
        let read = item(rest, count)?;
        more.push(read.tree)?;
        rest = read.rest;
        deep = deep.max(read.depth);
    }
    let depth = C::total(deep, more.len());
    Ok(Read {
        tree: C::make(first, more),
        rest,
        depth,
    })
}
