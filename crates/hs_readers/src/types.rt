//! Readers of types (Haskell 2010 Report, section 4.1.2).
ghost use Rattle.std.specs.Prelude.{◌↔◌, IsTrue, max, map, ◌≡◌, ◌<◌, ◌+◌, ◌^◌, ◌∷◌, ℕ, Option, true, length};
ghost use Rattle.hs_forms.specs.Reading.{begins};
ghost use Rattle.hs_forms.specs.Limits.{deepest};
ghost use Rattle.hs_tokens.specs.Terminals.{is_arrow, is_comma};
ghost use Rattle.hs_trees.specs.Types.{starts_atype, depth_of_btype, depth_of_parts, depth_of_type, atype_sort, btype_sort, parts_sort, type_sort, named_type};
ghost use Rattle.hs_tokens.specs.declared.terminal.Terminal.TheVariants.{LeftParen, LeftBracket};
ghost use Rattle.hs_trees.proofs.TypeChainLemmas.{btype_chain, parts_chain, type_chain};
ghost use Rattle.hs_readers.specs.Answers.{Answers, item_sort};

use crate::chain::{Chained, read_chain};
use crate::leaf::{
    after, after_arrow, after_right_bracket, after_right_paren, begins_arrow, begins_atype,
    begins_comma, begins_tuple_name,
};
use crate::limit::{allows, lower};
use crate::read::Read;
use crate::tuple_name::read_tuple_name;
use bp_base::Name;
use hs_forms::Fault;
use hs_tokens::Terminal;
use hs_trees::{ATypeTree, BTypeTree, TypeTree};
use sqlite_items::{Boxed, Items};
use std::alloc::Global;

impl Chained for TypeTree {
    type Tree = TypeTree;

    type Head = BTypeTree;

    type Item = BTypeTree;

    type Limit = Option<usize>;

    ghost chain = { type_chain };

    ghost depth = { depth_of_type };

    fn begins_item(tokens: &[Terminal]) -> bool {
        begins_arrow(tokens)
    }

    fn has_room(
        limit: Option<usize>,
        deep: usize,
        _head: &BTypeTree,
        items: &Items<BTypeTree>,
    ) -> bool
        requires { deep + length items.now + 1 < 2 ^ 64 }
        ensures { deep ≡ max ((type_chain limit).head_depth _head.now) (deepest (map (type_chain limit).item_depth items.now)) → (IsTrue result ↔ (type_chain limit).Room _head.now items.now) }
    {
        allows(limit, deep + (items.len() + 1))
    }

    fn make(head: BTypeTree, items: Items<BTypeTree>) -> TypeTree
        ensures { (limit : Option ℕ) → result ≡ (type_chain limit).make head items }
    {
        TypeTree {
            first: head,
            rest: items,
        }
    }

    fn total(deep: usize, count: usize) -> usize {
        deep + count
    }
}

impl Chained for BTypeTree {
    type Tree = BTypeTree;

    type Head = ATypeTree;

    type Item = ATypeTree;

    type Limit = Option<usize>;

    ghost chain = { btype_chain };

    ghost depth = { depth_of_btype };

    fn begins_item(tokens: &[Terminal]) -> bool {
        begins_atype(tokens)
    }

    fn has_room(
        _limit: Option<usize>,
        _deep: usize,
        _head: &ATypeTree,
        _items: &Items<ATypeTree>,
    ) -> bool {
        true
    }

    fn make(head: ATypeTree, items: Items<ATypeTree>) -> BTypeTree
        ensures { (limit : Option ℕ) → result ≡ (btype_chain limit).make head items }
    {
        BTypeTree {
            first: head,
            rest: items,
        }
    }

    fn total(deep: usize, _count: usize) -> usize {
        deep
    }
}

impl Chained for (TypeTree, Items<TypeTree>) {
    type Tree = (TypeTree, Items<TypeTree>);

    type Head = TypeTree;

    type Item = TypeTree;

    type Limit = Option<usize>;

    ghost chain = { parts_chain };

    ghost depth = { depth_of_parts };

    fn begins_item(tokens: &[Terminal]) -> bool {
        begins_comma(tokens)
    }

    fn has_room(
        _limit: Option<usize>,
        _deep: usize,
        _head: &TypeTree,
        items: &Items<TypeTree>,
    ) -> bool {
        items.len() < 14
    }

    fn make(head: TypeTree, items: Items<TypeTree>) -> (TypeTree, Items<TypeTree>)
        ensures { (limit : Option ℕ) → result ≡ (parts_chain limit).make head items }
    {
        (head, items)
    }

    fn total(deep: usize, _count: usize) -> usize {
        deep
    }
}

/// `btype {"->" btype}`
#[cycle(types)]
pub fn read_type<'a>(
    alloc: Global,
    tokens: &'a [Terminal],
    limit: Option<usize>,
) -> Result<Read<'a, TypeTree>, Fault>
    ensures { Answers (type_sort limit) tokens.now result }
{
    let head = read_btype(alloc, tokens, limit)?;
    read_chain::<TypeTree, _>(
        alloc,
        tokens,
        limit,
        head,
        |here, count|
            requires few { count + 1 < 2 ^ 64 }
            requires less { count + length here.now < length tokens.now }
            requires starts { begins is_arrow here.now ≡ true }
            ensures { Answers (item_sort (type_chain limit) count) here.now result }
        {
            let _ = &tokens;
            read_arrow(alloc, here, limit, count)
        },
    )
}

/// `"->" btype`, behind so many others.
#[cycle(types)]
fn read_arrow<'a>(
    alloc: Global,
    tokens: &'a [Terminal],
    limit: Option<usize>,
    count: usize,
) -> Result<Read<'a, BTypeTree>, Fault>
    requires few { count + 1 < 2 ^ 64 }
    requires starts { begins is_arrow tokens.now ≡ true }
    ensures { Answers (item_sort (type_chain limit) count) tokens.now result }
{
    read_btype(alloc, after(tokens, 1), lower(limit, count + 1))
}

/// `atype {atype}`
#[cycle(types)]
pub fn read_btype<'a>(
    alloc: Global,
    tokens: &'a [Terminal],
    limit: Option<usize>,
) -> Result<Read<'a, BTypeTree>, Fault>
    ensures { Answers (btype_sort limit) tokens.now result }
{
    let head = read_atype(alloc, tokens, limit)?;
    read_chain::<BTypeTree, _>(
        alloc,
        tokens,
        limit,
        head,
        |here, count|
            requires less { count + length here.now < length tokens.now }
            ensures { Answers (item_sort (btype_chain limit) count) here.now result }
        {
            let _ = &tokens;
            let _ = &count;
            read_atype(alloc, here, limit)
        },
    )
}

/// An `atype`: a name, or what stands in brackets.
#[cycle(types)]
pub fn read_atype<'a>(
    alloc: Global,
    tokens: &'a [Terminal],
    limit: Option<usize>,
) -> Result<Read<'a, ATypeTree>, Fault>
    ensures { Answers (atype_sort limit) tokens.now result }
{
    let Some((first, rest)) = tokens.split_first() else {
        return Err(Fault::At(0));
    };
    match first {
        Terminal::Con(name) => {
            let tree = ATypeTree::Con(Name::from_bytes(alloc, name.as_bytes())?);
            Ok(Read {
                tree,
                rest,
                depth: 0,
            })
        }
        Terminal::Var(name) => {
            let tree = ATypeTree::Var(Name::from_bytes(alloc, name.as_bytes())?);
            Ok(Read {
                tree,
                rest,
                depth: 0,
            })
        }
        Terminal::LeftParen => read_paren(alloc, rest, limit),
        Terminal::LeftBracket => read_bracket(alloc, rest, limit),
        _ => Err(Fault::At(tokens.len())),
    }
}

/// The type that the name of the unit or of a tuple is.
fn named_type(commas: usize) -> ATypeTree
    ensures { result ≡ named_type commas }
{
    if commas == 0 {
        ATypeTree::Unit
    } else {
        ATypeTree::TupleCon(commas)
    }
}

/// An `atype` after its `(`.
#[cycle(types)]
fn read_paren<'a>(
    alloc: Global,
    tokens: &'a [Terminal],
    limit: Option<usize>,
) -> Result<Read<'a, ATypeTree>, Fault>
    ensures { Answers (atype_sort limit) (LeftParen ∷ tokens.now) result }
{
    if begins_tuple_name(tokens) {
        let name = read_tuple_name(tokens)?;
        return Ok(Read {
            tree: named_type(name.tree),
            rest: name.rest,
            depth: name.depth,
        });
    }
    if let Some(next) = after_arrow(tokens) {
        return match after_right_paren(next) {
            Some(rest) => Ok(Read {
                tree: ATypeTree::ArrowCon,
                rest,
                depth: 0,
            }),
            None => Err(Fault::At(next.len())),
        };
    }
    if !allows(limit, 1) {
        return Err(Fault::At(tokens.len()));
    }
    let inner = read_parts(alloc, tokens, lower(limit, 1))?;
    match after_right_paren(inner.rest) {
        Some(rest) => {
            let (first, more) = inner.tree;
            let first = Boxed::new(alloc, first)?;
            Ok(Read {
                tree: ATypeTree::Parts(first, more),
                rest,
                depth: inner.depth + 1,
            })
        }
        None => Err(Fault::At(inner.rest.len())),
    }
}

/// An `atype` after its `[`.
#[cycle(types)]
fn read_bracket<'a>(
    alloc: Global,
    tokens: &'a [Terminal],
    limit: Option<usize>,
) -> Result<Read<'a, ATypeTree>, Fault>
    ensures { Answers (atype_sort limit) (LeftBracket ∷ tokens.now) result }
{
    if let Some(rest) = after_right_bracket(tokens) {
        return Ok(Read {
            tree: ATypeTree::ListCon,
            rest,
            depth: 0,
        });
    }
    if !allows(limit, 1) {
        return Err(Fault::At(tokens.len()));
    }
    let inner = read_type(alloc, tokens, lower(limit, 1))?;
    match after_right_bracket(inner.rest) {
        Some(rest) => {
            let tree = Boxed::new(alloc, inner.tree)?;
            Ok(Read {
                tree: ATypeTree::List(tree),
                rest,
                depth: inner.depth + 1,
            })
        }
        None => Err(Fault::At(inner.rest.len())),
    }
}

/// `type {"," type}`, of at most 15 parts.
#[cycle(types)]
fn read_parts<'a>(
    alloc: Global,
    tokens: &'a [Terminal],
    limit: Option<usize>,
) -> Result<Read<'a, (TypeTree, Items<TypeTree>)>, Fault>
    ensures { Answers (parts_sort limit) tokens.now result }
{
    let head = read_type(alloc, tokens, limit)?;
    read_chain::<(TypeTree, Items<TypeTree>), _>(
        alloc,
        tokens,
        limit,
        head,
        |here, count|
            requires less { count + length here.now < length tokens.now }
            requires starts { begins is_comma here.now ≡ true }
            ensures { Answers (item_sort (parts_chain limit) count) here.now result }
        {
            let _ = &tokens;
            read_part(alloc, here, limit, count)
        },
    )
}

/// `"," type`, behind so many others.
#[cycle(types)]
fn read_part<'a>(
    alloc: Global,
    tokens: &'a [Terminal],
    limit: Option<usize>,
    count: usize,
) -> Result<Read<'a, TypeTree>, Fault>
    requires { begins is_comma tokens.now ≡ true }
    ensures { Answers (item_sort (parts_chain limit) count) tokens.now result }
{
    read_type(alloc, after(tokens, 1), limit)
}
