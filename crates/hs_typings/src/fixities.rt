//! Fixity declarations (Haskell 2010 Report, section 4.4.2).
ghost use Rattle.std.specs.Prelude.{◌≡◌, ◌+◌, ◌<◌, ◌^◌, ◌↔◌, ℕ, Option, IsTrue, true, length, map, max};
ghost use Rattle.hs_forms.specs.Reading.{begins};
ghost use Rattle.hs_forms.specs.Limits.{deepest};
ghost use Rattle.hs_tokens.specs.Terminals.{is_comma};
ghost use Rattle.hs_readers.specs.Answers.{Answers, item_sort};
ghost use Rattle.hs_expression_forms.specs.Trees.{sort_of};
ghost use Rattle.hs_declaration_forms.specs.Typings.{fixities, fixity_head_sort, ops, op_lists};
ghost use Rattle.hs_declaration_forms.proofs.ListLemmas.{op_chain};

use crate::leaf::{after_digit, after_fixity};
use crate::operators::read_op;
use bp_base::Bytes;
use hs_forms::Fault;
use hs_modules::{Fixity, OpTree};
use hs_readers::{Chained, Read, after, begins_comma, read_chain};
use hs_tokens::Terminal;
use sqlite_items::Items;
use std::alloc::Global;

/// The word and the level of a fixity declaration, and its operators.
pub type FixityTerms = ((Fixity, Option<Bytes>), (OpTree, Items<OpTree>));

/// `op {"," op}`
pub struct OpChain;

impl Chained for OpChain {
    type Tree = (OpTree, Items<OpTree>);

    type Head = OpTree;

    type Item = OpTree;

    type Limit = Option<usize>;

    ghost chain = { op_chain };

    ghost depth = { op_lists.deep };

    fn begins_item(tokens: &[Terminal]) -> bool {
        begins_comma(tokens)
    }

    fn has_room(
        _limit: Option<usize>,
        _deep: usize,
        _head: &OpTree,
        _items: &Items<OpTree>,
    ) -> bool {
        true
    }

    fn make(head: OpTree, items: Items<OpTree>) -> (OpTree, Items<OpTree>)
        ensures { (limit : Option ℕ) → result ≡ (op_chain limit).make head items }
    {
        (head, items)
    }

    fn total(deep: usize, _count: usize) -> usize {
        deep
    }
}

/// `op`
fn read_one<'a>(
    alloc: Global,
    tokens: &'a [Terminal],
    limit: Option<usize>,
) -> Result<Read<'a, OpTree>, Fault>
    ensures { Answers (sort_of ops limit) tokens.now result }
{
    let _ = &limit;
    read_op(alloc, tokens)
}

/// `"," op`
fn read_more<'a>(
    alloc: Global,
    tokens: &'a [Terminal],
    limit: Option<usize>,
    count: usize,
) -> Result<Read<'a, OpTree>, Fault>
    requires { begins is_comma tokens.now ≡ true }
    ensures { Answers (item_sort (op_chain limit) count) tokens.now result }
{
    let _ = &count;
    read_one(alloc, after(tokens, 1), limit)
}

/// `op {"," op}`
fn read_ops<'a>(
    alloc: Global,
    tokens: &'a [Terminal],
    limit: Option<usize>,
) -> Result<Read<'a, (OpTree, Items<OpTree>)>, Fault>
    ensures { Answers (sort_of op_lists limit) tokens.now result }
{
    let head = read_one(alloc, tokens, limit)?;
    read_chain::<OpChain, _>(
        alloc,
        tokens,
        limit,
        head,
        |here, count|
            requires starts { begins is_comma here.now ≡ true }
            ensures { Answers (item_sort (op_chain limit) count) here.now result }
        {
            let _ = &tokens;
            read_more(alloc, here, limit, count)
        },
    )
}

/// `("infixl" | "infixr" | "infix") [digit]`
fn read_fixity_head(
    alloc: Global,
    tokens: &[Terminal],
) -> Result<Read<'_, (Fixity, Option<Bytes>)>, Fault>
    ensures { Answers fixity_head_sort tokens.now result }
{
    let Some((word, next)) = after_fixity(tokens) else {
        return Err(Fault::At(tokens.len()));
    };
    if let Some((digit, rest)) = after_digit(next) {
        let level = digit.copied(alloc)?;
        return Ok(Read {
            tree: (word, Some(level)),
            rest,
            depth: 0,
        });
    }
    Ok(Read {
        tree: (word, None),
        rest: next,
        depth: 0,
    })
}

/// `("infixl" | "infixr" | "infix") [digit] op {"," op}`. The limit bounds nothing: operators have no depth.
pub fn read_fixity<'a>(
    alloc: Global,
    tokens: &'a [Terminal],
    limit: Option<usize>,
) -> Result<Read<'a, ((Fixity, Option<Bytes>), (OpTree, Items<OpTree>))>, Fault>
    ensures { Answers (sort_of fixities limit) tokens.now result }
{
    let head = read_fixity_head(alloc, tokens)?;
    let ops = read_ops(alloc, head.rest, limit)?;
    let tree = (head.tree, ops.tree);
    Ok(Read {
        tree,
        rest: ops.rest,
        depth: 0,
    })
}
