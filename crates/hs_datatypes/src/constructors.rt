//! Constructors (Haskell 2010 Report, section 4.2.1).
ghost use Rattle.std.specs.Prelude.{◌≡◌, ◌+◌, ◌<◌, ◌^◌, ◌↔◌, ℕ, Option, IsTrue, IfOk, true, false, length, map, max};
ghost use Rattle.hs_forms.specs.Reading.{begins};
ghost use Rattle.hs_forms.specs.Limits.{deepest};
ghost use Rattle.hs_readers.specs.Answers.{Answers, item_sort};
ghost use Rattle.hs_forms.specs.Answers.{Rejects};
ghost use Rattle.hs_expression_forms.specs.Trees.{sort_of, within};
ghost use Rattle.hs_block_forms.specs.Blocks.{is_bar};
ghost use Rattle.hs_declaration_forms.specs.Datatypes.{applied, cons, constr_goes, constr_lists, constrs, infixes, prefixes, starts_field};
ghost use Rattle.hs_declaration_forms.proofs.FieldLemmas.{field_chain};
ghost use Rattle.hs_declaration_forms.proofs.ConstrLemmas.{constr_chain};

use crate::fields::{read_field, read_side};
use crate::leaf::{begins_bar, begins_field, goes_on_constr};
use crate::names::{read_con, read_conop};
use hs_forms::Fault;
use hs_modules::{ConOpTree, ConTree, ConstrSide, ConstrTree, Field};
use hs_readers::{Chained, Read, after, read_chain};
use hs_tokens::Terminal;
use sqlite_items::Items;
use std::alloc::Global;

/// `con {["!"] atype}`
pub struct FieldChain;

impl Chained for FieldChain {
    type Tree = (ConTree, Items<Field>);

    type Head = ConTree;

    type Item = Field;

    type Limit = Option<usize>;

    ghost chain = { field_chain };

    ghost depth = { applied.deep };

    fn begins_item(tokens: &[Terminal]) -> bool {
        begins_field(tokens)
    }

    fn has_room(
        _limit: Option<usize>,
        _deep: usize,
        _head: &ConTree,
        _items: &Items<Field>,
    ) -> bool {
        true
    }

    fn make(head: ConTree, items: Items<Field>) -> (ConTree, Items<Field>)
        ensures { (limit : Option ℕ) → result ≡ (field_chain limit).make head items }
    {
        (head, items)
    }

    fn total(deep: usize, _count: usize) -> usize {
        deep
    }
}

/// `constr {"|" constr}`
pub struct ConstrChain;

impl Chained for ConstrChain {
    type Tree = (ConstrTree, Items<ConstrTree>);

    type Head = ConstrTree;

    type Item = ConstrTree;

    type Limit = Option<usize>;

    ghost chain = { constr_chain };

    ghost depth = { constr_lists.deep };

    fn begins_item(tokens: &[Terminal]) -> bool {
        begins_bar(tokens)
    }

    fn has_room(
        _limit: Option<usize>,
        _deep: usize,
        _head: &ConstrTree,
        _items: &Items<ConstrTree>,
    ) -> bool {
        true
    }

    fn make(head: ConstrTree, items: Items<ConstrTree>) -> (ConstrTree, Items<ConstrTree>)
        ensures { (limit : Option ℕ) → result ≡ (constr_chain limit).make head items }
    {
        (head, items)
    }

    fn total(deep: usize, _count: usize) -> usize {
        deep
    }
}

/// The name of a constructor before its fields.
fn read_front<'a>(
    alloc: Global,
    tokens: &'a [Terminal],
    limit: Option<usize>,
) -> Result<Read<'a, ConTree>, Fault>
    ensures { Answers (sort_of cons limit) tokens.now result }
{
    let _ = &limit;
    read_con(alloc, tokens)
}

/// `con {["!"] atype}`
fn read_applied<'a>(
    alloc: Global,
    tokens: &'a [Terminal],
    limit: Option<usize>,
) -> Result<Read<'a, (ConTree, Items<Field>)>, Fault>
    ensures { Answers (sort_of applied limit) tokens.now result }
{
    let head = read_front(alloc, tokens, limit)?;
    read_chain::<FieldChain, _>(
        alloc,
        tokens,
        limit,
        head,
        |here, count|
            requires starts { begins starts_field here.now ≡ true }
            ensures { Answers (item_sort (field_chain limit) count) here.now result }
        {
            let _ = &tokens;
            let _ = &count;
            read_field(alloc, here, limit)
        },
    )
}

/// `con {["!"] atype}`, up to what goes on no constructor.
fn read_prefix<'a>(
    alloc: Global,
    tokens: &'a [Terminal],
    limit: Option<usize>,
) -> Result<Read<'a, (ConTree, Items<Field>)>, Fault>
    ensures answers { Answers (sort_of prefixes limit) tokens.now result }
    ensures ends { IfOk result (λ r. begins constr_goes r.rest.now ≡ false) }
{
    let prefix = read_applied(alloc, tokens, limit)?;
    if goes_on_constr(prefix.rest) {
        return Err(Fault::At(prefix.rest.len()));
    }
    Ok(prefix)
}

/// `(btype | "!" atype) conop (btype | "!" atype)`
fn read_infix<'a>(
    alloc: Global,
    tokens: &'a [Terminal],
    limit: Option<usize>,
) -> Result<Read<'a, (ConstrSide, (ConOpTree, ConstrSide))>, Fault>
    ensures { Answers (sort_of infixes limit) tokens.now result }
{
    let left = read_side(alloc, tokens, limit)?;
    let op = read_conop(alloc, left.rest)?;
    let right = read_side(alloc, op.rest, limit)?;
    let behind = (op.tree, right.tree);
    let tree = (left.tree, behind);
    Ok(Read {
        tree,
        rest: right.rest,
        depth: left.depth.max(right.depth),
    })
}

/// A constructor with its fields, where no infix one stands; that was refused with so many tokens left.
fn read_other<'a>(
    alloc: Global,
    tokens: &'a [Terminal],
    limit: Option<usize>,
    left: usize,
) -> Result<Read<'a, ConstrTree>, Fault>
    requires { Rejects (within infixes limit) tokens.now left }
    ensures { Answers (sort_of constrs limit) tokens.now result }
{
    match read_prefix(alloc, tokens, limit) {
        Ok(prefix) => {
            let (con, fields) = prefix.tree;
            Ok(Read {
                tree: ConstrTree::Prefix(con, fields),
                rest: prefix.rest,
                depth: prefix.depth,
            })
        }
        Err(Fault::NoMemory) => Err(Fault::NoMemory),
        Err(Fault::At(right)) => Err(Fault::At(left.min(right))),
    }
}

/// A constructor: a name and its fields, or an operator between two types. No token tells them apart before the
/// operator.
pub fn read_constr<'a>(
    alloc: Global,
    tokens: &'a [Terminal],
    limit: Option<usize>,
) -> Result<Read<'a, ConstrTree>, Fault>
    ensures { Answers (sort_of constrs limit) tokens.now result }
{
    match read_infix(alloc, tokens, limit) {
        Ok(infix) => {
            let (left, behind) = infix.tree;
            let (op, right) = behind;
            Ok(Read {
                tree: ConstrTree::Infix(left, op, right),
                rest: infix.rest,
                depth: infix.depth,
            })
        }
        Err(Fault::NoMemory) => Err(Fault::NoMemory),
        Err(Fault::At(left)) => read_other(alloc, tokens, limit, left),
    }
}

/// `"|" constr`
fn read_more<'a>(
    alloc: Global,
    tokens: &'a [Terminal],
    limit: Option<usize>,
    count: usize,
) -> Result<Read<'a, ConstrTree>, Fault>
    requires { begins is_bar tokens.now ≡ true }
    ensures { Answers (item_sort (constr_chain limit) count) tokens.now result }
{
    let _ = &count;
    read_constr(alloc, after(tokens, 1), limit)
}

/// `constr {"|" constr}`
pub fn read_constrs<'a>(
    alloc: Global,
    tokens: &'a [Terminal],
    limit: Option<usize>,
) -> Result<Read<'a, (ConstrTree, Items<ConstrTree>)>, Fault>
    ensures { Answers (sort_of constr_lists limit) tokens.now result }
{
    let head = read_constr(alloc, tokens, limit)?;
    read_chain::<ConstrChain, _>(
        alloc,
        tokens,
        limit,
        head,
        |here, count|
            requires starts { begins is_bar here.now ≡ true }
            ensures { Answers (item_sort (constr_chain limit) count) here.now result }
        {
            let _ = &tokens;
            read_more(alloc, here, limit, count)
        },
    )
}
