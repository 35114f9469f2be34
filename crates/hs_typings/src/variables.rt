//! Variables and their types (Haskell 2010 Report, section 4.4.1).
ghost use Rattle.std.specs.Prelude.{◌≡◌, ◌+◌, ◌<◌, ◌^◌, ◌↔◌, ℕ, Option, IsTrue, true, length, map, max};
ghost use Rattle.hs_forms.specs.Reading.{begins};
ghost use Rattle.hs_forms.specs.Limits.{deepest};
ghost use Rattle.hs_tokens.specs.Terminals.{is_comma};
ghost use Rattle.hs_readers.specs.Answers.{Answers, item_sort};
ghost use Rattle.hs_expression_forms.specs.Trees.{sort_of};
ghost use Rattle.hs_declaration_forms.specs.Typings.{typings, vars, var_lists};
ghost use Rattle.hs_declaration_forms.proofs.ListLemmas.{var_chain};

use hs_declarations::after_double_colon;
use hs_forms::Fault;
use hs_headers::read_var;
use hs_readers::{Chained, Read, after, begins_comma, read_chain, read_type};
use hs_tokens::Terminal;
use hs_trees::{TypeTree, VarTree};
use sqlite_items::Items;
use std::alloc::Global;

/// A variable and those behind commas.
pub type VarList = (VarTree, Items<VarTree>);

/// Variables and their type.
pub type Typing = (VarList, TypeTree);

/// `var {"," var}`
pub struct VarChain;

impl Chained for VarChain {
    type Tree = (VarTree, Items<VarTree>);

    type Head = VarTree;

    type Item = VarTree;

    type Limit = Option<usize>;

    ghost chain = { var_chain };

    ghost depth = { var_lists.deep };

    fn begins_item(tokens: &[Terminal]) -> bool {
        begins_comma(tokens)
    }

    fn has_room(
        _limit: Option<usize>,
        _deep: usize,
        _head: &VarTree,
        _items: &Items<VarTree>,
    ) -> bool {
        true
    }

    fn make(head: VarTree, items: Items<VarTree>) -> (VarTree, Items<VarTree>)
        ensures { (limit : Option ℕ) → result ≡ (var_chain limit).make head items }
    {
        (head, items)
    }

    fn total(deep: usize, _count: usize) -> usize {
        deep
    }
}

/// `var`
fn read_one<'a>(
    alloc: Global,
    tokens: &'a [Terminal],
    limit: Option<usize>,
) -> Result<Read<'a, VarTree>, Fault>
    ensures { Answers (sort_of vars limit) tokens.now result }
{
    let _ = &limit;
    read_var(alloc, tokens)
}

/// `"," var`
fn read_more<'a>(
    alloc: Global,
    tokens: &'a [Terminal],
    limit: Option<usize>,
    count: usize,
) -> Result<Read<'a, VarTree>, Fault>
    requires { begins is_comma tokens.now ≡ true }
    ensures { Answers (item_sort (var_chain limit) count) tokens.now result }
{
    let _ = &count;
    read_one(alloc, after(tokens, 1), limit)
}

/// `var {"," var}`. The limit bounds nothing: variables have no depth.
pub fn read_vars<'a>(
    alloc: Global,
    tokens: &'a [Terminal],
    limit: Option<usize>,
) -> Result<Read<'a, (VarTree, Items<VarTree>)>, Fault>
    ensures { Answers (sort_of var_lists limit) tokens.now result }
{
    let head = read_one(alloc, tokens, limit)?;
    read_chain::<VarChain, _>(
        alloc,
        tokens,
        limit,
        head,
        |here, count|
            requires starts { begins is_comma here.now ≡ true }
            ensures { Answers (item_sort (var_chain limit) count) here.now result }
        {
            let _ = &tokens;
            read_more(alloc, here, limit, count)
        },
    )
}

/// `var {"," var} "::" type`
pub fn read_typing<'a>(
    alloc: Global,
    tokens: &'a [Terminal],
    limit: Option<usize>,
) -> Result<Read<'a, ((VarTree, Items<VarTree>), TypeTree)>, Fault>
    ensures { Answers (sort_of typings limit) tokens.now result }
{
    let vars = read_vars(alloc, tokens, limit)?;
    let Some(next) = after_double_colon(vars.rest) else {
        return Err(Fault::At(vars.rest.len()));
    };
    let ty = read_type(alloc, next, limit)?;
    let tree = (vars.tree, ty.tree);
    Ok(Read {
        tree,
        rest: ty.rest,
        depth: ty.depth,
    })
}
