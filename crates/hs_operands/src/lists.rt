//! Lists of expressions: between commas, and of arguments (Haskell 2010 Report, sections 3.3, 3.5, 3.7 and 3.8).
ghost use Rattle.std.specs.Prelude.{◌↔◌, IsTrue, max, map, ◌≡◌, ◌<◌, ◌≤◌, ◌+◌, ◌∷◌, ◌^◌, [], ℕ, None, Option, true, length};
ghost use Rattle.hs_forms.specs.Reading.{begins};
ghost use Rattle.hs_forms.specs.Limits.{deepest};
ghost use Rattle.hs_tokens.specs.Terminals.{is_comma};
ghost use Rattle.hs_tokens.specs.declared.terminal.Terminal.TheVariants.{Comma};
ghost use Rattle.hs_readers.specs.Answers.{Answers, item_sort};
ghost use Rattle.hs_expression_forms.specs.Trees.{behind_token, sort_of};
ghost use Rattle.hs_expression_forms.specs.Expressions.{aexps, applies, exp_parts, exps, operands, starts_aexp};
ghost use Rattle.hs_expression_forms.specs.Fronts.{bunches, is_section};
ghost use Rattle.hs_expression_forms.proofs.BunchLemmas.{bunch_chain};
ghost use Rattle.hs_operand_forms.proofs.ListLemmas.{arguments_chain, parts_chain};

use crate::brackets::read_aexp;
use hs_expression_forms::Front;
use hs_expressions::{begins_aexp, read_exp, read_front};
use hs_forms::Fault;
use hs_modules::{AExpTree, ExpTree, OperandTree};
use hs_readers::{Chained, Read, after, begins_comma, read_chain};
use hs_tokens::Terminal;
use sqlite_items::Items;
use std::alloc::Global;

/// Expressions between commas.
pub struct ExpParts {}

/// What stands between round brackets: an expression or the front of a left section, and expressions behind commas.
pub struct Bunches {}

/// A function and its arguments.
pub struct Arguments {}

impl Chained for ExpParts {
    type Tree = (ExpTree, Items<ExpTree>);

    type Head = ExpTree;

    type Item = ExpTree;

    type Limit = Option<usize>;

    ghost chain = { parts_chain };

    ghost depth = { (exp_parts None).deep };

    fn begins_item(tokens: &[Terminal]) -> bool {
        begins_comma(tokens)
    }

    fn has_room(
        _limit: Option<usize>,
        _deep: usize,
        _head: &ExpTree,
        _items: &Items<ExpTree>,
    ) -> bool {
        true
    }

    fn make(head: ExpTree, items: Items<ExpTree>) -> (ExpTree, Items<ExpTree>)
        ensures { (limit : Option ℕ) → result ≡ (parts_chain limit).make head items }
    {
        (head, items)
    }

    fn total(deep: usize, _count: usize) -> usize {
        deep
    }
}

impl Chained for Bunches {
    type Tree = (Front, Items<ExpTree>);

    type Head = Front;

    type Item = ExpTree;

    type Limit = Option<usize>;

    ghost chain = { bunch_chain };

    ghost depth = { bunches.deep };

    fn begins_item(tokens: &[Terminal]) -> bool {
        begins_comma(tokens)
    }

    fn has_room(_limit: Option<usize>, _deep: usize, head: &Front, items: &Items<ExpTree>) -> bool {
        !is_section(head) && items.len() < 14
    }

    fn make(head: Front, items: Items<ExpTree>) -> (Front, Items<ExpTree>)
        ensures { (limit : Option ℕ) → result ≡ (bunch_chain limit).make head items }
    {
        (head, items)
    }

    fn total(deep: usize, _count: usize) -> usize {
        deep
    }
}

impl Chained for Arguments {
    type Tree = (AExpTree, Items<AExpTree>);

    type Head = AExpTree;

    type Item = AExpTree;

    type Limit = Option<usize>;

    ghost chain = { arguments_chain };

    ghost depth = { applies.deep };

    fn begins_item(tokens: &[Terminal]) -> bool {
        begins_aexp(tokens)
    }

    fn has_room(
        _limit: Option<usize>,
        _deep: usize,
        _head: &AExpTree,
        _items: &Items<AExpTree>,
    ) -> bool {
        true
    }

    fn make(head: AExpTree, items: Items<AExpTree>) -> (AExpTree, Items<AExpTree>)
        ensures { (limit : Option ℕ) → result ≡ (arguments_chain limit).make head items }
    {
        (head, items)
    }

    fn total(deep: usize, _count: usize) -> usize {
        deep
    }
}

/// Whether a front is that of a left section.
fn is_section(front: &Front) -> bool
    ensures { result ≡ is_section front.now }
{
    match front {
        Front::Exp(_) => false,
        Front::Section(_, _) => true,
    }
}

/// `"," exp`
fn read_part<'a, F: Fn(&[Terminal], Option<usize>) -> Result<Read<'_, OperandTree>, Fault>>(
    alloc: Global,
    tokens: &'a [Terminal],
    limit: Option<usize>,
    operand: &F,
) -> Result<Read<'a, ExpTree>, Fault>
    requires starts { begins is_comma tokens.now ≡ true }
    requires may { (here : _) (l : _) → length here.now < length tokens.now → F.pre operand.now here l }
    requires says { (here : _) (l : _) (r : _) → F.post operand.now here l r → Answers (sort_of operands l) here.now r }
    ensures { Answers (sort_of (behind_token Comma exps) limit) tokens.now result }
{
    read_exp(alloc, after(tokens, 1), limit, operand)
}

/// `exp {"," exp}`
pub fn read_parts<'a, F: Fn(&[Terminal], Option<usize>) -> Result<Read<'_, OperandTree>, Fault>>(
    alloc: Global,
    tokens: &'a [Terminal],
    limit: Option<usize>,
    operand: &F,
) -> Result<Read<'a, (ExpTree, Items<ExpTree>)>, Fault>
    requires may { (here : _) (l : _) → length here.now ≤ length tokens.now → F.pre operand.now here l }
    requires says { (here : _) (l : _) (r : _) → F.post operand.now here l r → Answers (sort_of operands l) here.now r }
    ensures { Answers (sort_of (exp_parts None) limit) tokens.now result }
{
    let head = read_exp(alloc, tokens, limit, operand)?;
    read_chain::<ExpParts, _>(
        alloc,
        tokens,
        limit,
        head,
        |here, count|
            requires less { count + length here.now < length tokens.now }
            requires starts { begins is_comma here.now ≡ true }
            requires may { (there : _) (l : _) → length there.now ≤ length tokens.now → F.pre operand.now there l }
            requires says { (there : _) (l : _) (r : _) → F.post operand.now there l r → Answers (sort_of operands l) there.now r }
            ensures { Answers (item_sort (parts_chain limit) count) here.now result }
        {
            let _ = &tokens;
            let _ = &count;
            read_part(alloc, here, limit, operand)
        },
    )
}

/// What stands behind a `(`: `exp {"," exp}` of at most 15 parts, or `infix qop`.
pub fn read_bunch<'a, F: Fn(&[Terminal], Option<usize>) -> Result<Read<'_, OperandTree>, Fault>>(
    alloc: Global,
    tokens: &'a [Terminal],
    limit: Option<usize>,
    operand: &F,
) -> Result<Read<'a, (Front, Items<ExpTree>)>, Fault>
    requires may { (here : _) (l : _) → length here.now ≤ length tokens.now → F.pre operand.now here l }
    requires says { (here : _) (l : _) (r : _) → F.post operand.now here l r → Answers (sort_of operands l) here.now r }
    ensures { Answers (sort_of bunches limit) tokens.now result }
{
    let head = read_front(alloc, tokens, limit, operand)?;
    read_chain::<Bunches, _>(
        alloc,
        tokens,
        limit,
        head,
        |here, count|
            requires less { count + length here.now < length tokens.now }
            requires starts { begins is_comma here.now ≡ true }
            requires may { (there : _) (l : _) → length there.now ≤ length tokens.now → F.pre operand.now there l }
            requires says { (there : _) (l : _) (r : _) → F.post operand.now there l r → Answers (sort_of operands l) there.now r }
            ensures { Answers (item_sort (bunch_chain limit) count) here.now result }
        {
            let _ = &tokens;
            let _ = &count;
            read_part(alloc, here, limit, operand)
        },
    )
}

/// `aexp {aexp}`
pub fn read_arguments<
    'a,
    F: Fn(&[Terminal], Option<usize>) -> Result<Read<'_, OperandTree>, Fault>,
>(
    alloc: Global,
    tokens: &'a [Terminal],
    limit: Option<usize>,
    operand: &F,
) -> Result<Read<'a, (AExpTree, Items<AExpTree>)>, Fault>
    requires may { (here : _) (l : _) → length here.now < length tokens.now → F.pre operand.now here l }
    requires says { (here : _) (l : _) (r : _) → F.post operand.now here l r → Answers (sort_of operands l) here.now r }
    ensures { Answers (sort_of applies limit) tokens.now result }
{
    let head = read_aexp(alloc, tokens, limit, operand)?;
    read_chain::<Arguments, _>(
        alloc,
        tokens,
        limit,
        head,
        |here, count|
            requires less { count + length here.now < length tokens.now }
            requires may { (there : _) (l : _) → length there.now < length tokens.now → F.pre operand.now there l }
            requires says { (there : _) (l : _) (r : _) → F.post operand.now there l r → Answers (sort_of operands l) there.now r }
            ensures { Answers (item_sort (arguments_chain limit) count) here.now result }
        {
            let _ = &tokens;
            let _ = &count;
            read_aexp(alloc, here, limit, operand)
        },
    )
}
