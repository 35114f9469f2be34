//! Chains of operators, of operands that a reader is given for (Haskell 2010 Report, section 3.4).
ghost use Rattle.std.specs.Prelude.{◌≡◌, ◌+◌, ◌<◌, ◌≤◌, ◌^◌, length, ℕ, Bool, Option, Ok, IfOk, false};
ghost use Rattle.hs_readers.specs.Answers.{Answers};
ghost use Rattle.hs_expression_forms.specs.Trees.{Took, sort_of};
ghost use Rattle.hs_expression_forms.specs.Expressions.{operands};
ghost use Rattle.hs_expression_forms.specs.Links.{links};
ghost use Rattle.hs_expressions.specs.StepAnswers.{StepSays};
ghost use Rattle.hs_expressions.specs.LinkAnswers.{LinkAnswers, LinkTook, IsAlone};
ghost use Rattle.hs_expressions.specs.Chains.{ChainHolds, ChainAnswers, chain_left, goes_behind};

use crate::chain_leaf::goes_on;
use crate::links::{Link, ends_open, read_link, signs};
use crate::signed::read_signed;
use crate::steps::{Step, Steps, run};
use hs_forms::Fault;
use hs_modules::{InfixTree, OpOperand, OperandTree, QOpTree, SignedOperand};
use hs_readers::Read;
use hs_tokens::Terminal;
use sqlite_items::Items;
use std::alloc::{AllocError, Global};

/// A chain on its way.
#[derive(Drop)]
pub struct ChainState<'a> {
    first: SignedOperand,
    more: Items<OpOperand>,
    /// What is left behind it.
    rest: &'a [Terminal],
    /// How deep its deepest operand is.
    deep: usize,
    /// How many operators and signs it has.
    ops: usize,
    /// Whether nothing may stand behind its last operand.
    opened: bool,
}

impl<'a> Steps for ChainState<'a> {
    type Done = Read<'a, (InfixTree, Option<QOpTree>)>;

    ghost holds = { ChainHolds };

    ghost left = { chain_left };

    ghost answers = { ChainAnswers };
}

/// The chain as it is read, where nothing goes on behind it.
fn finished(chain: ChainState<'_>) -> Read<'_, (InfixTree, Option<QOpTree>)>
    requires few { chain.deep + chain.ops < 2 ^ 64 }
    ensures { (limit : Option ℕ) (lone : Bool) (ts : _) → ChainHolds limit lone ts chain.entry → goes_behind chain.entry ≡ false → Took (links lone) limit ts result.tree result.rest.now result.depth }
{
    Read {
        depth: chain.deep + chain.ops,
        rest: chain.rest,
        tree: (
            InfixTree {
                first: chain.first,
                rest: chain.more,
            },
            None,
        ),
    }
}

/// The chain with the operator of a section behind it.
fn sectioned<'a>(
    chain: ChainState<'a>,
    op: Read<'a, QOpTree>,
) -> Read<'a, (InfixTree, Option<QOpTree>)>
    requires few { chain.deep + chain.ops < 2 ^ 64 }
    ensures { (limit : Option ℕ) (lone : Bool) (ts : _) → ChainHolds limit lone ts chain.entry → chain.entry.opened ≡ false → IsAlone lone chain.entry.rest.now op.entry → Took (links lone) limit ts result.tree result.rest.now result.depth }
{
    Read {
        depth: chain.deep + chain.ops,
        rest: op.rest,
        tree: (
            InfixTree {
                first: chain.first,
                rest: chain.more,
            },
            Some(op.tree),
        ),
    }
}

/// The chain with an operator and an operand more.
fn extended<'a>(
    mut chain: ChainState<'a>,
    op: QOpTree,
    read: Read<'a, SignedOperand>,
) -> Result<ChainState<'a>, AllocError>
    requires few { chain.deep + chain.ops + 2 < 2 ^ 64 }
    ensures { (limit : Option ℕ) (lone : Bool) (ts : _) → ChainHolds limit lone ts chain.entry → chain.entry.opened ≡ false → LinkTook limit chain.entry.deep chain.entry.ops chain.entry.rest.now op read.entry.tree read.entry.rest.now read.entry.depth → IfOk result (λ next. ChainHolds limit lone ts next × (chain_left next < chain_left chain.entry)) }
{
    chain.ops = chain.ops + 1 + signs(&read.tree);
    chain.opened = ends_open(&read.tree);
    chain.deep = chain.deep.max(read.depth);
    chain.rest = read.rest;
    chain.more.push(OpOperand {
        op,
        operand: read.tree,
    })?;
    Ok(chain)
}

/// The chain with what goes on behind it.
fn followed<'a>(
    chain: ChainState<'a>,
    link: Link<'a>,
) -> Result<Step<ChainState<'a>, Read<'a, (InfixTree, Option<QOpTree>)>>, Fault>
    requires few { chain.deep + chain.ops + 2 < 2 ^ 64 }
    ensures { (limit : Option ℕ) (lone : Bool) (ts : _) → ChainHolds limit lone ts chain.entry → chain.entry.opened ≡ false → LinkAnswers limit lone chain.entry.deep chain.entry.ops chain.entry.rest.now (Ok link.entry) → StepSays (ChainHolds limit lone ts) chain_left (ChainAnswers limit lone ts) chain.entry result }
{
    match link {
        Link::Alone(op) => Ok(Step::Done(sectioned(chain, op))),
        Link::Operand(op, read) => Ok(Step::More(extended(chain, op, read)?)),
    }
}

/// The chain with an operator and an operand more, or as it is read.
fn step_links<'a, F: Fn(&[Terminal], Option<usize>) -> Result<Read<'_, OperandTree>, Fault>>(
    alloc: Global,
    tokens: &[Terminal],
    limit: Option<usize>,
    lone: bool,
    chain: ChainState<'a>,
    operand: &F,
) -> Result<Step<ChainState<'a>, Read<'a, (InfixTree, Option<QOpTree>)>>, Fault>
    requires holds { ChainHolds limit lone tokens.now chain }
    requires may { (here : _) (l : _) → length here.now ≤ length tokens.now → F.pre operand.now here l }
    requires says { (here : _) (l : _) (r : _) → F.post operand.now here l r → Answers (sort_of operands l) here.now r }
    ensures { StepSays (ChainHolds limit lone tokens.now) chain_left (ChainAnswers limit lone tokens.now) chain.entry result }
{
    if !goes_on(chain.opened, chain.rest) {
        return Ok(Step::Done(finished(chain)));
    }
    let link = read_link(
        alloc, chain.rest, limit, lone, chain.deep, chain.ops, operand,
    )?;
    followed(chain, link)
}

/// `["-"] operand {qop ["-"] operand}`, with an operator behind it if it is the front of a section and may be one.
pub fn read_links<'a, F: Fn(&[Terminal], Option<usize>) -> Result<Read<'_, OperandTree>, Fault>>(
    alloc: Global,
    tokens: &'a [Terminal],
    limit: Option<usize>,
    lone: bool,
    operand: &F,
) -> Result<Read<'a, (InfixTree, Option<QOpTree>)>, Fault>
    requires may { (here : _) (l : _) → length here.now ≤ length tokens.now → F.pre operand.now here l }
    requires says { (here : _) (l : _) (r : _) → F.post operand.now here l r → Answers (sort_of operands l) here.now r }
    ensures { Answers (sort_of (links lone) limit) tokens.now result }
{
    let head = read_signed(tokens, limit, 0, 0, operand)?;
    let start = ChainState {
        ops: signs(&head.tree),
        opened: ends_open(&head.tree),
        first: head.tree,
        more: Items::new(alloc),
        rest: head.rest,
        deep: head.depth,
    };
    run::<ChainState<'_>, _>(
        tokens,
        limit,
        lone,
        start,
        |chain|
            requires holds { ChainHolds limit lone tokens.now chain }
            requires may { (there : _) (l : _) → length there.now ≤ length tokens.now → F.pre operand.now there l }
            requires says { (there : _) (l : _) (r : _) → F.post operand.now there l r → Answers (sort_of operands l) there.now r }
            ensures { StepSays (ChainHolds limit lone tokens.entry.now) chain_left (ChainAnswers limit lone tokens.entry.now) chain.entry result }
        { step_links(alloc, tokens, limit, lone, chain, operand) },
    )
}
