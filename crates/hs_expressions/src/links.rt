//! Chains of operators, of operands that a reader is given for (Haskell 2010 Report, section 3.4).
ghost use Rattle.std.specs.Prelude.{◌≡◌, ◌+◌, ◌<◌, ◌≤◌, ◌^◌, length};
ghost use Rattle.hs_readers.specs.Answers.{Answers};
ghost use Rattle.hs_modules.specs.ExpressionExtents.{sign};
ghost use Rattle.hs_expression_forms.specs.Trees.{sort_of};
ghost use Rattle.hs_expression_forms.specs.Expressions.{operands};
ghost use Rattle.hs_expression_forms.proofs.LinkLayerLemmas.{negated_of};
ghost use Rattle.hs_expression_forms.proofs.OpenLemmas.{signed_open};
ghost use Rattle.hs_expressions.specs.LinkAnswers.{LinkAnswers};

use crate::chain_leaf::{count_sign, ends_section, is_open, may_follow};
use crate::qop::read_qop;
use crate::signed::read_signed;
use hs_forms::Fault;
use hs_modules::{OperandTree, QOpTree, SignedOperand};
use hs_readers::Read;
use hs_tokens::Terminal;
use std::alloc::Global;

/// What goes on behind a chain.
#[derive(Drop)]
pub enum Link<'a> {
    /// An operator and an operand.
    Operand(QOpTree, Read<'a, SignedOperand>),
    /// The operator of a section.
    Alone(Read<'a, QOpTree>),
}

/// How many operators the sign of an operand is.
pub fn signs(operand: &SignedOperand) -> usize
    ensures value { result ≡ sign (negated_of operand.now) }
    ensures few { result ≤ 1 }
{
    count_sign(operand.negated)
}

/// Whether nothing may stand behind an operand with its sign.
pub fn ends_open(operand: &SignedOperand) -> bool
    ensures { result ≡ signed_open operand.now }
{
    is_open(&operand.operand)
}

/// An operator and the operand behind it, or the operator of a section if such may stand here.
pub fn read_link<'a, F: Fn(&[Terminal], Option<usize>) -> Result<Read<'_, OperandTree>, Fault>>(
    alloc: Global,
    tokens: &'a [Terminal],
    limit: Option<usize>,
    lone: bool,
    deep: usize,
    ops: usize,
    operand: &F,
) -> Result<Link<'a>, Fault>
    requires few { deep + ops + 2 < 2 ^ 64 }
    requires may { (here : _) (l : _) → length here.now ≤ length tokens.now → F.pre operand.now here l }
    requires says { (here : _) (l : _) (r : _) → F.post operand.now here l r → Answers (sort_of operands l) here.now r }
    ensures { LinkAnswers limit lone deep ops tokens.now result }
{
    if !may_follow(lone, limit, deep + (ops + 1)) {
        return Err(Fault::At(tokens.len()));
    }
    let op = read_qop(alloc, tokens)?;
    if ends_section(lone, op.rest) {
        return Ok(Link::Alone(op));
    }
    let signed = read_signed(op.rest, limit, deep, ops + 1, operand)?;
    Ok(Link::Operand(op.tree, signed))
}
