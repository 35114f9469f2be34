//! Looks at operands and at what stands behind a chain.
ghost use Rattle.std.specs.Prelude.{◌≡◌, ◌∷◌, ◌++◌, ◌↔◌, ◌&&◌, IsTrue, not, true, false, MatchOption};
ghost use Rattle.hs_forms.specs.Reading.{begins};
ghost use Rattle.hs_forms.specs.Limits.{Within};
ghost use Rattle.hs_tokens.specs.Terminals.{is_minus};
ghost use Rattle.hs_modules.specs.ExpressionExtents.{sign};
ghost use Rattle.hs_modules.specs.Tokens.{sign_tokens};
ghost use Rattle.hs_modules.specs.Formed.{facts_of_operand};
ghost use Rattle.hs_expression_forms.specs.Expressions.{starts_exp, starts_qop};

use crate::leaf::{begins_exp, begins_qop};
use hs_modules::OperandTree;
use hs_readers::{after_minus, allows};
use hs_tokens::Terminal;

/// Whether nothing of its own chain may stand behind the operand.
pub fn is_open(operand: &OperandTree) -> bool
    ensures { result ≡ (facts_of_operand operand.now).is_open }
{
    match operand {
        OperandTree::Lambda(_) => true,
        OperandTree::Let(_) => true,
        OperandTree::If(_) => true,
        OperandTree::Case(_) => false,
        OperandTree::Apply(_, _) => false,
    }
}

/// How many operators a sign is.
pub fn count_sign(negated: bool) -> usize
    ensures { result ≡ sign negated }
{
    if negated { 1 } else { 0 }
}

/// What stands after the sign, if one stands here.
pub fn after_sign(tokens: &[Terminal]) -> &[Terminal]
    ensures { tokens.now ≡ sign_tokens (begins is_minus tokens.now) ++ result.now }
{
    match after_minus(tokens) {
        Some(rest) => rest,
        None => tokens,
    }
}

/// Whether an operator may stand behind so much depth: the operator of a section always may.
pub fn may_follow(lone: bool, limit: Option<usize>, depth: usize) -> bool
    ensures { IsTrue result ↔ (lone ≡ false → Within limit depth) }
{
    lone || allows(limit, depth)
}

/// Whether an operator that stands before these tokens ends a section.
pub fn ends_section(lone: bool, tokens: &[Terminal]) -> bool
    ensures { result ≡ lone && not (begins starts_exp tokens.now) }
{
    lone && !begins_exp(tokens)
}

/// Whether a chain goes on here, whose last operand is open or not.
pub fn goes_on(opened: bool, tokens: &[Terminal]) -> bool
    ensures { result ≡ not opened && begins starts_qop tokens.now }
{
    !opened && begins_qop(tokens)
}
