//! An operand and its sign, of operands that a reader is given for (Haskell 2010 Report, section 3.4).
ghost use Rattle.std.specs.Prelude.{◌≡◌, ◌+◌, ◌<◌, ◌≤◌, ◌^◌, length};
ghost use Rattle.hs_readers.specs.Answers.{Answers};
ghost use Rattle.hs_expression_forms.specs.Trees.{sort_of};
ghost use Rattle.hs_expression_forms.specs.Expressions.{operands};
ghost use Rattle.hs_expressions.specs.SignedAnswers.{SignedAnswers};

use crate::chain_leaf::{after_sign, count_sign};
use crate::leaf::begins_minus;
use hs_forms::Fault;
use hs_modules::{OperandTree, SignedOperand};
use hs_readers::{Read, allows, lower};
use hs_tokens::Terminal;

/// `["-"] operand`, behind so many operators and signs, where the deepest operand before it is so deep.
pub fn read_signed<'a, F: Fn(&[Terminal], Option<usize>) -> Result<Read<'_, OperandTree>, Fault>>(
    tokens: &'a [Terminal],
    limit: Option<usize>,
    deep: usize,
    used: usize,
    operand: &F,
) -> Result<Read<'a, SignedOperand>, Fault>
    requires few { deep + used + 1 < 2 ^ 64 }
    requires may { (here : _) (l : _) → length here.now ≤ length tokens.now → F.pre operand.now here l }
    requires says { (here : _) (l : _) (r : _) → F.post operand.now here l r → Answers (sort_of operands l) here.now r }
    ensures { SignedAnswers limit deep used tokens.now result }
{
    let negated = begins_minus(tokens);
    let used = used + count_sign(negated);
    if !allows(limit, deep + used) {
        return Err(Fault::At(tokens.len()));
    }
    let read = operand(after_sign(tokens), lower(limit, used))?;
    let tree = SignedOperand {
        negated,
        operand: read.tree,
    };
    Ok(Read {
        tree,
        rest: read.rest,
        depth: read.depth,
    })
}
