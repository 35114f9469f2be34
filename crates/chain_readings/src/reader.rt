//! The report's reader of chains.
ghost use Rattle.std.specs.Prelude.{◌≡◌, ◌∷◌, MatchOption, false};
ghost use Rattle.hs_scopes.specs.Chains.{left_section, reading, right_section};
ghost use Rattle.hs_scopes.specs.Reads.{begins, is_operator, is_operand, is_minus};
ghost use Rattle.chain_readings.specs.Pieces.{pieces_at, root_at, tree_at};
ghost use Rattle.chain_readings.specs.Answers.{AnswersTree, IsHead, IsRead};
ghost use Rattle.chain_readings.specs.declared.chain.Piece.TheVariants as piece;

use crate::chain::{Operator, Piece, ReadError, Reading};
use crate::side::{Sided, fits_left, fits_right, fixity_of_minus, side_within};
use bp_base::Fixity;
use sqlite_items::Boxed;
use std::alloc::Global;

/// An operator, and what stands behind it.
fn after_operator(pieces: &[Piece]) -> Option<(Operator, &[Piece])>
    ensures { MatchOption result (begins is_operator (pieces_at pieces.now) ≡ false) (λ r. pieces.now ≡ piece.Operator r.0 ∷ r.1.now) }
{
    match pieces.split_first() {
        Some((Piece::Operator(operator), rest)) => Some((*operator, rest)),
        _ => None,
    }
}

/// An operand, and what stands behind it.
fn after_operand(pieces: &[Piece]) -> Option<(usize, &[Piece])>
    ensures { MatchOption result (begins is_operand (pieces_at pieces.now) ≡ false) (λ r. pieces.now ≡ piece.Operand r.0 ∷ r.1.now) }
{
    match pieces.split_first() {
        Some((Piece::Operand(index), rest)) => Some((*index, rest)),
        _ => None,
    }
}

/// What stands behind a `-`.
fn after_minus(pieces: &[Piece]) -> Option<&[Piece]>
    ensures { MatchOption result (begins is_minus (pieces_at pieces.now) ≡ false) (λ rest. pieces.now ≡ piece.Minus ∷ rest.now) }
{
    match pieces.split_first() {
        Some((Piece::Minus, rest)) => Some(rest),
        _ => None,
    }
}

/// The longest front of the pieces that stands as one operand behind `outer`, and what follows it.
#[cycle(read)]
fn read<'a>(
    alloc: Global,
    outer: Option<Fixity>,
    pieces: &'a [Piece],
) -> Result<(Reading, &'a [Piece]), ReadError>
    ensures { IsRead outer pieces.now (λ x. tree_at x.0) (λ x. x.1.now) result }
{
    let (mut left, mut rest) = read_head(alloc, outer, pieces)?;
    'operators: while let Some((operator, behind)) = after_operator(rest) {
        match side_within(outer, operator.fixity) {
            Sided::Left => return Ok((left, rest)),
            Sided::Neither => return Err(ReadError::NoReading),
            Sided::Right => {
                let (right, after) = read(alloc, Some(operator.fixity), behind)?;
                left = Reading::Apply {
                    operator,
                    left: Boxed::new(alloc, left)?,
                    right: Boxed::new(alloc, right)?,
                };
                rest = after;
            }
        }
    }
    if rest.is_empty() {
        Ok((left, rest))
    } else {
        Err(ReadError::NoReading)
    }
}

/// The operand or negation that the pieces begin with.
#[cycle(read)]
fn read_head<'a>(
    alloc: Global,
    outer: Option<Fixity>,
    pieces: &'a [Piece],
) -> Result<(Reading, &'a [Piece]), ReadError>
    ensures { IsHead outer pieces.now (λ x. tree_at x.0) (λ x. x.1.now) result }
{
    if let Some((index, rest)) = after_operand(pieces) {
        return Ok((Reading::Operand(index), rest));
    }
    let Some(behind) = after_minus(pieces) else {
        return Err(ReadError::NoReading);
    };
    let sign = fixity_of_minus();
    match side_within(outer, sign) {
        Sided::Right => {
            let (arg, rest) = read(alloc, Some(sign), behind)?;
            let arg = Boxed::new(alloc, arg)?;
            Ok((Reading::Negate(arg), rest))
        }
        _ => Err(ReadError::NoReading),
    }
}

/// The chain with its operators applied: the one tree whose pieces are the chain and in which each operator and its
/// neighbours respect the fixities, where `-` before an operand binds as an operator of level 6 to the left. The refusal
/// NoReading says that there is none (Haskell 2010 Report, section 10.6).
pub fn reading(alloc: Global, chain: &[Piece]) -> Result<Reading, ReadError>
    ensures { AnswersTree (reading (pieces_at chain.now)) result }
{
    let (tree, _) = read(alloc, None, chain)?;
    Ok(tree)
}

/// The operator that a reading applies last.
fn last_applied(reading: &Reading) -> Option<Fixity>
    ensures { result ≡ root_at reading.now }
{
    match reading {
        Reading::Operand(_) => None,
        Reading::Negate(_) => Some(fixity_of_minus()),
        Reading::Apply { operator, .. } => Some(operator.fixity),
    }
}

/// The operand of the section `(chain operator)`, whatever operand comes last. The refusal NoReading says that there is
/// none (Haskell 2010 Report, section 3.5).
pub fn left_section(alloc: Global, chain: &[Piece], operator: Fixity) -> Result<Reading, ReadError>
    ensures { AnswersTree (left_section (pieces_at chain.now) operator) result }
{
    let operand = reading(alloc, chain)?;
    if fits_left(last_applied(&operand), operator) {
        Ok(operand)
    } else {
        Err(ReadError::NoReading)
    }
}

/// The operand of the section `(operator chain)`, whatever operand comes first. The refusal NoReading says that there is
/// none (Haskell 2010 Report, section 3.5).
pub fn right_section(alloc: Global, operator: Fixity, chain: &[Piece]) -> Result<Reading, ReadError>
    ensures { AnswersTree (right_section operator (pieces_at chain.now)) result }
{
    let operand = reading(alloc, chain)?;
    if fits_right(last_applied(&operand), operator) {
        Ok(operand)
    } else {
        Err(ReadError::NoReading)
    }
}
