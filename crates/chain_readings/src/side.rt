//! Which of two operators takes the operand between them.
ghost use Rattle.std.specs.Prelude.{◌≡◌};
ghost use Rattle.hs_scopes.specs.Sides.{side_of, side_in, minus};
ghost use Rattle.hs_scopes.specs.Chains.{fits_left, fits_right};
ghost use Rattle.chain_readings.specs.Pieces.{side_at};

use bp_base::{Assoc, Fixity};

/// Which of two operators takes the operand between them.
#[derive(Clone, Copy, Debug, PartialEq, Eq)]
pub enum Sided {
    Left,
    Right,
    Neither,
}

/// `-` before an operand.
pub fn fixity_of_minus() -> Fixity
    ensures { result ≡ minus }
{
    Fixity {
        assoc: Assoc::Left,
        level: 6,
    }
}

/// Which of two operators takes the operand between them.
pub fn side_between(left: Fixity, right: Fixity) -> Sided
    ensures { side_at result ≡ side_of left right }
{
    if left.level > right.level {
        return Sided::Left;
    }
    if left.level < right.level {
        return Sided::Right;
    }
    match (left.assoc, right.assoc) {
        (Assoc::Left, Assoc::Left) => Sided::Left,
        (Assoc::Right, Assoc::Right) => Sided::Right,
        _ => Sided::Neither,
    }
}

/// The same where there may be no operator to the left.
pub fn side_within(outer: Option<Fixity>, right: Fixity) -> Sided
    ensures { side_at result ≡ side_in outer right }
{
    match outer {
        None => Sided::Right,
        Some(left) => side_between(left, right),
    }
}

/// Whether what an operator applies last may stand to the left of another.
pub fn fits_left(last: Option<Fixity>, right: Fixity) -> bool
    ensures { result ≡ fits_left last right }
{
    match last {
        None => true,
        Some(left) => match side_between(left, right) {
            Sided::Left => true,
            Sided::Right => false,
            Sided::Neither => false,
        },
    }
}

/// Whether what an operator applies last may stand behind another.
pub fn fits_right(last: Option<Fixity>, left: Fixity) -> bool
    ensures { result ≡ fits_right last left }
{
    match last {
        None => true,
        Some(right) => match side_between(left, right) {
            Sided::Left => false,
            Sided::Right => true,
            Sided::Neither => false,
        },
    }
}
