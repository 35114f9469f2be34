//! Chains of operators, and how they are read.
use bp_base::Fixity;
use sqlite_items::Boxed;
use std::alloc::AllocError;

/// An operator of a chain, by its place.
#[derive(Clone, Copy, Debug, PartialEq, Eq)]
pub struct Operator {
    pub index: usize,
    pub fixity: Fixity,
}

/// What stands in a chain: an operand by its place, a `-` before one, or an operator.
#[derive(Clone, Copy, Debug, PartialEq, Eq)]
pub enum Piece {
    Operand(usize),
    Minus,
    Operator(Operator),
}

/// A chain with its operators applied.
#[cycle(reading)]
#[derive(Debug, Drop)]
pub enum Reading {
    Operand(usize),
    Negate(Boxed<Reading>),
    Apply {
        operator: Operator,
        left: Boxed<Reading>,
        right: Boxed<Reading>,
    },
}

/// Why a chain is not read.
#[derive(Debug, Drop)]
pub enum ReadError {
    /// It has no reading that respects the fixities.
    NoReading,
    NoMemory,
}

impl From<AllocError> for ReadError {
    ghost use Rattle.std.specs.Prelude.{◌≡◌};
    ghost use Rattle.chain_readings.specs.declared.chain.ReadError.TheVariants.{NoMemory};

    ghost from_gives = { λ _ e. e ≡ NoMemory };

    fn from(_error: AllocError) -> ReadError {
        ReadError::NoMemory
    }
}
