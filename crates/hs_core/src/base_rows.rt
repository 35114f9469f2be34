//! What `base` exports, as tables. These tables are this project's own; the names are those of the Haskell 2010 Report, chapter 9,
//! with types of this project.
use crate::base_rows::Argument::{Function, One};
use bp_base::{Assoc, Fixity};

/// A type that is no function type. Variables are numbered by first occurrence in the whole type.
#[derive(Clone, Copy, Debug)]
pub enum Atomic {
    Var { index: u64 },
    Bool,
    Char,
    Int,
    /// `[Char]`
    Text,
    /// `[a]`
    List { of: u64 },
    /// `[[a]]`
    Lists { of: u64 },
    /// `(a, b)`
    Pair { first: u64, second: u64 },
    /// `[(a, b)]`
    Pairs { first: u64, second: u64 },
    Maybe { of: u64 },
    Either { left: u64, right: u64 },
    Io { of: u64 },
    /// `IO ()`
    IoUnit,
}

/// An argument's type.
#[derive(Clone, Copy, Debug)]
pub enum Argument {
    One(Atomic),
    /// Of a function of these, which gives the last.
    Function(&'static [Atomic], Atomic),
}

/// A value: its name, its fixity, how many variables its type has, the types of its arguments, and what it gives.
#[derive(Clone, Copy, Debug)]
pub struct Row(
    pub &'static [u8],
    pub Fixity,
    pub u64,
    pub &'static [Argument],
    pub Atomic,
);

/// A constructor: its name, and its fields, each the parameter with this number.
#[derive(Clone, Copy, Debug)]
pub struct ConRow(pub &'static [u8], pub &'static [u64]);

/// A data type: its name, how many parameters it has, and its constructors.
#[derive(Clone, Copy, Debug)]
pub struct DataRow(pub &'static [u8], pub u64, pub &'static [ConRow]);

const A: Atomic = Atomic::Var { index: 0 };

const B: Atomic = Atomic::Var { index: 1 };

const C: Atomic = Atomic::Var { index: 2 };

const BOOL: Atomic = Atomic::Bool;

const CHAR: Atomic = Atomic::Char;

const INT: Atomic = Atomic::Int;

const TEXT: Atomic = Atomic::Text;

const LIST_A: Atomic = Atomic::List { of: 0 };

const LIST_B: Atomic = Atomic::List { of: 1 };

const LISTS_A: Atomic = Atomic::Lists { of: 0 };

const PAIR: Atomic = Atomic::Pair {
    first: 0,
    second: 1,
};

const PAIRS: Atomic = Atomic::Pairs {
    first: 0,
    second: 1,
};

const MAYBE_B: Atomic = Atomic::Maybe { of: 1 };

const EITHER_A_C: Atomic = Atomic::Either { left: 0, right: 2 };

const IO_A: Atomic = Atomic::Io { of: 0 };

const IO_B: Atomic = Atomic::Io { of: 1 };

const IO_UNIT: Atomic = Atomic::IoUnit;

const INFIXL_1: Fixity = Fixity {
    assoc: Assoc::Left,
    level: 1,
};

const INFIXL_6: Fixity = Fixity {
    assoc: Assoc::Left,
    level: 6,
};

const INFIXL_7: Fixity = Fixity {
    assoc: Assoc::Left,
    level: 7,
};

const INFIXL_9: Fixity = Fixity {
    assoc: Assoc::Left,
    level: 9,
};

const INFIXR_0: Fixity = Fixity {
    assoc: Assoc::Right,
    level: 0,
};

const INFIXR_2: Fixity = Fixity {
    assoc: Assoc::Right,
    level: 2,
};

const INFIXR_3: Fixity = Fixity {
    assoc: Assoc::Right,
    level: 3,
};

const INFIXR_5: Fixity = Fixity {
    assoc: Assoc::Right,
    level: 5,
};

const INFIXR_9: Fixity = Fixity {
    assoc: Assoc::Right,
    level: 9,
};

const INFIX_4: Fixity = Fixity {
    assoc: Assoc::Neither,
    level: 4,
};

/// The data types, in byte order.
pub const DATA_TYPES: [DataRow; 6] = [
    DataRow(b"Bool", 0, &[ConRow(b"False", &[]), ConRow(b"True", &[])]),
    DataRow(b"Char", 0, &[]),
    DataRow(
        b"Either",
        2,
        &[ConRow(b"Left", &[0]), ConRow(b"Right", &[1])],
    ),
    DataRow(b"IO", 1, &[]),
    DataRow(b"Int", 0, &[]),
    DataRow(
        b"Maybe",
        1,
        &[ConRow(b"Nothing", &[]), ConRow(b"Just", &[0])],
    ),
];

/// The values, in byte order.
pub const VALUES: [Row; 57] = [
    Row(b"!!", INFIXL_9, 1, &[One(LIST_A), One(INT)], A),
    Row(b"$", INFIXR_0, 2, &[Function(&[A], B), One(A)], B),
    Row(b"&&", INFIXR_3, 0, &[One(BOOL), One(BOOL)], BOOL),
    Row(b"*", INFIXL_7, 0, &[One(INT), One(INT)], INT),
    Row(b"+", INFIXL_6, 0, &[One(INT), One(INT)], INT),
    Row(b"++", INFIXR_5, 1, &[One(LIST_A), One(LIST_A)], LIST_A),
    Row(b"-", INFIXL_6, 0, &[One(INT), One(INT)], INT),
    Row(
        b".",
        INFIXR_9,
        3,
        &[Function(&[A], B), Function(&[C], A), One(C)],
        B,
    ),
    Row(b"/=", INFIX_4, 0, &[One(INT), One(INT)], BOOL),
    Row(b"<", INFIX_4, 0, &[One(INT), One(INT)], BOOL),
    Row(b"<=", INFIX_4, 0, &[One(INT), One(INT)], BOOL),
    Row(b"==", INFIX_4, 0, &[One(INT), One(INT)], BOOL),
    Row(b">", INFIX_4, 0, &[One(INT), One(INT)], BOOL),
    Row(b">=", INFIX_4, 0, &[One(INT), One(INT)], BOOL),
    Row(b">>", INFIXL_1, 2, &[One(IO_A), One(IO_B)], IO_B),
    Row(
        b">>=",
        INFIXL_1,
        2,
        &[One(IO_A), Function(&[A], IO_B)],
        IO_B,
    ),
    Row(b"abs", INFIXL_9, 0, &[One(INT)], INT),
    Row(b"chr", INFIXL_9, 0, &[One(INT)], CHAR),
    Row(b"concat", INFIXL_9, 1, &[One(LISTS_A)], LIST_A),
    Row(b"const", INFIXL_9, 2, &[One(A), One(B)], A),
    Row(
        b"curry",
        INFIXL_9,
        3,
        &[Function(&[PAIR], C), One(A), One(B)],
        C,
    ),
    Row(b"div", INFIXL_7, 0, &[One(INT), One(INT)], INT),
    Row(b"drop", INFIXL_9, 1, &[One(INT), One(LIST_A)], LIST_A),
    Row(
        b"either",
        INFIXL_9,
        3,
        &[Function(&[A], B), Function(&[C], B), One(EITHER_A_C)],
        B,
    ),
    Row(b"eqChar", INFIXL_9, 0, &[One(CHAR), One(CHAR)], BOOL),
    Row(b"error", INFIXL_9, 1, &[One(TEXT)], A),
    Row(
        b"filter",
        INFIXL_9,
        1,
        &[Function(&[A], BOOL), One(LIST_A)],
        LIST_A,
    ),
    Row(
        b"flip",
        INFIXL_9,
        3,
        &[Function(&[A, B], C), One(B), One(A)],
        C,
    ),
    Row(
        b"foldl",
        INFIXL_9,
        2,
        &[Function(&[A, B], A), One(A), One(LIST_B)],
        A,
    ),
    Row(
        b"foldr",
        INFIXL_9,
        2,
        &[Function(&[A, B], B), One(B), One(LIST_A)],
        B,
    ),
    Row(b"fst", INFIXL_9, 2, &[One(PAIR)], A),
    Row(b"head", INFIXL_9, 1, &[One(LIST_A)], A),
    Row(b"id", INFIXL_9, 1, &[One(A)], A),
    Row(b"length", INFIXL_9, 1, &[One(LIST_A)], INT),
    Row(
        b"map",
        INFIXL_9,
        2,
        &[Function(&[A], B), One(LIST_A)],
        LIST_B,
    ),
    Row(
        b"maybe",
        INFIXL_9,
        2,
        &[One(A), Function(&[B], A), One(MAYBE_B)],
        A,
    ),
    Row(b"mod", INFIXL_7, 0, &[One(INT), One(INT)], INT),
    Row(b"negate", INFIXL_9, 0, &[One(INT)], INT),
    Row(b"not", INFIXL_9, 0, &[One(BOOL)], BOOL),
    Row(b"null", INFIXL_9, 1, &[One(LIST_A)], BOOL),
    Row(b"ord", INFIXL_9, 0, &[One(CHAR)], INT),
    Row(b"otherwise", INFIXL_9, 0, &[], BOOL),
    Row(b"putStr", INFIXL_9, 0, &[One(TEXT)], IO_UNIT),
    Row(b"putStrLn", INFIXL_9, 0, &[One(TEXT)], IO_UNIT),
    Row(b"quot", INFIXL_7, 0, &[One(INT), One(INT)], INT),
    Row(b"rem", INFIXL_7, 0, &[One(INT), One(INT)], INT),
    Row(b"return", INFIXL_9, 1, &[One(A)], IO_A),
    Row(b"reverse", INFIXL_9, 1, &[One(LIST_A)], LIST_A),
    Row(b"seq", INFIXR_0, 2, &[One(A), One(B)], B),
    Row(b"show", INFIXL_9, 0, &[One(INT)], TEXT),
    Row(b"snd", INFIXL_9, 2, &[One(PAIR)], B),
    Row(b"tail", INFIXL_9, 1, &[One(LIST_A)], LIST_A),
    Row(b"take", INFIXL_9, 1, &[One(INT), One(LIST_A)], LIST_A),
    Row(
        b"uncurry",
        INFIXL_9,
        3,
        &[Function(&[A, B], C), One(PAIR)],
        C,
    ),
    Row(b"undefined", INFIXL_9, 1, &[], A),
    Row(b"zip", INFIXL_9, 2, &[One(LIST_A), One(LIST_B)], PAIRS),
    Row(b"||", INFIXR_2, 0, &[One(BOOL), One(BOOL)], BOOL),
];
