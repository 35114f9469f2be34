//! A plain module: it imports nothing, and each of its values has a type made of `Int` and arrows, and one clause.
use bp_base::{Name, Names};
use sqlite_items::Items;

/// A part of an application.
#[derive(Debug, Drop)]
pub enum Atom {
    /// A number of type `Int`.
    Number { value: u64 },
    /// An argument of the clause.
    Argument { occ: Name },
    /// A value that the module declares.
    Declared { occ: Name },
}

/// Atoms in the order of the source.
pub type Atoms = Items<Atom>;

/// A value: its type signature `occ :: Int -> Int` and its clause `occ a = f a 1`.
#[derive(Debug, Drop)]
pub struct Binding {
    pub occ: Name,
    /// How many arrows stand in its type, each between two times `Int`.
    pub arrows: u64,
    /// The arguments of its clause.
    pub args: Names,
    /// The right side: the first atom applied to the others.
    pub atoms: Atoms,
}

/// Bindings in the order of the source.
pub type Bindings = Items<Binding>;

/// A module without imports.
#[derive(Debug, Drop)]
pub struct PlainModule {
    pub name: Name,
    pub bindings: Bindings,
}
