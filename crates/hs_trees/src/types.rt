//! Surface trees of types and kinds.

use bp_base::Name;
use sqlite_items::{Boxed, Items};

/// `type = btype {"->" btype}` (Haskell 2010 Report, section 4.1.2).
#[cycle(types)]
#[derive(Debug, Drop)]
pub struct TypeTree {
    pub first: BTypeTree,
    pub rest: Items<BTypeTree>,
}

/// `btype = atype {atype}`
#[cycle(types)]
#[derive(Debug, Drop)]
pub struct BTypeTree {
    pub first: ATypeTree,
    pub rest: Items<ATypeTree>,
}

/// `atype`
#[cycle(types)]
#[derive(Debug, Drop)]
pub enum ATypeTree {
    /// `qtycon`
    Con(Name),
    /// `()`
    Unit,
    /// `[]`
    ListCon,
    /// `(->)`
    ArrowCon,
    /// A tuple's name, by its number of commas.
    TupleCon(usize),
    /// `tyvar`
    Var(Name),
    /// Round brackets about one type, or a tuple.
    Parts(Boxed<TypeTree>, Items<TypeTree>),
    /// `"[" type "]"`
    List(Boxed<TypeTree>),
}

/// `kind = akind ["->" kind]`, as the chain of its parts.
#[cycle(kinds)]
#[derive(Debug, Drop)]
pub struct KindTree {
    pub first: AKindTree,
    pub rest: Items<AKindTree>,
}

/// `akind = "*" | "(" kind ")"`
#[cycle(kinds)]
#[derive(Debug, Drop)]
pub enum AKindTree {
    Star,
    Parens(Boxed<KindTree>),
}
