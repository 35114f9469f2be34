//! Surface trees of patterns, and of the names and literals in them.

use bp_base::{Bytes, Name};
use sqlite_items::{Boxed, Items};

/// A literal, as it is written.
#[derive(Debug, Drop)]
pub enum LiteralTree {
    Integer(Bytes),
    Char(Bytes),
    Text(Bytes),
}

/// `var`: a name, or a symbol in brackets (Haskell 2010 Report, section 3.2).
#[derive(Debug, Drop)]
pub enum VarTree {
    Id(Name),
    Sym(Name),
}

/// `gcon` (Haskell 2010 Report, section 3.2).
#[derive(Debug, Drop)]
pub enum GConTree {
    /// `()`
    Unit,
    /// `[]`
    List,
    /// A tuple's name, by its number of commas.
    Tuple(usize),
    Con(Name),
    /// A symbol in brackets.
    Sym(Name),
    /// `(:)`
    Colon,
}

/// `qconop` (Haskell 2010 Report, section 3.2).
#[derive(Debug, Drop)]
pub enum QConOpTree {
    Sym(Name),
    /// `:`
    Colon,
    /// A name between backquotes.
    Quoted(Name),
}

/// `pat = lpat {qconop lpat}` (Haskell 2010 Report, section 3.17.1).
#[cycle(patterns)]
#[derive(Debug, Drop)]
pub struct PatTree {
    pub first: LPatTree,
    pub rest: Items<OpLPat>,
}

/// `qconop lpat`
#[cycle(patterns)]
#[derive(Debug, Drop)]
pub struct OpLPat {
    pub op: QConOpTree,
    pub pat: LPatTree,
}

/// `lpat = "-" integer | gcon apat {apat} | apat`
#[cycle(patterns)]
#[derive(Debug, Drop)]
pub enum LPatTree {
    Negative(Bytes),
    Apply(GConTree, APatTree, Items<APatTree>),
    APat(APatTree),
}

/// `apat`
#[cycle(patterns)]
#[derive(Debug, Drop)]
pub enum APatTree {
    Var(VarTree),
    /// `var "@" apat`
    As(VarTree, Boxed<APatTree>),
    /// `_`
    Wild,
    Con(GConTree),
    Literal(LiteralTree),
    /// Round brackets about one pattern, or a tuple.
    Parts(Boxed<PatTree>, Items<PatTree>),
    /// Patterns between square brackets.
    List(Boxed<PatTree>, Items<PatTree>),
    /// `"~" apat`
    Lazy(Boxed<APatTree>),
}
