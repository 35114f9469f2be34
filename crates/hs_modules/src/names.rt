//! Names and operators as they are written (Haskell 2010 Report, section 3.2).

use bp_base::Name;
use hs_trees::QConOpTree;

/// `qvar`: a variable, or a symbol in brackets.
#[derive(Drop)]
pub enum QVarTree {
    Id(Name),
    /// A symbol in brackets.
    Sym(Name),
    /// A qualified name.
    QualifiedId(Name),
    /// A qualified symbol in brackets.
    QualifiedSym(Name),
}

/// `con`: a constructor's name, or a symbol in brackets, not qualified.
#[derive(Drop)]
pub enum ConTree {
    Id(Name),
    Sym(Name),
}

/// `varop`: a symbol, or a name between backquotes, not qualified.
#[derive(Drop)]
pub enum VarOpTree {
    Sym(Name),
    Quoted(Name),
}

/// `conop`: a symbol, or a name between backquotes, not qualified.
#[derive(Drop)]
pub enum ConOpTree {
    Sym(Name),
    Quoted(Name),
}

/// `op = varop | conop`
#[derive(Drop)]
pub enum OpTree {
    Var(VarOpTree),
    Con(ConOpTree),
}

/// `qop = qvarop | qconop`
#[derive(Drop)]
pub enum QOpTree {
    Sym(Name),
    /// A name between backquotes.
    Quoted(Name),
    QualifiedSym(Name),
    /// A qualified name between backquotes.
    QualifiedQuoted(Name),
    Con(QConOpTree),
}
