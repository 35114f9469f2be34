//! Surface trees of modules and signatures, and of their export and import lists.

use crate::declarations::{SigBlock, TopBlock};
use crate::names::{ConTree, QVarTree};
use bp_base::Name;
use hs_trees::VarTree;
use sqlite_items::Items;

/// `module` (Haskell 2010 Report, section 5.1) and `sig`.
#[derive(Drop)]
pub enum Module {
    /// Without a head.
    Headless(TopBlock),
    /// `"module" modid "where" block`
    Named(Name, TopBlock),
    /// `"module" modid exports "where" block`
    Exporting(Name, ExportsTree, TopBlock),
    /// `"signature" modid "where" block`
    Signature(Name, SigBlock),
}

/// `exports = "(" [export {"," export}] [","] ")"` (Haskell 2010 Report, section 5.2).
#[derive(Drop)]
pub struct ExportsTree {
    pub exports: Items<ExportTree>,
    /// Whether a comma stands before the closing bracket.
    pub trailing: bool,
}

/// `export` (Haskell 2010 Report, section 5.2).
#[derive(Drop)]
pub enum ExportTree {
    Var(QVarTree),
    /// `qtycon`
    Type(Name),
    /// `qtycon subs`
    TypeWith(Name, SubsTree),
    /// `"module" modid`
    Module(Name),
}

/// `subs`
#[derive(Drop)]
pub enum SubsTree {
    /// `"(" ".." ")"`
    All,
    /// `"(" [cname {"," cname}] ")"`
    Only(Items<CNameTree>),
}

/// `cname = var | con`
#[derive(Drop)]
pub enum CNameTree {
    Var(VarTree),
    Con(ConTree),
}

/// `impdecl` (Haskell 2010 Report, section 5.3).
#[derive(Drop)]
pub struct ImpDeclTree {
    pub qualified: bool,
    pub modid: Name,
    /// The name behind `as`.
    pub alias: Option<Name>,
    pub list: ImportList,
}

/// `[["hiding"] "(" [item {"," item}] [","] ")"]`; the `bool` says whether a comma stands before the closing bracket.
#[derive(Drop)]
pub enum ImportList {
    /// No list.
    Everything,
    Only(Items<ItemTree>, bool),
    Hiding(Items<ItemTree>, bool),
}

/// `item = var | tycon [subs]`
#[derive(Drop)]
pub enum ItemTree {
    Var(VarTree),
    /// `tycon`
    Type(Name),
    /// `tycon subs`
    TypeWith(Name, SubsTree),
}
