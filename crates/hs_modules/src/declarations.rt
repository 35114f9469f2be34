//! Surface trees of the declarations that stand in modules and signatures alone.

use crate::expressions::DeclTree;
use crate::module::ImpDeclTree;
use crate::names::{ConOpTree, ConTree};
use bp_base::{Name, Names};
use hs_trees::{ATypeTree, BTypeTree, KindTree, TypeTree};
use sqlite_items::Items;

/// The word of a fixity declaration (Haskell 2010 Report, section 4.4.2).
#[derive(Clone, Copy)]
pub enum Fixity {
    /// `infixl`
    Left,
    /// `infixr`
    Right,
    /// `infix`
    Neither,
}

/// `topdecl` (Haskell 2010 Report, section 4).
#[derive(Drop)]
pub enum TopDeclTree {
    /// `"data" tycon {tyvar}`
    EmptyData(Name, Names),
    /// `"data" tycon {tyvar} "=" constr {"|" constr}` (Haskell 2010 Report, section 4.2.1).
    Data(Name, Names, ConstrTree, Items<ConstrTree>),
    /// `"newtype" tycon {tyvar} "=" con atype` (Haskell 2010 Report, section 4.2.3).
    Newtype(Name, Names, ConTree, ATypeTree),
    /// `"type" tycon {tyvar} "=" type` (Haskell 2010 Report, section 4.2.2).
    Synonym(Name, Names, TypeTree),
    Decl(DeclTree),
}

/// `constr` (Haskell 2010 Report, section 4.2.1).
#[derive(Drop)]
pub enum ConstrTree {
    /// `con {["!"] atype}`
    Prefix(ConTree, Items<Field>),
    /// `(btype | "!" atype) conop (btype | "!" atype)`
    Infix(ConstrSide, ConOpTree, ConstrSide),
}

/// `["!"] atype`
#[derive(Drop)]
pub struct Field {
    pub strict: bool,
    pub atype: ATypeTree,
}

/// `btype | "!" atype`
#[derive(Drop)]
pub enum ConstrSide {
    Lazy(BTypeTree),
    Strict(ATypeTree),
}

/// `sigdecl`: what stands in a signature (Yang 2017, "Backpack: Towards Practical Mix-in Linking for Haskell").
#[derive(Drop)]
pub enum SigDeclTree {
    /// A `topdecl` that binds nothing.
    Top(TopDeclTree),
    /// `"data" tycon "::" kind`
    Kinded(Name, KindTree),
}

/// A block of imports and then declarations: what stands between its semicolons.
#[derive(Drop)]
pub struct TopBlock {
    pub first: TopSlot,
    pub rest: Items<TopSlot>,
}

/// What stands at a place of a module's block.
#[derive(Drop)]
pub enum TopSlot {
    Empty,
    Import(ImpDeclTree),
    Decl(TopDeclTree),
}

/// A signature's block: what stands between its semicolons.
#[derive(Drop)]
pub struct SigBlock {
    pub first: SigSlot,
    pub rest: Items<SigSlot>,
}

/// What stands at a place of a signature's block.
#[derive(Drop)]
pub enum SigSlot {
    Empty,
    Import(ImpDeclTree),
    Decl(SigDeclTree),
}
