//! Surface trees of Haskell modules and signatures, how many nodes they have and how deep they are.
#![tactic(auto)]

mod declarations;
mod expressions;
mod measure;
mod measure_expressions;
mod measure_modules;
mod measure_patterns;
mod measure_types;
mod module;
mod names;
mod parts;

pub use declarations::{
    ConstrSide, ConstrTree, Field, Fixity, SigBlock, SigDeclTree, SigSlot, TopBlock, TopDeclTree,
    TopSlot,
};
pub use expressions::{
    AExpTree, AltBlock, AltBody, AltSlot, AltTree, CaseTree, DeclBlock, DeclSlot, DeclTree,
    ExpTree, FunLhsTree, GdTree, GdaTree, GuardTree, IfTree, InfixTree, LambdaTree, LetTree,
    Locals, OpOperand, OperandTree, RhsBody, RhsTree, SignedOperand,
};
pub use measure_modules::{depth, size};
pub use module::{
    CNameTree, ExportTree, ExportsTree, ImpDeclTree, ImportList, ItemTree, Module, SubsTree,
};
pub use names::{ConOpTree, ConTree, OpTree, QOpTree, QVarTree, VarOpTree};
pub use parts::{
    depth_of_decl, depth_of_kind, depth_of_pat, depth_of_type, size_of_decl, size_of_kind,
    size_of_pat, size_of_type,
};
