//! The syntax of Haskell sources: tokens, surface trees, and how many nodes a tree has and how deep it is.
#![tactic(auto)]

pub use hs_modules::{
    AExpTree, AltBlock, AltBody, AltSlot, AltTree, CNameTree, CaseTree, ConOpTree, ConTree,
    ConstrSide, ConstrTree, DeclBlock, DeclSlot, DeclTree, ExpTree, ExportTree, ExportsTree, Field,
    Fixity, FunLhsTree, GdTree, GdaTree, GuardTree, IfTree, ImpDeclTree, ImportList, InfixTree,
    ItemTree, LambdaTree, LetTree, Locals, Module, OpOperand, OpTree, OperandTree, QOpTree,
    QVarTree, RhsBody, RhsTree, SigBlock, SigDeclTree, SigSlot, SignedOperand, SubsTree, TopBlock,
    TopDeclTree, TopSlot, VarOpTree, depth, size,
};
pub use hs_tokens::{Token, TokenKind, Tokens};
pub use hs_trees::{
    AKindTree, APatTree, ATypeTree, BTypeTree, GConTree, KindTree, LPatTree, LiteralTree, OpLPat,
    PatTree, QConOpTree, TypeTree, VarTree,
};
