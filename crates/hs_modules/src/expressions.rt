//! Surface trees of expressions, alternatives, guards, right sides and declarations.

use crate::declarations::Fixity;
use crate::names::{OpTree, QOpTree, QVarTree, VarOpTree};
use bp_base::Bytes;
use hs_trees::{APatTree, GConTree, LPatTree, LiteralTree, PatTree, TypeTree, VarTree};
use sqlite_items::{Boxed, Items};

/// `exp = infix ["::" type]` (Haskell 2010 Report, sections 3 and 3.16).
#[cycle(expressions)]
#[derive(Drop)]
pub enum ExpTree {
    Infix(InfixTree),
    /// `infix "::" type`
    Annotated(InfixTree, TypeTree),
}

/// `infix = ["-"] operand {qop ["-"] operand}` (Haskell 2010 Report, section 3.4).
#[cycle(expressions)]
#[derive(Drop)]
pub struct InfixTree {
    pub first: SignedOperand,
    pub rest: Items<OpOperand>,
}

/// `["-"] operand`
#[cycle(expressions)]
#[derive(Drop)]
pub struct SignedOperand {
    pub negated: bool,
    pub operand: OperandTree,
}

/// `qop ["-"] operand`
#[cycle(expressions)]
#[derive(Drop)]
pub struct OpOperand {
    pub op: QOpTree,
    pub operand: SignedOperand,
}

/// `operand = lambda | let | if | case | aexp {aexp}`
#[cycle(expressions)]
#[derive(Drop)]
pub enum OperandTree {
    Lambda(LambdaTree),
    Let(LetTree),
    If(IfTree),
    Case(CaseTree),
    /// `aexp {aexp}` (Haskell 2010 Report, section 3.3).
    Apply(AExpTree, Items<AExpTree>),
}

/// `lambda = "\" apat {apat} "->" exp` (Haskell 2010 Report, section 3.3).
#[cycle(expressions)]
#[derive(Drop)]
pub struct LambdaTree {
    pub first: APatTree,
    pub rest: Items<APatTree>,
    pub body: Boxed<ExpTree>,
}

/// `let = "let" block(decl) "in" exp` (Haskell 2010 Report, section 3.12).
#[cycle(expressions)]
#[derive(Drop)]
pub struct LetTree {
    pub decls: DeclBlock,
    pub body: Boxed<ExpTree>,
}

/// `if = "if" exp "then" exp "else" exp` (Haskell 2010 Report, section 3.6).
#[cycle(expressions)]
#[derive(Drop)]
pub struct IfTree {
    pub test: Boxed<ExpTree>,
    pub then_part: Boxed<ExpTree>,
    pub else_part: Boxed<ExpTree>,
}

/// `case = "case" exp "of" block(alt)` (Haskell 2010 Report, section 3.13).
#[cycle(expressions)]
#[derive(Drop)]
pub struct CaseTree {
    pub scrutinee: Boxed<ExpTree>,
    pub alts: AltBlock,
}

/// `aexp` (Haskell 2010 Report, sections 3.2, 3.5, 3.7, 3.8 and 3.9).
#[cycle(expressions)]
#[derive(Drop)]
pub enum AExpTree {
    Var(QVarTree),
    Con(GConTree),
    Literal(LiteralTree),
    /// Round brackets about one expression, or a tuple.
    Parts(Boxed<ExpTree>, Items<ExpTree>),
    /// Expressions between square brackets.
    List(Boxed<ExpTree>, Items<ExpTree>),
    /// `"(" infix qop ")"`
    LeftSection(Boxed<InfixTree>, QOpTree),
    /// `"(" qop infix ")"`
    RightSection(QOpTree, Boxed<InfixTree>),
}

/// `block(alt)`: what stands between its semicolons.
#[cycle(expressions)]
#[derive(Drop)]
pub struct AltBlock {
    pub first: Boxed<AltSlot>,
    pub rest: Items<AltSlot>,
}

/// What stands at a place of a block.
#[cycle(expressions)]
#[derive(Drop)]
pub enum AltSlot {
    NoAlt,
    Alt(AltTree),
}

/// `alt = pat ("->" exp | gda {gda}) ["where" block(decl)]` (Haskell 2010 Report, section 3.13).
#[cycle(expressions)]
#[derive(Drop)]
pub struct AltTree {
    pub pat: PatTree,
    pub body: AltBody,
    pub locals: Locals,
}

/// `"->" exp | gda {gda}`
#[cycle(expressions)]
#[derive(Drop)]
pub enum AltBody {
    Arrow(ExpTree),
    GuardedArrows(GdaTree, Items<GdaTree>),
}

/// `gda = "|" guard {"," guard} "->" exp` (Haskell 2010 Report, section 3.13).
#[cycle(expressions)]
#[derive(Drop)]
pub struct GdaTree {
    pub first: GuardTree,
    pub rest: Items<GuardTree>,
    pub exp: ExpTree,
}

/// `guard = pat "<-" infix | infix` (Haskell 2010 Report, section 3.13).
#[cycle(expressions)]
#[derive(Drop)]
pub enum GuardTree {
    Bind(PatTree, InfixTree),
    Test(InfixTree),
}

/// `block(decl)`: what stands between its semicolons.
#[cycle(expressions)]
#[derive(Drop)]
pub struct DeclBlock {
    pub first: Boxed<DeclSlot>,
    pub rest: Items<DeclSlot>,
}

/// What stands at a place of a block.
#[cycle(expressions)]
#[derive(Drop)]
pub enum DeclSlot {
    NoDecl,
    Decl(DeclTree),
}

/// `decl` (Haskell 2010 Report, section 4.4). A variable alone on the left is a pattern.
#[cycle(expressions)]
#[derive(Drop)]
pub enum DeclTree {
    /// `var {"," var} "::" type`
    Signature(VarTree, Items<VarTree>, TypeTree),
    /// `("infixl" | "infixr" | "infix") [digit] op {"," op}`; the digit as it is written.
    Fixity(Fixity, Option<Bytes>, OpTree, Items<OpTree>),
    /// `funlhs rhs`
    Function(FunLhsTree, RhsTree),
    /// `pat rhs`
    Pattern(PatTree, RhsTree),
}

/// `funlhs` (Haskell 2010 Report, section 4.4.3.1).
#[cycle(lefts)]
#[derive(Drop)]
pub enum FunLhsTree {
    /// `var apat {apat}`
    Prefix(VarTree, APatTree, Items<APatTree>),
    /// `lpat varop lpat`
    Infix(LPatTree, VarOpTree, LPatTree),
    /// `"(" funlhs ")" apat {apat}`
    Parens(Boxed<FunLhsTree>, APatTree, Items<APatTree>),
}

/// `rhs = ("=" exp | gd {gd}) ["where" block(decl)]` (Haskell 2010 Report, section 4.4.3).
#[cycle(expressions)]
#[derive(Drop)]
pub struct RhsTree {
    pub body: RhsBody,
    pub locals: Locals,
}

/// `"=" exp | gd {gd}`
#[cycle(expressions)]
#[derive(Drop)]
pub enum RhsBody {
    Equals(ExpTree),
    GuardedEquals(GdTree, Items<GdTree>),
}

/// `gd = "|" guard {"," guard} "=" exp` (Haskell 2010 Report, section 4.4.3.1).
#[cycle(expressions)]
#[derive(Drop)]
pub struct GdTree {
    pub first: GuardTree,
    pub rest: Items<GuardTree>,
    pub exp: ExpTree,
}

/// `["where" block(decl)]`
#[cycle(expressions)]
#[derive(Drop)]
pub enum Locals {
    Absent,
    Where(DeclBlock),
}
