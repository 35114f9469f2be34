//! Declarations of blocks (Haskell 2010 Report, section 4.4), of operands and blocks that readers are given for.
ghost use Rattle.std.specs.Prelude.{◌≡◌, ◌<◌, length};
ghost use Rattle.hs_forms.specs.Answers.{Rejects};
ghost use Rattle.hs_readers.specs.Answers.{Answers};
ghost use Rattle.hs_expression_forms.specs.Trees.{sort_of, within};
ghost use Rattle.hs_expression_forms.specs.Expressions.{decl_blocks, operands};
ghost use Rattle.hs_declaration_forms.specs.Typings.{plain_decls};
ghost use Rattle.hs_binding_forms.specs.Bindings.{binding_of, bindings, decls};

use hs_blocks::read_rhs;
use hs_forms::Fault;
use hs_left_forms::LeftSide;
use hs_left_sides::read_left_side;
use hs_modules::{DeclBlock, DeclTree, OperandTree, RhsTree};
use hs_readers::Read;
use hs_tokens::Terminal;
use hs_typings::read_plain_decl;
use std::alloc::Global;

/// What is bound by a left side and a right one.
fn binding_of(left: LeftSide, right: RhsTree) -> DeclTree
    ensures { result ≡ binding_of (left, right) }
{
    match left {
        LeftSide::Function(function) => DeclTree::Function(function, right),
        LeftSide::Pattern(pattern) => DeclTree::Pattern(pattern, right),
    }
}

/// `funlhs rhs | pat rhs`, up to the `;` or `}` behind it.
pub fn read_binding<
    'a,
    F: Fn(&[Terminal], Option<usize>) -> Result<Read<'_, OperandTree>, Fault>,
    D: Fn(&[Terminal], Option<usize>) -> Result<Read<'_, DeclBlock>, Fault>,
>(
    alloc: Global,
    tokens: &'a [Terminal],
    limit: Option<usize>,
    operand: &F,
    block: &D,
) -> Result<Read<'a, DeclTree>, Fault>
    requires may { (here : _) (l : _) → length here.now < length tokens.now → F.pre operand.now here l }
    requires says { (here : _) (l : _) (r : _) → F.post operand.now here l r → Answers (sort_of operands l) here.now r }
    requires may_decls { (here : _) (l : _) → length here.now < length tokens.now → D.pre block.now here l }
    requires says_decls { (here : _) (l : _) (r : _) → D.post block.now here l r → Answers (sort_of decl_blocks l) here.now r }
    ensures { Answers (sort_of bindings limit) tokens.now result }
{
    let left = read_left_side(alloc, tokens, limit)?;
    let right = read_rhs(alloc, left.rest, limit, operand, block)?;
    Ok(Read {
        depth: left.depth.max(right.depth),
        rest: right.rest,
        tree: binding_of(left.tree, right.tree),
    })
}

/// What is bound, where no other declaration stands; such a one was refused with so many tokens left.
fn read_bound<
    'a,
    F: Fn(&[Terminal], Option<usize>) -> Result<Read<'_, OperandTree>, Fault>,
    D: Fn(&[Terminal], Option<usize>) -> Result<Read<'_, DeclBlock>, Fault>,
>(
    alloc: Global,
    tokens: &'a [Terminal],
    limit: Option<usize>,
    operand: &F,
    block: &D,
    left: usize,
) -> Result<Read<'a, DeclTree>, Fault>
    requires refused { Rejects (within plain_decls limit) tokens.now left }
    requires may { (here : _) (l : _) → length here.now < length tokens.now → F.pre operand.now here l }
    requires says { (here : _) (l : _) (r : _) → F.post operand.now here l r → Answers (sort_of operands l) here.now r }
    requires may_decls { (here : _) (l : _) → length here.now < length tokens.now → D.pre block.now here l }
    requires says_decls { (here : _) (l : _) (r : _) → D.post block.now here l r → Answers (sort_of decl_blocks l) here.now r }
    ensures { Answers (sort_of decls limit) tokens.now result }
{
    match read_binding(alloc, tokens, limit, operand, block) {
        Ok(binding) => Ok(binding),
        Err(Fault::NoMemory) => Err(Fault::NoMemory),
        Err(Fault::At(right)) => Err(Fault::At(left.min(right))),
    }
}

/// `decl`, up to the `;` or `}` behind it.
pub fn read_decl<
    'a,
    F: Fn(&[Terminal], Option<usize>) -> Result<Read<'_, OperandTree>, Fault>,
    D: Fn(&[Terminal], Option<usize>) -> Result<Read<'_, DeclBlock>, Fault>,
>(
    alloc: Global,
    tokens: &'a [Terminal],
    limit: Option<usize>,
    operand: &F,
    block: &D,
) -> Result<Read<'a, DeclTree>, Fault>
    requires may { (here : _) (l : _) → length here.now < length tokens.now → F.pre operand.now here l }
    requires says { (here : _) (l : _) (r : _) → F.post operand.now here l r → Answers (sort_of operands l) here.now r }
    requires may_decls { (here : _) (l : _) → length here.now < length tokens.now → D.pre block.now here l }
    requires says_decls { (here : _) (l : _) (r : _) → D.post block.now here l r → Answers (sort_of decl_blocks l) here.now r }
    ensures { Answers (sort_of decls limit) tokens.now result }
{
    match read_plain_decl(alloc, tokens, limit) {
        Ok(plain) => Ok(plain),
        Err(Fault::NoMemory) => Err(Fault::NoMemory),
        Err(Fault::At(left)) => read_bound(alloc, tokens, limit, operand, block, left),
    }
}
