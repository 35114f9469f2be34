//! Operands of a chain (Haskell 2010 Report, sections 3.3, 3.6, 3.12 and 3.13).
ghost use Rattle.std.specs.Prelude.{◌≡◌, ◌∷◌, ◌+◌, ◌<◌, ◌≤◌, ◌^◌, ℕ, Option, length, true, IfOk};
ghost use Rattle.hs_forms.specs.Reading.{begins};
ghost use Rattle.hs_forms.specs.Limits.{Within, lowered};
ghost use Rattle.hs_tokens.specs.declared.terminal.Terminal.TheVariants.{Backslash, Word};
ghost use Rattle.hs_tokens.specs.declared.word.Word.TheVariants as w;
ghost use Rattle.hs_readers.specs.Answers.{Answers};
ghost use Rattle.hs_expression_forms.specs.Trees.{Took, sort_of};
ghost use Rattle.hs_expression_forms.specs.Expressions.{alt_blocks, decl_blocks, exps, operands, starts_aexp};
ghost use Rattle.hs_expression_forms.proofs.OperandLayerLemmas.{make_apply, make_if, make_lambda, make_let};

use crate::lists::read_arguments;
use hs_expressions::{
    after_backslash, after_case, after_else, after_if, after_in, after_let, after_of, after_then,
    begins_aexp, read_exp,
};
use hs_forms::Fault;
use hs_modules::{
    AExpTree, AltBlock, CaseTree, DeclBlock, ExpTree, IfTree, LambdaTree, LetTree, OperandTree,
};
use hs_readers::{Read, after_arrow, allows, lower, read_apats};
use hs_tokens::Terminal;
use hs_trees::APatTree;
use sqlite_items::{Boxed, Items};
use std::alloc::{AllocError, Global};

/// A lambda of these patterns and this body.
fn lambda_of(
    alloc: Global,
    pats: (APatTree, Items<APatTree>),
    body: ExpTree,
) -> Result<OperandTree, AllocError>
    ensures { IfOk result (λ tree. tree ≡ make_lambda (pats, body)) }
{
    let (first, rest) = pats;
    let body = Boxed::new(alloc, body)?;
    Ok(OperandTree::Lambda(LambdaTree { first, rest, body }))
}

/// A `let` of these declarations and this body.
fn let_of(alloc: Global, decls: DeclBlock, body: ExpTree) -> Result<OperandTree, AllocError>
    ensures { IfOk result (λ tree. tree ≡ make_let (decls, body)) }
{
    let body = Boxed::new(alloc, body)?;
    Ok(OperandTree::Let(LetTree { decls, body }))
}

/// An `if` of these three expressions.
fn if_of(
    alloc: Global,
    test: ExpTree,
    then_part: ExpTree,
    else_part: ExpTree,
) -> Result<OperandTree, AllocError>
    ensures { IfOk result (λ tree. tree ≡ make_if (test, (then_part, else_part))) }
{
    let test = Boxed::new(alloc, test)?;
    let then_part = Boxed::new(alloc, then_part)?;
    let else_part = Boxed::new(alloc, else_part)?;
    Ok(OperandTree::If(IfTree {
        test,
        then_part,
        else_part,
    }))
}

/// A function and its arguments as an operand.
fn applied(parts: (AExpTree, Items<AExpTree>)) -> OperandTree
    ensures { result ≡ make_apply parts }
{
    let (function, arguments) = parts;
    OperandTree::Apply(function, arguments)
}

/// `"\" apat {apat} "->" exp`, after its `\`.
pub fn read_lambda<'a, F: Fn(&[Terminal], Option<usize>) -> Result<Read<'_, OperandTree>, Fault>>(
    alloc: Global,
    tokens: &'a [Terminal],
    limit: Option<usize>,
    operand: &F,
) -> Result<Read<'a, OperandTree>, Fault>
    requires may { (here : _) (l : _) → length here.now ≤ length tokens.now → F.pre operand.now here l }
    requires says { (here : _) (l : _) (r : _) → F.post operand.now here l r → Answers (sort_of operands l) here.now r }
    ensures { Answers (sort_of operands limit) (Backslash ∷ tokens.now) result }
{
    if !allows(limit, 1) {
        return Err(Fault::At(tokens.len() + 1));
    }
    let below = lower(limit, 1);
    let pats = read_apats(alloc, tokens, below)?;
    let Some(next) = after_arrow(pats.rest) else {
        return Err(Fault::At(pats.rest.len()));
    };
    let exp = read_exp(alloc, next, below, operand)?;
    let tree = lambda_of(alloc, pats.tree, exp.tree)?;
    Ok(Read {
        tree,
        rest: exp.rest,
        depth: pats.depth.max(exp.depth) + 1,
    })
}

/// `"let" block(decl) "in" exp`, after its `let`.
pub fn read_let<
    'a,
    F: Fn(&[Terminal], Option<usize>) -> Result<Read<'_, OperandTree>, Fault>,
    D: Fn(&[Terminal], Option<usize>) -> Result<Read<'_, DeclBlock>, Fault>,
>(
    alloc: Global,
    tokens: &'a [Terminal],
    limit: Option<usize>,
    operand: &F,
    block: &D,
) -> Result<Read<'a, OperandTree>, Fault>
    requires may { (here : _) (l : _) → length here.now ≤ length tokens.now → F.pre operand.now here l }
    requires says { (here : _) (l : _) (r : _) → F.post operand.now here l r → Answers (sort_of operands l) here.now r }
    requires may_decls { (here : _) (l : _) → length here.now ≤ length tokens.now → D.pre block.now here l }
    requires says_decls { (here : _) (l : _) (r : _) → D.post block.now here l r → Answers (sort_of decl_blocks l) here.now r }
    ensures { Answers (sort_of operands limit) (Word w.Let ∷ tokens.now) result }
{
    if !allows(limit, 1) {
        return Err(Fault::At(tokens.len() + 1));
    }
    let below = lower(limit, 1);
    let decls = block(tokens, below)?;
    let Some(next) = after_in(decls.rest) else {
        return Err(Fault::At(decls.rest.len()));
    };
    let exp = read_exp(alloc, next, below, operand)?;
    let tree = let_of(alloc, decls.tree, exp.tree)?;
    Ok(Read {
        tree,
        rest: exp.rest,
        depth: decls.depth.max(exp.depth) + 1,
    })
}

/// `"if" exp "then" exp "else" exp`, after its `if`.
pub fn read_if<'a, F: Fn(&[Terminal], Option<usize>) -> Result<Read<'_, OperandTree>, Fault>>(
    alloc: Global,
    tokens: &'a [Terminal],
    limit: Option<usize>,
    operand: &F,
) -> Result<Read<'a, OperandTree>, Fault>
    requires may { (here : _) (l : _) → length here.now ≤ length tokens.now → F.pre operand.now here l }
    requires says { (here : _) (l : _) (r : _) → F.post operand.now here l r → Answers (sort_of operands l) here.now r }
    ensures { Answers (sort_of operands limit) (Word w.If ∷ tokens.now) result }
{
    if !allows(limit, 1) {
        return Err(Fault::At(tokens.len() + 1));
    }
    let below = lower(limit, 1);
    let test = read_exp(alloc, tokens, below, operand)?;
    let Some(next) = after_then(test.rest) else {
        return Err(Fault::At(test.rest.len()));
    };
    let yes = read_exp(alloc, next, below, operand)?;
    let Some(last) = after_else(yes.rest) else {
        return Err(Fault::At(yes.rest.len()));
    };
    let no = read_exp(alloc, last, below, operand)?;
    let depth = test.depth.max(yes.depth.max(no.depth)) + 1;
    let tree = if_of(alloc, test.tree, yes.tree, no.tree)?;
    Ok(Read {
        tree,
        rest: no.rest,
        depth,
    })
}

/// The `case` of this expression and of the alternatives behind its `of`.
fn case_of<'a>(
    alloc: Global,
    exp: Read<'_, ExpTree>,
    alts: Read<'a, AltBlock>,
) -> Result<Read<'a, OperandTree>, Fault>
    requires few { exp.depth + 1 < 2 ^ 64 }
    requires small { alts.depth + 1 < 2 ^ 64 }
    ensures { (limit : Option ℕ) (ts next : _) → Within limit 1 → Took exps (lowered limit 1) ts exp.entry.tree exp.entry.rest.now exp.entry.depth → exp.entry.rest.now ≡ Word w.Of ∷ next → Took alt_blocks (lowered limit 1) next alts.entry.tree alts.entry.rest.now alts.entry.depth → Answers (sort_of operands limit) (Word w.Case ∷ ts) result }
{
    let scrutinee = Boxed::new(alloc, exp.tree)?;
    Ok(Read {
        tree: OperandTree::Case(CaseTree {
            scrutinee,
            alts: alts.tree,
        }),
        rest: alts.rest,
        depth: exp.depth.max(alts.depth) + 1,
    })
}

/// The alternatives behind the `of` of a `case`, and the `case` of them.
fn read_alts<'a, A: Fn(&[Terminal], Option<usize>) -> Result<Read<'_, AltBlock>, Fault>>(
    alloc: Global,
    exp: Read<'_, ExpTree>,
    tokens: &'a [Terminal],
    limit: Option<usize>,
    block: &A,
) -> Result<Read<'a, OperandTree>, Fault>
    requires few { exp.depth + 1 < 2 ^ 64 }
    requires may_alts { (here : _) (l : _) → length here.now ≤ length tokens.now → A.pre block.now here l }
    requires says_alts { (here : _) (l : _) (r : _) → A.post block.now here l r → Answers (sort_of alt_blocks l) here.now r }
    ensures { (ts : _) → Within limit 1 → Took exps (lowered limit 1) ts exp.entry.tree exp.entry.rest.now exp.entry.depth → exp.entry.rest.now ≡ Word w.Of ∷ tokens.now → Answers (sort_of operands limit) (Word w.Case ∷ ts) result }
{
    let alts = block(tokens, lower(limit, 1))?;
    case_of(alloc, exp, alts)
}

/// What stands behind the expression of a `case`, and the `case` of both.
fn read_of<'a, A: Fn(&[Terminal], Option<usize>) -> Result<Read<'_, AltBlock>, Fault>>(
    alloc: Global,
    exp: Read<'a, ExpTree>,
    limit: Option<usize>,
    block: &A,
) -> Result<Read<'a, OperandTree>, Fault>
    requires few { exp.depth + 1 < 2 ^ 64 }
    requires may_alts { (here : _) (l : _) → length here.now ≤ length exp.rest.now → A.pre block.now here l }
    requires says_alts { (here : _) (l : _) (r : _) → A.post block.now here l r → Answers (sort_of alt_blocks l) here.now r }
    ensures { (ts : _) → Within limit 1 → Took exps (lowered limit 1) ts exp.entry.tree exp.entry.rest.now exp.entry.depth → Answers (sort_of operands limit) (Word w.Case ∷ ts) result }
{
    match after_of(exp.rest) {
        Some(next) => read_alts(alloc, exp, next, limit, block),
        None => Err(Fault::At(exp.rest.len())),
    }
}

/// `"case" exp "of" block(alt)`, after its `case`.
pub fn read_case<
    'a,
    F: Fn(&[Terminal], Option<usize>) -> Result<Read<'_, OperandTree>, Fault>,
    A: Fn(&[Terminal], Option<usize>) -> Result<Read<'_, AltBlock>, Fault>,
>(
    alloc: Global,
    tokens: &'a [Terminal],
    limit: Option<usize>,
    operand: &F,
    block: &A,
) -> Result<Read<'a, OperandTree>, Fault>
    requires may { (here : _) (l : _) → length here.now ≤ length tokens.now → F.pre operand.now here l }
    requires says { (here : _) (l : _) (r : _) → F.post operand.now here l r → Answers (sort_of operands l) here.now r }
    requires may_alts { (here : _) (l : _) → length here.now ≤ length tokens.now → A.pre block.now here l }
    requires says_alts { (here : _) (l : _) (r : _) → A.post block.now here l r → Answers (sort_of alt_blocks l) here.now r }
    ensures { Answers (sort_of operands limit) (Word w.Case ∷ tokens.now) result }
{
    if !allows(limit, 1) {
        return Err(Fault::At(tokens.len() + 1));
    }
    let exp = read_exp(alloc, tokens, lower(limit, 1), operand)?;
    read_of(alloc, exp, limit, block)
}

/// `aexp {aexp}`
fn read_apply<'a, F: Fn(&[Terminal], Option<usize>) -> Result<Read<'_, OperandTree>, Fault>>(
    alloc: Global,
    tokens: &'a [Terminal],
    limit: Option<usize>,
    operand: &F,
) -> Result<Read<'a, OperandTree>, Fault>
    requires starts { begins starts_aexp tokens.now ≡ true }
    requires may { (here : _) (l : _) → length here.now < length tokens.now → F.pre operand.now here l }
    requires says { (here : _) (l : _) (r : _) → F.post operand.now here l r → Answers (sort_of operands l) here.now r }
    ensures { Answers (sort_of operands limit) tokens.now result }
{
    let read = read_arguments(alloc, tokens, limit, operand)?;
    Ok(Read {
        tree: applied(read.tree),
        rest: read.rest,
        depth: read.depth,
    })
}

/// `lambda | let | if | case | aexp {aexp}`
pub fn read_operand<
    'a,
    F: Fn(&[Terminal], Option<usize>) -> Result<Read<'_, OperandTree>, Fault>,
    D: Fn(&[Terminal], Option<usize>) -> Result<Read<'_, DeclBlock>, Fault>,
    A: Fn(&[Terminal], Option<usize>) -> Result<Read<'_, AltBlock>, Fault>,
>(
    alloc: Global,
    tokens: &'a [Terminal],
    limit: Option<usize>,
    operand: &F,
    decls: &D,
    alts: &A,
) -> Result<Read<'a, OperandTree>, Fault>
    requires may { (here : _) (l : _) → length here.now < length tokens.now → F.pre operand.now here l }
    requires says { (here : _) (l : _) (r : _) → F.post operand.now here l r → Answers (sort_of operands l) here.now r }
    requires may_decls { (here : _) (l : _) → length here.now < length tokens.now → D.pre decls.now here l }
    requires says_decls { (here : _) (l : _) (r : _) → D.post decls.now here l r → Answers (sort_of decl_blocks l) here.now r }
    requires may_alts { (here : _) (l : _) → length here.now < length tokens.now → A.pre alts.now here l }
    requires says_alts { (here : _) (l : _) (r : _) → A.post alts.now here l r → Answers (sort_of alt_blocks l) here.now r }
    ensures { Answers (sort_of operands limit) tokens.now result }
{
    if let Some(next) = after_backslash(tokens) {
        return read_lambda(alloc, next, limit, operand);
    }
    if let Some(next) = after_let(tokens) {
        return read_let(alloc, next, limit, operand, decls);
    }
    if let Some(next) = after_if(tokens) {
        return read_if(alloc, next, limit, operand);
    }
    if let Some(next) = after_case(tokens) {
        return read_case(alloc, next, limit, operand, alts);
    }
    if begins_aexp(tokens) {
        return read_apply(alloc, tokens, limit, operand);
    }
    Err(Fault::At(tokens.len()))
}
