//! Expressions in brackets, tuples, lists and sections (Haskell 2010 Report, sections 3.2, 3.5, 3.7, 3.8 and 3.9).
ghost use Rattle.std.specs.Prelude.{◌≡◌, ◌∷◌, ◌+◌, ◌<◌, ◌≤◌, ◌^◌, length, IfErr, IfOk, ℕ, Option, true, false};
ghost use Rattle.hs_forms.specs.Reading.{begins};
ghost use Rattle.hs_forms.specs.Limits.{Within, lowered};
ghost use Rattle.hs_forms.specs.declared.fault.Fault.TheVariants.{At};
ghost use Rattle.hs_tokens.specs.Terminals.{is_right_paren};
ghost use Rattle.hs_tokens.specs.declared.terminal.Terminal.TheVariants.{LeftBracket, LeftParen, RightParen};
ghost use Rattle.hs_readers.specs.Answers.{Answers};
ghost use Rattle.hs_trees.specs.Types.{starts_tuple_name};
ghost use Rattle.hs_trees.specs.Patterns.{named_con};
ghost use Rattle.hs_modules.specs.declared.expressions.AExpTree.TheVariants.{List, RightSection};
ghost use Rattle.hs_expression_forms.specs.Trees.{Took, sort_of};
ghost use Rattle.hs_expression_forms.specs.Expressions.{aexps, operands};
ghost use Rattle.hs_expression_forms.specs.Fronts.{Inside, bunch_of, bunches};
ghost use Rattle.hs_expression_forms.proofs.AExpLemmas.{make_inside};
ghost use Rattle.hs_operand_forms.specs.Brackets.{OpensInside, OpensSection, is_symbol};

use crate::leaf::{after_left_bracket, after_symbol, begins_backquote};
use crate::lists::{read_bunch, read_parts};
use crate::words::{named_symbol, read_word};
use hs_expression_forms::Front;
use hs_expressions::{begins_minus, read_infix, read_qop};
use hs_forms::Fault;
use hs_modules::{AExpTree, ExpTree, InfixTree, OperandTree, QOpTree};
use hs_readers::{
    Read, after_left_paren, after_right_bracket, after_right_paren, allows, begins_tuple_name,
    lower, read_tuple_name,
};
use hs_tokens::Terminal;
use hs_trees::GConTree;
use sqlite_items::{Boxed, Items};
use std::alloc::{AllocError, Global};

/// An `aexp`: a name, a literal, or what stands in brackets.
pub fn read_aexp<'a, F: Fn(&[Terminal], Option<usize>) -> Result<Read<'_, OperandTree>, Fault>>(
    alloc: Global,
    tokens: &'a [Terminal],
    limit: Option<usize>,
    operand: &F,
) -> Result<Read<'a, AExpTree>, Fault>
    requires may { (here : _) (l : _) → length here.now < length tokens.now → F.pre operand.now here l }
    requires says { (here : _) (l : _) (r : _) → F.post operand.now here l r → Answers (sort_of operands l) here.now r }
    ensures { Answers (sort_of aexps limit) tokens.now result }
{
    if let Some(next) = after_left_paren(tokens) {
        return read_paren(alloc, next, limit, operand);
    }
    if let Some(next) = after_left_bracket(tokens) {
        return read_bracket(alloc, next, limit, operand);
    }
    read_word(alloc, tokens)
}

/// The constructor that the name of the unit or of a tuple is.
fn named_con(commas: usize) -> GConTree
    ensures { result ≡ named_con commas }
{
    if commas == 0 {
        GConTree::Unit
    } else {
        GConTree::Tuple(commas)
    }
}

/// The name of the unit or of a tuple, after its `(`.
fn read_tuple(tokens: &[Terminal]) -> Result<Read<'_, AExpTree>, Fault>
    requires starts { begins starts_tuple_name tokens.now ≡ true }
    ensures { (limit : Option ℕ) → Answers (sort_of aexps limit) (LeftParen ∷ tokens.now) result }
{
    let name = read_tuple_name(tokens)?;
    Ok(Read {
        tree: AExpTree::Con(named_con(name.tree)),
        rest: name.rest,
        depth: name.depth,
    })
}

/// An `aexp` after its `(`.
fn read_paren<'a, F: Fn(&[Terminal], Option<usize>) -> Result<Read<'_, OperandTree>, Fault>>(
    alloc: Global,
    tokens: &'a [Terminal],
    limit: Option<usize>,
    operand: &F,
) -> Result<Read<'a, AExpTree>, Fault>
    requires may { (here : _) (l : _) → length here.now ≤ length tokens.now → F.pre operand.now here l }
    requires says { (here : _) (l : _) (r : _) → F.post operand.now here l r → Answers (sort_of operands l) here.now r }
    ensures { Answers (sort_of aexps limit) (LeftParen ∷ tokens.now) result }
{
    if begins_tuple_name(tokens) {
        return read_tuple(tokens);
    }
    if let Some((symbol, next)) = after_symbol(tokens) {
        return read_symbol(alloc, tokens, symbol, next, limit, operand);
    }
    read_nameless(alloc, tokens, limit, operand)
}

/// A symbol in brackets, or what begins with a symbol, after its `(`.
fn read_symbol<'a, F: Fn(&[Terminal], Option<usize>) -> Result<Read<'_, OperandTree>, Fault>>(
    alloc: Global,
    tokens: &'a [Terminal],
    symbol: &Terminal,
    next: &'a [Terminal],
    limit: Option<usize>,
    operand: &F,
) -> Result<Read<'a, AExpTree>, Fault>
    requires symbol { is_symbol symbol.now ≡ true }
    requires at { tokens.now ≡ symbol.now ∷ next.now }
    requires may { (here : _) (l : _) → length here.now ≤ length tokens.now → F.pre operand.now here l }
    requires says { (here : _) (l : _) (r : _) → F.post operand.now here l r → Answers (sort_of operands l) here.now r }
    ensures { Answers (sort_of aexps limit) (LeftParen ∷ tokens.now) result }
{
    if let Some(rest) = after_right_paren(next) {
        let tree = named_symbol(alloc, symbol)?;
        return Ok(Read {
            tree,
            rest,
            depth: 0,
        });
    }
    // As far as the symbol the tokens may be a name, so want of depth shows behind it.
    if begins_minus(tokens) {
        if !allows(limit, 2) {
            return Err(Fault::At(next.len()));
        }
        return read_inside(alloc, tokens, limit, operand);
    }
    if !allows(limit, 1) {
        return Err(Fault::At(next.len()));
    }
    read_section(alloc, tokens, limit, operand)
}

/// What is in round brackets and begins with no symbol, after its `(`.
fn read_nameless<'a, F: Fn(&[Terminal], Option<usize>) -> Result<Read<'_, OperandTree>, Fault>>(
    alloc: Global,
    tokens: &'a [Terminal],
    limit: Option<usize>,
    operand: &F,
) -> Result<Read<'a, AExpTree>, Fault>
    requires no_name { begins starts_tuple_name tokens.now ≡ false }
    requires no_symbol { begins is_symbol tokens.now ≡ false }
    requires may { (here : _) (l : _) → length here.now ≤ length tokens.now → F.pre operand.now here l }
    requires says { (here : _) (l : _) (r : _) → F.post operand.now here l r → Answers (sort_of operands l) here.now r }
    ensures { Answers (sort_of aexps limit) (LeftParen ∷ tokens.now) result }
{
    if begins_backquote(tokens) {
        if !allows(limit, 1) {
            return Err(Fault::At(tokens.len()));
        }
        return read_section(alloc, tokens, limit, operand);
    }
    if !allows(limit, 1) {
        return Err(Fault::At(tokens.len()));
    }
    read_inside(alloc, tokens, limit, operand)
}

/// What is in round brackets.
fn bracketed(alloc: Global, bunch: (Front, Items<ExpTree>)) -> Result<AExpTree, AllocError>
    ensures { (inside : Inside) → bunch_of inside ≡ bunch → IfOk result (λ tree. tree ≡ make_inside inside) }
{
    let (front, more) = bunch;
    match front {
        Front::Exp(exp) => {
            let first = Boxed::new(alloc, exp)?;
            Ok(AExpTree::Parts(first, more))
        }
        Front::Section(chain, op) => {
            let chain = Boxed::new(alloc, chain)?;
            Ok(AExpTree::LeftSection(chain, op))
        }
    }
}

/// A list of these expressions.
fn listed(alloc: Global, parts: (ExpTree, Items<ExpTree>)) -> Result<AExpTree, AllocError>
    ensures { IfOk result (λ tree. tree ≡ List parts.0 parts.1) }
{
    let (first, more) = parts;
    let first = Boxed::new(alloc, first)?;
    Ok(AExpTree::List(first, more))
}

/// A right section of this operator and chain.
fn sectioned(alloc: Global, op: QOpTree, chain: InfixTree) -> Result<AExpTree, AllocError>
    ensures { IfOk result (λ tree. tree ≡ RightSection op chain) }
{
    let chain = Boxed::new(alloc, chain)?;
    Ok(AExpTree::RightSection(op, chain))
}

/// A tree before a `)`, and what stands behind that.
fn before_right_paren<'a, T: Drop>(read: Read<'a, T>) -> Result<Read<'a, T>, Fault>
    ensures took { IfOk result (λ r. (r.tree ≡ read.entry.tree) × ((read.entry.rest.now ≡ RightParen ∷ r.rest.now) × (r.depth ≡ read.entry.depth))) }
    ensures missed { IfErr result (λ e. (e ≡ At (length read.entry.rest.now)) × (begins is_right_paren read.entry.rest.now ≡ false)) }
{
    match after_right_paren(read.rest) {
        Some(rest) => Ok(Read {
            tree: read.tree,
            rest,
            depth: read.depth,
        }),
        None => Err(Fault::At(read.rest.len())),
    }
}

/// What stands between round brackets, before what stands behind them.
fn enclosed<'a>(
    alloc: Global,
    inner: Read<'a, (Front, Items<ExpTree>)>,
) -> Result<Read<'a, AExpTree>, Fault>
    requires few { inner.depth + 1 < 2 ^ 64 }
    ensures { (limit : Option ℕ) (ts here : _) → OpensInside limit ts → Took bunches (lowered limit 1) ts inner.entry.tree here inner.entry.depth → here ≡ RightParen ∷ inner.entry.rest.now → Answers (sort_of aexps limit) (LeftParen ∷ ts) result }
{
    let tree = bracketed(alloc, inner.tree)?;
    Ok(Read {
        tree,
        rest: inner.rest,
        depth: inner.depth + 1,
    })
}

/// What stands behind a `(`, up to its `)`.
fn end_inside<'a>(
    alloc: Global,
    inner: Read<'a, (Front, Items<ExpTree>)>,
) -> Result<Read<'a, AExpTree>, Fault>
    requires few { inner.depth + 1 < 2 ^ 64 }
    ensures { (limit : Option ℕ) (ts : _) → OpensInside limit ts → Took bunches (lowered limit 1) ts inner.entry.tree inner.entry.rest.now inner.entry.depth → Answers (sort_of aexps limit) (LeftParen ∷ ts) result }
{
    let closed = before_right_paren(inner)?;
    enclosed(alloc, closed)
}

/// An expression in round brackets, a tuple or a left section, after its `(`.
fn read_inside<'a, F: Fn(&[Terminal], Option<usize>) -> Result<Read<'_, OperandTree>, Fault>>(
    alloc: Global,
    tokens: &'a [Terminal],
    limit: Option<usize>,
    operand: &F,
) -> Result<Read<'a, AExpTree>, Fault>
    requires opens { OpensInside limit tokens.now }
    requires may { (here : _) (l : _) → length here.now ≤ length tokens.now → F.pre operand.now here l }
    requires says { (here : _) (l : _) (r : _) → F.post operand.now here l r → Answers (sort_of operands l) here.now r }
    ensures { Answers (sort_of aexps limit) (LeftParen ∷ tokens.now) result }
{
    let inner = read_bunch(alloc, tokens, lower(limit, 1), operand)?;
    end_inside(alloc, inner)
}

/// `qop infix ")"`, after its `(`.
fn read_section<'a, F: Fn(&[Terminal], Option<usize>) -> Result<Read<'_, OperandTree>, Fault>>(
    alloc: Global,
    tokens: &'a [Terminal],
    limit: Option<usize>,
    operand: &F,
) -> Result<Read<'a, AExpTree>, Fault>
    requires room { Within limit 1 }
    requires opens { OpensSection tokens.now }
    requires may { (here : _) (l : _) → length here.now ≤ length tokens.now → F.pre operand.now here l }
    requires says { (here : _) (l : _) (r : _) → F.post operand.now here l r → Answers (sort_of operands l) here.now r }
    ensures { Answers (sort_of aexps limit) (LeftParen ∷ tokens.now) result }
{
    let op = read_qop(alloc, tokens)?;
    let chain = read_infix(alloc, op.rest, lower(limit, 1), operand)?;
    let Some(rest) = after_right_paren(chain.rest) else {
        return Err(Fault::At(chain.rest.len()));
    };
    let tree = sectioned(alloc, op.tree, chain.tree)?;
    Ok(Read {
        tree,
        rest,
        depth: chain.depth + 1,
    })
}

/// An `aexp` after its `[`.
fn read_bracket<'a, F: Fn(&[Terminal], Option<usize>) -> Result<Read<'_, OperandTree>, Fault>>(
    alloc: Global,
    tokens: &'a [Terminal],
    limit: Option<usize>,
    operand: &F,
) -> Result<Read<'a, AExpTree>, Fault>
    requires may { (here : _) (l : _) → length here.now ≤ length tokens.now → F.pre operand.now here l }
    requires says { (here : _) (l : _) (r : _) → F.post operand.now here l r → Answers (sort_of operands l) here.now r }
    ensures { Answers (sort_of aexps limit) (LeftBracket ∷ tokens.now) result }
{
    if let Some(rest) = after_right_bracket(tokens) {
        return Ok(Read {
            tree: AExpTree::Con(GConTree::List),
            rest,
            depth: 0,
        });
    }
    if !allows(limit, 1) {
        return Err(Fault::At(tokens.len()));
    }
    let inner = read_parts(alloc, tokens, lower(limit, 1), operand)?;
    let Some(rest) = after_right_bracket(inner.rest) else {
        return Err(Fault::At(inner.rest.len()));
    };
    let tree = listed(alloc, inner.tree)?;
    Ok(Read {
        tree,
        rest,
        depth: inner.depth + 1,
    })
}
