//! The left sides of functions (Haskell 2010 Report, section 4.4.3.1).
ghost use Rattle.std.specs.Prelude.{◌≡◌, ◌∷◌, max};
ghost use Rattle.hs_forms.specs.Limits.{Within};
ghost use Rattle.hs_forms.specs.Answers.{Rejects};
ghost use Rattle.hs_tokens.specs.declared.terminal.Terminal.TheVariants.{LeftParen};
ghost use Rattle.hs_readers.specs.Answers.{Answers, Has};
ghost use Rattle.hs_expression_forms.specs.Trees.{sort_of, within};
ghost use Rattle.hs_left_forms.specs.Lefts.{lpats, prefixes, behinds, bare, bracketed, wrapped, functions};

use crate::leaf::later;
use crate::operators::read_varop;
use hs_forms::Fault;
use hs_headers::read_var;
use hs_modules::{FunLhsTree, VarOpTree};
use hs_readers::{Read, after_left_paren, after_right_paren, allows, lower, read_apats, read_lpat};
use hs_tokens::Terminal;
use hs_trees::{APatTree, LPatTree, VarTree};
use sqlite_items::{Boxed, Items};
use std::alloc::Global;

/// `var apat {apat}`
fn read_prefix<'a>(
    alloc: Global,
    tokens: &'a [Terminal],
    limit: Option<usize>,
) -> Result<Read<'a, (VarTree, (APatTree, Items<APatTree>))>, Fault>
    ensures { Answers (sort_of prefixes limit) tokens.now result }
{
    let var = read_var(alloc, tokens)?;
    let args = read_apats(alloc, var.rest, limit)?;
    let tree = (var.tree, args.tree);
    Ok(Read {
        tree,
        rest: args.rest,
        depth: args.depth,
    })
}

/// `varop lpat`, behind an operand.
fn read_behind<'a>(
    alloc: Global,
    tokens: &'a [Terminal],
    limit: Option<usize>,
) -> Result<Read<'a, (VarOpTree, LPatTree)>, Fault>
    ensures { Answers (sort_of behinds limit) tokens.now result }
{
    let op = read_varop(alloc, tokens)?;
    let operand = read_lpat(alloc, op.rest, limit)?;
    let tree = (op.tree, operand.tree);
    Ok(Read {
        tree,
        rest: operand.rest,
        depth: operand.depth,
    })
}

/// A left side that begins with an operand, where one with a name was refused with so many tokens left. No left side in
/// brackets begins so, since the brackets of an operand hold patterns.
fn read_operated<'a>(
    alloc: Global,
    tokens: &'a [Terminal],
    limit: Option<usize>,
    left: usize,
    operand: Read<'a, LPatTree>,
) -> Result<Read<'a, FunLhsTree>, Fault>
    requires named { Rejects (within prefixes limit) tokens.now left }
    requires operand { Has (sort_of lpats limit) tokens.now operand }
    ensures { Answers (sort_of functions limit) tokens.now result }
{
    match read_behind(alloc, operand.rest, limit) {
        Ok(behind) => {
            let (op, second) = behind.tree;
            Ok(Read {
                tree: FunLhsTree::Infix(operand.tree, op, second),
                rest: behind.rest,
                depth: operand.depth.max(behind.depth),
            })
        }
        Err(fault) => Err(later(left, fault)),
    }
}

/// The left side of a function: a name and its arguments, an operator between two operands, or such a left side in
/// brackets with more arguments. What begins with an operand has no such brackets, so they are read where none does.
#[cycle(functions)]
pub fn read_function<'a>(
    alloc: Global,
    tokens: &'a [Terminal],
    limit: Option<usize>,
) -> Result<Read<'a, FunLhsTree>, Fault>
    ensures { Answers (sort_of functions limit) tokens.now result }
{
    match read_prefix(alloc, tokens, limit) {
        Ok(prefix) => {
            let (var, args) = prefix.tree;
            let (first, more) = args;
            Ok(Read {
                tree: FunLhsTree::Prefix(var, first, more),
                rest: prefix.rest,
                depth: prefix.depth,
            })
        }
        Err(Fault::NoMemory) => Err(Fault::NoMemory),
        Err(Fault::At(left)) => read_unnamed(alloc, tokens, limit, left),
    }
}

/// A left side without a name before its arguments, where one with a name was refused with so many tokens left.
#[cycle(functions)]
fn read_unnamed<'a>(
    alloc: Global,
    tokens: &'a [Terminal],
    limit: Option<usize>,
    left: usize,
) -> Result<Read<'a, FunLhsTree>, Fault>
    requires { Rejects (within prefixes limit) tokens.now left }
    ensures { Answers (sort_of functions limit) tokens.now result }
{
    match read_lpat(alloc, tokens, limit) {
        Ok(operand) => read_operated(alloc, tokens, limit, left, operand),
        Err(Fault::NoMemory) => Err(Fault::NoMemory),
        Err(Fault::At(right)) => read_last(alloc, tokens, limit, left.min(right)),
    }
}

/// A left side in brackets, where one without was refused with so many tokens left.
#[cycle(functions)]
fn read_last<'a>(
    alloc: Global,
    tokens: &'a [Terminal],
    limit: Option<usize>,
    left: usize,
) -> Result<Read<'a, FunLhsTree>, Fault>
    requires { Rejects (within bare limit) tokens.now left }
    ensures { Answers (sort_of functions limit) tokens.now result }
{
    let Some(next) = after_left_paren(tokens) else {
        return Err(Fault::At(left));
    };
    if !allows(limit, 1) {
        return Err(Fault::At(left));
    }
    match read_wrapped(alloc, next, limit) {
        Ok(read) => {
            let (inner, args) = read.tree;
            let (first, more) = args;
            let inner = Boxed::new(alloc, inner)?;
            Ok(Read {
                tree: FunLhsTree::Parens(inner, first, more),
                rest: read.rest,
                depth: read.depth,
            })
        }
        Err(fault) => Err(later(left, fault)),
    }
}

/// `funlhs ")" apat {apat}`, behind the `(`.
#[cycle(functions)]
fn read_wrapped<'a>(
    alloc: Global,
    tokens: &'a [Terminal],
    limit: Option<usize>,
) -> Result<Read<'a, (FunLhsTree, (APatTree, Items<APatTree>))>, Fault>
    requires { Within limit 1 }
    ensures { Answers (sort_of wrapped limit) (LeftParen ∷ tokens.now) result }
{
    let inner = read_bracketed(alloc, tokens, limit)?;
    let args = read_apats(alloc, inner.rest, limit)?;
    let tree = (inner.tree, args.tree);
    Ok(Read {
        tree,
        rest: args.rest,
        depth: inner.depth.max(args.depth),
    })
}

/// `funlhs ")"`, behind the `(`.
#[cycle(functions)]
fn read_bracketed<'a>(
    alloc: Global,
    tokens: &'a [Terminal],
    limit: Option<usize>,
) -> Result<Read<'a, FunLhsTree>, Fault>
    requires { Within limit 1 }
    ensures { Answers (sort_of bracketed limit) (LeftParen ∷ tokens.now) result }
{
    let inner = read_function(alloc, tokens, lower(limit, 1))?;
    let Some(rest) = after_right_paren(inner.rest) else {
        return Err(Fault::At(inner.rest.len()));
    };
    Ok(Read {
        tree: inner.tree,
        rest,
        depth: inner.depth + 1,
    })
}
