//! Left sides of declarations (Haskell 2010 Report, sections 4.4.3.1 and 4.4.3.2).
ghost use Rattle.std.specs.Prelude.{◌≡◌, List, IfOk, None, true, false};
ghost use Rattle.hs_forms.specs.Reading.{begins};
ghost use Rattle.hs_forms.specs.Answers.{Rejects};
ghost use Rattle.hs_forms.specs.Whole.{Spells};
ghost use Rattle.hs_tokens.specs.declared.terminal.Terminal.{Terminal};
ghost use Rattle.hs_trees.specs.Patterns.{is_pat, spelling_pat};
ghost use Rattle.hs_trees.specs.declared.patterns.PatTree.{PatTree};
ghost use Rattle.hs_modules.specs.Tokens.{spelling_fun_lhs};
ghost use Rattle.hs_modules.specs.Formed.{is_fun_lhs};
ghost use Rattle.hs_modules.specs.declared.expressions.FunLhsTree.{FunLhsTree};
ghost use Rattle.hs_left_forms.specs.declared.left_side.LeftSide.{LeftSide};
ghost use Rattle.hs_readers.specs.Answers.{Answers};
ghost use Rattle.hs_expression_forms.specs.Trees.{sort_of, within};
ghost use Rattle.hs_left_forms.specs.Lefts.{functions, patterns, left_sides, left_goes};

use crate::functions::read_function;
use crate::leaf::{goes_on_left, later};
use hs_forms::Fault;
use hs_left_forms::LeftSide;
use hs_modules::FunLhsTree;
use hs_readers::{Read, read_pat};
use hs_tokens::Terminal;
use hs_trees::PatTree;
use std::alloc::Global;

/// The left side of a function, up to what goes on no left side.
fn read_ended_function<'a>(
    alloc: Global,
    tokens: &'a [Terminal],
    limit: Option<usize>,
) -> Result<Read<'a, FunLhsTree>, Fault>
    ensures answers { Answers (sort_of functions limit) tokens.now result }
    ensures ends { IfOk result (λ r. begins left_goes r.rest.now ≡ false) }
{
    let function = read_function(alloc, tokens, limit)?;
    if goes_on_left(function.rest) {
        return Err(Fault::At(function.rest.len()));
    }
    Ok(function)
}

/// A pattern, up to what goes on no left side.
fn read_ended_pattern<'a>(
    alloc: Global,
    tokens: &'a [Terminal],
    limit: Option<usize>,
) -> Result<Read<'a, PatTree>, Fault>
    ensures answers { Answers (sort_of patterns limit) tokens.now result }
    ensures ends { IfOk result (λ r. begins left_goes r.rest.now ≡ false) }
{
    let pattern = read_pat(alloc, tokens, limit)?;
    if goes_on_left(pattern.rest) {
        return Err(Fault::At(pattern.rest.len()));
    }
    Ok(pattern)
}

/// A pattern, where the left side of a function was refused with so many tokens left.
fn read_pattern_side<'a>(
    alloc: Global,
    tokens: &'a [Terminal],
    limit: Option<usize>,
    left: usize,
) -> Result<Read<'a, LeftSide>, Fault>
    requires { Rejects (within functions limit) tokens.now left }
    ensures { Answers (sort_of left_sides limit) tokens.now result }
{
    match read_ended_pattern(alloc, tokens, limit) {
        Ok(pattern) => Ok(Read {
            tree: LeftSide::Pattern(pattern.tree),
            rest: pattern.rest,
            depth: pattern.depth,
        }),
        Err(fault) => Err(later(left, fault)),
    }
}

/// The left side of a declaration: that of a function, or a pattern. A variable alone is a pattern.
///
/// No token tells them apart: `(x + y) z` begins as `(x : y)` does. Both are read; the tree is the one that was read,
/// and of two refusals the later stands. A token by which left sides go on, but not this one, is refused.
pub fn read_left_side<'a>(
    alloc: Global,
    tokens: &'a [Terminal],
    limit: Option<usize>,
) -> Result<Read<'a, LeftSide>, Fault>
    ensures { Answers (sort_of left_sides limit) tokens.now result }
{
    match read_ended_function(alloc, tokens, limit) {
        Ok(function) => Ok(Read {
            tree: LeftSide::Function(function.tree),
            rest: function.rest,
            depth: function.depth,
        }),
        Err(Fault::NoMemory) => Err(Fault::NoMemory),
        Err(Fault::At(left)) => read_pattern_side(alloc, tokens, limit, left),
    }
}

/// At most one left side has given tokens, whatever its depth: no tokens are those of a function's left side and of a
/// pattern.
pub fn one_left_side()
    ensures one { (tokens : List Terminal) (one other : LeftSide) → Spells (within left_sides None) one tokens → Spells (within left_sides None) other tokens → other ≡ one }
    ensures apart { (function : FunLhsTree) (pattern : PatTree) → is_fun_lhs function ≡ true → is_pat pattern ≡ true → spelling_fun_lhs function ≡ spelling_pat pattern → ⊥ }
{}
