//! Expressions, chains and what stands first between round brackets, of operands that a reader is given for (Haskell 2010
//! Report, sections 3, 3.5 and 3.16).
ghost use Rattle.std.specs.Prelude.{◌≡◌, ◌∷◌, ◌+◌, ◌<◌, ◌≤◌, ◌^◌, length, MatchOption, Bool, true, false, None};
ghost use Rattle.hs_forms.specs.Reading.{begins};
ghost use Rattle.hs_tokens.specs.declared.terminal.Terminal.TheVariants.{DoubleColon};
ghost use Rattle.hs_readers.specs.Answers.{Answers};
ghost use Rattle.hs_modules.specs.Formed.{facts_of_infix};
ghost use Rattle.hs_expression_forms.specs.Trees.{Took, sort_of};
ghost use Rattle.hs_expression_forms.specs.Expressions.{exps, infixes, is_double_colon, operands};
ghost use Rattle.hs_expression_forms.specs.Fronts.{fronts};
ghost use Rattle.hs_expression_forms.specs.Links.{links};
ghost use Rattle.hs_expressions.specs.FrontAnswers.{ExpAnswers};

use crate::chains::read_links;
use crate::leaf::after_double_colon;
use crate::links::ends_open;
use hs_expression_forms::Front;
use hs_forms::Fault;
use hs_modules::{ExpTree, InfixTree, OperandTree};
use hs_readers::{Read, allows, lower, read_type};
use hs_tokens::Terminal;
use std::alloc::Global;

/// Whether nothing of its own may stand behind a chain: its last operand takes all.
pub fn chain_is_open(chain: &InfixTree) -> bool
    ensures { result ≡ (facts_of_infix chain.now).is_open }
{
    match chain.rest.as_slice().last() {
        Some(link) => ends_open(&link.operand),
        None => ends_open(&chain.first),
    }
}

/// What stands after the `::` of a chain, if it is annotated.
fn after_colons<'a>(chain: &InfixTree, tokens: &'a [Terminal]) -> Option<&'a [Terminal]>
    ensures { MatchOption result ((facts_of_infix chain.now).is_open ≡ false → begins is_double_colon tokens.now ≡ false) (λ rest. ((facts_of_infix chain.now).is_open ≡ false) × (tokens.now ≡ DoubleColon ∷ rest.now)) }
{
    if chain_is_open(chain) {
        None
    } else {
        after_double_colon(tokens)
    }
}

/// A chain with the type behind it, if one stands there.
fn read_annotation(
    alloc: Global,
    chain: Read<'_, InfixTree>,
    limit: Option<usize>,
) -> Result<Read<'_, ExpTree>, Fault>
    requires { chain.depth + 1 < 2 ^ 64 }
    ensures { (lone : Bool) (ts : _) → Took (links lone) limit ts (chain.entry.tree, None) chain.entry.rest.now chain.entry.depth → ExpAnswers lone limit ts result }
{
    let Some(next) = after_colons(&chain.tree, chain.rest) else {
        return Ok(Read {
            tree: ExpTree::Infix(chain.tree),
            rest: chain.rest,
            depth: chain.depth,
        });
    };
    if !allows(limit, chain.depth + 1) {
        return Err(Fault::At(chain.rest.len()));
    }
    let ty = read_type(alloc, next, lower(limit, 1))?;
    Ok(Read {
        tree: ExpTree::Annotated(chain.tree, ty.tree),
        rest: ty.rest,
        depth: chain.depth.max(ty.depth) + 1,
    })
}

/// `infix`
pub fn read_infix<'a, F: Fn(&[Terminal], Option<usize>) -> Result<Read<'_, OperandTree>, Fault>>(
    alloc: Global,
    tokens: &'a [Terminal],
    limit: Option<usize>,
    operand: &F,
) -> Result<Read<'a, InfixTree>, Fault>
    requires may { (here : _) (l : _) → length here.now ≤ length tokens.now → F.pre operand.now here l }
    requires says { (here : _) (l : _) (r : _) → F.post operand.now here l r → Answers (sort_of operands l) here.now r }
    ensures { Answers (sort_of infixes limit) tokens.now result }
{
    let read = read_links(alloc, tokens, limit, false, operand)?;
    let (tree, _lone) = read.tree;
    Ok(Read {
        tree,
        rest: read.rest,
        depth: read.depth,
    })
}

/// `infix ["::" type]`
pub fn read_exp<'a, F: Fn(&[Terminal], Option<usize>) -> Result<Read<'_, OperandTree>, Fault>>(
    alloc: Global,
    tokens: &'a [Terminal],
    limit: Option<usize>,
    operand: &F,
) -> Result<Read<'a, ExpTree>, Fault>
    requires may { (here : _) (l : _) → length here.now ≤ length tokens.now → F.pre operand.now here l }
    requires says { (here : _) (l : _) (r : _) → F.post operand.now here l r → Answers (sort_of operands l) here.now r }
    ensures { Answers (sort_of exps limit) tokens.now result }
{
    let read = read_links(alloc, tokens, limit, false, operand)?;
    let (tree, _lone) = read.tree;
    let chain = Read {
        tree,
        rest: read.rest,
        depth: read.depth,
    };
    read_annotation(alloc, chain, limit)
}

/// An expression, or a chain and the operator of a left section, behind a `(`.
pub fn read_front<'a, F: Fn(&[Terminal], Option<usize>) -> Result<Read<'_, OperandTree>, Fault>>(
    alloc: Global,
    tokens: &'a [Terminal],
    limit: Option<usize>,
    operand: &F,
) -> Result<Read<'a, Front>, Fault>
    requires may { (here : _) (l : _) → length here.now ≤ length tokens.now → F.pre operand.now here l }
    requires says { (here : _) (l : _) (r : _) → F.post operand.now here l r → Answers (sort_of operands l) here.now r }
    ensures { Answers (sort_of (fronts true) limit) tokens.now result }
{
    let read = read_links(alloc, tokens, limit, true, operand)?;
    let (tree, lone) = read.tree;
    if let Some(op) = lone {
        return Ok(Read {
            tree: Front::Section(tree, op),
            rest: read.rest,
            depth: read.depth,
        });
    }
    let chain = Read {
        tree,
        rest: read.rest,
        depth: read.depth,
    };
    let exp = read_annotation(alloc, chain, limit)?;
    Ok(Read {
        tree: Front::Exp(exp.tree),
        rest: exp.rest,
        depth: exp.depth,
    })
}
