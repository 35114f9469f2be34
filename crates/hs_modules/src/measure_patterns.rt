//! The measures of patterns and of the left sides of functions.
ghost use Rattle.std.specs.Prelude.{◌≡◌};
ghost use Rattle.hs_modules.specs.Measures.{all_measured};
ghost use Rattle.hs_modules.specs.Measured.{measure_of_apat, measure_of_fun_lhs, measure_of_lpat, measure_of_op_lpat, measure_of_pat};

use crate::expressions::FunLhsTree;
use crate::measure::Measure;
use hs_trees::{APatTree, LPatTree, OpLPat, PatTree};

/// Nodes and depth of a pattern.
#[cycle(patterns)]
#[tactic(auto, using(crate::proofs::PatternMeasureLemmas::pattern_equations, crate::proofs::MeasuringLemmas::loop_equations))]
pub fn measure_pat(tree: &PatTree) -> Measure
    ensures { result ≡ measure_of_pat tree.now }
{
    measure_lpat(&tree.first)
        .beside(measure_op_lpats(tree.rest.as_slice()))
        .node()
        .deeper(tree.rest.len())
}

#[cycle(patterns)]
#[tactic(auto, using(crate::proofs::PatternMeasureLemmas::pattern_equations, crate::proofs::MeasuringLemmas::loop_equations))]
fn measure_pats(trees: &[PatTree]) -> Measure
    ensures { result ≡ all_measured measure_of_pat trees.now }
{
    let mut total = Measure::nothing();
    for each in trees {
        total = total.beside(measure_pat(each));
    }
    total
}

#[cycle(patterns)]
#[tactic(auto, using(crate::proofs::PatternMeasureLemmas::pattern_equations, crate::proofs::MeasuringLemmas::loop_equations))]
fn measure_op_lpats(trees: &[OpLPat]) -> Measure
    ensures { result ≡ all_measured measure_of_op_lpat trees.now }
{
    let mut total = Measure::nothing();
    for each in trees {
        total = total.beside(measure_op_lpat(each));
    }
    total
}

#[cycle(patterns)]
#[tactic(auto, using(crate::proofs::PatternMeasureLemmas::pattern_equations, crate::proofs::MeasuringLemmas::loop_equations))]
fn measure_op_lpat(tree: &OpLPat) -> Measure
    ensures { result ≡ measure_of_op_lpat tree.now }
{
    measure_lpat(&tree.pat)
}

#[cycle(patterns)]
#[tactic(auto, using(crate::proofs::PatternMeasureLemmas::pattern_equations, crate::proofs::MeasuringLemmas::loop_equations))]
pub fn measure_lpat(tree: &LPatTree) -> Measure
    ensures { result ≡ measure_of_lpat tree.now }
{
    match tree {
        LPatTree::Negative(_) => Measure::leaf(),
        LPatTree::Apply(_, first, rest) => measure_apat(first)
            .beside(measure_apats(rest.as_slice()))
            .node()
            .node(),
        LPatTree::APat(part) => measure_apat(part).node(),
    }
}

#[cycle(patterns)]
#[tactic(auto, using(crate::proofs::PatternMeasureLemmas::pattern_equations, crate::proofs::MeasuringLemmas::loop_equations))]
pub fn measure_apat(tree: &APatTree) -> Measure
    ensures { result ≡ measure_of_apat tree.now }
{
    match tree {
        APatTree::As(_, part) => measure_apat(part.get()).node().deeper(1),
        APatTree::Con(_) => Measure::leaf().node(),
        APatTree::Parts(first, rest) => measure_pat(first.get())
            .beside(measure_pats(rest.as_slice()))
            .node()
            .deeper(1),
        APatTree::List(first, rest) => measure_pat(first.get())
            .beside(measure_pats(rest.as_slice()))
            .node()
            .deeper(1),
        APatTree::Lazy(part) => measure_apat(part.get()).node().deeper(1),
        APatTree::Var(_) => Measure::leaf(),
        APatTree::Wild => Measure::leaf(),
        APatTree::Literal(_) => Measure::leaf(),
    }
}

#[cycle(patterns)]
#[tactic(auto, using(crate::proofs::PatternMeasureLemmas::pattern_equations, crate::proofs::MeasuringLemmas::loop_equations))]
pub fn measure_apats(trees: &[APatTree]) -> Measure
    ensures { result ≡ all_measured measure_of_apat trees.now }
{
    let mut total = Measure::nothing();
    for each in trees {
        total = total.beside(measure_apat(each));
    }
    total
}

/// Nodes and depth of the left side of a function.
#[tactic(auto, using(crate::proofs::PatternMeasureLemmas::pattern_equations))]
pub fn measure_fun_lhs(tree: &FunLhsTree) -> Measure
    ensures { result ≡ measure_of_fun_lhs tree.now }
{
    match tree {
        FunLhsTree::Prefix(_, first, rest) => measure_apat(first)
            .beside(measure_apats(rest.as_slice()))
            .node(),
        FunLhsTree::Infix(left, _, right) => measure_lpat(left).beside(measure_lpat(right)).node(),
        FunLhsTree::Parens(inner, first, rest) => measure_fun_lhs(inner.get())
            .deeper(1)
            .beside(measure_apat(first))
            .beside(measure_apats(rest.as_slice()))
            .node(),
    }
}
