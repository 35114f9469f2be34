//! The measures of types and kinds.
ghost use Rattle.std.specs.Prelude.{◌≡◌};
ghost use Rattle.hs_modules.specs.Measures.{all_measured};
ghost use Rattle.hs_modules.specs.Measured.{measure_of_akind, measure_of_atype, measure_of_btype, measure_of_kind, measure_of_type};

use crate::measure::Measure;
use hs_trees::{AKindTree, ATypeTree, BTypeTree, KindTree, TypeTree};

/// Nodes and depth of a type.
#[cycle(types)]
#[tactic(auto, using(crate::proofs::TypeMeasureLemmas::type_equations, crate::proofs::MeasuringLemmas::loop_equations))]
pub fn measure_type(tree: &TypeTree) -> Measure
    ensures { result ≡ measure_of_type tree.now }
{
    measure_btype(&tree.first)
        .beside(measure_btypes(tree.rest.as_slice()))
        .node()
        .deeper(tree.rest.len())
}

#[cycle(types)]
#[tactic(auto, using(crate::proofs::TypeMeasureLemmas::type_equations, crate::proofs::MeasuringLemmas::loop_equations))]
fn measure_types(trees: &[TypeTree]) -> Measure
    ensures { result ≡ all_measured measure_of_type trees.now }
{
    let mut total = Measure::nothing();
    for each in trees {
        total = total.beside(measure_type(each));
    }
    total
}

#[cycle(types)]
#[tactic(auto, using(crate::proofs::TypeMeasureLemmas::type_equations, crate::proofs::MeasuringLemmas::loop_equations))]
pub fn measure_btype(tree: &BTypeTree) -> Measure
    ensures { result ≡ measure_of_btype tree.now }
{
    measure_atype(&tree.first)
        .beside(measure_atypes(tree.rest.as_slice()))
        .node()
}

#[cycle(types)]
#[tactic(auto, using(crate::proofs::TypeMeasureLemmas::type_equations, crate::proofs::MeasuringLemmas::loop_equations))]
fn measure_btypes(trees: &[BTypeTree]) -> Measure
    ensures { result ≡ all_measured measure_of_btype trees.now }
{
    let mut total = Measure::nothing();
    for each in trees {
        total = total.beside(measure_btype(each));
    }
    total
}

#[cycle(types)]
#[tactic(auto, using(crate::proofs::TypeMeasureLemmas::type_equations, crate::proofs::MeasuringLemmas::loop_equations))]
pub fn measure_atype(tree: &ATypeTree) -> Measure
    ensures { result ≡ measure_of_atype tree.now }
{
    match tree {
        ATypeTree::Parts(first, rest) => measure_type(first.get())
            .beside(measure_types(rest.as_slice()))
            .node()
            .deeper(1),
        ATypeTree::List(inner) => measure_type(inner.get()).node().deeper(1),
        ATypeTree::Con(_) => Measure::leaf(),
        ATypeTree::Unit => Measure::leaf(),
        ATypeTree::ListCon => Measure::leaf(),
        ATypeTree::ArrowCon => Measure::leaf(),
        ATypeTree::TupleCon(_) => Measure::leaf(),
        ATypeTree::Var(_) => Measure::leaf(),
    }
}

#[cycle(types)]
#[tactic(auto, using(crate::proofs::TypeMeasureLemmas::type_equations, crate::proofs::MeasuringLemmas::loop_equations))]
fn measure_atypes(trees: &[ATypeTree]) -> Measure
    ensures { result ≡ all_measured measure_of_atype trees.now }
{
    let mut total = Measure::nothing();
    for each in trees {
        total = total.beside(measure_atype(each));
    }
    total
}

/// Nodes and depth of a kind; each part of its chain is a `kind`.
#[cycle(kinds)]
#[tactic(auto, using(crate::proofs::TypeMeasureLemmas::type_equations, crate::proofs::MeasuringLemmas::loop_equations))]
pub fn measure_kind(tree: &KindTree) -> Measure
    ensures { result ≡ measure_of_kind tree.now }
{
    measure_akind(&tree.first)
        .beside(measure_akinds(tree.rest.as_slice()))
        .node()
        .with(tree.rest.len())
        .deeper(tree.rest.len())
}

#[cycle(kinds)]
#[tactic(auto, using(crate::proofs::TypeMeasureLemmas::type_equations, crate::proofs::MeasuringLemmas::loop_equations))]
fn measure_akind(tree: &AKindTree) -> Measure
    ensures { result ≡ measure_of_akind tree.now }
{
    match tree {
        AKindTree::Star => Measure::leaf(),
        AKindTree::Parens(inner) => measure_kind(inner.get()).node().deeper(1),
    }
}

#[cycle(kinds)]
#[tactic(auto, using(crate::proofs::TypeMeasureLemmas::type_equations, crate::proofs::MeasuringLemmas::loop_equations))]
fn measure_akinds(trees: &[AKindTree]) -> Measure
    ensures { result ≡ all_measured measure_of_akind trees.now }
{
    let mut total = Measure::nothing();
    for each in trees {
        total = total.beside(measure_akind(each));
    }
    total
}
