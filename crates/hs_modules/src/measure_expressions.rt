//! The measures of expressions, alternatives, guards, right sides and declarations.
ghost use Rattle.std.specs.Prelude.{◌≡◌, ◌+◌, map, min, sum};
ghost use Rattle.hs_modules.specs.ExpressionExtents.{operators_of_infix, operators_of_link, operators_of_signed};
ghost use Rattle.hs_modules.specs.Measures.{all_measured, most};
ghost use Rattle.hs_modules.specs.Measured.{measure_of_aexp, measure_of_alt, measure_of_alt_block, measure_of_alt_body, measure_of_alt_slot, measure_of_case, measure_of_decl, measure_of_decl_block, measure_of_decl_slot, measure_of_exp, measure_of_gd, measure_of_gda, measure_of_guard, measure_of_if, measure_of_infix, measure_of_lambda, measure_of_let, measure_of_locals, measure_of_link, measure_of_operand, measure_of_rhs, measure_of_rhs_body, measure_of_signed};

use crate::expressions::{
    AExpTree, AltBlock, AltBody, AltSlot, AltTree, CaseTree, DeclBlock, DeclSlot, DeclTree,
    ExpTree, GdTree, GdaTree, GuardTree, IfTree, InfixTree, LambdaTree, LetTree, Locals, OpOperand,
    OperandTree, RhsBody, RhsTree, SignedOperand,
};
use crate::measure::Measure;
use crate::measure_patterns::{measure_apat, measure_apats, measure_fun_lhs, measure_pat};
use crate::measure_types::measure_type;

#[cycle(expressions)]
#[tactic(auto, using(crate::proofs::ExpressionMeasureLemmas::expression_equations, crate::proofs::MeasuringLemmas::loop_equations))]
fn measure_exp(tree: &ExpTree) -> Measure
    ensures { result ≡ measure_of_exp tree.now }
{
    match tree {
        ExpTree::Infix(chain) => measure_infix(chain).node(),
        ExpTree::Annotated(chain, ty) => measure_infix(chain)
            .beside(measure_type(ty))
            .node()
            .deeper(1),
    }
}

#[cycle(expressions)]
#[tactic(auto, using(crate::proofs::ExpressionMeasureLemmas::expression_equations, crate::proofs::MeasuringLemmas::loop_equations))]
fn measure_exps(trees: &[ExpTree]) -> Measure
    ensures { result ≡ all_measured measure_of_exp trees.now }
{
    let mut total = Measure::nothing();
    for each in trees {
        total = total.beside(measure_exp(each));
    }
    total
}

/// How many operators a sign is.
#[tactic(auto, using(crate::proofs::ExpressionMeasureLemmas::expression_equations))]
fn count_sign(tree: &SignedOperand) -> usize
    ensures { result ≡ operators_of_signed tree.now }
{
    if tree.negated { 1 } else { 0 }
}

/// How many operators an operator with its sign is.
#[tactic(auto, using(crate::proofs::ExpressionMeasureLemmas::expression_equations))]
fn count_link(tree: &OpOperand) -> usize
    ensures { result ≡ operators_of_link tree.now }
{
    1 + count_sign(&tree.operand)
}

fn count_links(start: usize, trees: &[OpOperand]) -> usize
    ensures { result ≡ min (start + sum (map operators_of_link trees.now)) most }
{
    let mut count = start;
    for each in trees {
        let more = count_link(each);
        count = count.saturating_add(more);
    }
    count
}

/// How many operators and signs a chain has.
fn count_operators(tree: &InfixTree) -> usize
    ensures { result ≡ min (operators_of_infix tree.now) most }
{
    count_links(count_sign(&tree.first), tree.rest.as_slice())
}

#[cycle(expressions)]
#[tactic(auto, using(crate::proofs::ExpressionMeasureLemmas::expression_equations, crate::proofs::MeasuringLemmas::loop_equations))]
fn measure_infix(tree: &InfixTree) -> Measure
    ensures { result ≡ measure_of_infix tree.now }
{
    measure_signed(&tree.first)
        .beside(measure_links(tree.rest.as_slice()))
        .node()
        .deeper(count_operators(tree))
}

#[cycle(expressions)]
#[tactic(auto, using(crate::proofs::ExpressionMeasureLemmas::expression_equations, crate::proofs::MeasuringLemmas::loop_equations))]
fn measure_signed(tree: &SignedOperand) -> Measure
    ensures { result ≡ measure_of_signed tree.now }
{
    measure_operand(&tree.operand)
}

#[cycle(expressions)]
#[tactic(auto, using(crate::proofs::ExpressionMeasureLemmas::expression_equations, crate::proofs::MeasuringLemmas::loop_equations))]
fn measure_link(tree: &OpOperand) -> Measure
    ensures { result ≡ measure_of_link tree.now }
{
    measure_signed(&tree.operand)
}

#[cycle(expressions)]
#[tactic(auto, using(crate::proofs::ExpressionMeasureLemmas::expression_equations, crate::proofs::MeasuringLemmas::loop_equations))]
fn measure_links(trees: &[OpOperand]) -> Measure
    ensures { result ≡ all_measured measure_of_link trees.now }
{
    let mut total = Measure::nothing();
    for each in trees {
        total = total.beside(measure_link(each));
    }
    total
}

#[cycle(expressions)]
#[tactic(auto, using(crate::proofs::ExpressionMeasureLemmas::expression_equations, crate::proofs::MeasuringLemmas::loop_equations))]
fn measure_operand(tree: &OperandTree) -> Measure
    ensures { result ≡ measure_of_operand tree.now }
{
    match tree {
        OperandTree::Lambda(part) => measure_lambda(part).node(),
        OperandTree::Let(part) => measure_let(part).node(),
        OperandTree::If(part) => measure_if(part).node(),
        OperandTree::Case(part) => measure_case(part).node(),
        OperandTree::Apply(first, rest) => measure_aexp(first)
            .beside(measure_aexps(rest.as_slice()))
            .node(),
    }
}

#[cycle(expressions)]
#[tactic(auto, using(crate::proofs::ExpressionMeasureLemmas::expression_equations, crate::proofs::MeasuringLemmas::loop_equations))]
fn measure_lambda(tree: &LambdaTree) -> Measure
    ensures { result ≡ measure_of_lambda tree.now }
{
    measure_apat(&tree.first)
        .beside(measure_apats(tree.rest.as_slice()))
        .beside(measure_exp(tree.body.get()))
        .node()
        .deeper(1)
}

#[cycle(expressions)]
#[tactic(auto, using(crate::proofs::ExpressionMeasureLemmas::expression_equations, crate::proofs::MeasuringLemmas::loop_equations))]
fn measure_let(tree: &LetTree) -> Measure
    ensures { result ≡ measure_of_let tree.now }
{
    measure_decl_block(&tree.decls)
        .beside(measure_exp(tree.body.get()))
        .node()
        .deeper(1)
}

#[cycle(expressions)]
#[tactic(auto, using(crate::proofs::ExpressionMeasureLemmas::expression_equations, crate::proofs::MeasuringLemmas::loop_equations))]
fn measure_if(tree: &IfTree) -> Measure
    ensures { result ≡ measure_of_if tree.now }
{
    measure_exp(tree.test.get())
        .beside(measure_exp(tree.then_part.get()))
        .beside(measure_exp(tree.else_part.get()))
        .node()
        .deeper(1)
}

#[cycle(expressions)]
#[tactic(auto, using(crate::proofs::ExpressionMeasureLemmas::expression_equations, crate::proofs::MeasuringLemmas::loop_equations))]
fn measure_case(tree: &CaseTree) -> Measure
    ensures { result ≡ measure_of_case tree.now }
{
    measure_exp(tree.scrutinee.get())
        .beside(measure_alt_block(&tree.alts))
        .node()
        .deeper(1)
}

#[cycle(expressions)]
#[tactic(auto, using(crate::proofs::ExpressionMeasureLemmas::expression_equations, crate::proofs::MeasuringLemmas::loop_equations))]
fn measure_aexp(tree: &AExpTree) -> Measure
    ensures { result ≡ measure_of_aexp tree.now }
{
    match tree {
        AExpTree::Var(_) => Measure::leaf(),
        AExpTree::Con(_) => Measure::leaf().node(),
        AExpTree::Literal(_) => Measure::leaf(),
        AExpTree::Parts(first, rest) => measure_exp(first.get())
            .beside(measure_exps(rest.as_slice()))
            .node()
            .deeper(1),
        AExpTree::List(first, rest) => measure_exp(first.get())
            .beside(measure_exps(rest.as_slice()))
            .node()
            .deeper(1),
        AExpTree::LeftSection(chain, _) => measure_infix(chain.get()).node().deeper(1),
        AExpTree::RightSection(_, chain) => measure_infix(chain.get()).node().deeper(1),
    }
}

#[cycle(expressions)]
#[tactic(auto, using(crate::proofs::ExpressionMeasureLemmas::expression_equations, crate::proofs::MeasuringLemmas::loop_equations))]
fn measure_aexps(trees: &[AExpTree]) -> Measure
    ensures { result ≡ all_measured measure_of_aexp trees.now }
{
    let mut total = Measure::nothing();
    for each in trees {
        total = total.beside(measure_aexp(each));
    }
    total
}

#[cycle(expressions)]
#[tactic(auto, using(crate::proofs::ExpressionMeasureLemmas::expression_equations, crate::proofs::MeasuringLemmas::loop_equations))]
fn measure_alt_block(tree: &AltBlock) -> Measure
    ensures { result ≡ measure_of_alt_block tree.now }
{
    measure_alt_slot(tree.first.get()).beside(measure_alt_slots(tree.rest.as_slice()))
}

#[cycle(expressions)]
#[tactic(auto, using(crate::proofs::ExpressionMeasureLemmas::expression_equations, crate::proofs::MeasuringLemmas::loop_equations))]
fn measure_alt_slots(trees: &[AltSlot]) -> Measure
    ensures { result ≡ all_measured measure_of_alt_slot trees.now }
{
    let mut total = Measure::nothing();
    for each in trees {
        total = total.beside(measure_alt_slot(each));
    }
    total
}

#[cycle(expressions)]
#[tactic(auto, using(crate::proofs::ExpressionMeasureLemmas::expression_equations, crate::proofs::MeasuringLemmas::loop_equations))]
fn measure_alt_slot(tree: &AltSlot) -> Measure
    ensures { result ≡ measure_of_alt_slot tree.now }
{
    match tree {
        AltSlot::NoAlt => Measure::nothing(),
        AltSlot::Alt(alt) => measure_alt(alt),
    }
}

#[cycle(expressions)]
#[tactic(auto, using(crate::proofs::ExpressionMeasureLemmas::expression_equations, crate::proofs::MeasuringLemmas::loop_equations))]
fn measure_alt(tree: &AltTree) -> Measure
    ensures { result ≡ measure_of_alt tree.now }
{
    measure_pat(&tree.pat)
        .beside(measure_alt_body(&tree.body))
        .beside(measure_locals(&tree.locals))
        .node()
}

#[cycle(expressions)]
#[tactic(auto, using(crate::proofs::ExpressionMeasureLemmas::expression_equations, crate::proofs::MeasuringLemmas::loop_equations))]
fn measure_alt_body(tree: &AltBody) -> Measure
    ensures { result ≡ measure_of_alt_body tree.now }
{
    match tree {
        AltBody::Arrow(exp) => measure_exp(exp),
        AltBody::GuardedArrows(first, rest) => measure_gda(first).beside(measure_gdas(
            rest.as_slice(),
        )),
    }
}

#[cycle(expressions)]
#[tactic(auto, using(crate::proofs::ExpressionMeasureLemmas::expression_equations, crate::proofs::MeasuringLemmas::loop_equations))]
fn measure_gda(tree: &GdaTree) -> Measure
    ensures { result ≡ measure_of_gda tree.now }
{
    measure_guard(&tree.first)
        .beside(measure_guards(tree.rest.as_slice()))
        .beside(measure_exp(&tree.exp))
        .node()
}

#[cycle(expressions)]
#[tactic(auto, using(crate::proofs::ExpressionMeasureLemmas::expression_equations, crate::proofs::MeasuringLemmas::loop_equations))]
fn measure_gdas(trees: &[GdaTree]) -> Measure
    ensures { result ≡ all_measured measure_of_gda trees.now }
{
    let mut total = Measure::nothing();
    for each in trees {
        total = total.beside(measure_gda(each));
    }
    total
}

#[cycle(expressions)]
#[tactic(auto, using(crate::proofs::ExpressionMeasureLemmas::expression_equations, crate::proofs::MeasuringLemmas::loop_equations))]
fn measure_guard(tree: &GuardTree) -> Measure
    ensures { result ≡ measure_of_guard tree.now }
{
    match tree {
        GuardTree::Bind(pat, chain) => measure_pat(pat).beside(measure_infix(chain)).node(),
        GuardTree::Test(chain) => measure_infix(chain).node(),
    }
}

#[cycle(expressions)]
#[tactic(auto, using(crate::proofs::ExpressionMeasureLemmas::expression_equations, crate::proofs::MeasuringLemmas::loop_equations))]
fn measure_guards(trees: &[GuardTree]) -> Measure
    ensures { result ≡ all_measured measure_of_guard trees.now }
{
    let mut total = Measure::nothing();
    for each in trees {
        total = total.beside(measure_guard(each));
    }
    total
}

#[cycle(expressions)]
#[tactic(auto, using(crate::proofs::ExpressionMeasureLemmas::expression_equations, crate::proofs::MeasuringLemmas::loop_equations))]
fn measure_decl_block(tree: &DeclBlock) -> Measure
    ensures { result ≡ measure_of_decl_block tree.now }
{
    measure_decl_slot(tree.first.get()).beside(measure_decl_slots(tree.rest.as_slice()))
}

#[cycle(expressions)]
#[tactic(auto, using(crate::proofs::ExpressionMeasureLemmas::expression_equations, crate::proofs::MeasuringLemmas::loop_equations))]
fn measure_decl_slots(trees: &[DeclSlot]) -> Measure
    ensures { result ≡ all_measured measure_of_decl_slot trees.now }
{
    let mut total = Measure::nothing();
    for each in trees {
        total = total.beside(measure_decl_slot(each));
    }
    total
}

#[cycle(expressions)]
#[tactic(auto, using(crate::proofs::ExpressionMeasureLemmas::expression_equations, crate::proofs::MeasuringLemmas::loop_equations))]
fn measure_decl_slot(tree: &DeclSlot) -> Measure
    ensures { result ≡ measure_of_decl_slot tree.now }
{
    match tree {
        DeclSlot::NoDecl => Measure::nothing(),
        DeclSlot::Decl(decl) => measure_decl(decl),
    }
}

/// Nodes and depth of a declaration.
#[cycle(expressions)]
#[tactic(auto, using(crate::proofs::ExpressionMeasureLemmas::expression_equations, crate::proofs::MeasuringLemmas::loop_equations))]
pub fn measure_decl(tree: &DeclTree) -> Measure
    ensures { result ≡ measure_of_decl tree.now }
{
    match tree {
        DeclTree::Signature(_, _, ty) => measure_type(ty).node(),
        DeclTree::Fixity(_, _, _, _) => Measure::leaf(),
        DeclTree::Function(left, right) => measure_fun_lhs(left).beside(measure_rhs(right)).node(),
        DeclTree::Pattern(left, right) => measure_pat(left).beside(measure_rhs(right)).node(),
    }
}

#[cycle(expressions)]
#[tactic(auto, using(crate::proofs::ExpressionMeasureLemmas::expression_equations, crate::proofs::MeasuringLemmas::loop_equations))]
fn measure_rhs(tree: &RhsTree) -> Measure
    ensures { result ≡ measure_of_rhs tree.now }
{
    measure_rhs_body(&tree.body)
        .beside(measure_locals(&tree.locals))
        .node()
}

#[cycle(expressions)]
#[tactic(auto, using(crate::proofs::ExpressionMeasureLemmas::expression_equations, crate::proofs::MeasuringLemmas::loop_equations))]
fn measure_rhs_body(tree: &RhsBody) -> Measure
    ensures { result ≡ measure_of_rhs_body tree.now }
{
    match tree {
        RhsBody::Equals(exp) => measure_exp(exp),
        RhsBody::GuardedEquals(first, rest) => measure_gd(first).beside(measure_gds(
            rest.as_slice(),
        )),
    }
}

#[cycle(expressions)]
#[tactic(auto, using(crate::proofs::ExpressionMeasureLemmas::expression_equations, crate::proofs::MeasuringLemmas::loop_equations))]
fn measure_gd(tree: &GdTree) -> Measure
    ensures { result ≡ measure_of_gd tree.now }
{
    measure_guard(&tree.first)
        .beside(measure_guards(tree.rest.as_slice()))
        .beside(measure_exp(&tree.exp))
        .node()
}

#[cycle(expressions)]
#[tactic(auto, using(crate::proofs::ExpressionMeasureLemmas::expression_equations, crate::proofs::MeasuringLemmas::loop_equations))]
fn measure_gds(trees: &[GdTree]) -> Measure
    ensures { result ≡ all_measured measure_of_gd trees.now }
{
    let mut total = Measure::nothing();
    for each in trees {
        total = total.beside(measure_gd(each));
    }
    total
}

#[cycle(expressions)]
#[tactic(auto, using(crate::proofs::ExpressionMeasureLemmas::expression_equations, crate::proofs::MeasuringLemmas::loop_equations))]
fn measure_locals(tree: &Locals) -> Measure
    ensures { result ≡ measure_of_locals tree.now }
{
    match tree {
        Locals::Absent => Measure::nothing(),
        Locals::Where(block) => measure_decl_block(block).deeper(1),
    }
}
