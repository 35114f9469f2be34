//! Whether an expression ends in a type, which goes on with an arrow behind it.
ghost use Rattle.std.specs.Prelude.{◌≡◌, map};
ghost use Rattle.hs_modules.specs.Formed.{Facts, facts_of_exp, facts_of_guard, facts_of_infix, facts_of_link, facts_of_operand, last_of};

use hs_modules::{ExpTree, GuardTree, InfixTree, OpOperand, OperandTree};

/// Whether a guard ends in a type.
pub fn ends_in_type(guard: &GuardTree) -> bool
    ensures { result ≡ (facts_of_guard guard.now).ends_in_type }
{
    match guard {
        GuardTree::Bind(_, chain) => chain_ends_in_type(chain),
        GuardTree::Test(chain) => chain_ends_in_type(chain),
    }
}

#[cycle(ends)]
fn chain_ends_in_type(chain: &InfixTree) -> bool
    ensures { result ≡ (facts_of_infix chain.now).ends_in_type }
{
    let first = operand_ends_in_type(&chain.first.operand);
    links_end_in_type(first, chain.rest.as_slice())
}

/// Whether the last of these operands ends in a type, or what stands before them, if there are none.
#[cycle(ends)]
fn links_end_in_type(before: bool, links: &[OpOperand]) -> bool
    ensures { (first : Facts) → before ≡ first.ends_in_type → result ≡ (last_of first (map facts_of_link links.now)).ends_in_type }
{
    let mut ends = before;
    for link in links {
        ends = link_ends_in_type(link);
    }
    ends
}

#[cycle(ends)]
fn link_ends_in_type(link: &OpOperand) -> bool
    ensures { result ≡ (facts_of_link link.now).ends_in_type }
{
    operand_ends_in_type(&link.operand.operand)
}

#[cycle(ends)]
fn operand_ends_in_type(operand: &OperandTree) -> bool
    ensures { result ≡ (facts_of_operand operand.now).ends_in_type }
{
    match operand {
        OperandTree::Lambda(lambda) => exp_ends_in_type(lambda.body.get()),
        OperandTree::Let(bindings) => exp_ends_in_type(bindings.body.get()),
        OperandTree::If(branches) => exp_ends_in_type(branches.else_part.get()),
        OperandTree::Case(_) => false,
        OperandTree::Apply(_, _) => false,
    }
}

#[cycle(ends)]
fn exp_ends_in_type(exp: &ExpTree) -> bool
    ensures { result ≡ (facts_of_exp exp.now).ends_in_type }
{
    match exp {
        ExpTree::Infix(chain) => chain_ends_in_type(chain),
        ExpTree::Annotated(_, _) => true,
    }
}
