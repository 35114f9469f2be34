//! The test of the condition on units.
ghost use Rattle.std.specs.Prelude.{◌≡◌, ◌↔◌, ◌++◌, IsTrue, IfOk, OnOk};
ghost use Rattle.std.specs.Ordering.{nat_cmp, is_lt};
ghost use Rattle.std.specs.Cmp.Lexicographic.{slice_cmp};
ghost use Rattle.hole_unify.specs.Causes.{IsLawful, units_of, units_in};
ghost use Rattle.hole_unify.specs.Lawful.{same_holes, rise_after, rises, agree, agrees_with, all_agree, units_in_fills};

use crate::equation::{Equation, Equations};
use crate::lookup::is_before;
use bp_base::{Fill, Ident, Name, Unit};
use std::alloc::{AllocError, Global};

/// Puts the units of an identity at the end of the list.
#[cycle(list)]
#[tactic(auto, using(crate::proofs::LawfulnessLemmas::unit_equations))]
fn list_ident(alloc: Global, ident: &Ident, units: &mut Vec<Unit>) -> Result<(), AllocError>
    ensures { OnOk result (units.new.items ≡ units.old.items ++ units_of ident.now) }
{
    match ident {
        Ident::Hole { .. } => Ok(()),
        Ident::Module { unit, .. } => {
            units.push(unit.get().copied(alloc)?)?;
            list_fills(alloc, unit.get().fills.as_slice(), units)?;
            Ok(())
        }
    }
}

#[cycle(list)]
fn list_fills(alloc: Global, fills: &[Fill], units: &mut Vec<Unit>) -> Result<(), AllocError>
    ensures { OnOk result (units.new.items ≡ units.old.items ++ units_in_fills fills.now) }
{
    for each in fills {
        list_ident(alloc, &each.ident, units)?;
    }
    Ok(())
}

fn list_equations(alloc: Global, equations: &[Equation]) -> Result<Vec<Unit>, AllocError>
    ensures { IfOk result (λ units. units.items ≡ units_in equations.now) }
{
    let mut units = Vec::new(alloc);
    for each in equations {
        list_ident(alloc, &each.left, &mut units)?;
        list_ident(alloc, &each.right, &mut units)?;
    }
    Ok(units)
}

fn have_same_holes(ours: &[Fill], theirs: &[Fill]) -> bool
    ensures { result ≡ same_holes ours.now theirs.now }
{
    match ours {
        [] => theirs.is_empty(),
        [one, ours @ ..] => match theirs {
            [] => false,
            [other, theirs @ ..] => one.hole == other.hole && have_same_holes(ours, theirs),
        },
    }
}

fn rise_from(hole: &Name, fills: &[Fill]) -> bool
    ensures { result ≡ rise_after hole.now fills.now }
{
    match fills {
        [] => true,
        [first, rest @ ..] => is_before(hole, &first.hole) && rise_from(&first.hole, rest),
    }
}

fn have_rising_holes(fills: &[Fill]) -> bool
    ensures { result ≡ rises fills.now }
{
    match fills {
        [] => true,
        [first, rest @ ..] => rise_from(&first.hole, rest),
    }
}

fn do_agree(one: &Unit, other: &Unit) -> bool
    ensures { result ≡ agree one.now other.now }
{
    one.component != other.component
        || have_same_holes(one.fills.as_slice(), other.fills.as_slice())
}

fn agrees_with_all(unit: &Unit, units: &[Unit]) -> bool
    ensures { result ≡ agrees_with unit.now units.now }
{
    for other in units {
        if !do_agree(unit, other) {
            return false;
        }
    }
    true
}

fn do_all_agree(units: &[Unit]) -> bool
    ensures { result ≡ all_agree units.now units.now }
{
    for unit in units {
        if !(have_rising_holes(unit.fills.as_slice()) && agrees_with_all(unit, units)) {
            return false;
        }
    }
    true
}

/// Whether the equations meet the condition of `unify_idents`: units of one component have the same holes, and the holes of each
/// unit rise strictly.
pub fn are_lawful(alloc: Global, equations: &Equations) -> Result<bool, AllocError>
    ensures { IfOk result (λ b. IsTrue b ↔ IsLawful equations.now) }
{
    let units = list_equations(alloc, equations.as_slice())?;
    let lawful = do_all_agree(units.as_slice());
    Ok(lawful)
}
