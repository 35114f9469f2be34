//! Whether an identity is one that a project can have.
ghost use Rattle.std.specs.Prelude.{◌≡◌, ◌&&◌};
ghost use Rattle.bp_base.specs.Names.{is_module_name};
ghost use Rattle.unit_identity.specs.WellFormed.{holes_of, rising, rising_after, well_formed, well_formed_fills, well_formed_unit};

use bp_base::{Fill, Ident, Name, Unit, compare, is_component_name, is_module_name};
use std::cmp::Ordering;

/// Whether each component, hole and module name in the identity has its form, and the holes of each unit in it strictly rise. It
/// takes no memory.
#[cycle(well_formed)]
#[tactic(auto, using(crate::proofs::WellFormedLemmas::well_formed_equations))]
pub fn is_well_formed(ident: &Ident) -> bool
    ensures { result ≡ well_formed ident.now }
{
    match ident {
        Ident::Hole { name } => is_module_name(name.as_bytes()),
        Ident::Module { unit, module } => {
            is_well_formed_unit(unit.get()) && is_module_name(module.as_bytes())
        }
    }
}

/// The same of a unit. It takes no memory.
#[cycle(well_formed)]
#[tactic(auto, using(crate::proofs::WellFormedLemmas::well_formed_equations))]
pub fn is_well_formed_unit(unit: &Unit) -> bool
    ensures { result ≡ well_formed_unit unit.now }
{
    is_component_name(unit.component.as_bytes())
        && are_well_formed(unit.fills.as_slice())
        && do_holes_rise(unit.fills.as_slice())
}

#[cycle(well_formed)]
fn are_well_formed(fills: &[Fill]) -> bool
    ensures { result ≡ well_formed_fills fills.now }
{
    for each in fills {
        if !is_well_formed_fill(each) {
            return false;
        }
    }
    true
}

#[cycle(well_formed)]
fn is_well_formed_fill(fill: &Fill) -> bool
    ensures { result ≡ (is_module_name fill.now.hole && well_formed fill.now.ident) }
{
    is_module_name(fill.hole.as_bytes()) && is_well_formed(&fill.ident)
}

/// Whether the holes rise strictly, the first of them behind `last`.
fn do_holes_rise_after(last: &Name, fills: &[Fill]) -> bool
    ensures { result ≡ rising_after last.now (holes_of fills.now) }
{
    let mut before = last;
    for each in fills {
        if compare(before, &each.hole) != Ordering::Less {
            return false;
        }
        before = &each.hole;
    }
    true
}

fn do_holes_rise(fills: &[Fill]) -> bool
    ensures { result ≡ rising (holes_of fills.now) }
{
    match fills {
        [first, rest @ ..] => do_holes_rise_after(&first.hole, rest),
        [] => true,
    }
}
