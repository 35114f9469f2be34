//! Which holes occur in an identity.
ghost use Rattle.std.specs.Prelude.{◌≡◌};
ghost use Rattle.bp_base.specs.Holes.{closed, fills_closed, fills_have_hole, has_hole, unit_closed, unit_has_hole};

use crate::{Fill, Ident, Name, Unit};

/// Whether no hole occurs in the identity. It takes no memory.
#[cycle(closed)]
#[tactic(auto, using(crate::proofs::HoleLemmas::hole_equations))]
pub fn is_closed(ident: &Ident) -> bool
    ensures { result ≡ closed ident.now }
{
    match ident {
        Ident::Hole { .. } => false,
        Ident::Module { unit, .. } => is_closed_unit(unit.get()),
    }
}

/// Whether no hole occurs in the fills of the unit. It takes no memory.
#[cycle(closed)]
#[tactic(auto, using(crate::proofs::HoleLemmas::hole_equations))]
pub fn is_closed_unit(unit: &Unit) -> bool
    ensures { result ≡ unit_closed unit.now }
{
    are_closed(unit.fills.as_slice())
}

#[cycle(closed)]
fn are_closed(fills: &[Fill]) -> bool
    ensures { result ≡ fills_closed fills.now }
{
    for each in fills {
        if !is_closed(&each.ident) {
            return false;
        }
    }
    true
}

/// Whether the hole occurs in the identity. It takes no memory.
#[cycle(occurs)]
#[tactic(auto, using(crate::proofs::HoleLemmas::hole_equations))]
pub fn occurs(hole: &Name, ident: &Ident) -> bool
    ensures { result ≡ has_hole hole.now ident.now }
{
    match ident {
        Ident::Hole { name } => *name == *hole,
        Ident::Module { unit, .. } => occurs_in_unit(hole, unit.get()),
    }
}

#[cycle(occurs)]
#[tactic(auto, using(crate::proofs::HoleLemmas::hole_equations))]
fn occurs_in_unit(hole: &Name, unit: &Unit) -> bool
    ensures { result ≡ unit_has_hole hole.now unit.now }
{
    occurs_in_fills(hole, unit.fills.as_slice())
}

#[cycle(occurs)]
fn occurs_in_fills(hole: &Name, fills: &[Fill]) -> bool
    ensures { result ≡ fills_have_hole hole.now fills.now }
{
    for each in fills {
        if occurs(hole, &each.ident) {
            return true;
        }
    }
    false
}
