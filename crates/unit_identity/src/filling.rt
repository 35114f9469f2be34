ghost use Rattle.std.specs.Prelude.{◌≡◌, IfOk};
ghost use Rattle.std.specs.Option.{option_copied};
ghost use Rattle.unit_identity.specs.Fill.{found, filled, filled_unit, composed, Composes};

use bp_base::{Fill, Fills, Ident, Name, Unit};
use sqlite_items::{Boxed, Items};
use std::alloc::{AllocError, Global};

/// What the fills have for a hole.
pub fn filler<'a>(fills: &'a [Fill], hole: &Name) -> Option<&'a Ident>
    ensures { option_copied result ≡ found hole.now fills.now }
{
    for each in fills {
        if each.hole == *hole {
            return Some(&each.ident);
        }
    }
    None
}

/// The identity with each hole replaced that has a fill.
#[cycle(fill)]
#[tactic(auto, using(crate::proofs::FillLemmas::unit_equations))]
pub fn fill(alloc: Global, ident: &Ident, fills: &Fills) -> Result<Ident, AllocError>
    ensures { IfOk result (λ r. r ≡ filled ident.now fills.now) }
{
    match ident {
        Ident::Hole { name } => match filler(fills.as_slice(), name) {
            Some(found) => found.copied(alloc),
            None => Ok(Ident::Hole {
                name: name.copied(alloc)?,
            }),
        },
        Ident::Module { unit, module } => {
            let unit = fill_unit(alloc, unit.get(), fills)?;
            Ok(Ident::Module {
                unit: Boxed::new(alloc, unit)?,
                module: module.copied(alloc)?,
            })
        }
    }
}

#[cycle(fill)]
#[tactic(auto, using(crate::proofs::FillLemmas::unit_equations))]
pub fn fill_unit(alloc: Global, unit: &Unit, fills: &Fills) -> Result<Unit, AllocError>
    ensures { IfOk result (λ r. r ≡ filled_unit unit.now fills.now) }
{
    Ok(Unit {
        component: unit.component.copied(alloc)?,
        fills: compose(alloc, &unit.fills, fills)?,
    })
}

#[cycle(fill)]
pub fn compose(alloc: Global, first: &Fills, then: &Fills) -> Result<Fills, AllocError>
    ensures { IfOk result (λ r. r ≡ composed first.now then.now) }
{
    let mut all = Items::new(alloc);
    for each in first.as_slice() {
        all.push(Fill {
            hole: each.hole.copied(alloc)?,
            ident: fill(alloc, &each.ident, then)?,
        })?;
    }
    Ok(all)
}

/// Filling by `f` and then by `g` is filling by their composition, where `f` fills every hole that occurs.
pub fn filling_composes()
    ensures { Composes }
{}
