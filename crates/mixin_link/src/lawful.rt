//! The test of the condition on summaries.
ghost use Rattle.std.specs.Prelude.{◌≡◌, ◌↔◌, IsTrue, IfOk, map};
ghost use Rattle.std.specs.List.{flat_map};
ghost use Rattle.mixin_link.specs.Summaries.{AreLawful, own_fills, own_ident, closed_at, closing, all_held, summaries_held, itself, summary_equations};

use crate::summary::{Summaries, Summary};
use bp_base::{Fill, Fills, Ident, Name, Provision, Unit, is_closed};
use hole_unify::{Equation, Equations};
use sqlite_items::{Boxed, Items};
use std::alloc::{AllocError, Global};
use unit_identity::fill;

/// A module of a unit without holes.
fn closed_ident(alloc: Global, name: &Name) -> Result<Ident, AllocError>
    ensures { IfOk result (λ i. i ≡ closed_at name.now) }
{
    let unit = Unit {
        component: name.copied(alloc)?,
        fills: Items::new(alloc),
    };
    Ok(Ident::Module {
        unit: Boxed::new(alloc, unit)?,
        module: name.copied(alloc)?,
    })
}

/// Fills of these holes without holes.
fn closing(alloc: Global, holes: &[Name]) -> Result<Fills, AllocError>
    ensures { IfOk result (λ fills. fills ≡ closing holes.now) }
{
    let mut fills = Items::new(alloc);
    for hole in holes {
        fills.push(Fill {
            hole: hole.copied(alloc)?,
            ident: closed_ident(alloc, hole)?,
        })?;
    }
    Ok(fills)
}

/// Whether no hole is left where these are filled.
fn all_held(alloc: Global, holes: &[Name], provisions: &[Provision]) -> Result<bool, AllocError>
    ensures { IfOk result (λ b. b ≡ all_held holes.now provisions.now) }
{
    let fills = closing(alloc, holes)?;
    for provision in provisions {
        let filled = fill(alloc, &provision.ident, &fills)?;
        if !is_closed(&filled) {
            return Ok(false);
        }
    }
    Ok(true)
}

fn summaries_held(alloc: Global, summaries: &[Summary]) -> Result<bool, AllocError>
    ensures { IfOk result (λ b. b ≡ summaries_held summaries.now) }
{
    for summary in summaries {
        if !all_held(
            alloc,
            summary.holes.as_slice(),
            summary.provisions.as_slice(),
        )? {
            return Ok(false);
        }
    }
    Ok(true)
}

/// The own unit fills each hole by itself.
fn own_fills(alloc: Global, holes: &[Name]) -> Result<Fills, AllocError>
    ensures { IfOk result (λ fills. fills ≡ own_fills holes.now) }
{
    let mut fills = Items::new(alloc);
    for hole in holes {
        fills.push(Fill {
            hole: hole.copied(alloc)?,
            ident: Ident::Hole {
                name: hole.copied(alloc)?,
            },
        })?;
    }
    Ok(fills)
}

/// The equation of an identity with itself.
fn itself(alloc: Global, ident: &Ident) -> Result<Equation, AllocError>
    ensures { IfOk result (λ e. e ≡ itself ident.now) }
{
    Ok(Equation {
        label: Name::from_bytes(alloc, b"")?,
        left: ident.copied(alloc)?,
        right: ident.copied(alloc)?,
    })
}

/// The equations of what is provided with itself.
fn provided_equations(alloc: Global, provisions: &[Provision]) -> Result<Equations, AllocError>
    ensures { IfOk result (λ all. all ≡ map (λ p. itself p.ident) provisions.now) }
{
    let mut all = Items::new(alloc);
    for provision in provisions {
        all.push(itself(alloc, &provision.ident)?)?;
    }
    Ok(all)
}

/// A module of the own unit.
fn own_ident(alloc: Global, summary: &Summary) -> Result<Ident, AllocError>
    ensures { IfOk result (λ i. i ≡ own_ident summary.now) }
{
    let unit = Unit {
        component: summary.component.copied(alloc)?,
        fills: own_fills(alloc, summary.holes.as_slice())?,
    };
    Ok(Ident::Module {
        unit: Boxed::new(alloc, unit)?,
        module: summary.component.copied(alloc)?,
    })
}

/// The equations of a summary's identities with themselves.
fn summary_equations(alloc: Global, summary: &Summary) -> Result<Equations, AllocError>
    ensures { IfOk result (λ all. all ≡ summary_equations summary.now) }
{
    let own = own_ident(alloc, summary)?;
    let mut all = Items::new(alloc);
    all.push(itself(alloc, &own)?)?;
    all.append(provided_equations(alloc, summary.provisions.as_slice())?)?;
    Ok(all)
}

fn shown_equations(alloc: Global, summaries: &[Summary]) -> Result<Equations, AllocError>
    ensures { IfOk result (λ all. all ≡ flat_map summary_equations summaries.now) }
{
    let mut all = Items::new(alloc);
    for summary in summaries {
        all.append(summary_equations(alloc, summary)?)?;
    }
    Ok(all)
}

/// Whether summaries meet the condition of `link_names`: what a component provides has no other holes than it lists, and units of one
/// component have the same holes, those that its own summary lists, which rise strictly.
pub fn are_lawful(alloc: Global, summaries: &Summaries) -> Result<bool, AllocError>
    ensures { IfOk result (λ b. IsTrue b ↔ AreLawful summaries.now) }
{
    let held = summaries_held(alloc, summaries.as_slice())?;
    let equations = shown_equations(alloc, summaries.as_slice())?;
    let alike = hole_unify::are_lawful(alloc, &equations)?;
    let lawful = held && alike;
    Ok(lawful)
}
