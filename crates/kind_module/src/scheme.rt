//! Schemes of values: types with their variables numbered by first occurrence.
ghost use Rattle.std.specs.Prelude.{◌≡◌, IfOk, OnOk, nat_eq};
ghost use Rattle.std.specs.List.{list_any};
ghost use Rattle.hs_core.specs.Types.{type_term, count};
ghost use Rattle.hs_core.specs.Matching.{variables_met, number_in};
ghost use Rattle.kind_module.specs.Expanded.{renumbered, scheme_of};

use bp_base::{Scheme, Ty};
use hs_core::Indices;
use sqlite_items::{Boxed, Items};
use std::alloc::{AllocError, Global};

fn is_met(met: &[u64], index: u64) -> bool
    ensures { result ≡ list_any (nat_eq index) met.now }
{
    met.iter().any(|each| index == *each)
}

// The variables of a type go behind those that were met before.
#[tactic(auto, using(crate::proofs::SchemeLemmas::met_app))]
fn meet(ty: &Ty, met: &mut Indices) -> Result<(), AllocError>
    ensures { OnOk result (met.new ≡ variables_met met.old (type_term ty.now)) }
{
    match ty {
        Ty::Var { index } => {
            if is_met(met.as_slice(), *index) {
                return Ok(());
            }
            met.push(*index)
        }
        Ty::Con { .. } => Ok(()),
        Ty::App { fun, arg } => {
            meet(fun.get(), met)?;
            meet(arg.get(), met)
        }
    }
}

fn number_in(met: &[u64], index: u64) -> usize
    ensures { result ≡ number_in met.now index }
{
    for place in 0..met.len() {
        if met[place] == index {
            return place;
        }
    }
    met.len()
}

fn applied(alloc: Global, fun: Ty, arg: Ty) -> Result<Ty, AllocError>
    ensures { IfOk result (λ t. t ≡ Ty.App fun arg) }
{
    Ok(Ty::App {
        fun: Boxed::new(alloc, fun)?,
        arg: Boxed::new(alloc, arg)?,
    })
}

#[tactic(auto, using(crate::proofs::SchemeLemmas::renumbered_app))]
fn renumbered(alloc: Global, met: &[u64], ty: &Ty) -> Result<Ty, AllocError>
    ensures { IfOk result (λ t. t ≡ renumbered met.now ty.now) }
{
    match ty {
        Ty::Var { index } => Ok(Ty::Var {
            index: number_in(met, *index) as u64,
        }),
        Ty::Con { .. } => ty.copied(alloc),
        Ty::App { fun, arg } => {
            let fun = renumbered(alloc, met, fun.get())?;
            let arg = renumbered(alloc, met, arg.get())?;
            applied(alloc, fun, arg)
        }
    }
}

/// The scheme of a type, its variables numbered by first occurrence.
pub fn scheme_of(alloc: Global, ty: &Ty) -> Result<Scheme, AllocError>
    ensures { IfOk result (λ s. s ≡ scheme_of ty.now) }
{
    let mut met = Items::new(alloc);
    meet(ty, &mut met)?;
    let body = renumbered(alloc, met.as_slice(), ty)?;
    Ok(Scheme {
        vars: met.len() as u64,
        body,
    })
}
