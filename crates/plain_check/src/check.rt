//! Whether the values of a module have their declared types.
ghost use Rattle.std.specs.Prelude.{◌≡◌, ◌≤◌, ◌+◌, length, IfOk};
ghost use Rattle.bp_base.specs.declared.code.Code.TheVariants.{IllTyped};
ghost use Rattle.bp_base.specs.declared.defect.Item.TheVariants.{Named};
ghost use Rattle.bp_checks.specs.Refused.{Checks, defect_at};
ghost use Rattle.plain_check.specs.Given.{typed};

use crate::typing::{TypeError, check_bindings};
use bp_base::{Code, Defect, Item, Name, Refusal, Steps};
use bp_checks::defect_at;
use hs_plain::PlainModule;
use std::alloc::{AllocError, Global};
use std::sync::ledger::Ledger;

/// A value has not its declared type.
fn ill_typed(alloc: Global, component: &Name, at: &Name, occ: &Name) -> Result<Defect, AllocError>
    ensures { IfOk result (λ defect. defect ≡ defect_at IllTyped component.now at.now (Named occ.now)) }
{
    let occ = occ.copied(alloc)?;
    defect_at(
        alloc,
        Code::IllTyped,
        component.as_bytes(),
        at.as_bytes(),
        Item::Named { occ },
    )
}

/// Each value of the module has its declared type, or the first that has not is refused. Each value that is looked at is one step.
#[tactic(auto, unfolding(crate::specs::Given::typed))]
pub fn check_module<L: Ledger>(
    alloc: Global,
    component: &Name,
    plain: &PlainModule,
    steps: &mut Steps<L>,
) -> Result<(), Refusal>
    ensures checks { Checks (typed component.now plain.now) result }
    ensures later { steps.old ≤ steps.new }
    ensures most { steps.new ≤ steps.old + length plain.now.bindings }
    ensures all { IfOk result (λ _. steps.new ≡ steps.old + length plain.now.bindings) }
{
    let bindings = plain.bindings.as_slice();
    match check_bindings(alloc, bindings, steps) {
        Ok(()) => Ok(()),
        Err(TypeError::IllTyped { place }) => Err(Refusal::Defect {
            defect: ill_typed(alloc, component, &plain.name, &bindings[place].occ)?,
        }),
        Err(TypeError::NoMemory) => Err(Refusal::NoMemory),
    }
}
