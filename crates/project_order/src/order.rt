//! The build order of a target, or why there is none.
ghost use Rattle.std.specs.Prelude.{◌≡◌, [], Option, IfOk};
ghost use Rattle.bp_checks.specs.Refused.{Checks, defect_at};
ghost use Rattle.bp_base.specs.declared.code.Code.TheVariants.{NoComponent, DependencyCycle};
ghost use Rattle.bp_base.specs.declared.defect.Item.TheVariants.{Nothing, Named};
ghost use Rattle.project_order.specs.Order.{build_order, asker};
ghost use Rattle.project_order.specs.Numbers.{name_at, named_by, RefusesAt};

use crate::nodes::nodes_of;
use crate::numbers::{all_names, name_at, named, number_of, numbered};
use bp_base::{Code, Defect, Item, Name, Names, Refusal};
use bp_checks::defect_at;
use cabal_component::Component;
use graph_walk::{Use, WalkError, post_order};
use std::alloc::{AllocError, Global};

/// A component leads back to itself.
fn on_cycle(alloc: Global, names: &[Name], at: u64) -> Result<Defect, AllocError>
    ensures { IfOk result (λ defect. defect ≡ defect_at DependencyCycle (name_at names.now at) [] Nothing) }
{
    let component = name_at(alloc, names, at)?;
    defect_at(
        alloc,
        Code::DependencyCycle,
        component.as_bytes(),
        b"",
        Item::Nothing,
    )
}

/// The component that asks; none asks for the target.
fn asker(alloc: Global, names: &[Name], by: Option<u64>) -> Result<Name, AllocError>
    ensures { IfOk result (λ name. name ≡ asker (named_by (name_at names.now) by)) }
{
    match by {
        Some(number) => name_at(alloc, names, number),
        None => Name::from_bytes(alloc, b""),
    }
}

/// A component isn't there.
fn absent(alloc: Global, names: &[Name], wanted: Use) -> Result<Defect, AllocError>
    ensures { IfOk result (λ defect. defect ≡ defect_at NoComponent (asker (named_by (name_at names.now) wanted.by)) [] (Named (name_at names.now wanted.to))) }
{
    let component = asker(alloc, names, wanted.by)?;
    let occ = name_at(alloc, names, wanted.to)?;
    defect_at(
        alloc,
        Code::NoComponent,
        component.as_bytes(),
        b"",
        Item::Named { occ },
    )
}

/// What refuses the order, by what a walk stopped at.
fn order_refused(alloc: Global, names: &[Name], error: WalkError) -> Refusal
    ensures { RefusesAt (name_at names.now) error result }
{
    match error {
        WalkError::Cycle { at } => match on_cycle(alloc, names, at) {
            Ok(defect) => Refusal::Defect { defect },
            Err(_) => Refusal::NoMemory,
        },
        WalkError::Absent { wanted } => match absent(alloc, names, wanted) {
            Ok(defect) => Refusal::Defect { defect },
            Err(_) => Refusal::NoMemory,
        },
        WalkError::NoMemory => Refusal::NoMemory,
    }
}

/// The target and all that it depends on, but for `base`, each component after its dependencies, in the order of a depth-first walk
/// that goes through dependencies in their order. NoComponent names the first component that is asked for and isn't there, at the one
/// that asks; at none, where it is the target, also where that is `base`. DependencyCycle stands at the component that the walk first
/// meets again while its own walk isn't ended. Of two components of one name the first counts.
pub fn build_order(alloc: Global, components: &[Component], target: &Name) -> Result<Names, Refusal>
    ensures { Checks (build_order components.now target.now) result }
{
    let names = all_names(alloc, components, target)?;
    let table = numbered(alloc, names.as_slice())?;
    let count = names.len() as u64;
    let nodes = nodes_of(alloc, &table, count, components)?;
    let starts = [number_of(&table, count, target)];
    match post_order(alloc, nodes.as_slice(), &starts) {
        Ok(order) => Ok(named(alloc, names.as_slice(), order.as_slice())?),
        Err(error) => Err(order_refused(alloc, names.as_slice(), error)),
    }
}
