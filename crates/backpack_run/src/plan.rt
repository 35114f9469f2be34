//! The components that a target needs.
ghost use Rattle.std.specs.Prelude.{◌≡◌, ◌≤◌, [], List, None, Some, MatchOption, IfOk};
ghost use Rattle.bp_base.specs.declared.code.Code.TheVariants.{NoComponent};
ghost use Rattle.bp_base.specs.declared.defect.Item.TheVariants.{Named};
ghost use Rattle.bp_checks.specs.Refused.{Checks, defect_at};
ghost use Rattle.bp_checks.specs.Stop.{Tells, read_failed};
ghost use Rattle.bp_edges.specs.Causes.{IsCounted};
ghost use Rattle.bp_edges.specs.declared.files.File.{File};
ghost use Rattle.project_order.specs.Order.{build_order};
ghost use Rattle.project_sources.specs.Limits.{limited};
ghost use Rattle.backpack_run.specs.Given.{component_in, listed, content_in, reached_one, reached, planned};

use bp_base::{Code, Defect, Item, Name, Names, Path, Refusal};
use bp_checks::{Stop, defect_at};
use bp_edges::Tree;
use cabal_component::{Component, Components};
use plain_check::asks_nothing;
use project_order::build_order;
use project_sources::{Package, Project, read_files};
use sqlite_items::Items;
use std::alloc::{AllocError, Global};

/// The components that a target needs, dependencies first.
#[derive(Debug, Drop)]
pub struct Plan {
    /// How many bytes the project file and the package files have.
    pub bytes: u64,
    pub components: Components,
}

/// A component isn't there.
pub fn no_component(alloc: Global, name: &[u8]) -> Result<Defect, AllocError>
    ensures { IfOk result (λ defect. defect ≡ defect_at NoComponent [] [] (Named name.now)) }
{
    let occ = Name::from_bytes(alloc, name)?;
    defect_at(alloc, Code::NoComponent, b"", b"", Item::Named { occ })
}

/// The first component of a name.
fn component_in<'a>(components: &'a [Component], name: &Name) -> Option<&'a Component>
    ensures { MatchOption result (component_in components.now name.now ≡ None) (λ c. component_in components.now name.now ≡ Some c.now) }
{
    for component in components {
        if component.name == *name {
            return Some(component);
        }
    }
    None
}

/// A component of this name.
#[tactic(auto, unfolding(crate::specs::Given::listed))]
fn listed(alloc: Global, components: &[Component], name: &Name) -> Result<Component, Refusal>
    ensures { Checks (listed components.now name.now) result }
{
    match component_in(components, name) {
        Some(component) => Ok(component.copied(alloc)?),
        None => Err(Refusal::Defect {
            defect: no_component(alloc, name.as_bytes())?,
        }),
    }
}

/// The content of the package file at a path.
fn content_in<'a>(packages: &'a [Package], path: &Path) -> &'a [u8]
    ensures { result.now ≡ content_in packages.now path.now }
{
    for package in packages {
        if package.path == *path {
            return package.content.as_bytes();
        }
    }
    b""
}

/// A component that the target reaches, which asks for nothing that isn't built yet.
#[tactic(auto, unfolding(crate::specs::Given::reached_one))]
fn reached_one(alloc: Global, project: &Project, name: &Name) -> Result<Component, Refusal>
    ensures { Checks (reached_one project.now name.now) result }
{
    let component = listed(alloc, project.components.as_slice(), name)?;
    let content = content_in(project.packages.as_slice(), &component.file);
    asks_nothing(alloc, &component, content)?;
    Ok(component)
}

/// The components of a build order.
fn reached(alloc: Global, project: &Project, order: &[Name]) -> Result<Components, Refusal>
    ensures { Checks (reached project.now order.now) result }
{
    let mut all = Items::new(alloc);
    for name in order {
        let component = reached_one(alloc, project, name)?;
        all.push(component)?;
    }
    Ok(all)
}

/// The build order of a target.
fn order_of(alloc: Global, project: &Project, target: &[u8]) -> Result<Names, Refusal>
    ensures { Checks (build_order project.now.components target.now) result }
{
    let target = Name::from_bytes(alloc, target)?;
    build_order(alloc, project.components.as_slice(), &target)
}

/// The components that a target needs, dependencies first: the project is read, its build order is found, and each component of it asks
/// for nothing that isn't built yet.
#[tactic(auto, unfolding(crate::specs::Given::planned))]
pub fn planned<T: Tree>(alloc: Global, tree: &mut T, target: &[u8]) -> Result<Plan, Stop>
    ensures tells { Tells (T.files tree.old) (λ (files : List File). planned limited files target.now) result }
    ensures kept { T.files tree.new ≡ T.files tree.old }
    ensures counted { IsCounted (read_failed result) (T.faults tree.old) (T.faults tree.new) }
    ensures within { IfOk result (λ plan. plan.bytes ≤ 33554432) }
{
    let project = read_files(alloc, tree)?;
    let order = order_of(alloc, &project, target)?;
    let components = reached(alloc, &project, order.as_slice())?;
    Ok(Plan {
        bytes: project.bytes,
        components,
    })
}
