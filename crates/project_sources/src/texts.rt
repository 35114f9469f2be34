//! Project files and package files, with their refusals.
ghost use Rattle.std.specs.Prelude.{◌≡◌, [], IfOk};
ghost use Rattle.bp_base.specs.declared.code.Code.TheVariants.{ProjectSyntax, ComponentSyntax};
ghost use Rattle.bp_base.specs.declared.defect.Item.TheVariants as item;
ghost use Rattle.bp_checks.specs.Refused.{Checks, defect_at};
ghost use Rattle.project_sources.specs.Texts.{package_files, components_at};

use bp_base::{Code, Defect, Item, Path, Refusal};
use bp_checks::defect_at;
use cabal_component::{
    ComponentError, Components, Paths, ProjectError, read_component, read_project,
};
use std::alloc::{AllocError, Global};

fn project_syntax(alloc: Global, line: u64) -> Result<Defect, AllocError>
    ensures { IfOk result (λ defect. defect ≡ defect_at ProjectSyntax [] [] (item.Line line)) }
{
    let number = Item::Line { number: line };
    defect_at(alloc, Code::ProjectSyntax, b"", b"", number)
}

fn component_syntax(alloc: Global, path: &Path, line: u64) -> Result<Defect, AllocError>
    ensures { IfOk result (λ defect. defect ≡ defect_at ComponentSyntax path.now [] (item.Line line)) }
{
    let number = Item::Line { number: line };
    defect_at(alloc, Code::ComponentSyntax, path.as_bytes(), b"", number)
}

/// The package files that a project file names, in their order. ProjectSyntax stands at its first line that is refused.
#[tactic(auto, unfolding(crate::specs::Texts::package_files))]
pub fn package_files(alloc: Global, bytes: &[u8]) -> Result<Paths, Refusal>
    ensures { Checks (package_files bytes.now) result }
{
    match read_project(alloc, bytes) {
        Ok(paths) => Ok(paths),
        Err(ProjectError::ProjectSyntax { line }) => Err(Refusal::Defect {
            defect: project_syntax(alloc, line)?,
        }),
        Err(ProjectError::NoMemory) => Err(Refusal::NoMemory),
    }
}

/// The components of the package file at a path, in their order. ComponentSyntax stands at the first line that is refused, with the path
/// in the place of a component.
#[tactic(auto, unfolding(crate::specs::Texts::components_at))]
pub fn components_at(alloc: Global, path: &Path, bytes: &[u8]) -> Result<Components, Refusal>
    ensures { Checks (components_at path.now bytes.now) result }
{
    match read_component(alloc, path, bytes) {
        Ok(components) => Ok(components),
        Err(ComponentError::ComponentSyntax { line }) => Err(Refusal::Defect {
            defect: component_syntax(alloc, path, line)?,
        }),
        Err(ComponentError::NoMemory) => Err(Refusal::NoMemory),
    }
}
