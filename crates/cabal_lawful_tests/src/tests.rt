//! A component as it is read, and without what makes it lawful.
use bp_base::{Names, Path};
use cabal_component::{Component, ComponentError, read_component};
use cabal_lawful::is_lawful;
use std::alloc::{AllocError, Global};
use std::test::Fail;

const FILE: &[u8] = b"\
name: p
library
  exposed-modules: A
  mixins: q (A as B) requires (H as G)
";

fn component(alloc: Global) -> Result<Option<Component>, AllocError> {
    let path = Path::from_bytes(alloc, b"p/p.cabal")?;
    match read_component(alloc, &path, FILE) {
        Ok(mut components) => Ok(components.pop()),
        Err(ComponentError::ComponentSyntax { .. }) => Ok(None),
        Err(ComponentError::NoMemory) => Err(AllocError),
    }
}

/// The same component without its dependencies.
fn without_deps(alloc: Global, component: Component) -> Component {
    Component {
        deps: Names::new(alloc),
        ..component
    }
}

/// Whether a component is lawful, and lawful without its dependencies; nothing where there is none.
fn verdicts(alloc: Global) -> Result<Option<(bool, bool)>, AllocError> {
    let Some(component) = component(alloc)? else {
        return Ok(None);
    };
    let whole = is_lawful(alloc, &component)?;
    let partial = is_lawful(alloc, &without_deps(alloc, component))?;
    Ok(Some((whole, partial)))
}

#[test]
fn entries_are_of_dependencies(rt: HostRuntime) -> Result<(), Fail> {
    assert!(rt; verdicts(rt.alloc())? == Some((true, false)));
    Ok(())
}
