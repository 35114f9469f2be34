//! What files say, in one line each.
use bp_base::{Name, Path, Rename};
use cabal_component::{
    Component, ComponentError, Mixin, ProjectError, Provides, copied_mixins, includes,
    read_component, read_project,
};
use std::alloc::{AllocError, Global};

fn add_names(text: &mut Vec<u8>, names: &[Name]) -> Result<(), AllocError> {
    text.push(b'|')?;
    for name in names {
        text.extend_from_slice(name.as_bytes())?;
        text.push(b' ')?;
    }
    Ok(())
}

fn add_paths(text: &mut Vec<u8>, paths: &[Path]) -> Result<(), AllocError> {
    text.push(b'|')?;
    for path in paths {
        text.extend_from_slice(path.as_bytes())?;
        text.push(b' ')?;
    }
    Ok(())
}

fn add_renames(text: &mut Vec<u8>, renames: &[Rename]) -> Result<(), AllocError> {
    text.push(b'|')?;
    for rename in renames {
        text.extend_from_slice(rename.from.as_bytes())?;
        text.push(b'>')?;
        text.extend_from_slice(rename.to.as_bytes())?;
        text.push(b' ')?;
    }
    Ok(())
}

fn add_mixins(text: &mut Vec<u8>, mixins: &[Mixin]) -> Result<(), AllocError> {
    for mixin in mixins {
        text.push(b'|')?;
        text.extend_from_slice(mixin.dep.as_bytes())?;
        match &mixin.provides {
            Provides::Whole => text.extend_from_slice(b" whole")?,
            Provides::Listed { items } => {
                text.extend_from_slice(b" listed")?;
                add_renames(text, items.as_slice())?;
            }
            Provides::Hiding { names } => {
                text.extend_from_slice(b" hiding")?;
                add_names(text, names.as_slice())?;
            }
        }
        add_renames(text, mixin.needs.as_slice())?;
    }
    Ok(())
}

/// A component in one line, field by field.
fn described(alloc: Global, component: &Component) -> Result<Vec<u8>, AllocError> {
    let mut text = component.name.as_bytes().to_vec(alloc)?;
    add_names(&mut text, component.exposed.as_slice())?;
    add_names(&mut text, component.other.as_slice())?;
    text.push(b'|')?;
    text.extend_from_slice(component.main_is.as_bytes())?;
    add_names(&mut text, component.signatures.as_slice())?;
    add_renames(&mut text, component.reexports.as_slice())?;
    add_names(&mut text, component.deps.as_slice())?;
    add_mixins(&mut text, component.mixins.as_slice())?;
    add_paths(&mut text, component.dirs.as_slice())?;
    text.push(b'|')?;
    text.extend_from_slice(component.file.as_bytes())?;
    Ok(text)
}

/// The last component of a package file, or that its file is refused.
fn last_of(alloc: Global, text: &[u8]) -> Result<Vec<u8>, AllocError> {
    let path = Path::from_bytes(alloc, b"p/p.cabal")?;
    match read_component(alloc, &path, text) {
        Ok(mut components) => match components.pop() {
            Some(component) => described(alloc, &component.copied(alloc)?),
            None => b"none".to_vec(alloc),
        },
        Err(ComponentError::ComponentSyntax { .. }) => b"refused".to_vec(alloc),
        Err(ComponentError::NoMemory) => Err(AllocError),
    }
}

/// What the last component of a package file includes.
fn included(alloc: Global, text: &[u8]) -> Result<Vec<u8>, AllocError> {
    let path = Path::from_bytes(alloc, b"p/p.cabal")?;
    let mut found = Vec::new(alloc);
    match read_component(alloc, &path, text) {
        Ok(mut components) => {
            if let Some(component) = components.pop() {
                let mixins = includes(alloc, &component)?;
                add_mixins(&mut found, copied_mixins(alloc, &mixins)?.as_slice())?;
            }
            Ok(found)
        }
        Err(ComponentError::ComponentSyntax { .. }) => Ok(found),
        Err(ComponentError::NoMemory) => Err(AllocError),
    }
}

/// The line of a package file that is refused, or 0.
pub fn refused(alloc: Global, text: &[u8]) -> Result<u64, AllocError> {
    let path = Path::from_bytes(alloc, b"p/p.cabal")?;
    match read_component(alloc, &path, text) {
        Ok(_) => Ok(0),
        Err(ComponentError::ComponentSyntax { line }) => Ok(line),
        Err(ComponentError::NoMemory) => Err(AllocError),
    }
}

fn line_of(alloc: Global, line: u64) -> Result<Vec<u8>, AllocError> {
    let mut text = Vec::new(alloc);
    text.extend_from_slice(format!(in alloc; "{line}")?.as_bytes())?;
    Ok(text)
}

/// The files that a project names, or its refused line.
fn project(alloc: Global, text: &[u8]) -> Result<Vec<u8>, AllocError> {
    match read_project(alloc, text) {
        Ok(paths) => {
            let mut found = Vec::new(alloc);
            add_paths(&mut found, paths.as_slice())?;
            Ok(found)
        }
        Err(ProjectError::ProjectSyntax { line }) => line_of(alloc, line),
        Err(ProjectError::NoMemory) => Err(AllocError),
    }
}

/// What is answered of a text.
#[derive(Clone, Copy, Debug)]
pub enum Asked {
    /// The package files of a project file.
    Project,
    /// The refused line of a package file.
    Refused,
    /// The last component of a package file.
    Last,
    /// What that component includes.
    Includes,
}

/// The answer in one line.
pub fn answer(alloc: Global, asked: Asked, text: &[u8]) -> Result<Vec<u8>, AllocError> {
    match asked {
        Asked::Project => project(alloc, text),
        Asked::Refused => line_of(alloc, refused(alloc, text)?),
        Asked::Last => last_of(alloc, text),
        Asked::Includes => included(alloc, text),
    }
}
