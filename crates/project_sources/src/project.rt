//! The package files of a project.
ghost use Rattle.std.specs.Prelude.{◌≡◌, ◌≤◌, ◌+◌, ◌++◌, List, length, IfOk, OnOk};
ghost use Rattle.bp_checks.specs.Stop.{Tells, read_failed};
ghost use Rattle.bp_edges.specs.Causes.{IsCounted};
ghost use Rattle.bp_edges.specs.declared.files.File.{File};
ghost use Rattle.project_sources.specs.Limits.{limited};
ghost use Rattle.project_sources.specs.Project.{total, package_at, packages_at, named_files, components_of, project_at};

use crate::files::whole_file;
use crate::once::told_apart;
use crate::texts::{components_at, package_files};
use bp_base::{Bytes, Path};
use bp_checks::Stop;
use bp_edges::Tree;
use cabal_component::{Component, Components, Paths};
use sqlite_items::Items;
use std::alloc::{AllocError, Global};

/// A package file that was read.
#[derive(Debug, Drop)]
pub struct Package {
    /// Where it stands.
    pub path: Path,
    pub content: Bytes,
    /// Its components, in its order.
    pub components: Components,
}

/// Package files in order.
pub type Packages = Items<Package>;

/// The package files that a project names.
#[derive(Debug, Drop)]
pub struct Named {
    pub paths: Paths,
    /// How many bytes `cabal.project` has.
    pub bytes: u64,
}

/// A project whose components are told apart.
#[derive(Debug, Drop)]
pub struct Project {
    /// How many bytes `cabal.project` and the package files have.
    pub bytes: u64,
    /// Its package files, in order.
    pub packages: Packages,
    /// The components of all of them, in order.
    pub components: Components,
}

/// The package file at a path, where `seen` bytes of other files were read before it.
pub fn read_package<T: Tree>(
    alloc: Global,
    tree: &mut T,
    seen: u64,
    path: &Path,
) -> Result<Package, Stop>
    ensures tells { Tells (T.files tree.old) (λ (files : List File). package_at limited files seen path.now) result }
    ensures kept { T.files tree.new ≡ T.files tree.old }
    ensures counted { IsCounted (read_failed result) (T.faults tree.old) (T.faults tree.new) }
    ensures within { IfOk result (λ found. seen + length found.content ≤ 33554432) }
{
    let content = whole_file(alloc, tree, path, seen, b"", b"")?;
    let components = components_at(alloc, path, content.as_bytes())?;
    let path = path.copied(alloc)?;
    Ok(Package {
        path,
        content,
        components,
    })
}

/// The package files at paths, in order, where `seen` bytes of other files were read before them.
pub fn read_packages<T: Tree>(
    alloc: Global,
    tree: &mut T,
    seen: u64,
    paths: &[Path],
) -> Result<Packages, Stop>
    ensures tells { Tells (T.files tree.old) (λ (files : List File). packages_at limited files seen paths.now) result }
    ensures kept { T.files tree.new ≡ T.files tree.old }
    ensures counted { IsCounted (read_failed result) (T.faults tree.old) (T.faults tree.new) }
    ensures within { seen ≤ 33554432 → IfOk result (λ all. seen + total all ≤ 33554432) }
{
    let mut all = Items::new(alloc);
    let mut read = seen;
    for path in paths {
        let found = read_package(alloc, tree, read, path)?;
        read += found.content.as_bytes().len() as u64;
        all.push(found)?;
    }
    Ok(all)
}

/// How many bytes package files have.
fn package_bytes(packages: &[Package]) -> u64
    requires { total packages.now ≤ 33554432 }
    ensures { result ≡ total packages.now }
{
    let mut bytes = 0;
    for package in packages {
        bytes += package.content.as_bytes().len() as u64;
    }
    bytes
}

/// The package files that `cabal.project` names.
fn named_files<T: Tree>(alloc: Global, tree: &mut T) -> Result<Named, Stop>
    ensures tells { Tells (T.files tree.old) (λ (files : List File). named_files limited files) result }
    ensures kept { T.files tree.new ≡ T.files tree.old }
    ensures counted { IsCounted (read_failed result) (T.faults tree.old) (T.faults tree.new) }
    ensures within { IfOk result (λ named. named.bytes ≤ 33554432) }
{
    let path = Path::from_bytes(alloc, b"cabal.project")?;
    let content = whole_file(alloc, tree, &path, 0, b"", b"")?;
    let bytes = content.as_bytes().len() as u64;
    let paths = package_files(alloc, content.as_bytes())?;
    Ok(Named { paths, bytes })
}

fn push_components(
    alloc: Global,
    all: &mut Components,
    components: &[Component],
) -> Result<(), AllocError>
    ensures { OnOk result (all.new ≡ all.old ++ components.now) }
{
    for component in components {
        all.push(component.copied(alloc)?)?;
    }
    Ok(())
}

/// The components of package files, in order.
fn components_of(alloc: Global, packages: &[Package]) -> Result<Components, AllocError>
    ensures { IfOk result (λ all. all ≡ components_of packages.now) }
{
    let mut all = Items::new(alloc);
    for package in packages {
        push_components(alloc, &mut all, package.components.as_slice())?;
    }
    Ok(all)
}

/// The project: its package files are read in the order of `cabal.project`, and then its components are told apart.
pub fn read_files<T: Tree>(alloc: Global, tree: &mut T) -> Result<Project, Stop>
    ensures tells { Tells (T.files tree.old) (λ (files : List File). project_at limited files) result }
    ensures kept { T.files tree.new ≡ T.files tree.old }
    ensures counted { IsCounted (read_failed result) (T.faults tree.old) (T.faults tree.new) }
    ensures within { IfOk result (λ project. project.bytes ≤ 33554432) }
{
    let named = named_files(alloc, tree)?;
    let packages = read_packages(alloc, tree, named.bytes, named.paths.as_slice())?;
    let components = components_of(alloc, packages.as_slice())?;
    told_apart(alloc, components.as_slice())?;
    Ok(Project {
        bytes: named.bytes + package_bytes(packages.as_slice()),
        packages,
        components,
    })
}
