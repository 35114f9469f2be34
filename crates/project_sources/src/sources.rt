//! The sources of a component.
ghost use Rattle.std.specs.Prelude.{◌≡◌, ◌≤◌, ◌+◌, ◌++◌, ◌==◌, ◌∷◌, [], List, map, length, IfOk, IfErr, OnOk, Some, false, if◌then◌else◌};
ghost use Rattle.std.specs.Option.{option_map};
ghost use Rattle.bp_checks.specs.Refused.{Checks, defect_at};
ghost use Rattle.bp_checks.specs.Stop.{OnStop, Tells, read_failed};
ghost use Rattle.bp_edges.specs.Causes.{IsCounted};
ghost use Rattle.bp_edges.specs.declared.files.File.{File};
ghost use Rattle.project_sources.specs.Limits.{limited, at_most};
ghost use Rattle.bp_edges.specs.Tree.{front_at};
ghost use Rattle.bp_base.specs.declared.code.Code.TheVariants.{NoSource};
ghost use Rattle.bp_base.specs.declared.defect.Item.TheVariants.{Named};
ghost use Rattle.project_sources.specs.Reading.{Stops};
ghost use Rattle.project_sources.specs.Sources.{source_front, sized_file, folder_part, before_file, path_in, slashed, signature_file, module_file, main_files, wanted_of, paths_of, first_there, first_path, source_found, source_total, sources_found, own_modules_hit, gathered};

use crate::files::{no_source, sized};
use bp_base::{Bytes, Defect, LimitHit, Name, Path, Refusal, Which};
use bp_checks::Stop;
use bp_edges::{ReadError, Tree};
use cabal_component::{Component, Paths};
use cabal_stanzas::folder::behind_slash;
use sqlite_items::Items;
use std::alloc::{AllocError, Global};

/// The greatest number of modules and signatures of a component.
const OWN_MODULES: usize = 512;

/// A module or signature that a component lists, and its file below a folder of sources.
#[derive(Debug, Drop)]
pub struct Wanted {
    pub name: Name,
    pub file: Path,
}

/// A source that was read: where it stands, and its bytes.
#[derive(Debug, Drop)]
pub struct Source {
    pub path: Path,
    pub bytes: Bytes,
}

/// Sources in order.
pub type Sources = Items<Source>;

/// A component with its sources: those of its signatures, of its modules as listed, and its main file.
#[derive(Debug, Drop)]
pub struct Input {
    pub component: Component,
    pub sources: Sources,
}

/// A path up to its last slash, with it.
fn folder_part(path: &[u8]) -> &[u8]
    ensures { result.now ≡ folder_part path.now }
{
    &path[..path.len().saturating_sub(behind_slash(path).len())]
}

/// Adds what a folder of sources puts before a path.
fn push_folder(path: &mut Vec<u8>, dir: &[u8]) -> Result<(), AllocError>
    ensures { OnOk result (path.new.items ≡ path.old.items ++ before_file dir.now) }
{
    if dir != b".".as_slice() {
        path.extend_from_slice(dir)?;
        path.push(b'/')?;
    }
    Ok(())
}

/// A file in a folder of sources of a package file.
fn path_in(alloc: Global, owner: &Path, file: &Path, dir: &Path) -> Result<Path, AllocError>
    ensures { IfOk result (λ path. path ≡ path_in owner.now file.now dir.now) }
{
    let mut path = folder_part(owner.as_bytes()).to_vec(alloc)?;
    push_folder(&mut path, dir.as_bytes())?;
    path.extend_from_slice(file.as_bytes())?;
    Ok(Path::from_vec(path))
}

/// Where a source of a component may stand.
fn paths_of(alloc: Global, component: &Component, wanted: &Wanted) -> Result<Paths, AllocError>
    ensures { IfOk result (λ paths. paths ≡ paths_of component.now wanted.now) }
{
    let mut paths = Items::new(alloc);
    for dir in component.dirs.as_slice() {
        paths.push(path_in(alloc, &component.file, &wanted.file, dir)?)?;
    }
    Ok(paths)
}

/// A module's name with slashes in the place of its dots.
fn slashed(alloc: Global, name: &[u8]) -> Result<Vec<u8>, AllocError>
    ensures { IfOk result (λ path. path.items ≡ slashed name.now) }
{
    let mut path = Vec::new(alloc);
    for b in name {
        path.push(if *b == b'.' { b'/' } else { *b })?;
    }
    Ok(path)
}

fn signature_file(alloc: Global, name: &Name) -> Result<Wanted, AllocError>
    ensures { IfOk result (λ wanted. wanted ≡ signature_file name.now) }
{
    let mut path = slashed(alloc, name.as_bytes())?;
    path.extend_from_slice(b".hsig")?;
    let name = name.copied(alloc)?;
    Ok(Wanted {
        name,
        file: Path::from_vec(path),
    })
}

fn module_file(alloc: Global, name: &Name) -> Result<Wanted, AllocError>
    ensures { IfOk result (λ wanted. wanted ≡ module_file name.now) }
{
    let mut path = slashed(alloc, name.as_bytes())?;
    path.extend_from_slice(b".hs")?;
    let name = name.copied(alloc)?;
    Ok(Wanted {
        name,
        file: Path::from_vec(path),
    })
}

fn push_signatures(alloc: Global, all: &mut Items<Wanted>, names: &[Name]) -> Result<(), AllocError>
    ensures { OnOk result (all.new ≡ all.old ++ map signature_file names.now) }
{
    for name in names {
        all.push(signature_file(alloc, name)?)?;
    }
    Ok(())
}

fn push_modules(alloc: Global, all: &mut Items<Wanted>, names: &[Name]) -> Result<(), AllocError>
    ensures { OnOk result (all.new ≡ all.old ++ map module_file names.now) }
{
    for name in names {
        all.push(module_file(alloc, name)?)?;
    }
    Ok(())
}

/// Adds the main file of an executable.
fn push_main(
    alloc: Global,
    all: &mut Items<Wanted>,
    component: &Component,
) -> Result<(), AllocError>
    ensures { OnOk result (all.new ≡ all.old ++ main_files component.now.executable component.now.main_is) }
{
    if component.executable {
        let name = Name::from_bytes(alloc, b"Main")?;
        let file = component.main_is.copied(alloc)?;
        all.push(Wanted { name, file })?;
    }
    Ok(())
}

/// What a component has sources of, in order.
fn wanted_of(alloc: Global, component: &Component) -> Result<Items<Wanted>, AllocError>
    ensures { IfOk result (λ all. all ≡ wanted_of component.now) }
{
    let mut all = Items::new(alloc);
    push_signatures(alloc, &mut all, component.signatures.as_slice())?;
    push_modules(alloc, &mut all, component.exposed.as_slice())?;
    push_modules(alloc, &mut all, component.other.as_slice())?;
    push_main(alloc, &mut all, component)?;
    Ok(all)
}

/// The file at a path, or its front where it is longer than a reading goes.
fn front<T: Tree>(alloc: Global, tree: &mut T, path: &Path) -> Result<Option<Bytes>, Stop>
    ensures told { (files : List File) → T.files tree.old ≡ Some files → IfOk result (λ found. found ≡ front_at 1048577 files path.now) }
    ensures kept { T.files tree.new ≡ T.files tree.old }
    ensures counted { IsCounted (read_failed result) (T.faults tree.old) (T.faults tree.new) }
    ensures unrefused { IfErr result (λ stop. OnStop stop (λ r. ⊥)) }
{
    match tree.read(alloc, path) {
        Ok(found) => Ok(found),
        Err(ReadError::Failed) => Err(Stop::ReadFault),
        Err(ReadError::NoMemory) => Err(Stop::NoMemory),
    }
}

/// The file at the first of these paths that has one, or its front where it is longer than a reading goes.
fn first_there<T: Tree>(alloc: Global, tree: &mut T, paths: &[Path]) -> Result<Option<Source>, Stop>
    ensures told { (files : List File) → T.files tree.old ≡ Some files → IfOk result (λ found. found ≡ option_map source_front (first_there files paths.now)) }
    ensures kept { T.files tree.new ≡ T.files tree.old }
    ensures counted { IsCounted (read_failed result) (T.faults tree.old) (T.faults tree.new) }
    ensures unrefused { IfErr result (λ stop. OnStop stop (λ r. ⊥)) }
{
    for path in paths {
        let found = front(alloc, tree, path)?;
        if let Some(bytes) = found {
            let path = path.copied(alloc)?;
            return Ok(Some(Source { path, bytes }));
        }
    }
    Ok(None)
}

fn first_path(paths: &[Path]) -> &[u8]
    ensures { result.now ≡ first_path paths.now }
{
    match paths {
        [first, ..] => first.as_bytes(),
        [] => b"",
    }
}

/// A source has no file.
fn absent(alloc: Global, component: &Name, at: &Name, paths: &[Path]) -> Result<Defect, AllocError>
    ensures { IfOk result (λ defect. defect ≡ defect_at NoSource component.now at.now (Named (first_path paths.now))) }
{
    let path = Path::from_bytes(alloc, first_path(paths))?;
    no_source(alloc, component.as_bytes(), at.as_bytes(), &path)
}

/// The same source, where it is within the limits behind so many bytes that were read before.
#[tactic(auto, unfolding(crate::specs::Sources::sized_file))]
fn sized_file(source: Source, seen: u64) -> Result<Source, Stop>
    ensures stops { Stops (sized_file limited seen source) result }
    ensures no_fault { read_failed result ≡ false }
    ensures within { IfOk result (λ found. seen + length found.bytes ≤ 33554432) }
{
    let bytes = sized(source.bytes, seen)?;
    Ok(Source {
        path: source.path,
        bytes,
    })
}

/// A source of a component, from the first folder that has it, where `seen` bytes of other files were read before it.
fn read_source<T: Tree>(
    alloc: Global,
    tree: &mut T,
    seen: u64,
    component: &Component,
    wanted: &Wanted,
) -> Result<Source, Stop>
    ensures tells { Tells (T.files tree.old) (λ (files : List File). source_found limited files seen component.now wanted.now) result }
    ensures kept { T.files tree.new ≡ T.files tree.old }
    ensures counted { IsCounted (read_failed result) (T.faults tree.old) (T.faults tree.new) }
    ensures within { IfOk result (λ found. seen + length found.bytes ≤ 33554432) }
{
    let paths = paths_of(alloc, component, wanted)?;
    match first_there(alloc, tree, paths.as_slice())? {
        Some(source) => sized_file(source, seen),
        None => Err(Stop::Refused(absent(alloc, &component.name, &wanted.name, paths.as_slice())?)),
    }
}

/// Sources of a component, in order, where `seen` bytes of other files were read before them.
fn read_sources<T: Tree>(
    alloc: Global,
    tree: &mut T,
    seen: u64,
    component: &Component,
    wanted: &[Wanted],
) -> Result<Sources, Stop>
    ensures tells { Tells (T.files tree.old) (λ (files : List File). sources_found limited files seen component.now wanted.now) result }
    ensures kept { T.files tree.new ≡ T.files tree.old }
    ensures counted { IsCounted (read_failed result) (T.faults tree.old) (T.faults tree.new) }
    ensures within { seen ≤ 33554432 → IfOk result (λ all. seen + source_total all ≤ 33554432) }
{
    let mut all = Items::new(alloc);
    let mut read = seen;
    for each in wanted {
        let found = read_source(alloc, tree, read, component, each)?;
        read += found.bytes.as_bytes().len() as u64;
        all.push(found)?;
    }
    Ok(all)
}

/// A component has at most 512 modules and signatures.
fn few_modules(count: usize) -> Result<(), Refusal>
    ensures { Checks (at_most limited.own_modules count own_modules_hit) result }
{
    if count > OWN_MODULES {
        return Err(Refusal::Limit {
            hit: LimitHit {
                which: Which::OwnModules,
                count: 513,
            },
        });
    }
    Ok(())
}

/// A component with its sources, where `seen` bytes of other files were read before them. Signatures are read first, then modules, each as
/// listed, and last the main file; each from the first of the component's folders that has it, below the folder of its package file. The
/// limit of own modules comes before all sources. NoSource names the component, the module or signature, and its path in the first folder.
pub fn gathered<T: Tree>(
    alloc: Global,
    tree: &mut T,
    seen: u64,
    component: &Component,
) -> Result<Input, Stop>
    ensures tells { Tells (T.files tree.old) (λ (files : List File). gathered limited files seen component.now) result }
    ensures kept { T.files tree.new ≡ T.files tree.old }
    ensures counted { IsCounted (read_failed result) (T.faults tree.old) (T.faults tree.new) }
    ensures within { seen ≤ 33554432 → IfOk result (λ input. seen + source_total input.sources ≤ 33554432) }
{
    let wanted = wanted_of(alloc, component)?;
    few_modules(wanted.len())?;
    let sources = read_sources(alloc, tree, seen, component, wanted.as_slice())?;
    let component = component.copied(alloc)?;
    Ok(Input { component, sources })
}

/// How many bytes sources have.
pub fn source_bytes(sources: &[Source]) -> u64
    requires { source_total sources.now ≤ 33554432 }
    ensures { result ≡ source_total sources.now }
{
    let mut bytes = 0;
    for source in sources {
        bytes += source.bytes.as_bytes().len() as u64;
    }
    bytes
}
