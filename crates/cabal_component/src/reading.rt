//! The components of a package file.
ghost use Rattle.std.specs.Prelude.{◌≡◌, [], List, ℕ, IfOk, MatchResult, map};
ghost use Rattle.std.specs.HashSet.{contains};
ghost use Rattle.std.specs.Str.{bytes_eq};
ghost use Rattle.cabal_text.specs.Least.{least_of};
ghost use Rattle.cabal_text.specs.Lines.{kept_lines};
ghost use Rattle.cabal_component.specs.Package.{component_refused, block_refused, blocks_refused, package_refused};
ghost use Rattle.cabal_component.specs.Reading.{part_at, own_libraries, resolved, resolved_mixin, own_mixins, listed_deps, deps_of, or_here, folders, is_executable, component_with, component_in, block_components, components_in, components_of, NamesLeast};
ghost use Rattle.cabal_component.specs.declared.reading.ComponentError.TheVariants.{ComponentSyntax, NoMemory};

use crate::component::{Component, Components, Mixin, Mixins};
use crate::given::{Given, Value, givens, main_at, modules_at, renames_at, value_at};
use crate::package::{common_line, deep_line, fields_line, shallow_line};
use bp_base::{Name, Names, Path};
use cabal_stanzas::folder::{Paths, copied_paths};
use cabal_stanzas::heads::{Head, component_name, head_at, library_name, name_line, package_of};
use cabal_stanzas::stanzas::{fields_at, indent_in, odd_line};
use cabal_stanzas::table::{ComponentField, Kind};
use cabal_text::least::sooner;
use cabal_text::lines::{Line, deeper_len, kept_lines};
use cabal_text::seen::{distinct, name_set};
use sqlite_items::Items;
use std::alloc::{AllocError, Global};
use std::collections::HashSet;

/// Why a package file is refused.
#[derive(Clone, Copy, Debug, PartialEq, Eq)]
pub enum ComponentError {
    /// The first line that is refused, counted from 1 over all lines.
    ComponentSyntax { line: u64 },
    NoMemory,
}

impl From<AllocError> for ComponentError {
    ghost from_gives = { λ _ e. e ≡ NoMemory };

    fn from(_error: AllocError) -> ComponentError {
        ComponentError::NoMemory
    }
}

/// What a text describes: its first refused line, and its components.
#[derive(Debug, Drop)]
pub struct Described {
    pub refused: Option<u64>,
    pub components: Components,
}

/// The name of the library whose head stands on this line, where it is no main library.
fn part_at(alloc: Global, line: &Line) -> Result<Option<Name>, AllocError>
    ensures { IfOk result (λ part. part ≡ part_at line.now) }
{
    if line.indent > 0 {
        return Ok(None);
    }
    let Some(
        Head::Component {
            kind: Kind::Library,
            name,
        },
    ) = head_at(alloc, line)?
    else {
        return Ok(None);
    };
    if name.as_bytes().is_empty() {
        Ok(None)
    } else {
        Ok(Some(name))
    }
}

/// The libraries of a package that have names of their own.
fn own_libraries(alloc: Global, lines: &[Line]) -> Result<Names, AllocError>
    ensures { IfOk result (λ own. own ≡ own_libraries lines.now) }
{
    let mut own = Items::new(alloc);
    for line in lines {
        if let Some(part) = part_at(alloc, line)? {
            own.push(part)?;
        }
    }
    Ok(own)
}

/// The component that a name means.
fn resolved(
    alloc: Global,
    owner: &Name,
    own: &HashSet<Name>,
    name: &Name,
) -> Result<Name, AllocError>
    ensures { IfOk result (λ found. found ≡ resolved owner.now (contains bytes_eq own.now) name.now) }
{
    if own.contains(name) {
        library_name(alloc, owner.as_bytes(), name.as_bytes())
    } else {
        name.copied(alloc)
    }
}

/// The components that names mean.
fn all_resolved(
    alloc: Global,
    owner: &Name,
    own: &HashSet<Name>,
    names: &[Name],
) -> Result<Names, AllocError>
    ensures { IfOk result (λ all. all ≡ map (resolved owner.now (contains bytes_eq own.now)) names.now) }
{
    let mut all = Items::new(alloc);
    for name in names {
        all.push(resolved(alloc, owner, own, name)?)?;
    }
    Ok(all)
}

/// An entry with the component that its dependency means.
fn resolved_mixin(
    alloc: Global,
    owner: &Name,
    own: &HashSet<Name>,
    mixin: &Mixin,
) -> Result<Mixin, AllocError>
    ensures { IfOk result (λ found. found ≡ resolved_mixin owner.now (contains bytes_eq own.now) mixin.now) }
{
    let mut found = mixin.copied(alloc)?;
    found.dep = resolved(alloc, owner, own, &mixin.dep)?;
    Ok(found)
}

/// Entries with the components that their dependencies mean.
fn all_mixins(
    alloc: Global,
    owner: &Name,
    own: &HashSet<Name>,
    mixins: &[Mixin],
) -> Result<Mixins, AllocError>
    ensures { IfOk result (λ all. all ≡ map (resolved_mixin owner.now (contains bytes_eq own.now)) mixins.now) }
{
    let mut all = Items::new(alloc);
    for mixin in mixins {
        all.push(resolved_mixin(alloc, owner, own, mixin)?)?;
    }
    Ok(all)
}

/// The entries of `mixins`.
fn own_mixins(
    alloc: Global,
    owner: &Name,
    own: &HashSet<Name>,
    givens: &[Given],
) -> Result<Mixins, AllocError>
    ensures { IfOk result (λ mixins. mixins ≡ own_mixins owner.now (contains bytes_eq own.now) givens.now) }
{
    match value_at(ComponentField::Mixins, givens) {
        Some(Value::Mixins { mixins }) => all_mixins(alloc, owner, own, mixins.as_slice()),
        _ => Ok(Items::new(alloc)),
    }
}

/// The dependencies of `build-depends`.
fn listed_deps(
    alloc: Global,
    owner: &Name,
    own: &HashSet<Name>,
    givens: &[Given],
) -> Result<Names, AllocError>
    ensures { IfOk result (λ names. names ≡ listed_deps owner.now (contains bytes_eq own.now) givens.now) }
{
    match value_at(ComponentField::BuildDepends, givens) {
        Some(Value::Dependencies { names }) => all_resolved(alloc, owner, own, names.as_slice()),
        _ => Ok(Items::new(alloc)),
    }
}

/// The dependencies of entries.
fn mixed_in(alloc: Global, mixins: &[Mixin]) -> Result<Names, AllocError>
    ensures { IfOk result (λ names. names ≡ map (λ m. m.dep) mixins.now) }
{
    let mut names = Items::new(alloc);
    for mixin in mixins {
        names.push(mixin.dep.copied(alloc)?)?;
    }
    Ok(names)
}

/// Each dependency once, at its first place; those that stand in these entries alone are last.
fn deps_of(alloc: Global, listed: Names, mixins: &[Mixin]) -> Result<Names, AllocError>
    ensures { IfOk result (λ deps. deps ≡ deps_of listed mixins.now) }
{
    let mut names = listed;
    names.append(mixed_in(alloc, mixins)?)?;
    distinct(alloc, names.as_slice())
}

/// The package file's folder, where no folder is listed.
fn or_here(alloc: Global, folders: Paths) -> Result<Paths, AllocError>
    ensures { IfOk result (λ found. found ≡ or_here folders) }
{
    let mut folders = folders;
    if folders.is_empty() {
        folders.push(Path::from_bytes(alloc, b".")?)?;
    }
    Ok(folders)
}

/// The folders of sources.
fn folders(alloc: Global, givens: &[Given]) -> Result<Paths, AllocError>
    ensures { IfOk result (λ found. found ≡ folders givens.now) }
{
    match value_at(ComponentField::HsSourceDirs, givens) {
        Some(Value::Folders { paths }) => or_here(alloc, copied_paths(alloc, paths)?),
        _ => or_here(alloc, Items::new(alloc)),
    }
}

fn is_executable(kind: Kind) -> bool
    ensures { result ≡ is_executable kind }
{
    matches!(kind, Kind::Executable)
}

/// The component of this name that a stanza with these fields describes.
fn component_with(
    alloc: Global,
    file: &Path,
    owner: &Name,
    own: &HashSet<Name>,
    kind: Kind,
    name: Name,
    givens: &[Given],
) -> Result<Component, AllocError>
    ensures { IfOk result (λ component. component ≡ component_with file.now owner.now (contains bytes_eq own.now) kind name givens.now) }
{
    let mixins = own_mixins(alloc, owner, own, givens)?;
    let listed = listed_deps(alloc, owner, own, givens)?;
    Ok(Component {
        name,
        executable: is_executable(kind),
        exposed: modules_at(alloc, ComponentField::ExposedModules, givens)?,
        other: modules_at(alloc, ComponentField::OtherModules, givens)?,
        main_is: main_at(alloc, givens)?,
        signatures: modules_at(alloc, ComponentField::Signatures, givens)?,
        reexports: renames_at(alloc, givens)?,
        deps: deps_of(alloc, listed, mixins.as_slice())?,
        mixins,
        dirs: folders(alloc, givens)?,
        file: file.copied(alloc)?,
    })
}

/// A component and its first refused line.
#[tactic(auto, using(cabal_text::proofs::SoonerLemmas::least_append))]
fn component(
    alloc: Global,
    file: &Path,
    owner: &Name,
    own: &HashSet<Name>,
    kind: Kind,
    name: &Name,
    line: &Line,
    deeper: &[Line],
) -> Result<Described, AllocError>
    ensures refused { IfOk result (λ d. d.refused ≡ least_of (component_refused kind line.now deeper.now)) }
    ensures components { IfOk result (λ d. d.components ≡ component_in file.now owner.now (contains bytes_eq own.now) kind name.now deeper.now) }
{
    let indent = indent_in(deeper);
    let fields = fields_at(alloc, indent, deeper)?;
    let given = givens(alloc, kind, &fields)?;
    let least = fields_line(alloc, kind, line.number, given.as_slice())?;
    let name = component_name(alloc, owner.as_bytes(), kind, name.as_bytes())?;
    let mut components = Items::new(alloc);
    components.push(component_with(alloc, file, owner, own, kind, name, given.as_slice())?)?;
    Ok(Described {
        refused: sooner(odd_line(indent, deeper), least),
        components,
    })
}

/// A line of indent 0 and the deeper ones after it: the component that they describe, and the first of them that is refused.
fn block(
    alloc: Global,
    file: &Path,
    owner: &Name,
    own: &HashSet<Name>,
    line: &Line,
    deeper: &[Line],
) -> Result<Described, AllocError>
    ensures refused { IfOk result (λ d. d.refused ≡ least_of (block_refused (record { line = line.now; deeper = deeper.now }))) }
    ensures components { IfOk result (λ d. d.components ≡ block_components file.now owner.now (contains bytes_eq own.now) (record { line = line.now; deeper = deeper.now })) }
{
    let refused = match head_at(alloc, line)? {
        None => None,
        Some(Head::Component { kind, name }) => {
            return component(alloc, file, owner, own, kind, &name, line, deeper);
        }
        Some(Head::Common) => common_line(alloc, deeper)?,
        Some(Head::Ignored) => shallow_line(deeper),
        Some(Head::Other) => Some(line.number),
    };
    Ok(Described {
        refused,
        components: Items::new(alloc),
    })
}

/// The blocks of indent 0: their components, and the first line of them that is refused.
fn described_in(
    alloc: Global,
    file: &Path,
    owner: &Name,
    own: &HashSet<Name>,
    lines: &[Line],
) -> Result<Described, AllocError>
    ensures refused { IfOk result (λ d. d.refused ≡ least_of (blocks_refused lines.now)) }
    ensures components { IfOk result (λ d. d.components ≡ components_in file.now owner.now (contains bytes_eq own.now) lines.now) }
{
    let mut refused = None;
    let mut components = Items::new(alloc);
    let mut rest = lines;
    while let [line, after @ ..] = rest {
        if line.indent == 0 {
            let deeper = &after[..deeper_len(0, after)];
            let found = block(alloc, file, owner, own, line, deeper)?;
            refused = sooner(refused, found.refused);
            components.append(found.components)?;
        }
        rest = after;
    }
    Ok(Described {
        refused,
        components,
    })
}

/// A package file: its components, and its first refused line.
#[tactic(auto, using(cabal_text::proofs::SoonerLemmas::least_append))]
fn package_file(alloc: Global, file: &Path, lines: &[Line]) -> Result<Described, AllocError>
    ensures refused { IfOk result (λ d. d.refused ≡ least_of (package_refused lines.now)) }
    ensures components { IfOk result (λ d. d.components ≡ components_of file.now lines.now) }
{
    let fields = fields_at(alloc, 0, lines)?;
    let owner = package_of(alloc, &fields)?;
    let names = own_libraries(alloc, lines)?;
    let own = name_set(alloc, names.as_slice())?;
    let found = described_in(alloc, file, &owner, &own, lines)?;
    let named = name_line(alloc, &fields)?;
    Ok(Described {
        refused: sooner(named, sooner(deep_line(lines), found.refused)),
        components: found.components,
    })
}

/// The components of a package file, in its order (Cabal manual, "package descriptions"). `path` is that of the file. The
/// refusal is ComponentSyntax with the first line that is refused: of a field or a head, or 1 where the package has no name.
#[tactic(auto, using(crate::proofs::RefusedLemmas::none_refused))]
pub fn read_component(
    alloc: Global,
    path: &Path,
    bytes: &[u8],
) -> Result<Components, ComponentError>
    ensures { MatchResult result
        (λ components. (package_refused (kept_lines bytes.now) ≡ []) × (components ≡ components_of path.now (kept_lines bytes.now)))
        (λ e. NamesLeast e (package_refused (kept_lines bytes.now))) }
{
    let lines = kept_lines(alloc, bytes)?;
    let found = package_file(alloc, path, &lines)?;
    match found.refused {
        Some(line) => Err(ComponentError::ComponentSyntax { line }),
        None => Ok(found.components),
    }
}
