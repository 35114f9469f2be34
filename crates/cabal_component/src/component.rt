//! Components, and what they mix in.
ghost use Rattle.std.specs.Prelude.{◌≡◌, IfOk};

use bp_base::{Name, Names, Path, Renames, copied_names, copied_renames};
use cabal_stanzas::folder::{Paths, copied_paths};
use sqlite_items::Items;
use std::alloc::{AllocError, Global};

/// A component of a package, as its file describes it. Names of the own package are resolved in `deps` and `mixins`.
#[derive(Debug, Drop)]
pub struct Component {
    /// `p`, `p:s` or `p:exe:e`.
    pub name: Name,
    pub executable: bool,
    /// The exposed modules, as listed.
    pub exposed: Names,
    /// The other modules, as listed.
    pub other: Names,
    /// The main file of an executable; empty for a library.
    pub main_is: Path,
    /// The signatures, as listed.
    pub signatures: Names,
    /// The re-exports, as listed.
    pub reexports: Renames,
    /// The dependencies, each once, at its first place; those that stand in `mixins` alone are last.
    pub deps: Names,
    /// The entries of `mixins`, as listed.
    pub mixins: Mixins,
    /// The folders of sources, below that of the package file.
    pub dirs: Paths,
    /// The package file.
    pub file: Path,
}

/// Components in the order of their file.
pub type Components = Items<Component>;

/// An entry of `mixins`: a dependency, what it brings and how its requirements are renamed.
#[derive(Debug, Drop)]
pub struct Mixin {
    pub dep: Name,
    pub provides: Provides,
    pub needs: Renames,
}

/// Entries in order.
pub type Mixins = Items<Mixin>;

/// What an entry brings of its dependency: everything, what is listed, or what is not hidden.
#[derive(Debug, Drop)]
pub enum Provides {
    Whole,
    Listed { items: Renames },
    Hiding { names: Names },
}

impl Provides {
    /// The same once more.
    pub fn copied(&self, alloc: Global) -> Result<Provides, AllocError>
        ensures { IfOk result (λ r. r ≡ self.now) }
    {
        match self {
            Provides::Whole => Ok(Provides::Whole),
            Provides::Listed { items } => Ok(Provides::Listed {
                items: copied_renames(alloc, items)?,
            }),
            Provides::Hiding { names } => Ok(Provides::Hiding {
                names: copied_names(alloc, names)?,
            }),
        }
    }
}

impl Mixin {
    /// The same entry once more.
    pub fn copied(&self, alloc: Global) -> Result<Mixin, AllocError>
        ensures { IfOk result (λ r. r ≡ self.now) }
    {
        Ok(Mixin {
            dep: self.dep.copied(alloc)?,
            provides: self.provides.copied(alloc)?,
            needs: copied_renames(alloc, &self.needs)?,
        })
    }
}

/// The same entries once more.
pub fn copied_mixins(alloc: Global, mixins: &Mixins) -> Result<Mixins, AllocError>
    ensures { IfOk result (λ r. r ≡ mixins.now) }
{
    let mut all = Items::new(alloc);
    for each in mixins.as_slice() {
        all.push(each.copied(alloc)?)?;
    }
    Ok(all)
}

impl Component {
    /// The same component once more.
    pub fn copied(&self, alloc: Global) -> Result<Component, AllocError>
        ensures { IfOk result (λ r. r ≡ self.now) }
    {
        Ok(Component {
            name: self.name.copied(alloc)?,
            executable: self.executable,
            exposed: copied_names(alloc, &self.exposed)?,
            other: copied_names(alloc, &self.other)?,
            main_is: self.main_is.copied(alloc)?,
            signatures: copied_names(alloc, &self.signatures)?,
            reexports: copied_renames(alloc, &self.reexports)?,
            deps: copied_names(alloc, &self.deps)?,
            mixins: copied_mixins(alloc, &self.mixins)?,
            dirs: copied_paths(alloc, &self.dirs)?,
            file: self.file.copied(alloc)?,
        })
    }
}
