//! What mixing in components gives: provisions, renamings of requirements, includes and linkings.
ghost use Rattle.std.specs.Prelude.{◌≡◌, IfOk};

use crate::{
    Copied, Fills, Ident, Name, Names, OrigName, Same, Unit, copied_all, same_all, same_ident,
    same_unit,
};
use sqlite_items::Items;
use std::alloc::{AllocError, Global};

/// A hole with the original name that its filler exports for one space and occurrence: a name at the hole with this space and
/// occurrence becomes `name`.
#[derive(Debug, Drop)]
pub struct Shown {
    pub hole: Name,
    pub name: OrigName,
}

/// What fillers show, in order of the holes.
pub type Showns = Items<Shown>;

/// How names are changed when holes are filled: identities by the fills, and names at filled holes by what the fillers show.
#[derive(Debug, Drop)]
pub struct Renaming {
    pub fills: Fills,
    pub shown: Showns,
}

/// A name with another one: `from` as its own component knows it, `to` as the component that includes it does.
#[derive(Debug, Drop)]
pub struct Rename {
    pub from: Name,
    pub to: Name,
}

/// Renamings in order.
pub type Renames = Items<Rename>;

/// A module that is provided under a name.
#[derive(Debug, Drop)]
pub struct Provision {
    pub name: Name,
    pub ident: Ident,
}

/// Provisions in order.
pub type Provisions = Items<Provision>;

/// A dependency as it is mixed in: its unit, what it provides, and for each of its holes the linkage name.
#[derive(Debug, Drop)]
pub struct Include {
    pub unit: Unit,
    pub provides: Provisions,
    pub needs: Renames,
}

/// Includes in order.
pub type Includes = Items<Include>;

/// What linking a component gives: its holes, strictly rising; for each required name, in byte order, its identity; and its includes.
#[derive(Debug, Drop)]
pub struct Linking {
    pub holes: Names,
    pub required: Provisions,
    pub includes: Includes,
}

impl Rename {
    /// The same renaming once more.
    pub fn copied(&self, alloc: Global) -> Result<Rename, AllocError>
        ensures { IfOk result (λ r. r ≡ self.now) }
    {
        Ok(Rename {
            from: self.from.copied(alloc)?,
            to: self.to.copied(alloc)?,
        })
    }
}

impl Provision {
    /// The same provision once more.
    pub fn copied(&self, alloc: Global) -> Result<Provision, AllocError>
        ensures { IfOk result (λ r. r ≡ self.now) }
    {
        Ok(Provision {
            name: self.name.copied(alloc)?,
            ident: self.ident.copied(alloc)?,
        })
    }
}

impl Copied for Rename {
    fn copied(&self, alloc: Global) -> Result<Rename, AllocError> {
        Rename::copied(self, alloc)
    }
}

impl Copied for Provision {
    fn copied(&self, alloc: Global) -> Result<Provision, AllocError> {
        Provision::copied(self, alloc)
    }
}

impl Copied for Include {
    fn copied(&self, alloc: Global) -> Result<Include, AllocError> {
        Ok(Include {
            unit: self.unit.copied(alloc)?,
            provides: copied_all(alloc, &self.provides)?,
            needs: copied_all(alloc, &self.needs)?,
        })
    }
}

impl Copied for Linking {
    fn copied(&self, alloc: Global) -> Result<Linking, AllocError> {
        Ok(Linking {
            holes: copied_all(alloc, &self.holes)?,
            required: copied_all(alloc, &self.required)?,
            includes: copied_all(alloc, &self.includes)?,
        })
    }
}

/// The same renamings once more.
pub fn copied_renames(alloc: Global, renames: &Renames) -> Result<Renames, AllocError>
    ensures { IfOk result (λ r. r ≡ renames.now) }
{
    copied_all(alloc, renames)
}

/// The same provisions once more.
pub fn copied_provisions(alloc: Global, provisions: &Provisions) -> Result<Provisions, AllocError>
    ensures { IfOk result (λ r. r ≡ provisions.now) }
{
    copied_all(alloc, provisions)
}

impl Same for Rename {
    fn same(&self, other: &Rename) -> bool {
        self.from == other.from && self.to == other.to
    }
}

impl Same for Provision {
    fn same(&self, other: &Provision) -> bool {
        self.name == other.name && same_ident(&self.ident, &other.ident)
    }
}

impl Same for Include {
    fn same(&self, other: &Include) -> bool {
        same_unit(&self.unit, &other.unit)
            && same_all(self.provides.as_slice(), other.provides.as_slice())
            && same_all(self.needs.as_slice(), other.needs.as_slice())
    }
}

impl Same for Linking {
    fn same(&self, other: &Linking) -> bool {
        same_all(self.holes.as_slice(), other.holes.as_slice())
            && same_all(self.required.as_slice(), other.required.as_slice())
            && same_all(self.includes.as_slice(), other.includes.as_slice())
    }
}
