//! What is wrong with a project, with its place, and limits that were passed.
ghost use Rattle.std.specs.Prelude.{◌≡◌};

use crate::{Code, Copied, Name, Which};
use sqlite_items::Items;
use std::alloc::{AllocError, Global};

/// What a defect points at in its module.
#[derive(Debug, Drop, PartialEq, Eq)]
pub enum Item {
    Nothing,
    /// A byte of the source, counted from 0; the length of the source at its end.
    Offset {
        at: u64,
    },
    /// A line, counted from 1.
    Line {
        number: u64,
    },
    Named {
        occ: Name,
    },
    /// A stored entry lists another serial of this dependency than the present one.
    Old {
        dep: Name,
        wanted: u64,
        present: u64,
    },
}

/// Where a defect stands. An absent name is empty.
#[derive(Debug, Drop, PartialEq, Eq)]
pub struct Place {
    pub component: Name,
    pub module: Name,
    pub item: Item,
}

#[derive(Debug, Drop, PartialEq, Eq)]
pub struct Defect {
    pub code: Code,
    pub place: Place,
}

/// Defects in order.
pub type Defects = Items<Defect>;

/// A limit that was passed, with its number plus one.
#[derive(Clone, Copy, Debug, PartialEq, Eq)]
pub struct LimitHit {
    pub which: Which,
    pub count: u64,
}

/// Why a component is not accepted: what is wrong with it, the limit that it passes, or want of memory.
#[derive(Debug, Drop)]
pub enum Refusal {
    Defect { defect: Defect },
    Limit { hit: LimitHit },
    NoMemory,
}

impl From<AllocError> for Refusal {
    ghost use Rattle.bp_base.specs.declared.defect.Refusal.{Refusal};

    ghost from_gives = { λ _ r. r ≡ Refusal.NoMemory };

    fn from(_error: AllocError) -> Refusal {
        Refusal::NoMemory
    }
}

impl Copied for Item {
    fn copied(&self, alloc: Global) -> Result<Item, AllocError> {
        match self {
            Item::Nothing => Ok(Item::Nothing),
            Item::Offset { at } => Ok(Item::Offset { at: *at }),
            Item::Line { number } => Ok(Item::Line { number: *number }),
            Item::Named { occ } => Ok(Item::Named {
                occ: occ.copied(alloc)?,
            }),
            Item::Old {
                dep,
                wanted,
                present,
            } => Ok(Item::Old {
                dep: dep.copied(alloc)?,
                wanted: *wanted,
                present: *present,
            }),
        }
    }
}

impl Copied for Place {
    fn copied(&self, alloc: Global) -> Result<Place, AllocError> {
        Ok(Place {
            component: self.component.copied(alloc)?,
            module: self.module.copied(alloc)?,
            item: self.item.copied(alloc)?,
        })
    }
}

impl Copied for Defect {
    fn copied(&self, alloc: Global) -> Result<Defect, AllocError> {
        Ok(Defect {
            code: self.code,
            place: self.place.copied(alloc)?,
        })
    }
}

impl Copied for Refusal {
    fn copied(&self, alloc: Global) -> Result<Refusal, AllocError> {
        match self {
            Refusal::Defect { defect } => Ok(Refusal::Defect {
                defect: defect.copied(alloc)?,
            }),
            Refusal::Limit { hit } => Ok(Refusal::Limit { hit: *hit }),
            Refusal::NoMemory => Ok(Refusal::NoMemory),
        }
    }
}
