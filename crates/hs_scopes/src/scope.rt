//! What is in scope in a module.
use bp_base::{Entity, Name};
use sqlite_items::Items;

/// A name in scope: behind a qualifier, which is empty for the plain name, and what it means: the entity, or its
/// constructor `con` where that is not empty.
#[derive(Debug, Drop)]
pub struct ScopeItem {
    pub qualifier: Name,
    pub occ: Name,
    pub entity: Entity,
    pub con: Name,
}

/// Names in scope: own ones, then those of each import in order.
pub type ScopeItems = Items<ScopeItem>;

/// What is in scope in a module (Haskell 2010 Report, section 5.5.1).
#[derive(Debug, Drop)]
pub struct Scope {
    pub items: ScopeItems,
}

/// Why a written name has no meaning: nothing of this name is in scope, or different things are.
#[derive(Debug, Drop)]
pub enum MeaningFault {
    NotInScope,
    AmbiguousName,
}
