//! What a module exports, name by name.
use bp_base::{Entity, Name};
use sqlite_items::Items;

/// A name and what it means: the entity, or its constructor `con` where that is not empty.
#[derive(Debug, Drop)]
pub struct Thing {
    pub occ: Name,
    pub entity: Entity,
    pub con: Name,
}

/// Things in order.
pub type Things = Items<Thing>;
