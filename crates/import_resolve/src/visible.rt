//! What a module sees of others.
use bp_base::{Interfaces, Name};
use sqlite_items::Items;

/// The interfaces that a name of an import may mean, each another one.
#[derive(Debug, Drop)]
pub struct Visible {
    pub name: Name,
    pub shows: Interfaces,
}

/// What each imported name may mean.
pub type Visibles = Items<Visible>;
