//! Includes before they are linked.
use bp_base::{Name, Provisions, Renames};
use sqlite_items::Items;

/// A dependency as an entry of `mixins` brings it: what it provides, with identities over its own holes, and for each of its holes
/// the linkage name.
#[derive(Debug, Drop)]
pub struct OpenInclude {
    pub component: Name,
    pub provides: Provisions,
    pub needs: Renames,
}

/// Includes in order.
pub type OpenIncludes = Items<OpenInclude>;
