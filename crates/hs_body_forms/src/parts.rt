//! The parts of a module's block.

use hs_modules::{ImpDeclTree, TopDeclTree, TopSlot};
use sqlite_items::Items;

/// What stands between semicolons of a module's block, where a declaration stands with all that is behind it: no import
/// does.
#[derive(Drop)]
pub enum TopPart {
    Empty,
    Import(ImpDeclTree),
    Decls(TopDeclTree, Items<TopSlot>),
}
