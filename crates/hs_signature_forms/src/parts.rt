//! The parts of a signature's block.

use hs_modules::{ImpDeclTree, SigDeclTree, SigSlot};
use sqlite_items::Items;

/// What stands between semicolons of a signature's block, where a declaration stands with all that is behind it: no
/// import does.
#[derive(Drop)]
pub enum SigPart {
    Empty,
    Import(ImpDeclTree),
    Decls(SigDeclTree, Items<SigSlot>),
}
