//! Filling of holes, composition of fills, and the text of identities. The table of identities by number is shown here too.
#![tactic(auto)]

mod filling;
mod reader;
mod text;
mod well_formed;

pub use filling::{compose, fill, fill_unit, filler, filling_composes};
pub use ident_table::{IdentNode, IdentTable, NumberFill, NumberFills};
pub use reader::{IdentError, read_ident};
pub use text::{ident_text, one_spelling};
pub use well_formed::{is_well_formed, is_well_formed_unit};
