//! Readers of declarations of types (Haskell 2010 Report, section 4.2): data types with constructors, `newtype` and
//! synonyms.
#![tactic(auto)]

mod constructors;
mod datas;
mod fields;
mod leaf;
mod names;
mod newtypes;
mod type_decls;

pub use constructors::{read_constr, read_constrs};
pub use datas::read_data;
pub use fields::{read_field, read_side};
pub use leaf::{begins_type_decl, goes_on_constr};
pub use names::{read_con, read_conop};
pub use newtypes::read_newtype;
pub use type_decls::read_type_decl;
