//! Readers of Haskell's grammar (Haskell 2010 Report, chapter 10): each public call answers the tree that all the tokens
//! spell, or the least index at which they can spell none.
#![tactic(auto)]

mod parse_exps;
mod parse_kinds;
mod parse_modules;
mod parse_pats;
mod parse_types;
mod reading;

pub use parse_exps::{one_decl, one_exp, parse_exp};
pub use parse_kinds::{one_kind, parse_kind};
pub use parse_modules::{
    Modules, Signatures, SourceItems, one_item, one_module, one_signature, parse_items,
    parse_module, parse_signature,
};
pub use parse_pats::{no_bind, one_pat, parse_pat};
pub use parse_types::{one_type, parse_type};
pub use reading::{Readable, Unambiguous, one_tree, parse, read_back};
