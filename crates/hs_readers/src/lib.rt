//! Readers of Haskell's kinds, types and patterns (Haskell 2010 Report, chapter 10), and what readers of other parts of the
//! grammar are made of: each answers the tree at the front of the terminals, or where they begin none.
#![tactic(auto)]

mod chain;
mod kinds;
mod leaf;
mod limit;
mod pattern_leaf;
mod patterns;
mod qconop;
mod read;
mod tuple_name;
mod types;

pub use chain::{Chained, read_chain};
pub use kinds::read_kind;
pub use leaf::{
    after, after_arrow, after_left_paren, after_right_bracket, after_right_paren, after_star,
    begins_arrow, begins_atype, begins_comma, begins_tuple_name, count_commas,
};
pub use limit::{MAX_DEPTH, PartsLimit, allows, lower};
pub use pattern_leaf::{
    after_at, after_backquote, after_con, after_integer, after_minus, begins_apat, begins_qconop,
    starts_pat,
};
pub use patterns::{read_apat, read_apats, read_lpat, read_pat};
pub use qconop::read_qconop;
pub use read::Read;
pub use tuple_name::read_tuple_name;
pub use types::{read_atype, read_btype, read_type};
