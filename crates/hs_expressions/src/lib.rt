//! Readers of Haskell's expressions (Haskell 2010 Report, chapter 3).
#![tactic(auto)]

mod annotated;
mod chain_leaf;
mod chains;
mod leaf;
mod links;
mod qop;
mod signed;
mod steps;

pub use annotated::{chain_is_open, read_exp, read_front, read_infix};
pub use chain_leaf::{after_sign, count_sign, ends_section, goes_on, is_open, may_follow};
pub use chains::{ChainState, read_links};
pub use leaf::{
    after_backslash, after_case, after_double_colon, after_else, after_if, after_in, after_let,
    after_of, after_then, begins_aexp, begins_exp, begins_minus, begins_qop,
};
pub use links::{Link, ends_open, read_link, signs};
pub use qop::read_qop;
pub use signed::read_signed;
pub use steps::{Step, Steps, run};
