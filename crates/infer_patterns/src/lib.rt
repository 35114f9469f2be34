//! Inference of patterns: the types of the names that they bind.
#![tactic(auto)]

mod instance;
mod names;
mod pattern;

pub use instance::instance_with;
pub use names::{Declared, find};
pub use pattern::{enter_list, enter_literal, enter_tuple, infer_pat, infer_pats, string};
