//! Readers of declarations that stand in modules and signatures alone (Haskell 2010 Report, section 4.2).
#![tactic(auto)]

mod kinded;
mod leaf;
mod params;
mod synonyms;

pub use kinded::{Kinded, read_kinded};
pub use leaf::{after_data, after_double_colon, after_equals, after_type};
pub use params::{Params, read_params};
pub use synonyms::{Synonym, read_synonym};
