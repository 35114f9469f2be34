//! Readers of the heads of modules and signatures, of exports and of imports (Haskell 2010 Report, chapter 5).
#![tactic(auto)]

mod exports;
mod heads;
mod imports;
mod leaf;
mod listed;
mod names;

pub use exports::{read_export, read_exports, read_subs};
pub use heads::{ModuleHead, read_module_head, read_signature_head};
pub use imports::{Imported, read_import, read_item};
pub use leaf::{
    after_import, after_own_con, after_own_con_sym, after_signature, after_var, after_var_sym,
    begins_import, begins_with_colon,
};
pub use listed::{Listed, read_listed};
pub use names::{read_cname, read_qvar, read_var};
