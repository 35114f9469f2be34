//! Modules of the plain form, until the check of modules takes its place: a source is read by the grammar, its module is one of the
//! plain form, its values are checked, and its flat text is written. A component that asks for more than one such module is refused.
#![tactic(auto)]

mod asked;
mod check;
mod law;
mod source;
mod typing;

pub use asked::asks_nothing;
pub use check::check_module;
pub use law::{plain_modules_have_one_outcome, what_is_asked_has_one_outcome};
pub use source::{flat_text, read_source};
