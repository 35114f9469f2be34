//! Plain modules, and the text of a flat module: the form that the program builds today, which is a module without imports, all
//! of whose values have types made of `Int` and arrows.
#![tactic(auto)]

mod plain;
mod print;

pub use plain::{Atom, Atoms, Binding, Bindings, PlainModule};
pub use print::print_module;
