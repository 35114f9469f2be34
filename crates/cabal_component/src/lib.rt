//! The components of package files and what they include, as the Cabal manual has them.
#![tactic(auto)]

mod component;
mod entries;
mod given;
mod include;
mod package;
mod reading;

pub use cabal_stanzas::{Paths, ProjectError, copied_paths, read_project};
pub use component::{Component, Components, Mixin, Mixins, Provides, copied_mixins};
pub use entries::{new_names, old_names};
pub use given::{Given, Value, givens};
pub use include::includes;
pub use package::Listing;
pub use reading::{ComponentError, read_component};
