//! What an entry of `mixins` brings of a dependency, and how it renames the dependency's requirements.
#![tactic(auto)]

mod error;
mod provision;
mod requirement;

pub use error::NameError;
pub use provision::provides;
pub use requirement::needs;
