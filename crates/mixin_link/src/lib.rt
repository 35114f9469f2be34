//! Linking: the identities of the required names of a component, from what its includes provide and need (Kilpatrick and others, POPL
//! 2014; Yang's thesis, 2017).
#![tactic(auto)]

mod entry;
mod equations;
mod error;
mod lawful;
mod laws;
mod link;
mod open;
mod required;
mod summary;
mod written;

pub use error::LinkError;
pub use lawful::are_lawful;
pub use laws::{
    answers_are_principal, causes_leave_none, linking_has_one_outcome, linkings_are_lawful,
    linkings_are_unifiers, names_are_ordered, principal_is_one,
};
pub use link::link_names;
pub use open::{OpenInclude, OpenIncludes};
pub use summary::{Summaries, Summary};
