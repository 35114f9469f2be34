//! Kinds of types (Haskell 2010 Report, section 4.6): the least valid kinding of type declarations and of written types.
#![tactic(auto)]

mod answer;
mod decl;
mod group;
mod scope;
mod state;
mod walk;
mod written;

pub use answer::Kinds;
pub use group::{GroupError, KindEnv, TypeGroup, kinds_of};
pub use scope::{GroupDecl, GroupDecls, Known, Knowns, Says, Sense, known_kind, position};
pub use state::Failure;
pub use written::{TypeError, is_full, kind_of_type, least_kind, variables_of};
