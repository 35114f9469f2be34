//! What the definitions of kinds, expansion, typing and matching say of small programs, and the law of typing under replacement of
//! names of types.
#![tactic(auto)]

mod examples;
mod laws;
mod programs;

pub use examples::{
    arguments_of_patterns, clauses, expansion, generalisation, kinds_of_variables, least_kinds,
    matching, rigid_variables,
};
pub use laws::typing_is_stable;
pub use programs::{
    annotations, depths, exports_that_match, kind_of_a_type, local_declarations, modules,
    names_that_are_not_seen, partial_synonyms,
};
