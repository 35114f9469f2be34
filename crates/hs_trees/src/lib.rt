//! Surface trees of kinds, types and patterns.
#![tactic(auto)]

mod patterns;
mod types;

pub use patterns::{
    APatTree, GConTree, LPatTree, LiteralTree, OpLPat, PatTree, QConOpTree, VarTree,
};
pub use types::{AKindTree, ATypeTree, BTypeTree, KindTree, TypeTree};
