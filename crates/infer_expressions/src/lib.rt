//! Inference of expressions without local declarations: the types that they have where each local has one type.
#![tactic(auto)]

mod expression;
mod heads;
mod refusal;
mod scope;

pub use expression::{infer_alt, infer_exp, infer_exps, infer_side};
pub use heads::enter_function;
pub use refusal::Refusal;
pub use scope::scope_of;
