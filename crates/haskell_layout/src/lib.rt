//! Layout of Haskell sources (Haskell 2010 Report, section 10.3): the braces and semicolons that indentation stands for.
#![tactic(auto)]

mod error;
mod laws;
mod pass;
mod progress;
mod role;
mod stack;

pub use error::LayoutError;
pub use laws::{braces_lay_out, braces_match, braces_stay, given_tokens_stand};
pub use pass::layout;
