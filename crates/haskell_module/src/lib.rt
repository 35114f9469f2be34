//! From the bytes of a Haskell source to its tokens by layout (Haskell 2010 Report, chapters 2 and 10), and to its module or
//! signature.
#![tactic(auto)]

mod error;
mod law;
mod module;
mod tokens;

pub use error::SourceError;
pub use law::{modules_have_one_outcome, sources_have_one_outcome};
pub use module::{read_module, read_signature};
pub use tokens::read_tokens;
