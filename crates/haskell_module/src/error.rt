//! Why a source is not read.
use thiserror::Error;

/// What is wrong with a source, with the number of bytes before the place.
#[derive(Clone, Copy, Debug, Error, PartialEq, Eq)]
pub enum SourceError {
    /// A word or number begins there that this project leaves out.
    #[error("left out at byte {offset}")]
    LeftOut { offset: u64 },
    /// A comment, token or character begins there that cannot be read to its end.
    #[error("no token at byte {offset}")]
    Lexical { offset: u64 },
    /// The token there is a `}` without its `{`; or the source ends there, and a `{` has no `}`.
    #[error("no layout at byte {offset}")]
    Layout { offset: u64 },
    /// No module or signature goes on with the token there; or the source ends there, and more is needed. Or the head there
    /// tells another name.
    #[error("no module at byte {offset}")]
    Syntax { offset: u64 },
    /// The source begins only trees that nest deeper than 200.
    #[error("nested too deeply")]
    Nesting,
    #[error("out of memory")]
    NoMemory,
}
