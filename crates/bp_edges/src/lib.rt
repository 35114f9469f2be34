//! What the linker reads from and writes to: trees of files, keepers of entries and sinks of text, each with forms in memory,
//! which tell what they hold, and a form over the real thing, which counts its failures and tells nothing.
#![tactic(auto)]

mod files;
mod folder;
mod keeper;
mod sink;
mod stream;
mod tree;

pub use files::{Calls, File, Files};
pub use folder::{FolderKeeper, FolderTree};
pub use keeper::{ENTRY_LIMIT, KeepError, Keeper, QuietKeeper};
pub use sink::{MemSink, QuietSink, Sink, WriteError, WriteFail, WriteFails};
pub use stream::OutSink;
pub use tree::{FILE_LIMIT, MemTree, QuietTree, ReadError, Tree};
