//! The layout of a token list, in one pass.
ghost use Rattle.std.specs.Prelude.{◌≡◌, Ok, MatchResult};
ghost use Rattle.haskell_layout.specs.Layout.{due_at_start, layout_of};
ghost use Rattle.haskell_layout.specs.Progress.{IsRefused};

use crate::error::LayoutError;
use crate::progress::Progress;
use crate::role::{Role, role_of};
use crate::stack::Stack;
use hs_tokens::{Token, Tokens};
use sqlite_items::Items;
use std::alloc::Global;

/// Whether a block is due at the start of the source.
fn due_at_start(tokens: &[Token]) -> bool
    ensures { result ≡ due_at_start tokens.now }
{
    match tokens.split_first() {
        Some((token, _)) => role_of(token) != Role::Header,
        None => true,
    }
}

/// The tokens with the braces and semicolons that their layout stands for. `length` is the number of bytes of the source.
///
/// It takes time in proportion to the number of tokens.
pub fn layout(alloc: Global, tokens: &Tokens, length: u64) -> Result<Tokens, LayoutError>
    ensures { MatchResult result (λ out. layout_of tokens.now length ≡ Ok out) (IsRefused (layout_of tokens.now length)) }
{
    let mut progress = Progress {
        stack: Stack::new(alloc),
        due: due_at_start(tokens.as_slice()),
        fresh: false,
        out: Items::new(alloc),
    };
    for (index, token) in tokens.as_slice().iter().enumerate() {
        progress.step(alloc, token, index as u64)?;
    }
    progress.finish(alloc, length, tokens.len() as u64)
}
