//! Signatures (Yang 2017, "Backpack: Towards Practical Mix-in Linking for Haskell").
ghost use Rattle.std.specs.Prelude.{◌≡◌};
ghost use Rattle.hs_readers.specs.Answers.{Answers};
ghost use Rattle.hs_signature_forms.specs.Signatures.{signature_sort};

use crate::blocks::read_sig_block;
use hs_forms::Fault;
use hs_headers::read_signature_head;
use hs_modules::Module;
use hs_readers::Read;
use hs_tokens::Terminal;
use std::alloc::Global;

/// `"signature" modid "where" block(impdecl first, then sigdecl)`: the signature at the front of the terminals, or where
/// they begin none. The limit bounds its depth.
pub fn read_signature<'a>(
    alloc: Global,
    tokens: &'a [Terminal],
    limit: Option<usize>,
) -> Result<Read<'a, Module>, Fault>
    ensures { Answers (signature_sort limit) tokens.now result }
{
    let head = read_signature_head(alloc, tokens)?;
    let block = read_sig_block(alloc, head.rest, limit)?;
    Ok(Read {
        tree: Module::Signature(head.tree, block.tree),
        rest: block.rest,
        depth: block.depth,
    })
}
