//! Types that a signature declares with a kind (Yang 2017, "Backpack: Towards Practical Mix-in Linking for Haskell").
ghost use Rattle.std.specs.Prelude.{◌≡◌};
ghost use Rattle.hs_readers.specs.Answers.{Answers};
ghost use Rattle.hs_declarations.specs.Declarations.{kinded_sort};

use crate::leaf::{after_data, after_double_colon};
use bp_base::Name;
use hs_forms::Fault;
use hs_headers::after_own_con;
use hs_readers::{Read, read_kind};
use hs_tokens::Terminal;
use hs_trees::KindTree;
use std::alloc::Global;

/// `"data" tycon "::" kind`
#[derive(Drop)]
pub struct Kinded {
    pub name: Name,
    pub kind: KindTree,
}

/// `"data" tycon "::" kind`
pub fn read_kinded<'a>(
    alloc: Global,
    tokens: &'a [Terminal],
    limit: Option<usize>,
) -> Result<Read<'a, Kinded>, Fault>
    ensures { Answers (kinded_sort limit) tokens.now result }
{
    let Some(next) = after_data(tokens) else {
        return Err(Fault::At(tokens.len()));
    };
    let Some((name, behind)) = after_own_con(next) else {
        return Err(Fault::At(next.len()));
    };
    let Some(body) = after_double_colon(behind) else {
        return Err(Fault::At(behind.len()));
    };
    let kind = read_kind(alloc, body, limit)?;
    let name = Name::from_bytes(alloc, name.as_bytes())?;
    Ok(Read {
        tree: Kinded {
            name,
            kind: kind.tree,
        },
        rest: kind.rest,
        depth: kind.depth,
    })
}
