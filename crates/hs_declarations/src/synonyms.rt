//! Type synonyms (Haskell 2010 Report, section 4.2.2).
ghost use Rattle.std.specs.Prelude.{◌≡◌};
ghost use Rattle.hs_readers.specs.Answers.{Answers};
ghost use Rattle.hs_declarations.specs.Declarations.{synonym_sort};

use crate::leaf::{after_equals, after_type};
use crate::params::read_params;
use bp_base::{Name, Names};
use hs_forms::Fault;
use hs_headers::after_own_con;
use hs_readers::{Read, read_type};
use hs_tokens::Terminal;
use hs_trees::TypeTree;
use std::alloc::Global;

/// `"type" tycon {tyvar} "=" type`
#[derive(Drop)]
pub struct Synonym {
    pub name: Name,
    pub params: Names,
    pub ty: TypeTree,
}

/// `"type" tycon {tyvar} "=" type`
pub fn read_synonym<'a>(
    alloc: Global,
    tokens: &'a [Terminal],
    limit: Option<usize>,
) -> Result<Read<'a, Synonym>, Fault>
    ensures { Answers (synonym_sort limit) tokens.now result }
{
    let Some(next) = after_type(tokens) else {
        return Err(Fault::At(tokens.len()));
    };
    let Some((name, behind)) = after_own_con(next) else {
        return Err(Fault::At(next.len()));
    };
    let params = read_params(alloc, behind)?;
    let Some(body) = after_equals(params.rest) else {
        return Err(Fault::At(params.rest.len()));
    };
    let ty = read_type(alloc, body, limit)?;
    let name = Name::from_bytes(alloc, name.as_bytes())?;
    Ok(Read {
        tree: Synonym {
            name,
            params: params.names,
            ty: ty.tree,
        },
        rest: ty.rest,
        depth: ty.depth,
    })
}
