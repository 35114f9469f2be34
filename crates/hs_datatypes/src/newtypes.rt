//! Renamed types (Haskell 2010 Report, section 4.2.3).
ghost use Rattle.std.specs.Prelude.{◌≡◌};
ghost use Rattle.hs_readers.specs.Answers.{Answers};
ghost use Rattle.hs_expression_forms.specs.Trees.{sort_of};
ghost use Rattle.hs_declaration_forms.specs.Datatypes.{newtype_bodies, newtypes};

use crate::leaf::after_newtype;
use crate::names::read_con;
use bp_base::Name;
use hs_declarations::{after_equals, read_params};
use hs_forms::Fault;
use hs_headers::after_own_con;
use hs_modules::{ConTree, TopDeclTree};
use hs_readers::{Read, read_atype};
use hs_tokens::Terminal;
use hs_trees::ATypeTree;
use std::alloc::Global;

/// `con atype`
fn read_body<'a>(
    alloc: Global,
    tokens: &'a [Terminal],
    limit: Option<usize>,
) -> Result<Read<'a, (ConTree, ATypeTree)>, Fault>
    ensures { Answers (sort_of newtype_bodies limit) tokens.now result }
{
    let con = read_con(alloc, tokens)?;
    let atype = read_atype(alloc, con.rest, limit)?;
    let tree = (con.tree, atype.tree);
    Ok(Read {
        tree,
        rest: atype.rest,
        depth: atype.depth,
    })
}

/// `"newtype" tycon {tyvar} "=" con atype`
pub fn read_newtype<'a>(
    alloc: Global,
    tokens: &'a [Terminal],
    limit: Option<usize>,
) -> Result<Read<'a, TopDeclTree>, Fault>
    ensures { Answers (sort_of newtypes limit) tokens.now result }
{
    let Some(next) = after_newtype(tokens) else {
        return Err(Fault::At(tokens.len()));
    };
    let Some((name, behind)) = after_own_con(next) else {
        return Err(Fault::At(next.len()));
    };
    let params = read_params(alloc, behind)?;
    let Some(inside) = after_equals(params.rest) else {
        return Err(Fault::At(params.rest.len()));
    };
    let body = read_body(alloc, inside, limit)?;
    let name = Name::from_bytes(alloc, name.as_bytes())?;
    let (con, atype) = body.tree;
    Ok(Read {
        tree: TopDeclTree::Newtype(name, params.names, con, atype),
        rest: body.rest,
        depth: body.depth,
    })
}
