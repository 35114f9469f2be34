//! Data types (Haskell 2010 Report, section 4.2.1).
ghost use Rattle.std.specs.Prelude.{◌≡◌};
ghost use Rattle.hs_readers.specs.Answers.{Answers};
ghost use Rattle.hs_expression_forms.specs.Trees.{sort_of};
ghost use Rattle.hs_declaration_forms.specs.Datatypes.{datas};

use crate::constructors::read_constrs;
use bp_base::Name;
use hs_declarations::{after_data, after_equals, read_params};
use hs_forms::Fault;
use hs_headers::after_own_con;
use hs_modules::TopDeclTree;
use hs_readers::Read;
use hs_tokens::Terminal;
use std::alloc::Global;

/// `"data" tycon {tyvar} ["=" constr {"|" constr}]`
pub fn read_data<'a>(
    alloc: Global,
    tokens: &'a [Terminal],
    limit: Option<usize>,
) -> Result<Read<'a, TopDeclTree>, Fault>
    ensures { Answers (sort_of datas limit) tokens.now result }
{
    let Some(next) = after_data(tokens) else {
        return Err(Fault::At(tokens.len()));
    };
    let Some((name, behind)) = after_own_con(next) else {
        return Err(Fault::At(next.len()));
    };
    let params = read_params(alloc, behind)?;
    let name = Name::from_bytes(alloc, name.as_bytes())?;
    let Some(body) = after_equals(params.rest) else {
        return Ok(Read {
            tree: TopDeclTree::EmptyData(name, params.names),
            rest: params.rest,
            depth: 0,
        });
    };
    let constrs = read_constrs(alloc, body, limit)?;
    let (first, more) = constrs.tree;
    Ok(Read {
        tree: TopDeclTree::Data(name, params.names, first, more),
        rest: constrs.rest,
        depth: constrs.depth,
    })
}
