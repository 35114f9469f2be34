//! Fields of constructors (Haskell 2010 Report, section 4.2.1).
ghost use Rattle.std.specs.Prelude.{◌≡◌};
ghost use Rattle.hs_readers.specs.Answers.{Answers};
ghost use Rattle.hs_expression_forms.specs.Trees.{sort_of};
ghost use Rattle.hs_declaration_forms.specs.Datatypes.{fields, sides};

use crate::leaf::after_bang;
use hs_forms::Fault;
use hs_modules::{ConstrSide, Field};
use hs_readers::{Read, read_atype, read_btype};
use hs_tokens::Terminal;
use std::alloc::Global;

/// `["!"] atype`
pub fn read_field<'a>(
    alloc: Global,
    tokens: &'a [Terminal],
    limit: Option<usize>,
) -> Result<Read<'a, Field>, Fault>
    ensures { Answers (sort_of fields limit) tokens.now result }
{
    if let Some(next) = after_bang(tokens) {
        let atype = read_atype(alloc, next, limit)?;
        return Ok(Read {
            tree: Field {
                strict: true,
                atype: atype.tree,
            },
            rest: atype.rest,
            depth: atype.depth,
        });
    }
    let atype = read_atype(alloc, tokens, limit)?;
    Ok(Read {
        tree: Field {
            strict: false,
            atype: atype.tree,
        },
        rest: atype.rest,
        depth: atype.depth,
    })
}

/// `btype | "!" atype`
pub fn read_side<'a>(
    alloc: Global,
    tokens: &'a [Terminal],
    limit: Option<usize>,
) -> Result<Read<'a, ConstrSide>, Fault>
    ensures { Answers (sort_of sides limit) tokens.now result }
{
    if let Some(next) = after_bang(tokens) {
        let atype = read_atype(alloc, next, limit)?;
        return Ok(Read {
            tree: ConstrSide::Strict(atype.tree),
            rest: atype.rest,
            depth: atype.depth,
        });
    }
    let btype = read_btype(alloc, tokens, limit)?;
    Ok(Read {
        tree: ConstrSide::Lazy(btype.tree),
        rest: btype.rest,
        depth: btype.depth,
    })
}
