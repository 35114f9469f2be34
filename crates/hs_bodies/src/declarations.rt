//! Top declarations of modules (Haskell 2010 Report, chapter 4).
ghost use Rattle.hs_readers.specs.Answers.{Answers};
ghost use Rattle.hs_expression_forms.specs.Trees.{sort_of};
ghost use Rattle.hs_body_forms.specs.Bodies.{top_decls};

use hs_datatypes::{begins_type_decl, read_type_decl};
use hs_forms::Fault;
use hs_modules::TopDeclTree;
use hs_nesting::read_decl;
use hs_readers::Read;
use hs_tokens::Terminal;
use std::alloc::Global;

/// `topdecl`, up to the `;` or `}` behind it: what declares a type, or what may stand in any block.
pub fn read_top_decl<'a>(
    alloc: Global,
    tokens: &'a [Terminal],
    limit: Option<usize>,
) -> Result<Read<'a, TopDeclTree>, Fault>
    ensures { Answers (sort_of top_decls limit) tokens.now result }
{
    if begins_type_decl(tokens) {
        let declared = read_type_decl(alloc, tokens, limit)?;
        return Ok(declared);
    }
    let decl = read_decl(alloc, tokens, limit)?;
    Ok(Read {
        tree: TopDeclTree::Decl(decl.tree),
        rest: decl.rest,
        depth: decl.depth,
    })
}
