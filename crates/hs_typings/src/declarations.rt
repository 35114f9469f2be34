//! Declarations that bind nothing.
ghost use Rattle.std.specs.Prelude.{◌≡◌};
ghost use Rattle.hs_readers.specs.Answers.{Answers};
ghost use Rattle.hs_expression_forms.specs.Trees.{sort_of};
ghost use Rattle.hs_declaration_forms.specs.Typings.{plain_decls};

use crate::fixities::read_fixity;
use crate::leaf::begins_fixity;
use crate::variables::read_typing;
use hs_forms::Fault;
use hs_modules::DeclTree;
use hs_readers::Read;
use hs_tokens::Terminal;
use std::alloc::Global;

/// A declaration that binds nothing, up to the `;` or `}` behind it: of the types of variables, or of the fixity of
/// operators.
pub fn read_plain_decl<'a>(
    alloc: Global,
    tokens: &'a [Terminal],
    limit: Option<usize>,
) -> Result<Read<'a, DeclTree>, Fault>
    ensures { Answers (sort_of plain_decls limit) tokens.now result }
{
    if begins_fixity(tokens) {
        let fixity = read_fixity(alloc, tokens, limit)?;
        let (head, ops) = fixity.tree;
        let (word, level) = head;
        let (first, rest) = ops;
        return Ok(Read {
            tree: DeclTree::Fixity(word, level, first, rest),
            rest: fixity.rest,
            depth: fixity.depth,
        });
    }
    let typing = read_typing(alloc, tokens, limit)?;
    let (vars, ty) = typing.tree;
    let (first, rest) = vars;
    Ok(Read {
        tree: DeclTree::Signature(first, rest, ty),
        rest: typing.rest,
        depth: typing.depth,
    })
}
