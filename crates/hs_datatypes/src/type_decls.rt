//! Declarations of types (Haskell 2010 Report, section 4.2).
ghost use Rattle.std.specs.Prelude.{◌≡◌, true};
ghost use Rattle.hs_forms.specs.Reading.{begins};
ghost use Rattle.hs_readers.specs.Answers.{Answers};
ghost use Rattle.hs_expression_forms.specs.Trees.{sort_of};
ghost use Rattle.hs_declaration_forms.specs.Datatypes.{starts_type_decl, type_decls};

use crate::datas::read_data;
use crate::leaf::{begins_data, begins_newtype};
use crate::newtypes::read_newtype;
use hs_declarations::read_synonym;
use hs_forms::Fault;
use hs_modules::TopDeclTree;
use hs_readers::Read;
use hs_tokens::Terminal;
use std::alloc::Global;

/// The declaration of a type, up to the `;` or `}` behind it, by the `data`, `newtype` or `type` that stands here
/// (`begins_type_decl`).
pub fn read_type_decl<'a>(
    alloc: Global,
    tokens: &'a [Terminal],
    limit: Option<usize>,
) -> Result<Read<'a, TopDeclTree>, Fault>
    requires { begins starts_type_decl tokens.now ≡ true }
    ensures { Answers (sort_of type_decls limit) tokens.now result }
{
    if begins_data(tokens) {
        return read_data(alloc, tokens, limit);
    }
    if begins_newtype(tokens) {
        return read_newtype(alloc, tokens, limit);
    }
    let synonym = read_synonym(alloc, tokens, limit)?;
    let alias = synonym.tree;
    Ok(Read {
        tree: TopDeclTree::Synonym(alias.name, alias.params, alias.ty),
        rest: synonym.rest,
        depth: synonym.depth,
    })
}
