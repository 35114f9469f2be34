//! Expressions and declarations, with the readers of all that stands inside them.
ghost use Rattle.hs_readers.specs.Answers.{Answers};
ghost use Rattle.hs_expression_forms.specs.Trees.{sort_of};
ghost use Rattle.hs_expression_forms.specs.Expressions.{decl_blocks, exps, operands};
ghost use Rattle.hs_binding_forms.specs.Bindings.{decls};

use crate::nested::{read_decls, read_operand};
use hs_forms::Fault;
use hs_modules::{DeclTree, ExpTree};
use hs_readers::Read;
use hs_tokens::Terminal;
use std::alloc::Global;

/// The expression at the front of the terminals (Haskell 2010 Report, chapter 3), or where they begin none. The limit
/// bounds its depth.
pub fn read_exp<'a>(
    alloc: Global,
    tokens: &'a [Terminal],
    limit: Option<usize>,
) -> Result<Read<'a, ExpTree>, Fault>
    ensures { Answers (sort_of exps limit) tokens.now result }
{
    hs_expressions::read_exp(
        alloc,
        tokens,
        limit,
        &|here, below|
            ensures { Answers (sort_of operands below) here.now result }
        { read_operand(alloc, here, below) },
    )
}

/// The declaration at the front of the terminals, up to the `;` or `}` behind it (Haskell 2010 Report, section 4.4), or
/// where they begin none. The limit bounds its depth.
pub fn read_decl<'a>(
    alloc: Global,
    tokens: &'a [Terminal],
    limit: Option<usize>,
) -> Result<Read<'a, DeclTree>, Fault>
    ensures { Answers (sort_of decls limit) tokens.now result }
{
    hs_bindings::read_decl(
        alloc,
        tokens,
        limit,
        &|here, below|
            ensures { Answers (sort_of operands below) here.now result }
        { read_operand(alloc, here, below) },
        &|here, below|
            ensures { Answers (sort_of decl_blocks below) here.now result }
        { read_decls(alloc, here, below) },
    )
}
