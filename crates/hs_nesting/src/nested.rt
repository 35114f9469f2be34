//! Operands, and the blocks of declarations and alternatives, each given the readers of all three.
ghost use Rattle.std.specs.Prelude.{◌<◌, length};
ghost use Rattle.hs_readers.specs.Answers.{Answers};
ghost use Rattle.hs_expression_forms.specs.Trees.{sort_of};
ghost use Rattle.hs_expression_forms.specs.Expressions.{alt_blocks, decl_blocks, operands};

use hs_bindings::read_decl_block;
use hs_blocks::read_alt_block;
use hs_forms::Fault;
use hs_modules::{AltBlock, DeclBlock, OperandTree};
use hs_readers::Read;
use hs_tokens::Terminal;
use std::alloc::Global;

/// The operand at the front of the terminals (Haskell 2010 Report, sections 3.3, 3.6, 3.12 and 3.13), or where they begin
/// none. The limit bounds its depth.
#[cycle(nested)]
pub fn read_operand<'a>(
    alloc: Global,
    tokens: &'a [Terminal],
    limit: Option<usize>,
) -> Result<Read<'a, OperandTree>, Fault>
    ensures { Answers (sort_of operands limit) tokens.now result }
{
    hs_operands::read_operand(
        alloc,
        tokens,
        limit,
        &|here, below|
            requires { length here.now < length tokens.now }
            ensures { Answers (sort_of operands below) here.now result }
        {
            let _ = &tokens;
            read_operand(alloc, here, below)
        },
        &|here, below|
            requires { length here.now < length tokens.now }
            ensures { Answers (sort_of decl_blocks below) here.now result }
        {
            let _ = &tokens;
            read_decls(alloc, here, below)
        },
        &|here, below|
            requires { length here.now < length tokens.now }
            ensures { Answers (sort_of alt_blocks below) here.now result }
        {
            let _ = &tokens;
            read_alts(alloc, here, below)
        },
    )
}

/// The block of declarations at the front of the terminals (Haskell 2010 Report, sections 3.12 and 4.4.3), or where they
/// begin none. The limit bounds its depth.
#[cycle(nested)]
pub fn read_decls<'a>(
    alloc: Global,
    tokens: &'a [Terminal],
    limit: Option<usize>,
) -> Result<Read<'a, DeclBlock>, Fault>
    ensures { Answers (sort_of decl_blocks limit) tokens.now result }
{
    read_decl_block(
        alloc,
        tokens,
        limit,
        &|here, below|
            requires { length here.now < length tokens.now }
            ensures { Answers (sort_of operands below) here.now result }
        {
            let _ = &tokens;
            read_operand(alloc, here, below)
        },
        &|here, below|
            requires { length here.now < length tokens.now }
            ensures { Answers (sort_of decl_blocks below) here.now result }
        {
            let _ = &tokens;
            read_decls(alloc, here, below)
        },
    )
}

/// The block of alternatives at the front of the terminals (Haskell 2010 Report, section 3.13), or where they begin none.
/// The limit bounds its depth.
#[cycle(nested)]
pub fn read_alts<'a>(
    alloc: Global,
    tokens: &'a [Terminal],
    limit: Option<usize>,
) -> Result<Read<'a, AltBlock>, Fault>
    ensures { Answers (sort_of alt_blocks limit) tokens.now result }
{
    read_alt_block(
        alloc,
        tokens,
        limit,
        &|here, below|
            requires { length here.now < length tokens.now }
            ensures { Answers (sort_of operands below) here.now result }
        {
            let _ = &tokens;
            read_operand(alloc, here, below)
        },
        &|here, below|
            requires { length here.now < length tokens.now }
            ensures { Answers (sort_of decl_blocks below) here.now result }
        {
            let _ = &tokens;
            read_decls(alloc, here, below)
        },
    )
}
