//! Modules (Haskell 2010 Report, section 5.1).
ghost use Rattle.std.specs.Prelude.{◌≡◌, ℕ, Option, false, true};
ghost use Rattle.hs_forms.specs.Reading.{begins};
ghost use Rattle.hs_forms.specs.Answers.{Accepts};
ghost use Rattle.hs_headers.specs.Heads.{module_head_form};
ghost use Rattle.hs_readers.specs.Answers.{Answers};
ghost use Rattle.hs_expression_forms.specs.Trees.{sort_of};
ghost use Rattle.hs_block_forms.specs.Blocks.{is_left_brace};
ghost use Rattle.hs_body_forms.specs.Bodies.{module_sort, top_blocks};
ghost use Rattle.hs_body_forms.proofs.ModuleLemmas.{headed_module};

use crate::blocks::read_top_block;
use hs_block_forms::after_left_brace;
use hs_forms::Fault;
use hs_headers::{ModuleHead, read_module_head};
use hs_modules::{Module, TopBlock};
use hs_readers::Read;
use hs_tokens::Terminal;
use std::alloc::Global;

/// The module with this head and block.
fn module_of(head: ModuleHead, block: TopBlock) -> Module
    ensures { result ≡ headed_module head block }
{
    match head {
        ModuleHead::Named(name) => Module::Named(name, block),
        ModuleHead::Exporting(name, exports) => Module::Exporting(name, exports, block),
    }
}

fn headed<'a>(head: Read<'_, ModuleHead>, block: Read<'a, TopBlock>) -> Read<'a, Module>
    ensures tree { result.tree ≡ headed_module head.entry.tree block.entry.tree }
    ensures rest { result.rest.now ≡ block.entry.rest.now }
    ensures depth { result.depth ≡ block.entry.depth }
{
    Read {
        tree: module_of(head.tree, block.tree),
        rest: block.rest,
        depth: block.depth,
    }
}

/// Lets a head go.
fn let_go(_head: Read<'_, ModuleHead>) {}

/// The module with this head, where its block was read.
fn headed_if_read<'a>(
    head: Read<'_, ModuleHead>,
    block: Result<Read<'a, TopBlock>, Fault>,
) -> Result<Read<'a, Module>, Fault>
    ensures { (limit : Option ℕ) (ts : _) → begins is_left_brace ts ≡ false → Accepts module_head_form (λ x. 0) ts head.entry.tree head.entry.rest.now head.entry.depth → Answers (sort_of top_blocks limit) head.entry.rest.now block.entry → Answers (module_sort limit) ts result }
{
    match block {
        Ok(block) => Ok(headed(head, block)),
        Err(fault) => {
            let_go(head);
            Err(fault)
        }
    }
}

/// `"module" modid [exports] "where" block(impdecl first, then topdecl)`
fn read_headed<'a>(
    alloc: Global,
    tokens: &'a [Terminal],
    limit: Option<usize>,
) -> Result<Read<'a, Module>, Fault>
    requires { begins is_left_brace tokens.now ≡ false }
    ensures { Answers (module_sort limit) tokens.now result }
{
    let head = read_module_head(alloc, tokens)?;
    let block = read_top_block(alloc, head.rest, limit);
    headed_if_read(head, block)
}

/// `block(impdecl first, then topdecl)`
fn read_bare<'a>(
    alloc: Global,
    tokens: &'a [Terminal],
    limit: Option<usize>,
) -> Result<Read<'a, Module>, Fault>
    requires { begins is_left_brace tokens.now ≡ true }
    ensures { Answers (module_sort limit) tokens.now result }
{
    let block = read_top_block(alloc, tokens, limit)?;
    Ok(Read {
        tree: Module::Headless(block.tree),
        rest: block.rest,
        depth: block.depth,
    })
}

/// `["module" modid [exports] "where"] block(impdecl first, then topdecl)`: the module at the front of the terminals, or
/// where they begin none. The limit bounds its depth.
pub fn read_module<'a>(
    alloc: Global,
    tokens: &'a [Terminal],
    limit: Option<usize>,
) -> Result<Read<'a, Module>, Fault>
    ensures { Answers (module_sort limit) tokens.now result }
{
    match after_left_brace(tokens) {
        Some(_) => read_bare(alloc, tokens, limit),
        None => read_headed(alloc, tokens, limit),
    }
}
