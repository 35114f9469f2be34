//! Blocks of declarations (Haskell 2010 Report, sections 3.12 and 4.4.3), of operands and blocks that readers are given for.
ghost use Rattle.std.specs.Prelude.{◌↔◌, IsTrue, max, map, ◌≡◌, ◌∷◌, ◌<◌, ◌≤◌, ◌+◌, ◌^◌, ℕ, Option, IfOk, length, true};
ghost use Rattle.hs_forms.specs.Reading.{begins};
ghost use Rattle.hs_forms.specs.Limits.{deepest};
ghost use Rattle.hs_tokens.specs.declared.terminal.Terminal.{Terminal};
ghost use Rattle.hs_tokens.specs.declared.terminal.Terminal.TheVariants.{LeftBrace};
ghost use Rattle.hs_readers.specs.Answers.{Answers, item_sort};
ghost use Rattle.hs_expression_forms.specs.Trees.{behind_token, sort_of};
ghost use Rattle.hs_expression_forms.specs.Expressions.{decl_blocks, operands};
ghost use Rattle.hs_block_forms.specs.Blocks.{is_semicolon};
ghost use Rattle.hs_binding_forms.specs.Bindings.{decl_items, decl_slots};
ghost use Rattle.hs_binding_forms.proofs.DeclBlockLemmas.{decl_chain, from_block};

use crate::declarations::read_decl;
use hs_block_forms::{after_left_brace, after_right_brace, begins_semicolon};
use hs_forms::Fault;
use hs_modules::{DeclBlock, DeclSlot, OperandTree};
use hs_readers::{Chained, Read, after, read_chain};
use hs_tokens::Terminal;
use hs_typings::begins_place;
use sqlite_items::{Boxed, Items};
use std::alloc::{AllocError, Global};

/// What stands between the braces of a block of declarations.
pub struct DeclItems {}

impl Chained for DeclItems {
    type Tree = (DeclSlot, Items<DeclSlot>);

    type Head = DeclSlot;

    type Item = DeclSlot;

    type Limit = Option<usize>;

    ghost chain = { decl_chain };

    ghost depth = { decl_items.deep };

    fn begins_item(tokens: &[Terminal]) -> bool {
        begins_semicolon(tokens)
    }

    fn has_room(
        _limit: Option<usize>,
        _deep: usize,
        _head: &DeclSlot,
        _items: &Items<DeclSlot>,
    ) -> bool {
        true
    }

    fn make(head: DeclSlot, items: Items<DeclSlot>) -> (DeclSlot, Items<DeclSlot>)
        ensures { (limit : Option ℕ) → result ≡ (decl_chain limit).make head items }
    {
        (head, items)
    }

    fn total(deep: usize, _count: usize) -> usize {
        deep
    }
}

/// A declaration or none, behind a token.
fn read_decl_slot<
    'a,
    F: Fn(&[Terminal], Option<usize>) -> Result<Read<'_, OperandTree>, Fault>,
    D: Fn(&[Terminal], Option<usize>) -> Result<Read<'_, DeclBlock>, Fault>,
>(
    alloc: Global,
    tokens: &'a [Terminal],
    limit: Option<usize>,
    operand: &F,
    block: &D,
) -> Result<Read<'a, DeclSlot>, Fault>
    requires may { (here : _) (l : _) → length here.now < length tokens.now → F.pre operand.now here l }
    requires says { (here : _) (l : _) (r : _) → F.post operand.now here l r → Answers (sort_of operands l) here.now r }
    requires may_decls { (here : _) (l : _) → length here.now < length tokens.now → D.pre block.now here l }
    requires says_decls { (here : _) (l : _) (r : _) → D.post block.now here l r → Answers (sort_of decl_blocks l) here.now r }
    ensures { (before : Terminal) → Answers (sort_of (behind_token before decl_slots) limit) (before ∷ tokens.now) result }
{
    if !begins_place(tokens) {
        return Ok(Read {
            tree: DeclSlot::NoDecl,
            rest: tokens,
            depth: 0,
        });
    }
    let decl = read_decl(alloc, tokens, limit, operand, block)?;
    Ok(Read {
        tree: DeclSlot::Decl(decl.tree),
        rest: decl.rest,
        depth: decl.depth,
    })
}

/// A declaration or none, with the `{` before it.
fn read_first<
    'a,
    F: Fn(&[Terminal], Option<usize>) -> Result<Read<'_, OperandTree>, Fault>,
    D: Fn(&[Terminal], Option<usize>) -> Result<Read<'_, DeclBlock>, Fault>,
>(
    alloc: Global,
    tokens: &'a [Terminal],
    limit: Option<usize>,
    operand: &F,
    block: &D,
) -> Result<Read<'a, DeclSlot>, Fault>
    requires may { (here : _) (l : _) → length here.now < length tokens.now → F.pre operand.now here l }
    requires says { (here : _) (l : _) (r : _) → F.post operand.now here l r → Answers (sort_of operands l) here.now r }
    requires may_decls { (here : _) (l : _) → length here.now < length tokens.now → D.pre block.now here l }
    requires says_decls { (here : _) (l : _) (r : _) → D.post block.now here l r → Answers (sort_of decl_blocks l) here.now r }
    ensures { Answers (sort_of (behind_token LeftBrace decl_slots) limit) tokens.now result }
{
    let Some(next) = after_left_brace(tokens) else {
        return Err(Fault::At(tokens.len()));
    };
    read_decl_slot(alloc, next, limit, operand, block)
}

/// A declaration or none, with the `;` before it.
fn read_more<
    'a,
    F: Fn(&[Terminal], Option<usize>) -> Result<Read<'_, OperandTree>, Fault>,
    D: Fn(&[Terminal], Option<usize>) -> Result<Read<'_, DeclBlock>, Fault>,
>(
    alloc: Global,
    tokens: &'a [Terminal],
    limit: Option<usize>,
    count: usize,
    operand: &F,
    block: &D,
) -> Result<Read<'a, DeclSlot>, Fault>
    requires starts { begins is_semicolon tokens.now ≡ true }
    requires may { (here : _) (l : _) → length here.now < length tokens.now → F.pre operand.now here l }
    requires says { (here : _) (l : _) (r : _) → F.post operand.now here l r → Answers (sort_of operands l) here.now r }
    requires may_decls { (here : _) (l : _) → length here.now < length tokens.now → D.pre block.now here l }
    requires says_decls { (here : _) (l : _) (r : _) → D.post block.now here l r → Answers (sort_of decl_blocks l) here.now r }
    ensures { Answers (item_sort (decl_chain limit) count) tokens.now result }
{
    let _ = &count;
    read_decl_slot(alloc, after(tokens, 1), limit, operand, block)
}

/// What stands between the braces of a block of declarations, at its `{`.
fn read_decl_items<
    'a,
    F: Fn(&[Terminal], Option<usize>) -> Result<Read<'_, OperandTree>, Fault>,
    D: Fn(&[Terminal], Option<usize>) -> Result<Read<'_, DeclBlock>, Fault>,
>(
    alloc: Global,
    tokens: &'a [Terminal],
    limit: Option<usize>,
    operand: &F,
    block: &D,
) -> Result<Read<'a, (DeclSlot, Items<DeclSlot>)>, Fault>
    requires may { (here : _) (l : _) → length here.now < length tokens.now → F.pre operand.now here l }
    requires says { (here : _) (l : _) (r : _) → F.post operand.now here l r → Answers (sort_of operands l) here.now r }
    requires may_decls { (here : _) (l : _) → length here.now < length tokens.now → D.pre block.now here l }
    requires says_decls { (here : _) (l : _) (r : _) → D.post block.now here l r → Answers (sort_of decl_blocks l) here.now r }
    ensures { Answers (sort_of decl_items limit) tokens.now result }
{
    let head = read_first(alloc, tokens, limit, operand, block)?;
    read_chain::<DeclItems, _>(
        alloc,
        tokens,
        limit,
        head,
        |here, count|
            requires less { count + length here.now < length tokens.now }
            requires starts { begins is_semicolon here.now ≡ true }
            requires may { (there : _) (l : _) → length there.now < length tokens.now → F.pre operand.now there l }
            requires says { (there : _) (l : _) (r : _) → F.post operand.now there l r → Answers (sort_of operands l) there.now r }
            requires may_decls { (there : _) (l : _) → length there.now < length tokens.now → D.pre block.now there l }
            requires says_decls { (there : _) (l : _) (r : _) → D.post block.now there l r → Answers (sort_of decl_blocks l) there.now r }
            ensures { Answers (item_sort (decl_chain limit) count) here.now result }
        {
            let _ = &tokens;
            read_more(alloc, here, limit, count, operand, block)
        },
    )
}

/// The block of these declarations.
fn block_of(alloc: Global, items: (DeclSlot, Items<DeclSlot>)) -> Result<DeclBlock, AllocError>
    ensures { IfOk result (λ block. block ≡ from_block items) }
{
    let (first, rest) = items;
    let first = Boxed::new(alloc, first)?;
    Ok(DeclBlock { first, rest })
}

/// `"{" [decl] {";" [decl]} "}"`
pub fn read_decl_block<
    'a,
    F: Fn(&[Terminal], Option<usize>) -> Result<Read<'_, OperandTree>, Fault>,
    D: Fn(&[Terminal], Option<usize>) -> Result<Read<'_, DeclBlock>, Fault>,
>(
    alloc: Global,
    tokens: &'a [Terminal],
    limit: Option<usize>,
    operand: &F,
    block: &D,
) -> Result<Read<'a, DeclBlock>, Fault>
    requires may { (here : _) (l : _) → length here.now < length tokens.now → F.pre operand.now here l }
    requires says { (here : _) (l : _) (r : _) → F.post operand.now here l r → Answers (sort_of operands l) here.now r }
    requires may_decls { (here : _) (l : _) → length here.now < length tokens.now → D.pre block.now here l }
    requires says_decls { (here : _) (l : _) (r : _) → D.post block.now here l r → Answers (sort_of decl_blocks l) here.now r }
    ensures { Answers (sort_of decl_blocks limit) tokens.now result }
{
    let items = read_decl_items(alloc, tokens, limit, operand, block)?;
    let Some(rest) = after_right_brace(items.rest) else {
        return Err(Fault::At(items.rest.len()));
    };
    let tree = block_of(alloc, items.tree)?;
    Ok(Read {
        tree,
        rest,
        depth: items.depth,
    })
}
