//! Blocks of alternatives (Haskell 2010 Report, section 3.13), of operands and declarations that readers are given for.
ghost use Rattle.std.specs.Prelude.{◌↔◌, IsTrue, max, map, ◌≡◌, ◌∷◌, ◌<◌, ◌≤◌, ◌+◌, ◌^◌, ℕ, Option, IfOk, length, true};
ghost use Rattle.hs_forms.specs.Reading.{begins};
ghost use Rattle.hs_forms.specs.Limits.{deepest};
ghost use Rattle.hs_tokens.specs.declared.terminal.Terminal.{Terminal};
ghost use Rattle.hs_tokens.specs.declared.terminal.Terminal.TheVariants.{LeftBrace};
ghost use Rattle.hs_readers.specs.Answers.{Answers, item_sort};
ghost use Rattle.hs_expression_forms.specs.Trees.{behind_token, sort_of};
ghost use Rattle.hs_expression_forms.specs.Expressions.{alt_blocks, decl_blocks, operands};
ghost use Rattle.hs_block_forms.specs.Blocks.{alt_items, alt_slots, is_semicolon};
ghost use Rattle.hs_block_forms.proofs.BodyLemmas.{items_chain};
ghost use Rattle.hs_block_forms.proofs.ItemLayerLemmas.{from_block};

use crate::bodies::read_alt;
use crate::leaf::begins_lpat;
use hs_block_forms::{after_left_brace, after_right_brace, begins_semicolon};
use hs_forms::Fault;
use hs_modules::{AltBlock, AltSlot, DeclBlock, OperandTree};
use hs_readers::{Chained, Read, after, read_chain};
use hs_tokens::Terminal;
use sqlite_items::{Boxed, Items};
use std::alloc::{AllocError, Global};

/// What stands between the braces of a block of alternatives.
pub struct AltItems {}

impl Chained for AltItems {
    type Tree = (AltSlot, Items<AltSlot>);

    type Head = AltSlot;

    type Item = AltSlot;

    type Limit = Option<usize>;

    ghost chain = { items_chain };

    ghost depth = { alt_items.deep };

    fn begins_item(tokens: &[Terminal]) -> bool {
        begins_semicolon(tokens)
    }

    fn has_room(
        _limit: Option<usize>,
        _deep: usize,
        _head: &AltSlot,
        _items: &Items<AltSlot>,
    ) -> bool {
        true
    }

    fn make(head: AltSlot, items: Items<AltSlot>) -> (AltSlot, Items<AltSlot>)
        ensures { (limit : Option ℕ) → result ≡ (items_chain limit).make head items }
    {
        (head, items)
    }

    fn total(deep: usize, _count: usize) -> usize {
        deep
    }
}

/// An alternative or none, behind a token.
fn read_alt_slot<
    'a,
    F: Fn(&[Terminal], Option<usize>) -> Result<Read<'_, OperandTree>, Fault>,
    D: Fn(&[Terminal], Option<usize>) -> Result<Read<'_, DeclBlock>, Fault>,
>(
    alloc: Global,
    tokens: &'a [Terminal],
    limit: Option<usize>,
    operand: &F,
    block: &D,
) -> Result<Read<'a, AltSlot>, Fault>
    requires may { (here : _) (l : _) → length here.now < length tokens.now → F.pre operand.now here l }
    requires says { (here : _) (l : _) (r : _) → F.post operand.now here l r → Answers (sort_of operands l) here.now r }
    requires may_decls { (here : _) (l : _) → length here.now < length tokens.now → D.pre block.now here l }
    requires says_decls { (here : _) (l : _) (r : _) → D.post block.now here l r → Answers (sort_of decl_blocks l) here.now r }
    ensures { (before : Terminal) → Answers (sort_of (behind_token before alt_slots) limit) (before ∷ tokens.now) result }
{
    if !begins_lpat(tokens) {
        return Ok(Read {
            tree: AltSlot::NoAlt,
            rest: tokens,
            depth: 0,
        });
    }
    let alt = read_alt(alloc, tokens, limit, operand, block)?;
    Ok(Read {
        tree: AltSlot::Alt(alt.tree),
        rest: alt.rest,
        depth: alt.depth,
    })
}

/// An alternative or none, with the `{` before it.
fn read_first<
    'a,
    F: Fn(&[Terminal], Option<usize>) -> Result<Read<'_, OperandTree>, Fault>,
    D: Fn(&[Terminal], Option<usize>) -> Result<Read<'_, DeclBlock>, Fault>,
>(
    alloc: Global,
    tokens: &'a [Terminal],
    limit: Option<usize>,
    operand: &F,
    block: &D,
) -> Result<Read<'a, AltSlot>, Fault>
    requires may { (here : _) (l : _) → length here.now < length tokens.now → F.pre operand.now here l }
    requires says { (here : _) (l : _) (r : _) → F.post operand.now here l r → Answers (sort_of operands l) here.now r }
    requires may_decls { (here : _) (l : _) → length here.now < length tokens.now → D.pre block.now here l }
    requires says_decls { (here : _) (l : _) (r : _) → D.post block.now here l r → Answers (sort_of decl_blocks l) here.now r }
    ensures { Answers (sort_of (behind_token LeftBrace alt_slots) limit) tokens.now result }
{
    let Some(next) = after_left_brace(tokens) else {
        return Err(Fault::At(tokens.len()));
    };
    read_alt_slot(alloc, next, limit, operand, block)
}

/// An alternative or none, with the `;` before it.
fn read_more<
    'a,
    F: Fn(&[Terminal], Option<usize>) -> Result<Read<'_, OperandTree>, Fault>,
    D: Fn(&[Terminal], Option<usize>) -> Result<Read<'_, DeclBlock>, Fault>,
>(
    alloc: Global,
    tokens: &'a [Terminal],
    limit: Option<usize>,
    count: usize,
    operand: &F,
    block: &D,
) -> Result<Read<'a, AltSlot>, Fault>
    requires starts { begins is_semicolon tokens.now ≡ true }
    requires may { (here : _) (l : _) → length here.now < length tokens.now → F.pre operand.now here l }
    requires says { (here : _) (l : _) (r : _) → F.post operand.now here l r → Answers (sort_of operands l) here.now r }
    requires may_decls { (here : _) (l : _) → length here.now < length tokens.now → D.pre block.now here l }
    requires says_decls { (here : _) (l : _) (r : _) → D.post block.now here l r → Answers (sort_of decl_blocks l) here.now r }
    ensures { Answers (item_sort (items_chain limit) count) tokens.now result }
{
    let _ = &count;
    read_alt_slot(alloc, after(tokens, 1), limit, operand, block)
}

/// What stands between the braces of a block of alternatives, at its `{`.
fn read_alt_items<
    'a,
    F: Fn(&[Terminal], Option<usize>) -> Result<Read<'_, OperandTree>, Fault>,
    D: Fn(&[Terminal], Option<usize>) -> Result<Read<'_, DeclBlock>, Fault>,
>(
    alloc: Global,
    tokens: &'a [Terminal],
    limit: Option<usize>,
    operand: &F,
    block: &D,
) -> Result<Read<'a, (AltSlot, Items<AltSlot>)>, Fault>
    requires may { (here : _) (l : _) → length here.now < length tokens.now → F.pre operand.now here l }
    requires says { (here : _) (l : _) (r : _) → F.post operand.now here l r → Answers (sort_of operands l) here.now r }
    requires may_decls { (here : _) (l : _) → length here.now < length tokens.now → D.pre block.now here l }
    requires says_decls { (here : _) (l : _) (r : _) → D.post block.now here l r → Answers (sort_of decl_blocks l) here.now r }
    ensures { Answers (sort_of alt_items limit) tokens.now result }
{
    let head = read_first(alloc, tokens, limit, operand, block)?;
    read_chain::<AltItems, _>(
        alloc,
        tokens,
        limit,
        head,
        |here, count|
            requires less { count + length here.now < length tokens.now }
            requires starts { begins is_semicolon here.now ≡ true }
            requires may { (there : _) (l : _) → length there.now < length tokens.now → F.pre operand.now there l }
            requires says { (there : _) (l : _) (r : _) → F.post operand.now there l r → Answers (sort_of operands l) there.now r }
            requires may_decls { (there : _) (l : _) → length there.now < length tokens.now → D.pre block.now there l }
            requires says_decls { (there : _) (l : _) (r : _) → D.post block.now there l r → Answers (sort_of decl_blocks l) there.now r }
            ensures { Answers (item_sort (items_chain limit) count) here.now result }
        {
            let _ = &tokens;
            read_more(alloc, here, limit, count, operand, block)
        },
    )
}

/// The block of these alternatives.
fn block_of(alloc: Global, items: (AltSlot, Items<AltSlot>)) -> Result<AltBlock, AllocError>
    ensures { IfOk result (λ block. block ≡ from_block items) }
{
    let (first, rest) = items;
    let first = Boxed::new(alloc, first)?;
    Ok(AltBlock { first, rest })
}

/// `"{" [alt] {";" [alt]} "}"`
pub fn read_alt_block<
    'a,
    F: Fn(&[Terminal], Option<usize>) -> Result<Read<'_, OperandTree>, Fault>,
    D: Fn(&[Terminal], Option<usize>) -> Result<Read<'_, DeclBlock>, Fault>,
>(
    alloc: Global,
    tokens: &'a [Terminal],
    limit: Option<usize>,
    operand: &F,
    block: &D,
) -> Result<Read<'a, AltBlock>, Fault>
    requires may { (here : _) (l : _) → length here.now < length tokens.now → F.pre operand.now here l }
    requires says { (here : _) (l : _) (r : _) → F.post operand.now here l r → Answers (sort_of operands l) here.now r }
    requires may_decls { (here : _) (l : _) → length here.now < length tokens.now → D.pre block.now here l }
    requires says_decls { (here : _) (l : _) (r : _) → D.post block.now here l r → Answers (sort_of decl_blocks l) here.now r }
    ensures { Answers (sort_of alt_blocks limit) tokens.now result }
{
    let items = read_alt_items(alloc, tokens, limit, operand, block)?;
    let Some(rest) = after_right_brace(items.rest) else {
        return Err(Fault::At(items.rest.len()));
    };
    let tree = block_of(alloc, items.tree)?;
    Ok(Read {
        tree,
        rest,
        depth: items.depth,
    })
}
