//! Right sides and the right sides of alternatives, with their `where` (Haskell 2010 Report, sections 3.13 and 4.4.3),
//! of operands and declarations that readers are given for.
ghost use Rattle.std.specs.Prelude.{◌↔◌, IsTrue, max, map, ◌≡◌, ◌∷◌, ◌<◌, ◌≤◌, ◌+◌, ◌^◌, ℕ, Option, length, true, false};
ghost use Rattle.hs_forms.specs.Reading.{begins};
ghost use Rattle.hs_forms.specs.Limits.{deepest};
ghost use Rattle.hs_modules.specs.declared.expressions.AltBody.TheVariants.{GuardedArrows};
ghost use Rattle.hs_modules.specs.declared.expressions.RhsBody.TheVariants.{GuardedEquals};
ghost use Rattle.hs_readers.specs.Answers.{Answers, item_sort};
ghost use Rattle.hs_expression_forms.specs.Trees.{sort_of};
ghost use Rattle.hs_expression_forms.specs.Expressions.{decl_blocks, operands};
ghost use Rattle.hs_block_forms.specs.Blocks.{alt_bodies, alt_parts, alts, gda_lists, gd_lists, is_bar, is_where, rhs_bodies, rhs_parts, rhss};
ghost use Rattle.hs_block_forms.proofs.ItemLayerLemmas.{from_alt, from_rhs, locals_of};
ghost use Rattle.hs_block_forms.proofs.BodyLemmas.{alt_chain, gd_chain, gda_chain, rhs_chain, where_sort};

use crate::guards::{read_gd, read_gda};
use crate::leaf::{after_equals, begins_bar, begins_where};
use hs_expressions::read_exp;
use hs_forms::Fault;
use hs_modules::{
    AltBody, AltTree, DeclBlock, GdTree, GdaTree, Locals, OperandTree, RhsBody, RhsTree,
};
use hs_readers::{Chained, Read, after, after_arrow, allows, lower, read_chain, read_pat};
use hs_tokens::Terminal;
use hs_trees::PatTree;
use sqlite_items::Items;
use std::alloc::Global;

/// Guarded expressions of a right side.
pub struct Gds {}

impl Chained for Gds {
    type Tree = (GdTree, Items<GdTree>);

    type Head = GdTree;

    type Item = GdTree;

    type Limit = Option<usize>;

    ghost chain = { gd_chain };

    ghost depth = { gd_lists.deep };

    fn begins_item(tokens: &[Terminal]) -> bool {
        begins_bar(tokens)
    }

    fn has_room(
        _limit: Option<usize>,
        _deep: usize,
        _head: &GdTree,
        _items: &Items<GdTree>,
    ) -> bool {
        true
    }

    fn make(head: GdTree, items: Items<GdTree>) -> (GdTree, Items<GdTree>)
        ensures { (limit : Option ℕ) → result ≡ (gd_chain limit).make head items }
    {
        (head, items)
    }

    fn total(deep: usize, _count: usize) -> usize {
        deep
    }
}

/// Guarded expressions of an alternative.
pub struct Gdas {}

impl Chained for Gdas {
    type Tree = (GdaTree, Items<GdaTree>);

    type Head = GdaTree;

    type Item = GdaTree;

    type Limit = Option<usize>;

    ghost chain = { gda_chain };

    ghost depth = { gda_lists.deep };

    fn begins_item(tokens: &[Terminal]) -> bool {
        begins_bar(tokens)
    }

    fn has_room(
        _limit: Option<usize>,
        _deep: usize,
        _head: &GdaTree,
        _items: &Items<GdaTree>,
    ) -> bool {
        true
    }

    fn make(head: GdaTree, items: Items<GdaTree>) -> (GdaTree, Items<GdaTree>)
        ensures { (limit : Option ℕ) → result ≡ (gda_chain limit).make head items }
    {
        (head, items)
    }

    fn total(deep: usize, _count: usize) -> usize {
        deep
    }
}

/// A right side and its `where`.
pub struct RhsParts {}

impl Chained for RhsParts {
    type Tree = (RhsBody, Items<DeclBlock>);

    type Head = RhsBody;

    type Item = DeclBlock;

    type Limit = Option<usize>;

    ghost chain = { rhs_chain };

    ghost depth = { rhs_parts.deep };

    fn begins_item(tokens: &[Terminal]) -> bool {
        begins_where(tokens)
    }

    fn has_room(
        limit: Option<usize>,
        _deep: usize,
        _head: &RhsBody,
        items: &Items<DeclBlock>,
    ) -> bool {
        items.is_empty() && allows(limit, 1)
    }

    fn make(head: RhsBody, items: Items<DeclBlock>) -> (RhsBody, Items<DeclBlock>)
        ensures { (limit : Option ℕ) → result ≡ (rhs_chain limit).make head items }
    {
        (head, items)
    }

    fn total(deep: usize, _count: usize) -> usize {
        deep
    }
}

/// The right side of an alternative and its `where`.
pub struct AltParts {}

impl Chained for AltParts {
    type Tree = (AltBody, Items<DeclBlock>);

    type Head = AltBody;

    type Item = DeclBlock;

    type Limit = Option<usize>;

    ghost chain = { alt_chain };

    ghost depth = { alt_parts.deep };

    fn begins_item(tokens: &[Terminal]) -> bool {
        begins_where(tokens)
    }

    fn has_room(
        limit: Option<usize>,
        _deep: usize,
        _head: &AltBody,
        items: &Items<DeclBlock>,
    ) -> bool {
        items.is_empty() && allows(limit, 1)
    }

    fn make(head: AltBody, items: Items<DeclBlock>) -> (AltBody, Items<DeclBlock>)
        ensures { (limit : Option ℕ) → result ≡ (alt_chain limit).make head items }
    {
        (head, items)
    }

    fn total(deep: usize, _count: usize) -> usize {
        deep
    }
}

/// Guarded expressions, at a `|`.
fn read_gds<'a, F: Fn(&[Terminal], Option<usize>) -> Result<Read<'_, OperandTree>, Fault>>(
    alloc: Global,
    tokens: &'a [Terminal],
    limit: Option<usize>,
    operand: &F,
) -> Result<Read<'a, (GdTree, Items<GdTree>)>, Fault>
    requires starts { begins is_bar tokens.now ≡ true }
    requires may { (here : _) (l : _) → length here.now < length tokens.now → F.pre operand.now here l }
    requires says { (here : _) (l : _) (r : _) → F.post operand.now here l r → Answers (sort_of operands l) here.now r }
    ensures { Answers (sort_of gd_lists limit) tokens.now result }
{
    let head = read_gd(alloc, tokens, limit, operand)?;
    read_chain::<Gds, _>(
        alloc,
        tokens,
        limit,
        head,
        |here, count|
            requires less { count + length here.now < length tokens.now }
            requires starts { begins is_bar here.now ≡ true }
            requires may { (there : _) (l : _) → length there.now < length tokens.now → F.pre operand.now there l }
            requires says { (there : _) (l : _) (r : _) → F.post operand.now there l r → Answers (sort_of operands l) there.now r }
            ensures { Answers (item_sort (gd_chain limit) count) here.now result }
        {
            let _ = &tokens;
            let _ = &count;
            read_gd(alloc, here, limit, operand)
        },
    )
}

/// Guarded expressions, at a `|`.
fn read_gdas<'a, F: Fn(&[Terminal], Option<usize>) -> Result<Read<'_, OperandTree>, Fault>>(
    alloc: Global,
    tokens: &'a [Terminal],
    limit: Option<usize>,
    operand: &F,
) -> Result<Read<'a, (GdaTree, Items<GdaTree>)>, Fault>
    requires starts { begins is_bar tokens.now ≡ true }
    requires may { (here : _) (l : _) → length here.now < length tokens.now → F.pre operand.now here l }
    requires says { (here : _) (l : _) (r : _) → F.post operand.now here l r → Answers (sort_of operands l) here.now r }
    ensures { Answers (sort_of gda_lists limit) tokens.now result }
{
    let head = read_gda(alloc, tokens, limit, operand)?;
    read_chain::<Gdas, _>(
        alloc,
        tokens,
        limit,
        head,
        |here, count|
            requires less { count + length here.now < length tokens.now }
            requires starts { begins is_bar here.now ≡ true }
            requires may { (there : _) (l : _) → length there.now < length tokens.now → F.pre operand.now there l }
            requires says { (there : _) (l : _) (r : _) → F.post operand.now there l r → Answers (sort_of operands l) there.now r }
            ensures { Answers (item_sort (gda_chain limit) count) here.now result }
        {
            let _ = &tokens;
            let _ = &count;
            read_gda(alloc, here, limit, operand)
        },
    )
}

/// The body that guarded expressions are.
fn guarded_equals(guarded: Read<'_, (GdTree, Items<GdTree>)>) -> Read<'_, RhsBody>
    ensures tree { result.tree ≡ GuardedEquals guarded.entry.tree.0 guarded.entry.tree.1 }
    ensures rest { result.rest.now ≡ guarded.entry.rest.now }
    ensures depth { result.depth ≡ guarded.entry.depth }
{
    let (first, rest) = guarded.tree;
    Read {
        tree: RhsBody::GuardedEquals(first, rest),
        rest: guarded.rest,
        depth: guarded.depth,
    }
}

/// `"=" exp`, or guarded expressions.
fn read_rhs_body<'a, F: Fn(&[Terminal], Option<usize>) -> Result<Read<'_, OperandTree>, Fault>>(
    alloc: Global,
    tokens: &'a [Terminal],
    limit: Option<usize>,
    operand: &F,
) -> Result<Read<'a, RhsBody>, Fault>
    requires may { (here : _) (l : _) → length here.now < length tokens.now → F.pre operand.now here l }
    requires says { (here : _) (l : _) (r : _) → F.post operand.now here l r → Answers (sort_of operands l) here.now r }
    ensures { Answers (sort_of rhs_bodies limit) tokens.now result }
{
    if let Some(next) = after_equals(tokens) {
        let exp = read_exp(alloc, next, limit, operand)?;
        return Ok(Read {
            tree: RhsBody::Equals(exp.tree),
            rest: exp.rest,
            depth: exp.depth,
        });
    }
    if !begins_bar(tokens) {
        return Err(Fault::At(tokens.len()));
    }
    let guarded = read_gds(alloc, tokens, limit, operand)?;
    Ok(guarded_equals(guarded))
}

/// The body that guarded expressions are.
fn guarded_arrows(guarded: Read<'_, (GdaTree, Items<GdaTree>)>) -> Read<'_, AltBody>
    ensures tree { result.tree ≡ GuardedArrows guarded.entry.tree.0 guarded.entry.tree.1 }
    ensures rest { result.rest.now ≡ guarded.entry.rest.now }
    ensures depth { result.depth ≡ guarded.entry.depth }
{
    let (first, rest) = guarded.tree;
    Read {
        tree: AltBody::GuardedArrows(first, rest),
        rest: guarded.rest,
        depth: guarded.depth,
    }
}

/// `"->" exp`, or guarded expressions.
fn read_alt_body<'a, F: Fn(&[Terminal], Option<usize>) -> Result<Read<'_, OperandTree>, Fault>>(
    alloc: Global,
    tokens: &'a [Terminal],
    limit: Option<usize>,
    operand: &F,
) -> Result<Read<'a, AltBody>, Fault>
    requires may { (here : _) (l : _) → length here.now < length tokens.now → F.pre operand.now here l }
    requires says { (here : _) (l : _) (r : _) → F.post operand.now here l r → Answers (sort_of operands l) here.now r }
    ensures { Answers (sort_of alt_bodies limit) tokens.now result }
{
    if let Some(next) = after_arrow(tokens) {
        let exp = read_exp(alloc, next, limit, operand)?;
        return Ok(Read {
            tree: AltBody::Arrow(exp.tree),
            rest: exp.rest,
            depth: exp.depth,
        });
    }
    if !begins_bar(tokens) {
        return Err(Fault::At(tokens.len()));
    }
    let guarded = read_gdas(alloc, tokens, limit, operand)?;
    Ok(guarded_arrows(guarded))
}

/// `"where" block(decl)`
fn read_where<'a, D: Fn(&[Terminal], Option<usize>) -> Result<Read<'_, DeclBlock>, Fault>>(
    alloc: Global,
    tokens: &'a [Terminal],
    limit: Option<usize>,
    block: &D,
) -> Result<Read<'a, DeclBlock>, Fault>
    requires starts { begins is_where tokens.now ≡ true }
    requires may_decls { (here : _) (l : _) → length here.now < length tokens.now → D.pre block.now here l }
    requires says_decls { (here : _) (l : _) (r : _) → D.post block.now here l r → Answers (sort_of decl_blocks l) here.now r }
    ensures { Answers (where_sort limit) tokens.now result }
{
    let decls = block(after(tokens, 1), lower(limit, 1))?;
    Ok(Read {
        tree: decls.tree,
        rest: decls.rest,
        depth: decls.depth + 1,
    })
}

/// What stands behind a right side, of at most one `where`.
fn locals_of(mut blocks: Items<DeclBlock>) -> Locals
    requires { length blocks ≤ 1 }
    ensures { result ≡ locals_of blocks }
{
    match blocks.pop() {
        Some(block) => Locals::Where(block),
        None => Locals::Absent,
    }
}

/// A body with what stands behind its `where`.
fn read_rhs_parts<
    'a,
    F: Fn(&[Terminal], Option<usize>) -> Result<Read<'_, OperandTree>, Fault>,
    D: Fn(&[Terminal], Option<usize>) -> Result<Read<'_, DeclBlock>, Fault>,
>(
    alloc: Global,
    tokens: &'a [Terminal],
    limit: Option<usize>,
    operand: &F,
    block: &D,
) -> Result<Read<'a, (RhsBody, Items<DeclBlock>)>, Fault>
    requires may { (here : _) (l : _) → length here.now < length tokens.now → F.pre operand.now here l }
    requires says { (here : _) (l : _) (r : _) → F.post operand.now here l r → Answers (sort_of operands l) here.now r }
    requires may_decls { (here : _) (l : _) → length here.now < length tokens.now → D.pre block.now here l }
    requires says_decls { (here : _) (l : _) (r : _) → D.post block.now here l r → Answers (sort_of decl_blocks l) here.now r }
    ensures { Answers (sort_of rhs_parts limit) tokens.now result }
{
    let head = read_rhs_body(alloc, tokens, limit, operand)?;
    read_chain::<RhsParts, _>(
        alloc,
        tokens,
        limit,
        head,
        |here, count|
            requires less { count + length here.now < length tokens.now }
            requires starts { begins is_where here.now ≡ true }
            requires may_decls { (there : _) (l : _) → length there.now < length tokens.now → D.pre block.now there l }
            requires says_decls { (there : _) (l : _) (r : _) → D.post block.now there l r → Answers (sort_of decl_blocks l) there.now r }
            ensures { Answers (item_sort (rhs_chain limit) count) here.now result }
        {
            let _ = &tokens;
            let _ = &count;
            read_where(alloc, here, limit, block)
        },
    )
}

/// A body with what stands behind its `where`.
fn read_alt_parts<
    'a,
    F: Fn(&[Terminal], Option<usize>) -> Result<Read<'_, OperandTree>, Fault>,
    D: Fn(&[Terminal], Option<usize>) -> Result<Read<'_, DeclBlock>, Fault>,
>(
    alloc: Global,
    tokens: &'a [Terminal],
    limit: Option<usize>,
    operand: &F,
    block: &D,
) -> Result<Read<'a, (AltBody, Items<DeclBlock>)>, Fault>
    requires may { (here : _) (l : _) → length here.now < length tokens.now → F.pre operand.now here l }
    requires says { (here : _) (l : _) (r : _) → F.post operand.now here l r → Answers (sort_of operands l) here.now r }
    requires may_decls { (here : _) (l : _) → length here.now < length tokens.now → D.pre block.now here l }
    requires says_decls { (here : _) (l : _) (r : _) → D.post block.now here l r → Answers (sort_of decl_blocks l) here.now r }
    ensures { Answers (sort_of alt_parts limit) tokens.now result }
{
    let head = read_alt_body(alloc, tokens, limit, operand)?;
    read_chain::<AltParts, _>(
        alloc,
        tokens,
        limit,
        head,
        |here, count|
            requires less { count + length here.now < length tokens.now }
            requires starts { begins is_where here.now ≡ true }
            requires may_decls { (there : _) (l : _) → length there.now < length tokens.now → D.pre block.now there l }
            requires says_decls { (there : _) (l : _) (r : _) → D.post block.now there l r → Answers (sort_of decl_blocks l) there.now r }
            ensures { Answers (item_sort (alt_chain limit) count) here.now result }
        {
            let _ = &tokens;
            let _ = &count;
            read_where(alloc, here, limit, block)
        },
    )
}

/// The right side that a body and what stands behind its `where` are.
fn rhs_of(parts: Read<'_, (RhsBody, Items<DeclBlock>)>) -> Read<'_, RhsTree>
    requires { length parts.tree.1 ≤ 1 }
    ensures tree { result.tree ≡ from_rhs parts.entry.tree }
    ensures rest { result.rest.now ≡ parts.entry.rest.now }
    ensures depth { result.depth ≡ parts.entry.depth }
{
    let (body, blocks) = parts.tree;
    Read {
        tree: RhsTree {
            body,
            locals: locals_of(blocks),
        },
        rest: parts.rest,
        depth: parts.depth,
    }
}

/// `("=" exp | gd {gd}) ["where" block(decl)]`
pub fn read_rhs<
    'a,
    F: Fn(&[Terminal], Option<usize>) -> Result<Read<'_, OperandTree>, Fault>,
    D: Fn(&[Terminal], Option<usize>) -> Result<Read<'_, DeclBlock>, Fault>,
>(
    alloc: Global,
    tokens: &'a [Terminal],
    limit: Option<usize>,
    operand: &F,
    block: &D,
) -> Result<Read<'a, RhsTree>, Fault>
    requires may { (here : _) (l : _) → length here.now < length tokens.now → F.pre operand.now here l }
    requires says { (here : _) (l : _) (r : _) → F.post operand.now here l r → Answers (sort_of operands l) here.now r }
    requires may_decls { (here : _) (l : _) → length here.now < length tokens.now → D.pre block.now here l }
    requires says_decls { (here : _) (l : _) (r : _) → D.post block.now here l r → Answers (sort_of decl_blocks l) here.now r }
    ensures { Answers (sort_of rhss limit) tokens.now result }
{
    let parts = read_rhs_parts(alloc, tokens, limit, operand, block)?;
    Ok(rhs_of(parts))
}

/// The alternative that a pattern, a body and what stands behind its `where` are.
fn alt_of<'a>(
    pat: Read<'_, PatTree>,
    parts: Read<'a, (AltBody, Items<DeclBlock>)>,
) -> Read<'a, AltTree>
    requires { length parts.tree.1 ≤ 1 }
    ensures tree { result.tree ≡ from_alt (pat.entry.tree, parts.entry.tree) }
    ensures rest { result.rest.now ≡ parts.entry.rest.now }
    ensures depth { result.depth ≡ max pat.entry.depth parts.entry.depth }
{
    let (body, blocks) = parts.tree;
    Read {
        tree: AltTree {
            pat: pat.tree,
            body,
            locals: locals_of(blocks),
        },
        rest: parts.rest,
        depth: pat.depth.max(parts.depth),
    }
}

/// `pat ("->" exp | gda {gda}) ["where" block(decl)]`
pub fn read_alt<
    'a,
    F: Fn(&[Terminal], Option<usize>) -> Result<Read<'_, OperandTree>, Fault>,
    D: Fn(&[Terminal], Option<usize>) -> Result<Read<'_, DeclBlock>, Fault>,
>(
    alloc: Global,
    tokens: &'a [Terminal],
    limit: Option<usize>,
    operand: &F,
    block: &D,
) -> Result<Read<'a, AltTree>, Fault>
    requires may { (here : _) (l : _) → length here.now < length tokens.now → F.pre operand.now here l }
    requires says { (here : _) (l : _) (r : _) → F.post operand.now here l r → Answers (sort_of operands l) here.now r }
    requires may_decls { (here : _) (l : _) → length here.now < length tokens.now → D.pre block.now here l }
    requires says_decls { (here : _) (l : _) (r : _) → D.post block.now here l r → Answers (sort_of decl_blocks l) here.now r }
    ensures { Answers (sort_of alts limit) tokens.now result }
{
    let pat = read_pat(alloc, tokens, limit)?;
    let parts = read_alt_parts(alloc, pat.rest, limit, operand, block)?;
    Ok(alt_of(pat, parts))
}
