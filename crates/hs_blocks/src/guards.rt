//! Guards and guarded expressions (Haskell 2010 Report, sections 3.13 and 4.4.3.1), of operands a reader is given for.
ghost use Rattle.std.specs.Prelude.{◌↔◌, IsTrue, max, map, ◌≡◌, ◌∷◌, ◌<◌, ◌≤◌, ◌+◌, ◌^◌, ℕ, Option, IfOk, MatchOption, length, true, false};
ghost use Rattle.hs_forms.specs.Answers.{Rejects};
ghost use Rattle.hs_forms.specs.Reading.{begins};
ghost use Rattle.hs_forms.specs.Limits.{deepest};
ghost use Rattle.hs_tokens.specs.Terminals.{is_arrow, is_comma};
ghost use Rattle.hs_tokens.specs.declared.terminal.Terminal.TheVariants.{Arrow, Bar, Equals};
ghost use Rattle.hs_readers.specs.Answers.{Answers, item_sort};
ghost use Rattle.hs_expression_forms.specs.Trees.{Took, sort_of, within};
ghost use Rattle.hs_expression_forms.specs.Expressions.{exps, operands};
ghost use Rattle.hs_block_forms.specs.Blocks.{binds, gdas, gds, guard_lists, guards, guards_fit, is_bar, tests};
ghost use Rattle.hs_block_forms.proofs.BlockLayerLemmas.{make_gd, make_gda};
ghost use Rattle.hs_block_forms.proofs.GuardLemmas.{guards_chain, past};

use crate::ends::ends_in_type;
use crate::leaf::{after_equals, after_left_arrow, goes_past};
use hs_expressions::{read_exp, read_infix};
use hs_forms::Fault;
use hs_modules::{ExpTree, GdTree, GdaTree, GuardTree, InfixTree, OperandTree};
use hs_readers::{Chained, Read, after, after_arrow, begins_comma, read_chain, read_pat};
use hs_tokens::Terminal;
use hs_trees::PatTree;
use sqlite_items::Items;
use std::alloc::Global;

/// Guards between commas.
pub struct GuardParts {}

impl Chained for GuardParts {
    type Tree = (GuardTree, Items<GuardTree>);

    type Head = GuardTree;

    type Item = GuardTree;

    type Limit = Option<usize>;

    ghost chain = { guards_chain };

    ghost depth = { guard_lists.deep };

    fn begins_item(tokens: &[Terminal]) -> bool {
        begins_comma(tokens)
    }

    fn has_room(
        _limit: Option<usize>,
        _deep: usize,
        _head: &GuardTree,
        _items: &Items<GuardTree>,
    ) -> bool {
        true
    }

    fn make(head: GuardTree, items: Items<GuardTree>) -> (GuardTree, Items<GuardTree>)
        ensures { (limit : Option ℕ) → result ≡ (guards_chain limit).make head items }
    {
        (head, items)
    }

    fn total(deep: usize, _count: usize) -> usize {
        deep
    }
}

/// `pat "<-" infix`
fn read_bind<'a, F: Fn(&[Terminal], Option<usize>) -> Result<Read<'_, OperandTree>, Fault>>(
    alloc: Global,
    tokens: &'a [Terminal],
    limit: Option<usize>,
    operand: &F,
) -> Result<Read<'a, (PatTree, InfixTree)>, Fault>
    requires may { (here : _) (l : _) → length here.now < length tokens.now → F.pre operand.now here l }
    requires says { (here : _) (l : _) (r : _) → F.post operand.now here l r → Answers (sort_of operands l) here.now r }
    ensures { Answers (sort_of binds limit) tokens.now result }
{
    let pat = read_pat(alloc, tokens, limit)?;
    let Some(next) = after_left_arrow(pat.rest) else {
        return Err(Fault::At(pat.rest.len()));
    };
    let chain = read_infix(alloc, next, limit, operand)?;
    Ok(Read {
        tree: (pat.tree, chain.tree),
        rest: chain.rest,
        depth: pat.depth.max(chain.depth),
    })
}

/// `infix`, before a token that may stand behind a guard.
fn read_test<'a, F: Fn(&[Terminal], Option<usize>) -> Result<Read<'_, OperandTree>, Fault>>(
    alloc: Global,
    tokens: &'a [Terminal],
    limit: Option<usize>,
    operand: &F,
) -> Result<Read<'a, InfixTree>, Fault>
    requires may { (here : _) (l : _) → length here.now ≤ length tokens.now → F.pre operand.now here l }
    requires says { (here : _) (l : _) (r : _) → F.post operand.now here l r → Answers (sort_of operands l) here.now r }
    ensures answers { Answers (sort_of tests limit) tokens.now result }
    ensures before_follow { IfOk result (λ read. begins past read.rest.now ≡ false) }
{
    let chain = read_infix(alloc, tokens, limit, operand)?;
    if goes_past(chain.rest) {
        return Err(Fault::At(chain.rest.len()));
    }
    Ok(chain)
}

/// The guard that a pattern and an expression behind `<-` are.
fn bound(bind: Read<'_, (PatTree, InfixTree)>) -> Read<'_, GuardTree>
    ensures { (limit : Option ℕ) (ts : _) → Took binds limit ts bind.entry.tree bind.entry.rest.now bind.entry.depth → Took guards limit ts result.tree result.rest.now result.depth }
{
    let (pat, chain) = bind.tree;
    Read {
        tree: GuardTree::Bind(pat, chain),
        rest: bind.rest,
        depth: bind.depth,
    }
}

/// A guard without `<-`, where no pattern with `<-` stands; that was refused with so many tokens left.
fn read_other<'a, F: Fn(&[Terminal], Option<usize>) -> Result<Read<'_, OperandTree>, Fault>>(
    alloc: Global,
    tokens: &'a [Terminal],
    limit: Option<usize>,
    operand: &F,
    left: usize,
) -> Result<Read<'a, GuardTree>, Fault>
    requires refused { Rejects (within binds limit) tokens.now left }
    requires may { (here : _) (l : _) → length here.now ≤ length tokens.now → F.pre operand.now here l }
    requires says { (here : _) (l : _) (r : _) → F.post operand.now here l r → Answers (sort_of operands l) here.now r }
    ensures { Answers (sort_of guards limit) tokens.now result }
{
    match read_test(alloc, tokens, limit, operand) {
        Ok(test) => Ok(Read {
            tree: GuardTree::Test(test.tree),
            rest: test.rest,
            depth: test.depth,
        }),
        Err(Fault::NoMemory) => Err(Fault::NoMemory),
        Err(Fault::At(right)) => Err(Fault::At(left.min(right))),
    }
}

/// `pat "<-" infix | infix`. What begins as both is refused where the longer of them stops.
pub fn read_guard<'a, F: Fn(&[Terminal], Option<usize>) -> Result<Read<'_, OperandTree>, Fault>>(
    alloc: Global,
    tokens: &'a [Terminal],
    limit: Option<usize>,
    operand: &F,
) -> Result<Read<'a, GuardTree>, Fault>
    requires may { (here : _) (l : _) → length here.now ≤ length tokens.now → F.pre operand.now here l }
    requires says { (here : _) (l : _) (r : _) → F.post operand.now here l r → Answers (sort_of operands l) here.now r }
    ensures { Answers (sort_of guards limit) tokens.now result }
{
    match read_bind(alloc, tokens, limit, operand) {
        Ok(bind) => Ok(bound(bind)),
        Err(Fault::NoMemory) => Err(Fault::NoMemory),
        Err(Fault::At(left)) => read_other(alloc, tokens, limit, operand, left),
    }
}

/// `"," guard`
fn read_more<'a, F: Fn(&[Terminal], Option<usize>) -> Result<Read<'_, OperandTree>, Fault>>(
    alloc: Global,
    tokens: &'a [Terminal],
    limit: Option<usize>,
    count: usize,
    operand: &F,
) -> Result<Read<'a, GuardTree>, Fault>
    requires starts { begins is_comma tokens.now ≡ true }
    requires may { (here : _) (l : _) → length here.now ≤ length tokens.now → F.pre operand.now here l }
    requires says { (here : _) (l : _) (r : _) → F.post operand.now here l r → Answers (sort_of operands l) here.now r }
    ensures { Answers (item_sort (guards_chain limit) count) tokens.now result }
{
    let _ = &count;
    read_guard(alloc, after(tokens, 1), limit, operand)
}

/// `guard {"," guard}`
pub fn read_guards<'a, F: Fn(&[Terminal], Option<usize>) -> Result<Read<'_, OperandTree>, Fault>>(
    alloc: Global,
    tokens: &'a [Terminal],
    limit: Option<usize>,
    operand: &F,
) -> Result<Read<'a, (GuardTree, Items<GuardTree>)>, Fault>
    requires may { (here : _) (l : _) → length here.now ≤ length tokens.now → F.pre operand.now here l }
    requires says { (here : _) (l : _) (r : _) → F.post operand.now here l r → Answers (sort_of operands l) here.now r }
    ensures { Answers (sort_of guard_lists limit) tokens.now result }
{
    let head = read_guard(alloc, tokens, limit, operand)?;
    read_chain::<GuardParts, _>(
        alloc,
        tokens,
        limit,
        head,
        |here, count|
            requires less { count + length here.now < length tokens.now }
            requires starts { begins is_comma here.now ≡ true }
            requires may { (there : _) (l : _) → length there.now ≤ length tokens.now → F.pre operand.now there l }
            requires says { (there : _) (l : _) (r : _) → F.post operand.now there l r → Answers (sort_of operands l) there.now r }
            ensures { Answers (item_sort (guards_chain limit) count) here.now result }
        {
            let _ = &tokens;
            read_more(alloc, here, limit, count, operand)
        },
    )
}

/// Lets guards go. Where branches part, this is checked far sooner than a drop at the end of each.
fn let_go(_guards: Read<'_, (GuardTree, Items<GuardTree>)>) {}

/// The guarded expression of a right side.
fn equated<'a>(
    guards: Read<'_, (GuardTree, Items<GuardTree>)>,
    exp: Read<'a, ExpTree>,
) -> Read<'a, GdTree>
    ensures tree { result.tree ≡ make_gd (guards.entry.tree, exp.entry.tree) }
    ensures rest { result.rest.now ≡ exp.entry.rest.now }
    ensures depth { result.depth ≡ max guards.entry.depth exp.entry.depth }
{
    let (first, rest) = guards.tree;
    Read {
        tree: GdTree {
            first,
            rest,
            exp: exp.tree,
        },
        rest: exp.rest,
        depth: guards.depth.max(exp.depth),
    }
}

/// The guarded expression of a right side, where its expression was read.
fn equated_if_read<'a>(
    guards: Read<'_, (GuardTree, Items<GuardTree>)>,
    exp: Result<Read<'a, ExpTree>, Fault>,
) -> Result<Read<'a, GdTree>, Fault>
    ensures { (limit : Option ℕ) (ts next after : _) → ts ≡ Bar ∷ next → Took guard_lists limit next guards.entry.tree guards.entry.rest.now guards.entry.depth → guards.entry.rest.now ≡ Equals ∷ after → Answers (sort_of exps limit) after exp.entry → Answers (sort_of gds limit) ts result }
{
    match exp {
        Ok(exp) => Ok(equated(guards, exp)),
        Err(fault) => {
            let_go(guards);
            Err(fault)
        }
    }
}

/// `"=" exp` behind these guards.
fn read_equals_exp<'a, F: Fn(&[Terminal], Option<usize>) -> Result<Read<'_, OperandTree>, Fault>>(
    alloc: Global,
    guards: Read<'a, (GuardTree, Items<GuardTree>)>,
    limit: Option<usize>,
    operand: &F,
) -> Result<Read<'a, GdTree>, Fault>
    requires may { (here : _) (l : _) → length here.now < length guards.rest.now → F.pre operand.now here l }
    requires says { (here : _) (l : _) (r : _) → F.post operand.now here l r → Answers (sort_of operands l) here.now r }
    ensures { (ts next : _) → ts ≡ Bar ∷ next → Took guard_lists limit next guards.entry.tree guards.entry.rest.now guards.entry.depth → Answers (sort_of gds limit) ts result }
{
    let Some(next) = after_equals(guards.rest) else {
        let left = guards.rest.len();
        let_go(guards);
        return Err(Fault::At(left));
    };
    let exp = read_exp(alloc, next, limit, operand);
    equated_if_read(guards, exp)
}

/// `"|" guard {"," guard} "=" exp`
pub fn read_gd<'a, F: Fn(&[Terminal], Option<usize>) -> Result<Read<'_, OperandTree>, Fault>>(
    alloc: Global,
    tokens: &'a [Terminal],
    limit: Option<usize>,
    operand: &F,
) -> Result<Read<'a, GdTree>, Fault>
    requires starts { begins is_bar tokens.now ≡ true }
    requires may { (here : _) (l : _) → length here.now < length tokens.now → F.pre operand.now here l }
    requires says { (here : _) (l : _) (r : _) → F.post operand.now here l r → Answers (sort_of operands l) here.now r }
    ensures { Answers (sort_of gds limit) tokens.now result }
{
    let guards = read_guards(alloc, after(tokens, 1), limit, operand)?;
    read_equals_exp(alloc, guards, limit, operand)
}

/// Whether the last of these guards ends in no type, which would take an arrow behind it.
fn fit(first: &GuardTree, rest: &[GuardTree]) -> bool
    ensures { result ≡ guards_fit (first.now, rest.now) }
{
    match rest.last() {
        Some(guard) => !ends_in_type(guard),
        None => !ends_in_type(first),
    }
}

/// What stands after a `->` behind these guards, if they may stand before one.
fn after_fitting_arrow<'a>(
    guards: &(GuardTree, Items<GuardTree>),
    tokens: &'a [Terminal],
) -> Option<&'a [Terminal]>
    ensures { MatchOption result (guards_fit guards.now ≡ true → begins is_arrow tokens.now ≡ false) (λ rest. (tokens.now ≡ Arrow ∷ rest.now) × (guards_fit guards.now ≡ true)) }
{
    if fit(&guards.0, guards.1.as_slice()) {
        after_arrow(tokens)
    } else {
        None
    }
}

/// The guarded expression of an alternative.
fn arrowed<'a>(
    guards: Read<'_, (GuardTree, Items<GuardTree>)>,
    exp: Read<'a, ExpTree>,
) -> Read<'a, GdaTree>
    ensures tree { result.tree ≡ make_gda (guards.entry.tree, exp.entry.tree) }
    ensures rest { result.rest.now ≡ exp.entry.rest.now }
    ensures depth { result.depth ≡ max guards.entry.depth exp.entry.depth }
{
    let (first, rest) = guards.tree;
    Read {
        tree: GdaTree {
            first,
            rest,
            exp: exp.tree,
        },
        rest: exp.rest,
        depth: guards.depth.max(exp.depth),
    }
}

/// The guarded expression of an alternative, where its expression was read.
fn arrowed_if_read<'a>(
    guards: Read<'_, (GuardTree, Items<GuardTree>)>,
    exp: Result<Read<'a, ExpTree>, Fault>,
) -> Result<Read<'a, GdaTree>, Fault>
    ensures { (limit : Option ℕ) (ts next after : _) → ts ≡ Bar ∷ next → Took guard_lists limit next guards.entry.tree guards.entry.rest.now guards.entry.depth → guards.entry.rest.now ≡ Arrow ∷ after → guards_fit guards.entry.tree ≡ true → Answers (sort_of exps limit) after exp.entry → Answers (sort_of gdas limit) ts result }
{
    match exp {
        Ok(exp) => Ok(arrowed(guards, exp)),
        Err(fault) => {
            let_go(guards);
            Err(fault)
        }
    }
}

/// `"->" exp` behind these guards.
fn read_arrow_exp<'a, F: Fn(&[Terminal], Option<usize>) -> Result<Read<'_, OperandTree>, Fault>>(
    alloc: Global,
    guards: Read<'a, (GuardTree, Items<GuardTree>)>,
    limit: Option<usize>,
    operand: &F,
) -> Result<Read<'a, GdaTree>, Fault>
    requires may { (here : _) (l : _) → length here.now < length guards.rest.now → F.pre operand.now here l }
    requires says { (here : _) (l : _) (r : _) → F.post operand.now here l r → Answers (sort_of operands l) here.now r }
    ensures { (ts next : _) → ts ≡ Bar ∷ next → Took guard_lists limit next guards.entry.tree guards.entry.rest.now guards.entry.depth → Answers (sort_of gdas limit) ts result }
{
    let Some(next) = after_fitting_arrow(&guards.tree, guards.rest) else {
        let left = guards.rest.len();
        let_go(guards);
        return Err(Fault::At(left));
    };
    let exp = read_exp(alloc, next, limit, operand);
    arrowed_if_read(guards, exp)
}

/// `"|" guard {"," guard} "->" exp`
pub fn read_gda<'a, F: Fn(&[Terminal], Option<usize>) -> Result<Read<'_, OperandTree>, Fault>>(
    alloc: Global,
    tokens: &'a [Terminal],
    limit: Option<usize>,
    operand: &F,
) -> Result<Read<'a, GdaTree>, Fault>
    requires starts { begins is_bar tokens.now ≡ true }
    requires may { (here : _) (l : _) → length here.now < length tokens.now → F.pre operand.now here l }
    requires says { (here : _) (l : _) (r : _) → F.post operand.now here l r → Answers (sort_of operands l) here.now r }
    ensures { Answers (sort_of gdas limit) tokens.now result }
{
    let guards = read_guards(alloc, after(tokens, 1), limit, operand)?;
    read_arrow_exp(alloc, guards, limit, operand)
}
