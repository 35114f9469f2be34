//! Readers of patterns (Haskell 2010 Report, section 3.17.1).
ghost use Rattle.std.specs.Prelude.{◌↔◌, IsTrue, max, map, ◌≡◌, ◌<◌, ◌+◌, ◌^◌, ◌∷◌, ◌++◌, ℕ, Option, None, true, length};
ghost use Rattle.hs_forms.specs.Reading.{begins};
ghost use Rattle.hs_forms.specs.Limits.{Within, deepest};
ghost use Rattle.hs_tokens.specs.Terminals.{is_comma, starts_qconop};
ghost use Rattle.hs_trees.specs.Patterns.{var_tokens, named_con, opens_pat, depth_of_apats, depth_of_pat, depth_of_pats, apat_sort, apats_sort, lpat_sort, pat_sort, pats_sort};
ghost use Rattle.hs_tokens.specs.declared.terminal.Terminal.TheVariants.{LeftParen, LeftBracket, Tilde};
ghost use Rattle.hs_trees.proofs.PatternChainLemmas.{apats_chain, pat_chain, pats_chain};
ghost use Rattle.hs_readers.specs.Answers.{Answers, item_sort};
ghost use Rattle.hs_readers.specs.declared.limit.PartsLimit.{PartsLimit};

use crate::chain::{Chained, read_chain};
use crate::leaf::{after, after_right_bracket, after_right_paren, begins_comma, begins_tuple_name};
use crate::limit::{PartsLimit, allows, lower};
use crate::pattern_leaf::{
    after_at, after_integer, after_minus, begins_apat, begins_qconop, starts_pat,
};
use crate::qconop::read_qconop;
use crate::read::Read;
use crate::tuple_name::read_tuple_name;
use bp_base::Name;
use hs_forms::Fault;
use hs_tokens::Terminal;
use hs_trees::{APatTree, GConTree, LPatTree, LiteralTree, OpLPat, PatTree, VarTree};
use sqlite_items::{Boxed, Items};
use std::alloc::Global;

impl Chained for PatTree {
    type Tree = PatTree;

    type Head = LPatTree;

    type Item = OpLPat;

    type Limit = Option<usize>;

    ghost chain = { pat_chain };

    ghost depth = { depth_of_pat };

    fn begins_item(tokens: &[Terminal]) -> bool {
        begins_qconop(tokens)
    }

    fn has_room(limit: Option<usize>, deep: usize, _head: &LPatTree, items: &Items<OpLPat>) -> bool
        requires { deep + length items.now + 1 < 2 ^ 64 }
        ensures { deep ≡ max ((pat_chain limit).head_depth _head.now) (deepest (map (pat_chain limit).item_depth items.now)) → (IsTrue result ↔ (pat_chain limit).Room _head.now items.now) }
    {
        allows(limit, deep + (items.len() + 1))
    }

    fn make(head: LPatTree, items: Items<OpLPat>) -> PatTree
        ensures { (limit : Option ℕ) → result ≡ (pat_chain limit).make head items }
    {
        PatTree {
            first: head,
            rest: items,
        }
    }

    fn total(deep: usize, count: usize) -> usize {
        deep + count
    }
}

impl Chained for (APatTree, Items<APatTree>) {
    type Tree = (APatTree, Items<APatTree>);

    type Head = APatTree;

    type Item = APatTree;

    type Limit = Option<usize>;

    ghost chain = { apats_chain };

    ghost depth = { depth_of_apats };

    fn begins_item(tokens: &[Terminal]) -> bool {
        begins_apat(tokens)
    }

    fn has_room(
        _limit: Option<usize>,
        _deep: usize,
        _head: &APatTree,
        _items: &Items<APatTree>,
    ) -> bool {
        true
    }

    fn make(head: APatTree, items: Items<APatTree>) -> (APatTree, Items<APatTree>)
        ensures { (limit : Option ℕ) → result ≡ (apats_chain limit).make head items }
    {
        (head, items)
    }

    fn total(deep: usize, _count: usize) -> usize {
        deep
    }
}

impl Chained for (PatTree, Items<PatTree>) {
    type Tree = (PatTree, Items<PatTree>);

    type Head = PatTree;

    type Item = PatTree;

    type Limit = PartsLimit;

    ghost chain = { λ limit. pats_chain limit.most limit.depth };

    ghost depth = { depth_of_pats };

    fn begins_item(tokens: &[Terminal]) -> bool {
        begins_comma(tokens)
    }

    fn has_room(limit: PartsLimit, _deep: usize, _head: &PatTree, items: &Items<PatTree>) -> bool {
        allows(limit.most, items.len() + 1)
    }

    fn make(head: PatTree, items: Items<PatTree>) -> (PatTree, Items<PatTree>)
        ensures { (limit : PartsLimit) → result ≡ (pats_chain limit.most limit.depth).make head items }
    {
        (head, items)
    }

    fn total(deep: usize, _count: usize) -> usize {
        deep
    }
}

/// `lpat {qconop lpat}`
#[cycle(patterns)]
pub fn read_pat<'a>(
    alloc: Global,
    tokens: &'a [Terminal],
    limit: Option<usize>,
) -> Result<Read<'a, PatTree>, Fault>
    ensures { Answers (pat_sort limit) tokens.now result }
{
    let head = read_lpat(alloc, tokens, limit)?;
    read_chain::<PatTree, _>(
        alloc,
        tokens,
        limit,
        head,
        |here, count|
            requires few { count + 1 < 2 ^ 64 }
            requires less { count + length here.now < length tokens.now }
            ensures { Answers (item_sort (pat_chain limit) count) here.now result }
        {
            let _ = &tokens;
            read_operand(alloc, here, limit, count)
        },
    )
}

/// `qconop lpat`, behind so many others.
#[cycle(patterns)]
fn read_operand<'a>(
    alloc: Global,
    tokens: &'a [Terminal],
    limit: Option<usize>,
    count: usize,
) -> Result<Read<'a, OpLPat>, Fault>
    requires { count + 1 < 2 ^ 64 }
    ensures { Answers (item_sort (pat_chain limit) count) tokens.now result }
{
    let op = read_qconop(alloc, tokens)?;
    let pat = read_lpat(alloc, op.rest, lower(limit, count + 1))?;
    let tree = OpLPat {
        op: op.tree,
        pat: pat.tree,
    };
    Ok(Read {
        tree,
        rest: pat.rest,
        depth: pat.depth,
    })
}

/// `"-" integer | gcon apat {apat} | apat`
#[cycle(patterns)]
pub fn read_lpat<'a>(
    alloc: Global,
    tokens: &'a [Terminal],
    limit: Option<usize>,
) -> Result<Read<'a, LPatTree>, Fault>
    ensures { Answers (lpat_sort limit) tokens.now result }
{
    if let Some(next) = after_minus(tokens) {
        return match after_integer(next) {
            Some((text, rest)) => {
                let tree = LPatTree::Negative(text.copied(alloc)?);
                Ok(Read {
                    tree,
                    rest,
                    depth: 0,
                })
            }
            None => Err(Fault::At(next.len())),
        };
    }
    let Read {
        tree: first,
        rest,
        depth,
    } = read_apat(alloc, tokens, limit)?;
    match first {
        APatTree::Con(con) => {
            if !begins_apat(rest) {
                return Ok(Read {
                    tree: LPatTree::APat(APatTree::Con(con)),
                    rest,
                    depth,
                });
            }
            let args = read_apats(alloc, rest, limit)?;
            let (head, more) = args.tree;
            let tree = LPatTree::Apply(con, head, more);
            Ok(Read {
                tree,
                rest: args.rest,
                depth: args.depth,
            })
        }
        other => Ok(Read {
            tree: LPatTree::APat(other),
            rest,
            depth,
        }),
    }
}

/// `apat {apat}`
#[cycle(patterns)]
pub fn read_apats<'a>(
    alloc: Global,
    tokens: &'a [Terminal],
    limit: Option<usize>,
) -> Result<Read<'a, (APatTree, Items<APatTree>)>, Fault>
    ensures { Answers (apats_sort limit) tokens.now result }
{
    let head = read_apat(alloc, tokens, limit)?;
    read_chain::<(APatTree, Items<APatTree>), _>(
        alloc,
        tokens,
        limit,
        head,
        |here, count|
            requires less { count + length here.now < length tokens.now }
            ensures { Answers (item_sort (apats_chain limit) count) here.now result }
        {
            let _ = &tokens;
            let _ = &count;
            read_apat(alloc, here, limit)
        },
    )
}

/// An `apat`: a pattern that needs no brackets as an argument.
#[cycle(patterns)]
pub fn read_apat<'a>(
    alloc: Global,
    tokens: &'a [Terminal],
    limit: Option<usize>,
) -> Result<Read<'a, APatTree>, Fault>
    ensures { Answers (apat_sort limit) tokens.now result }
{
    let Some((first, rest)) = tokens.split_first() else {
        return Err(Fault::At(0));
    };
    match first {
        Terminal::Var(name) => {
            let name = VarTree::Id(Name::from_bytes(alloc, name.as_bytes())?);
            read_as(alloc, name, rest, limit)
        }
        Terminal::Con(name) => {
            let con = GConTree::Con(Name::from_bytes(alloc, name.as_bytes())?);
            Ok(Read {
                tree: APatTree::Con(con),
                rest,
                depth: 0,
            })
        }
        Terminal::Underscore => Ok(Read {
            tree: APatTree::Wild,
            rest,
            depth: 0,
        }),
        Terminal::Integer(text) => {
            let literal = LiteralTree::Integer(text.copied(alloc)?);
            Ok(Read {
                tree: APatTree::Literal(literal),
                rest,
                depth: 0,
            })
        }
        Terminal::Char(text) => {
            let literal = LiteralTree::Char(text.copied(alloc)?);
            Ok(Read {
                tree: APatTree::Literal(literal),
                rest,
                depth: 0,
            })
        }
        Terminal::Text(text) => {
            let literal = LiteralTree::Text(text.copied(alloc)?);
            Ok(Read {
                tree: APatTree::Literal(literal),
                rest,
                depth: 0,
            })
        }
        Terminal::LeftParen => read_paren(alloc, rest, limit),
        Terminal::LeftBracket => read_bracket(alloc, rest, limit),
        Terminal::Tilde => read_lazy(alloc, rest, limit),
        _ => Err(Fault::At(tokens.len())),
    }
}

/// An `apat` after its name: the name alone, or a pattern that it names.
#[cycle(patterns)]
fn read_as<'a>(
    alloc: Global,
    name: VarTree,
    tokens: &'a [Terminal],
    limit: Option<usize>,
) -> Result<Read<'a, APatTree>, Fault>
    ensures { Answers (apat_sort limit) (var_tokens name ++ tokens.now) result }
{
    let Some(next) = after_at(tokens) else {
        return Ok(Read {
            tree: APatTree::Var(name),
            rest: tokens,
            depth: 0,
        });
    };
    if !allows(limit, 1) {
        return Err(Fault::At(tokens.len()));
    }
    let part = read_apat(alloc, next, lower(limit, 1))?;
    let tree = Boxed::new(alloc, part.tree)?;
    Ok(Read {
        tree: APatTree::As(name, tree),
        rest: part.rest,
        depth: part.depth + 1,
    })
}

/// The constructor that the name of the unit or of a tuple is.
fn named_con(commas: usize) -> GConTree
    ensures { result ≡ named_con commas }
{
    if commas == 0 {
        GConTree::Unit
    } else {
        GConTree::Tuple(commas)
    }
}

/// An `apat` after its `(`.
#[cycle(patterns)]
fn read_paren<'a>(
    alloc: Global,
    tokens: &'a [Terminal],
    limit: Option<usize>,
) -> Result<Read<'a, APatTree>, Fault>
    ensures { Answers (apat_sort limit) (LeftParen ∷ tokens.now) result }
{
    if begins_tuple_name(tokens) {
        let name = read_tuple_name(tokens)?;
        let tree = APatTree::Con(named_con(name.tree));
        return Ok(Read {
            tree,
            rest: name.rest,
            depth: name.depth,
        });
    }
    let Some((first, next)) = tokens.split_first() else {
        return Err(Fault::At(0));
    };
    match first {
        Terminal::ConSym(name) => match after_right_paren(next) {
            Some(rest) => {
                let con = GConTree::Sym(Name::from_bytes(alloc, name.as_bytes())?);
                Ok(Read {
                    tree: APatTree::Con(con),
                    rest,
                    depth: 0,
                })
            }
            None => Err(Fault::At(next.len())),
        },
        Terminal::Colon => match after_right_paren(next) {
            Some(rest) => Ok(Read {
                tree: APatTree::Con(GConTree::Colon),
                rest,
                depth: 0,
            }),
            None => Err(Fault::At(next.len())),
        },
        Terminal::VarSym(name) => {
            if let Some(rest) = after_right_paren(next) {
                let name = VarTree::Sym(Name::from_bytes(alloc, name.as_bytes())?);
                return read_as(alloc, name, rest, limit);
            }
            // As far as the symbol the tokens may be a name, so want of depth shows behind it.
            if !starts_pat(tokens) || !allows(limit, 1) {
                return Err(Fault::At(next.len()));
            }
            read_inside(alloc, tokens, limit)
        }
        _ => {
            if !allows(limit, 1) {
                return Err(Fault::At(tokens.len()));
            }
            read_inside(alloc, tokens, limit)
        }
    }
}

/// A pattern in round brackets or a tuple, after its `(`.
#[cycle(patterns)]
fn read_inside<'a>(
    alloc: Global,
    tokens: &'a [Terminal],
    limit: Option<usize>,
) -> Result<Read<'a, APatTree>, Fault>
    requires room { Within limit 1 }
    requires opens { opens_pat tokens.now ≡ true }
    ensures { Answers (apat_sort limit) (LeftParen ∷ tokens.now) result }
{
    let inner = read_pats(alloc, tokens, Some(14), lower(limit, 1))?;
    match after_right_paren(inner.rest) {
        Some(rest) => {
            let (first, more) = inner.tree;
            let first = Boxed::new(alloc, first)?;
            Ok(Read {
                tree: APatTree::Parts(first, more),
                rest,
                depth: inner.depth + 1,
            })
        }
        None => Err(Fault::At(inner.rest.len())),
    }
}

/// An `apat` after its `[`.
#[cycle(patterns)]
fn read_bracket<'a>(
    alloc: Global,
    tokens: &'a [Terminal],
    limit: Option<usize>,
) -> Result<Read<'a, APatTree>, Fault>
    ensures { Answers (apat_sort limit) (LeftBracket ∷ tokens.now) result }
{
    if let Some(rest) = after_right_bracket(tokens) {
        return Ok(Read {
            tree: APatTree::Con(GConTree::List),
            rest,
            depth: 0,
        });
    }
    if !allows(limit, 1) {
        return Err(Fault::At(tokens.len()));
    }
    let inner = read_pats(alloc, tokens, None, lower(limit, 1))?;
    match after_right_bracket(inner.rest) {
        Some(rest) => {
            let (first, more) = inner.tree;
            let first = Boxed::new(alloc, first)?;
            Ok(Read {
                tree: APatTree::List(first, more),
                rest,
                depth: inner.depth + 1,
            })
        }
        None => Err(Fault::At(inner.rest.len())),
    }
}

/// An `apat` after its `~`.
#[cycle(patterns)]
fn read_lazy<'a>(
    alloc: Global,
    tokens: &'a [Terminal],
    limit: Option<usize>,
) -> Result<Read<'a, APatTree>, Fault>
    ensures { Answers (apat_sort limit) (Tilde ∷ tokens.now) result }
{
    if !allows(limit, 1) {
        return Err(Fault::At(tokens.len() + 1));
    }
    let part = read_apat(alloc, tokens, lower(limit, 1))?;
    let tree = Boxed::new(alloc, part.tree)?;
    Ok(Read {
        tree: APatTree::Lazy(tree),
        rest: part.rest,
        depth: part.depth + 1,
    })
}

/// `pat {"," pat}`, of at most so many parts behind the first.
#[cycle(patterns)]
fn read_pats<'a>(
    alloc: Global,
    tokens: &'a [Terminal],
    most: Option<usize>,
    limit: Option<usize>,
) -> Result<Read<'a, (PatTree, Items<PatTree>)>, Fault>
    ensures { Answers (pats_sort most limit) tokens.now result }
{
    let head = read_pat(alloc, tokens, limit)?;
    let parts = PartsLimit { most, depth: limit };
    read_chain::<(PatTree, Items<PatTree>), _>(
        alloc,
        tokens,
        parts,
        head,
        |here, count|
            requires less { count + length here.now < length tokens.now }
            requires starts { begins is_comma here.now ≡ true }
            ensures { Answers (item_sort (pats_chain most limit) count) here.now result }
        {
            let _ = &tokens;
            let _ = &most;
            read_part(alloc, here, limit, count)
        },
    )
}

/// `"," pat`, behind so many others.
#[cycle(patterns)]
fn read_part<'a>(
    alloc: Global,
    tokens: &'a [Terminal],
    limit: Option<usize>,
    count: usize,
) -> Result<Read<'a, PatTree>, Fault>
    requires { begins is_comma tokens.now ≡ true }
    ensures { Answers (item_sort (pats_chain None limit) count) tokens.now result }
{
    read_pat(alloc, after(tokens, 1), limit)
}
