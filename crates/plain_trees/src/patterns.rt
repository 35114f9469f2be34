//! Patterns that are names.
ghost use Rattle.std.specs.Prelude.{◌≡◌, ◌∷◌, Option, Some, None, MatchOption, IfOk};
ghost use Rattle.bp_base.specs.Texts.{Text};
ghost use Rattle.plain_trees.specs.Plain.{id_of, apat_name, lpat_name, pat_name, with_name, names_of_pats};

use bp_base::{Name, Names};
use hs_trees::{APatTree, LPatTree, PatTree, VarTree};
use std::alloc::{AllocError, Global};

/// The name that a variable is, unless it is a symbol.
pub fn id_of(var: &VarTree) -> Option<&Name>
    ensures { MatchOption result (id_of var.now ≡ None) (λ name. id_of var.now ≡ Some name.now) }
{
    match var {
        VarTree::Id(name) => Some(name),
        VarTree::Sym(_) => None,
    }
}

fn apat_name(pat: &APatTree) -> Option<&Name>
    ensures { MatchOption result (apat_name pat.now ≡ None) (λ name. apat_name pat.now ≡ Some name.now) }
{
    match pat {
        APatTree::Var(var) => id_of(var),
        APatTree::As(_, _) => None,
        APatTree::Wild => None,
        APatTree::Con(_) => None,
        APatTree::Literal(_) => None,
        APatTree::Parts(_, _) => None,
        APatTree::List(_, _) => None,
        APatTree::Lazy(_) => None,
    }
}

fn lpat_name(pat: &LPatTree) -> Option<&Name>
    ensures { MatchOption result (lpat_name pat.now ≡ None) (λ name. lpat_name pat.now ≡ Some name.now) }
{
    match pat {
        LPatTree::APat(apat) => apat_name(apat),
        LPatTree::Negative(_) => None,
        LPatTree::Apply(_, _, _) => None,
    }
}

/// The name that a pattern is.
pub fn pat_name(pat: &PatTree) -> Option<&Name>
    ensures { MatchOption result (pat_name pat.now ≡ None) (λ name. pat_name pat.now ≡ Some name.now) }
{
    if pat.rest.len() == 0 {
        lpat_name(&pat.first)
    } else {
        None
    }
}

/// Names, and the one that a pattern is.
fn with_name(
    alloc: Global,
    names: Option<Names>,
    name: Option<&Name>,
) -> Result<Option<Names>, AllocError>
    ensures { IfOk result (λ more. (told : Option Text) → MatchOption name.entry (told ≡ None) (λ n. told ≡ Some n.now) → more ≡ with_name names told) }
{
    let Some(names) = names else {
        return Ok(None);
    };
    let Some(name) = name else {
        return Ok(None);
    };
    let mut all = names;
    all.push(name.copied(alloc)?)?;
    Ok(Some(all))
}

/// The names that patterns are.
pub fn names_of_pats(
    alloc: Global,
    first: &APatTree,
    rest: &[APatTree],
) -> Result<Option<Names>, AllocError>
    ensures { IfOk result (λ names. names ≡ names_of_pats (first.now ∷ rest.now)) }
{
    let mut names = with_name(alloc, Some(Names::new(alloc)), apat_name(first))?;
    for pat in rest {
        names = with_name(alloc, names, apat_name(pat))?;
    }
    Ok(names)
}
