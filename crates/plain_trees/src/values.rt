//! The values of a module: a type signature and a clause each.
ghost use Rattle.std.specs.Prelude.{◌≡◌, ◌∷◌, List, IfOk};
ghost use Rattle.bp_base.specs.Texts.{Text};
ghost use Rattle.plain_trees.specs.Types.{arrows_of};
ghost use Rattle.plain_trees.specs.Plain.{HasNames, id_of, typing_of, decl_typing, body_words, has_no_locals, rhs_words, defined, function_value, decl_value, place_typing, place_value, is_empty_place, goes_on, with_place, finished, values};

use crate::patterns::{id_of, names_of_pats, pat_name};
use crate::sets::set_of;
use crate::types::arrows_of;
use crate::words::exp_words;
use bp_base::{Name, Names};
use hs_modules::{DeclTree, FunLhsTree, Locals, RhsBody, RhsTree, TopDeclTree, TopSlot};
use hs_plain::{Atoms, Binding, Bindings};
use hs_trees::{TypeTree, VarTree};
use std::alloc::{AllocError, Global};
use std::collections::BTreeSet;

/// A type signature `x :: Int -> Int`.
#[derive(Debug, Drop)]
pub struct Typing {
    pub occ: Name,
    /// How many arrows stand in its type.
    pub arrows: u64,
}

/// What places made so far: their values, and perhaps a signature that waits for its clause.
#[derive(Debug, Drop)]
pub struct Progress {
    pub waiting: Option<Typing>,
    pub done: Bindings,
}

/// The signature of one name.
fn typing_of(alloc: Global, var: &VarTree, ty: &TypeTree) -> Result<Option<Typing>, AllocError>
    ensures { IfOk result (λ typing. typing ≡ typing_of (id_of var.now) (arrows_of ty.now)) }
{
    match (id_of(var), arrows_of(ty)) {
        (Some(occ), Some(arrows)) => {
            let occ = occ.copied(alloc)?;
            Ok(Some(Typing { occ, arrows }))
        }
        _ => Ok(None),
    }
}

fn decl_typing(alloc: Global, decl: &DeclTree) -> Result<Option<Typing>, AllocError>
    ensures { IfOk result (λ typing. typing ≡ decl_typing decl.now) }
{
    match decl {
        DeclTree::Signature(first, rest, ty) => {
            if rest.len() == 0 {
                typing_of(alloc, first, ty)
            } else {
                Ok(None)
            }
        }
        DeclTree::Fixity(_, _, _, _) => Ok(None),
        DeclTree::Function(_, _) => Ok(None),
        DeclTree::Pattern(_, _) => Ok(None),
    }
}

fn body_words(
    alloc: Global,
    args: &BTreeSet<Name>,
    body: &RhsBody,
) -> Result<Option<Atoms>, AllocError>
    ensures { (names : List Text) → HasNames args.now names → IfOk result (λ words. words ≡ body_words names body.now) }
{
    match body {
        RhsBody::Equals(exp) => exp_words(alloc, args, exp),
        RhsBody::GuardedEquals(_, _) => Ok(None),
    }
}

fn has_no_locals(locals: &Locals) -> bool
    ensures { result ≡ has_no_locals locals.now }
{
    match locals {
        Locals::Absent => true,
        Locals::Where(_) => false,
    }
}

/// The atoms of a right side `= exp` without `where`.
fn rhs_words(
    alloc: Global,
    args: &BTreeSet<Name>,
    rhs: &RhsTree,
) -> Result<Option<Atoms>, AllocError>
    ensures { (names : List Text) → HasNames args.now names → IfOk result (λ words. words ≡ rhs_words names rhs.now) }
{
    if has_no_locals(&rhs.locals) {
        body_words(alloc, args, &rhs.body)
    } else {
        Ok(None)
    }
}

/// The value that a clause of this name makes of a signature.
fn defined(
    alloc: Global,
    typing: Typing,
    occ: &Name,
    args: Names,
    rhs: &RhsTree,
) -> Result<Option<Binding>, AllocError>
    ensures { IfOk result (λ binding. binding ≡ defined typing occ.now args rhs.now) }
{
    if typing.occ != *occ {
        return Ok(None);
    }
    let Some(set) = set_of(alloc, args.as_slice())? else {
        return Ok(None);
    };
    let Some(atoms) = rhs_words(alloc, &set, rhs)? else {
        return Ok(None);
    };
    Ok(Some(Binding {
        occ: typing.occ,
        arrows: typing.arrows,
        args,
        atoms,
    }))
}

fn function_value(
    alloc: Global,
    typing: Typing,
    left: &FunLhsTree,
    rhs: &RhsTree,
) -> Result<Option<Binding>, AllocError>
    ensures { IfOk result (λ binding. binding ≡ function_value typing left.now rhs.now) }
{
    let FunLhsTree::Prefix(var, first, rest) = left else {
        return Ok(None);
    };
    let Some(occ) = id_of(var) else {
        return Ok(None);
    };
    let Some(args) = names_of_pats(alloc, first, rest.as_slice())? else {
        return Ok(None);
    };
    defined(alloc, typing, occ, args, rhs)
}

/// The value that a declaration makes of a signature.
fn decl_value(alloc: Global, typing: Typing, decl: &DeclTree) -> Result<Option<Binding>, AllocError>
    ensures { IfOk result (λ binding. binding ≡ decl_value typing decl.now) }
{
    match decl {
        DeclTree::Function(left, rhs) => function_value(alloc, typing, left, rhs),
        DeclTree::Pattern(pat, rhs) => match pat_name(pat) {
            Some(occ) => defined(alloc, typing, occ, Names::new(alloc), rhs),
            None => Ok(None),
        },
        DeclTree::Signature(_, _, _) => Ok(None),
        DeclTree::Fixity(_, _, _, _) => Ok(None),
    }
}

fn place_typing(alloc: Global, place: &TopSlot) -> Result<Option<Typing>, AllocError>
    ensures { IfOk result (λ typing. typing ≡ place_typing place.now) }
{
    match place {
        TopSlot::Decl(TopDeclTree::Decl(decl)) => decl_typing(alloc, decl),
        _ => Ok(None),
    }
}

fn place_value(
    alloc: Global,
    typing: Typing,
    place: &TopSlot,
) -> Result<Option<Binding>, AllocError>
    ensures { IfOk result (λ binding. binding ≡ place_value typing place.now) }
{
    match place {
        TopSlot::Decl(TopDeclTree::Decl(decl)) => decl_value(alloc, typing, decl),
        _ => Ok(None),
    }
}

fn is_empty_place(place: &TopSlot) -> bool
    ensures { result ≡ is_empty_place place.now }
{
    match place {
        TopSlot::Empty => true,
        TopSlot::Import(_) => false,
        TopSlot::Decl(_) => false,
    }
}

/// A place that is not empty, behind values.
fn goes_on(
    alloc: Global,
    waiting: Option<Typing>,
    done: Bindings,
    place: &TopSlot,
) -> Result<Option<Progress>, AllocError>
    ensures { IfOk result (λ progress. progress ≡ goes_on waiting done place.now) }
{
    let mut done = done;
    let Some(typing) = waiting else {
        return match place_typing(alloc, place)? {
            Some(typing) => Ok(Some(Progress {
                waiting: Some(typing),
                done,
            })),
            None => Ok(None),
        };
    };
    match place_value(alloc, typing, place)? {
        Some(binding) => {
            done.push(binding)?;
            Ok(Some(Progress {
                waiting: None,
                done,
            }))
        }
        None => Ok(None),
    }
}

/// One more place.
fn with_place(
    alloc: Global,
    progress: Option<Progress>,
    place: &TopSlot,
) -> Result<Option<Progress>, AllocError>
    ensures { IfOk result (λ more. more ≡ with_place progress place.now) }
{
    let Some(progress) = progress else {
        return Ok(None);
    };
    if is_empty_place(place) {
        return Ok(Some(progress));
    }
    goes_on(alloc, progress.waiting, progress.done, place)
}

/// The values, if no signature waits.
fn finished(progress: Option<Progress>) -> Option<Bindings>
    ensures { result ≡ finished progress }
{
    match progress {
        Some(
            Progress {
                waiting: None,
                done,
            },
        ) => Some(done),
        _ => None,
    }
}

/// The values of places, unless one is of another form.
pub fn values(
    alloc: Global,
    first: &TopSlot,
    rest: &[TopSlot],
) -> Result<Option<Bindings>, AllocError>
    ensures { IfOk result (λ bindings. bindings ≡ values (first.now ∷ rest.now)) }
{
    let start = Progress {
        waiting: None,
        done: Bindings::new(alloc),
    };
    let mut progress = with_place(alloc, Some(start), first)?;
    for place in rest {
        progress = with_place(alloc, progress, place)?;
    }
    Ok(finished(progress))
}
