//! The kind of a written type.
ghost use Rattle.std.specs.Prelude.{◌≡◌, ◌+◌, ◌↔◌, ◌≤◌, [], List, IsTrue, IfOk, OnOk, IfErr, None, IfSome, IfNone, Some, IsNone};
ghost use Rattle.bp_base.specs.Lists.{is_among};
ghost use Rattle.bp_base.specs.Texts.{Text};
ghost use Rattle.hs_core.specs.Types.{count, kind_term, variables, variables_after, written_term};
ghost use Rattle.hs_core.specs.Expansion.{IsFullyApplied};
ghost use Rattle.kind_check.specs.Answers.{known_synonyms, sense_synonym, HasParams, HasKindAlone, HasNoKind, IsKindAndFull, IsTypeError};
ghost use Rattle.kind_check.specs.Scopes.{known_names};

use crate::answer::settled_kind;
use crate::group::KindEnv;
use crate::scope::{Known, Sense};
use crate::state::Failure;
use crate::walk::{fresh, walk};
use bp_base::{Kind, Name, Names, OrigName, same_orig_name};
use hs_core::Written;
use sqlite_items::Items;
use std::alloc::{AllocError, Global};
use type_unify::{Bindings, Term};

/// Why a written type is refused.
#[derive(Clone, Copy, Debug, PartialEq, Eq)]
pub enum TypeError {
    Kind,
    SynonymUse,
    NoMemory,
}

impl From<AllocError> for TypeError {
    ghost use Rattle.kind_check.specs.declared.written.TypeError.{TypeError};

    ghost from_gives = { λ _ r. r ≡ TypeError.NoMemory };

    fn from(_error: AllocError) -> Self {
        TypeError::NoMemory
    }
}

// Whether a name stands in the list.
fn is_met(names: &[Name], name: &Name) -> bool
    ensures { result ≡ is_among name.now names.now }
{
    names.iter().any(|each| *name == *each)
}

// The variables of a type go behind those that were met before.
fn meet(alloc: Global, ty: &Written, met: &mut Names) -> Result<(), AllocError>
    ensures { OnOk result (met.new ≡ variables_after met.old ty.now) }
{
    match ty {
        Written::WVar { name } => {
            if is_met(met.as_slice(), name) {
                return Ok(());
            }
            met.push(name.copied(alloc)?)
        }
        Written::WCon { .. } => Ok(()),
        Written::WApp { fun, arg } => {
            meet(alloc, fun.get(), met)?;
            meet(alloc, arg.get(), met)
        }
    }
}

/// The variables of a type in order of first occurrence.
pub fn variables_of(alloc: Global, ty: &Written) -> Result<Names, AllocError>
    ensures { IfOk result (λ names. names ≡ variables ty.now) }
{
    let mut met = Items::new(alloc);
    meet(alloc, ty, &mut met)?;
    Ok(met)
}

/// The least kind of a type with these variables; NoKind exactly where it has none.
pub fn least_kind(
    alloc: Global,
    ty: &Written,
    names: &[Name],
    known: &[Known],
) -> Result<Kind, Failure>
    ensures ok { IfOk result (λ k. HasKindAlone (known_names known.now) (written_term names.now ty.now) (count names.now) (kind_term k)) }
    ensures none { IfErr result (λ e. e ≡ Failure.NoKind → HasNoKind (known_names known.now) (written_term names.now ty.now) (count names.now)) }
{
    let mut bindings = Bindings::new(alloc);
    let none = Items::new(alloc);
    let mut next = 1;
    fresh(&mut next, names.len() as u64)?;
    let wanted = Term::flex(alloc, 0)?;
    walk(
        alloc,
        ty,
        known,
        none.as_slice(),
        names,
        1,
        &mut bindings,
        &mut next,
        wanted,
    )?;
    Ok(settled_kind(alloc, &mut bindings, 0)?)
}

// How many parameters the synonym has that a meaning is.
fn params_of_sense(sense: &Sense) -> Option<u64>
    ensures some { IfSome result (λ p. HasParams (sense_synonym sense.now) p) }
    ensures none { IfNone result (sense_synonym sense.now ≡ None) }
{
    match sense {
        Sense::SynonymOf { params, .. } => Some(*params),
        Sense::TypeOf { .. } => None,
        Sense::Other => None,
    }
}

// How many parameters the synonym has that a name is.
fn params_of(known: &[Known], name: &OrigName) -> Option<u64>
    ensures some { IfSome result (λ p. HasParams (known_synonyms known.now name.now) p) }
    ensures none { IfNone result (known_synonyms known.now name.now ≡ None) }
{
    for index in 0..known.len() {
        let entry = &known[index];
        if same_orig_name(&entry.name, name) {
            return params_of_sense(&entry.sense);
        }
    }
    None
}

/// Whether each synonym in a type that is applied to so many others has all its arguments.
pub fn is_full(known: &[Known], ty: &Written, given: u64) -> Result<bool, Failure>
    ensures ok { IfOk result (λ full. (names : List Text) → IsTrue full ↔ IsFullyApplied (known_synonyms known.now) (written_term names ty.now) given) }
    ensures err { IfErr result (λ e. e ≡ Failure.NoMemory) }
{
    match ty {
        Written::WVar { .. } => Ok(true),
        Written::WCon { name } => match params_of(known, name) {
            Some(params) => Ok(params <= given),
            None => Ok(true),
        },
        Written::WApp { fun, arg } => {
            let mut more = given;
            fresh(&mut more, 1)?;
            let front = is_full(known, fun.get(), more)?;
            let back = is_full(known, arg.get(), 0)?;
            Ok(front && back)
        }
    }
}

/// The kind of a written type: the least that it has for any kinds of its variables, in which what is undecided is `*`.
/// Kind comes exactly where it has none, and SynonymUse exactly where it has one and a synonym in it isn't fully applied
/// (Haskell 2010 Report, sections 4.1.2 and 4.2.2).
pub fn kind_of_type(alloc: Global, ty: &Written, env: &KindEnv) -> Result<Kind, TypeError>
    ensures ok { IfOk result (λ k. IsKindAndFull env.now.names ty.now (kind_term k)) }
    ensures err { IfErr result (λ e. IsTypeError env.now.names ty.now e) }
{
    let names = variables_of(alloc, ty)?;
    let known = env.names.as_slice();
    match least_kind(alloc, ty, names.as_slice(), known) {
        Ok(kind) => match is_full(known, ty, 0) {
            Ok(true) => Ok(kind),
            Ok(false) => Err(TypeError::SynonymUse),
            Err(_) => Err(TypeError::NoMemory),
        },
        Err(Failure::NoKind) => Err(TypeError::Kind),
        Err(Failure::NoMemory) => Err(TypeError::NoMemory),
    }
}
