//! What names and variables mean while kinds are unknown.
ghost use Rattle.std.specs.Prelude.{◌≡◌, ◌+◌, ◌≤◌, ◌<◌, ◌^◌, IfOk, IfSome, IfNone, Some, None, MatchOption, length, List};
ghost use Rattle.hs_core.specs.Types.{place, count, kind_term};
ghost use Rattle.kind_check.specs.Forms.{code};
ghost use Rattle.kind_check.specs.Scopes.{IsVariableForm, NameForm, IsPlace, sense_kind, IsKnown, IsUnknown, decls_of};

use bp_base::{Kind, Name, Names, OrigName, Ty, same_orig_name};
use hs_core::{ConDecls, Written};
use sqlite_items::Items;
use std::alloc::{AllocError, Global};
use type_unify::Term;

/// What a name outside the group means to kinds and to expansion.
#[derive(Debug, Drop)]
pub enum Sense {
    /// A type that is no synonym.
    TypeOf { kind: Kind },
    /// A synonym, whose parameters are the variables of its body from 0.
    SynonymOf { kind: Kind, params: u64, body: Ty },
    /// No type.
    Other,
}

/// A name outside the group, with its meaning.
#[derive(Debug, Drop)]
pub struct Known {
    pub name: OrigName,
    pub sense: Sense,
}

/// Names with their meanings; of several meanings of a name the first counts.
pub type Knowns = Items<Known>;

/// What a type declaration says: its constructors, or the type that a synonym stands for.
#[derive(Debug, Drop)]
pub enum Says {
    Fields { cons: ConDecls },
    Synonym { body: Written },
}

/// A type declaration, with its original name.
#[derive(Debug, Drop)]
pub struct GroupDecl {
    pub name: OrigName,
    pub params: Names,
    pub says: Says,
}

/// Type declarations in order.
pub type GroupDecls = Items<GroupDecl>;

/// The place of a parameter; their number where it is not there.
pub fn position(params: &[Name], name: &Name) -> usize
    ensures { result ≡ place params.now name.now }
{
    for index in 0..params.len() {
        if params[index] == *name {
            return index;
        }
    }
    params.len()
}

/// The kind of a variable: that of its parameter, and `*` where it is none.
pub fn variable(alloc: Global, params: &[Name], first: u64, name: &Name) -> Result<Term, AllocError>
    requires { first + count params.now < 2 ^ 64 }
    ensures { IfOk result (λ t. IsVariableForm first (count params.now) (place params.now name.now) (first + count params.now) t) }
{
    let at = position(params, name);
    if at < params.len() {
        Term::flex(alloc, first + at as u64)
    } else {
        Term::rigid(alloc, 0)
    }
}

// The place of a name's declaration in the group.
fn place_in_group(decls: &[GroupDecl], name: &OrigName) -> Option<usize>
    ensures { IsPlace (decls_of decls.now) name.now result }
{
    for index in 0..decls.len() {
        if same_orig_name(&decls[index].name, name) {
            return Some(index);
        }
    }
    None
}

// The kind as a type of unification.
fn term_of_kind(alloc: Global, kind: &Kind) -> Result<Term, AllocError>
    ensures { IfOk result (λ t. t ≡ code (kind_term kind.now)) }
{
    match kind {
        Kind::Star => Term::rigid(alloc, 0),
        Kind::Arrow { from, to } => {
            let from = term_of_kind(alloc, from.get())?;
            let to = term_of_kind(alloc, to.get())?;
            Term::app(from, to)
        }
    }
}

// The kind of a meaning.
fn kind_of_sense(sense: &Sense) -> Option<&Kind>
    ensures some { IfSome result (λ k. sense_kind sense.now ≡ Some (kind_term k.now)) }
    ensures none { IfNone result (sense_kind sense.now ≡ None) }
{
    match sense {
        Sense::TypeOf { kind } => Some(kind),
        Sense::SynonymOf { kind, .. } => Some(kind),
        Sense::Other => None,
    }
}

/// The first kind that is known of a name.
pub fn known_kind<'a>(known: &'a [Known], name: &OrigName) -> Option<&'a Kind>
    ensures some { IfSome result (λ k. IsKnown known.now name.now (kind_term k.now)) }
    ensures none { IfNone result (IsUnknown known.now name.now) }
{
    for index in 0..known.len() {
        if same_orig_name(&known[index].name, name) {
            return kind_of_sense(&known[index].sense);
        }
    }
    None
}

/// The kind of a name: its unknown where the group declares it, else the one that is known.
pub fn form_of(
    alloc: Global,
    known: &[Known],
    decls: &[GroupDecl],
    name: &OrigName,
) -> Result<Option<Term>, AllocError>
    ensures { IfOk result (λ r. NameForm known.now decls.now name.now r) }
{
    match place_in_group(decls, name) {
        Some(index) => Ok(Some(Term::flex(alloc, index as u64)?)),
        None => match known_kind(known, name) {
            Some(kind) => Ok(Some(term_of_kind(alloc, kind)?)),
            None => Ok(None),
        },
    }
}
