//! Types with a syntax of their own, and those of literals, with unknowns.
ghost use Rattle.std.specs.Prelude.{◌≡◌, map, IfOk, codes};
ghost use Rattle.hs_core.specs.Types.{star, count};
ghost use Rattle.type_terms.specs.Terms.{var};
ghost use Rattle.type_equations.specs.Coded.{applied_at};
ghost use Rattle.type_equations.specs.Syntax.{base_name, plain_name, plain_integer, plain_character, plain_boolean, plain_list, plain_function, plain_functions, plain_applied, plain_tuple, unknowns};

use bp_base::{Kind, Name, OrigName, Space, Special, base_prelude, special_name};
use std::alloc::{AllocError, Global};
use type_unify::Term;

// A name of a type. Equality of types doesn't ask for the kind that it carries.
fn named(alloc: Global, name: OrigName) -> Result<Term, AllocError>
    ensures { IfOk result (λ t. t ≡ plain_name name) }
{
    Term::con(alloc, name, Kind::Star)
}

// A type of the built-in module by its text.
fn base_type(alloc: Global, occ: &[u8]) -> Result<Term, AllocError>
    ensures { IfOk result (λ t. t ≡ plain_name (base_name occ.now)) }
{
    let name = OrigName {
        at: base_prelude(alloc)?,
        space: Space::Types,
        occ: Name::from_bytes(alloc, occ)?,
    };
    named(alloc, name)
}

/// `Int`
pub fn integer(alloc: Global) -> Result<Term, AllocError>
    ensures { IfOk result (λ t. t ≡ plain_integer) }
{
    base_type(alloc, b"Int")
}

/// `Char`
pub fn character(alloc: Global) -> Result<Term, AllocError>
    ensures { IfOk result (λ t. t ≡ plain_character) }
{
    base_type(alloc, b"Char")
}

/// `Bool`
pub fn boolean(alloc: Global) -> Result<Term, AllocError>
    ensures { IfOk result (λ t. t ≡ plain_boolean) }
{
    base_type(alloc, b"Bool")
}

/// A type applied to one of kind `*`.
pub fn applied(alloc: Global, fun: Term, arg: Term) -> Result<Term, AllocError>
    ensures { IfOk result (λ t. t ≡ applied_at star fun arg) }
{
    let at = Term::rigid(alloc, 0)?;
    let front = Term::app(at, fun)?;
    Term::app(front, arg)
}

/// `[t]`
pub fn list_of(alloc: Global, item: Term) -> Result<Term, AllocError>
    ensures { IfOk result (λ t. t ≡ plain_list item) }
{
    let list = named(alloc, special_name(alloc, Space::Types, Special::List)?)?;
    applied(alloc, list, item)
}

/// `t -> u`
pub fn function(alloc: Global, from: Term, to: Term) -> Result<Term, AllocError>
    ensures { IfOk result (λ t. t ≡ plain_function from to) }
{
    let arrow = named(alloc, special_name(alloc, Space::Types, Special::Arrow)?)?;
    let front = applied(alloc, arrow, from)?;
    applied(alloc, front, to)
}

/// A function from unknowns, in order, to a type.
pub fn functions(alloc: Global, from: &[u64], to: Term) -> Result<Term, AllocError>
    ensures { IfOk result (λ t. t ≡ plain_functions (unknowns from.now) to) }
{
    let mut all = to;
    let mut left = from.len();
    'parameters: while left > 0 {
        left -= 1;
        let parameter = Term::flex(alloc, from[left])?;
        all = function(alloc, parameter, all)?;
    }
    Ok(all)
}

/// A tuple of unknowns.
pub fn tuple_of(alloc: Global, parts: &[u64]) -> Result<Term, AllocError>
    ensures { IfOk result (λ t. t ≡ plain_tuple (unknowns parts.now)) }
{
    let special = Special::Tuple { parts: parts.len() };
    let mut all = named(alloc, special_name(alloc, Space::Types, special)?)?;
    for part in parts {
        let part = Term::flex(alloc, *part)?;
        all = applied(alloc, all, part)?;
    }
    Ok(all)
}
