//! Written types in the flat text.
ghost use Rattle.std.specs.Prelude.{◌≡◌, ◌++◌, ◌==◌, OnOk};
ghost use Rattle.flat_text.specs.Marks.{written};
ghost use Rattle.flat_text.specs.TypeMarks.{at_atom, below_whole, is_tuple_name, head_of, applied_form, type_marks};
ghost use Rattle.flat_text.specs.TypeTexts.{head_in, arg_count, before_text, application_text};

use crate::name::{Place, push_close, push_global, push_open};
use bp_base::Name;
use hs_core::Written;
use std::alloc::AllocError;

/// What a type is an application of.
#[derive(Clone, Copy, Debug, PartialEq, Eq)]
pub enum Head {
    /// `[]`
    List,
    /// `->`
    Arrow,
    /// A tuple's name, by its number of commas.
    Tuple(usize),
    Other,
}

/// How an application is written.
#[derive(Clone, Copy, Debug, PartialEq, Eq)]
pub enum Applied {
    /// `[t]`
    List,
    /// `t -> t`
    Arrow,
    /// `(t, t)`
    Tuple,
    /// `t t`
    Other,
}

/// Whether brackets stand around an application.
pub fn at_atom(place: Place) -> bool
    ensures { result ≡ at_atom place }
{
    matches!(place, Place::Atom)
}

/// Whether brackets stand around a type with an arrow.
fn below_whole(place: Place) -> bool
    ensures { result ≡ below_whole place }
{
    !matches!(place, Place::Whole)
}

fn is_tuple_name(occ: &[u8]) -> bool
    ensures { result ≡ is_tuple_name occ.now }
{
    matches!(occ, [b'(', b',', ..])
}

fn head_of(occ: &[u8]) -> Head
    ensures { result ≡ head_of occ.now }
{
    match occ {
        b"[]" => Head::List,
        b"->" => Head::Arrow,
        _ if is_tuple_name(occ) => Head::Tuple(occ.len().saturating_sub(2)),
        _ => Head::Other,
    }
}

/// What a type is an application of.
#[tactic(auto, using(crate::proofs::TypeLemmas::type_equations))]
fn type_head(ty: &Written) -> Head
    ensures { result ≡ head_in ty.now }
{
    match ty {
        Written::WVar { .. } => Head::Other,
        Written::WCon { name } => head_of(name.occ.as_bytes()),
        Written::WApp { fun, .. } => type_head(fun.get()),
    }
}

/// Whether a type is an application to so many arguments.
#[tactic(auto, using(crate::proofs::TypeLemmas::type_equations))]
fn has_args(ty: &Written, count: usize) -> bool
    ensures { result ≡ (arg_count ty.now == count) }
{
    match ty {
        Written::WVar { .. } | Written::WCon { .. } => count == 0,
        Written::WApp { fun, .. } => count > 0 && has_args(fun.get(), count - 1),
    }
}

/// How this type, applied to one more argument, is written.
fn applied_form(fun: &Written) -> Applied
    ensures { result ≡ applied_form (head_in fun.now) (arg_count fun.now) }
{
    match type_head(fun) {
        Head::List if has_args(fun, 0) => Applied::List,
        Head::Arrow if has_args(fun, 1) => Applied::Arrow,
        Head::Tuple(commas) if has_args(fun, commas) => Applied::Tuple,
        _ => Applied::Other,
    }
}

/// A type at a place.
#[cycle(types)]
#[tactic(auto, using(crate::proofs::TypeLemmas::type_texts, std::proofs::lemmas::Grind::common_steps))]
pub fn push_type(out: &mut Vec<u8>, ty: &Written, place: Place) -> Result<(), AllocError>
    ensures { OnOk result (out.new.items ≡ out.old.items ++ written (type_marks ty.now place)) }
{
    match ty {
        Written::WVar { name } => push_var(out, name),
        Written::WCon { name } => push_global(out, name),
        Written::WApp { fun, arg } => match applied_form(fun.get()) {
            Applied::List => {
                out.extend_from_slice(b"[")?;
                push_type(out, arg.get(), Place::Whole)?;
                out.extend_from_slice(b"]")?;
                Ok(())
            }
            Applied::Arrow => {
                push_open(out, below_whole(place))?;
                push_before(out, fun.get(), Place::Operand, b" -> ")?;
                push_type(out, arg.get(), Place::Whole)?;
                push_close(out, below_whole(place))?;
                Ok(())
            }
            Applied::Tuple => {
                out.extend_from_slice(b"(")?;
                push_before(out, fun.get(), Place::Whole, b", ")?;
                push_type(out, arg.get(), Place::Whole)?;
                out.extend_from_slice(b")")?;
                Ok(())
            }
            Applied::Other => {
                push_open(out, at_atom(place))?;
                push_application(out, fun.get())?;
                out.extend_from_slice(b" ")?;
                push_type(out, arg.get(), Place::Atom)?;
                push_close(out, at_atom(place))?;
                Ok(())
            }
        },
    }
}

fn push_var(out: &mut Vec<u8>, name: &Name) -> Result<(), AllocError>
    ensures { OnOk result (out.new.items ≡ out.old.items ++ name.now) }
{
    out.extend_from_slice(name.as_bytes())
}

/// The arguments of a type, each with what stands behind it.
#[cycle(types)]
#[tactic(auto, using(crate::proofs::TypeLemmas::type_texts, std::proofs::lemmas::Grind::common_steps))]
fn push_before(
    out: &mut Vec<u8>,
    ty: &Written,
    place: Place,
    behind: &[u8],
) -> Result<(), AllocError>
    ensures { OnOk result (out.new.items ≡ out.old.items ++ before_text ty.now place behind.now) }
{
    match ty {
        Written::WVar { .. } | Written::WCon { .. } => Ok(()),
        Written::WApp { fun, arg } => {
            push_before(out, fun.get(), place, behind)?;
            push_type(out, arg.get(), place)?;
            out.extend_from_slice(behind)?;
            Ok(())
        }
    }
}

/// A type as an application.
#[cycle(types)]
#[tactic(auto, using(crate::proofs::TypeLemmas::type_texts, std::proofs::lemmas::Grind::common_steps))]
fn push_application(out: &mut Vec<u8>, ty: &Written) -> Result<(), AllocError>
    ensures { OnOk result (out.new.items ≡ out.old.items ++ application_text ty.now) }
{
    match ty {
        Written::WVar { name } => push_var(out, name),
        Written::WCon { name } => push_global(out, name),
        Written::WApp { fun, arg } => {
            push_application(out, fun.get())?;
            out.extend_from_slice(b" ")?;
            push_type(out, arg.get(), Place::Atom)?;
            Ok(())
        }
    }
}
