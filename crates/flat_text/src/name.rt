//! Names in the flat text.
ghost use Rattle.std.specs.Prelude.{◌≡◌, ◌++◌, OnOk, false, not};
ghost use Rattle.flat_text.specs.Names.{first_form, form_of, flat_form, place_of, unit_place, flat_name};
ghost use Rattle.flat_text.specs.Texts.{is_symbol, open_text, close_text, tick_text, bare_text, bare_op_text, flat_text, enclosed, ticked, tuple_text, global_text_by, global_text, global_op_text};

use bp_base::{Ident, Name, OrigName};
use std::alloc::AllocError;

/// What a name is.
#[derive(Clone, Copy, Debug, PartialEq, Eq)]
pub enum NameForm {
    /// A name that begins with a small letter or `_`.
    Var,
    /// A name that begins with a capital.
    Con,
    /// A symbol that does not begin with a colon.
    VarSym,
    /// A symbol that begins with a colon.
    ConSym,
    /// `:`
    Colon,
    /// `->`
    Arrow,
    /// `[]`
    List,
    /// `()`, `(,)` and so on.
    Tuple,
}

/// What may stand somewhere without brackets: an atom alone, also an application, or anything.
#[derive(Clone, Copy, Debug, PartialEq, Eq)]
pub enum Place {
    Atom,
    Operand,
    Whole,
}

fn first_form(byte: u8) -> NameForm
    ensures { result ≡ first_form byte }
{
    match byte {
        b'A'..=b'Z' => NameForm::Con,
        b'a'..=b'z' | b'_' => NameForm::Var,
        b':' => NameForm::ConSym,
        b'(' => NameForm::Tuple,
        _ => NameForm::VarSym,
    }
}

/// What a name that stands alone is.
pub fn form_of(text: &[u8]) -> NameForm
    ensures { result ≡ form_of text.now }
{
    match text {
        b"[]" => NameForm::List,
        b"->" => NameForm::Arrow,
        b":" => NameForm::Colon,
        [] => NameForm::Var,
        [first, ..] => first_form(*first),
    }
}

/// What the last part of a flat name is.
fn flat_form(text: &[u8]) -> NameForm
    ensures { result ≡ flat_form false text.now }
{
    let mut inside = false;
    'parts: for byte in text {
        match *byte {
            b'.' if inside => inside = false,
            _ if inside => {}
            b'A'..=b'Z' => inside = true,
            _ => return first_form(*byte),
        }
    }
    NameForm::Con
}

/// Whether a name is a symbol.
fn is_symbol(form: NameForm) -> bool
    ensures { result ≡ is_symbol form }
{
    matches!(form, NameForm::VarSym | NameForm::ConSym)
}

/// An opening bracket, where brackets are wanted.
pub fn push_open(out: &mut Vec<u8>, brackets: bool) -> Result<(), AllocError>
    ensures { OnOk result (out.new.items ≡ out.old.items ++ open_text brackets) }
{
    if brackets {
        out.extend_from_slice(b"(")?;
    }
    Ok(())
}

/// A closing bracket, where brackets are wanted.
pub fn push_close(out: &mut Vec<u8>, brackets: bool) -> Result<(), AllocError>
    ensures { OnOk result (out.new.items ≡ out.old.items ++ close_text brackets) }
{
    if brackets {
        out.extend_from_slice(b")")?;
    }
    Ok(())
}

fn push_tick(out: &mut Vec<u8>, ticks: bool) -> Result<(), AllocError>
    ensures { OnOk result (out.new.items ≡ out.old.items ++ tick_text ticks) }
{
    if ticks {
        out.extend_from_slice(b"`")?;
    }
    Ok(())
}

/// A name alone, where a name stands.
#[tactic(auto, unfolding(crate::specs::Texts::bare_text))]
pub fn push_bare(out: &mut Vec<u8>, name: &Name) -> Result<(), AllocError>
    ensures { OnOk result (out.new.items ≡ out.old.items ++ bare_text name.now) }
{
    let text = name.as_bytes();
    let brackets = is_symbol(form_of(text));
    push_open(out, brackets)?;
    out.extend_from_slice(text)?;
    push_close(out, brackets)?;
    Ok(())
}

/// A name alone, where an operator stands.
#[tactic(auto, unfolding(crate::specs::Texts::bare_op_text))]
pub fn push_bare_op(out: &mut Vec<u8>, name: &Name) -> Result<(), AllocError>
    ensures { OnOk result (out.new.items ≡ out.old.items ++ bare_op_text name.now) }
{
    let text = name.as_bytes();
    let ticks = !is_symbol(form_of(text));
    push_tick(out, ticks)?;
    out.extend_from_slice(text)?;
    push_tick(out, ticks)?;
    Ok(())
}

/// A flat name, where a name stands.
#[tactic(auto, unfolding(crate::specs::Texts::flat_text))]
pub fn push_flat(out: &mut Vec<u8>, name: &Name) -> Result<(), AllocError>
    ensures { OnOk result (out.new.items ≡ out.old.items ++ flat_text name.now) }
{
    let text = name.as_bytes();
    let brackets = is_symbol(flat_form(text));
    push_open(out, brackets)?;
    out.extend_from_slice(text)?;
    push_close(out, brackets)?;
    Ok(())
}

/// The flat name of a module.
#[tactic(auto, using(crate::proofs::NameLemmas::at_module))]
fn push_place(out: &mut Vec<u8>, at: &Ident) -> Result<(), AllocError>
    ensures { OnOk result (out.new.items ≡ out.old.items ++ place_of at.now) }
{
    match at {
        Ident::Hole { name } => out.extend_from_slice(name.as_bytes()),
        Ident::Module { unit, module } => push_unit_place(out, &unit.get().component, module),
    }
}

fn push_unit_place(out: &mut Vec<u8>, component: &Name, within: &Name) -> Result<(), AllocError>
    ensures { OnOk result (out.new.items ≡ out.old.items ++ unit_place component.now within.now) }
{
    if component.as_bytes() == b"base".as_slice() {
        return out.extend_from_slice(within.as_bytes());
    }
    out.extend_from_slice(component.as_bytes())?;
    out.extend_from_slice(b".")?;
    out.extend_from_slice(within.as_bytes())?;
    Ok(())
}

fn push_flat_name(out: &mut Vec<u8>, name: &OrigName) -> Result<(), AllocError>
    ensures { OnOk result (out.new.items ≡ out.old.items ++ flat_name name.now) }
{
    push_place(out, &name.at)?;
    out.extend_from_slice(b".")?;
    out.extend_from_slice(name.occ.as_bytes())?;
    Ok(())
}

fn push_tuple_name(out: &mut Vec<u8>, occ: &Name) -> Result<(), AllocError>
    ensures { OnOk result (out.new.items ≡ out.old.items ++ tuple_text occ.now) }
{
    out.extend_from_slice(b"(")?;
    let commas = occ.as_bytes().len().saturating_sub(2);
    for _comma in 0..commas {
        out.extend_from_slice(b",")?;
    }
    out.extend_from_slice(b")")?;
    Ok(())
}

fn push_enclosed(out: &mut Vec<u8>, form: NameForm, name: &OrigName) -> Result<(), AllocError>
    ensures { OnOk result (out.new.items ≡ out.old.items ++ enclosed (is_symbol form) (flat_name name.now)) }
{
    let brackets = is_symbol(form);
    push_open(out, brackets)?;
    push_flat_name(out, name)?;
    push_close(out, brackets)?;
    Ok(())
}

fn push_ticked(out: &mut Vec<u8>, form: NameForm, name: &OrigName) -> Result<(), AllocError>
    ensures { OnOk result (out.new.items ≡ out.old.items ++ ticked (not (is_symbol form)) (flat_name name.now)) }
{
    let ticks = !is_symbol(form);
    push_tick(out, ticks)?;
    push_flat_name(out, name)?;
    push_tick(out, ticks)?;
    Ok(())
}

fn push_global_as(out: &mut Vec<u8>, form: NameForm, name: &OrigName) -> Result<(), AllocError>
    ensures { OnOk result (out.new.items ≡ out.old.items ++ global_text_by form name.now.occ (flat_name name.now)) }
{
    match form {
        NameForm::Colon => out.extend_from_slice(b"(:)"),
        NameForm::Arrow => out.extend_from_slice(b"(->)"),
        NameForm::List => out.extend_from_slice(b"[]"),
        NameForm::Tuple => push_tuple_name(out, &name.occ),
        NameForm::Var | NameForm::Con | NameForm::VarSym | NameForm::ConSym => {
            push_enclosed(out, form, name)
        }
    }
}

/// What a module declares, where a name stands.
#[tactic(auto, unfolding(crate::specs::Texts::global_text))]
pub fn push_global(out: &mut Vec<u8>, name: &OrigName) -> Result<(), AllocError>
    ensures { OnOk result (out.new.items ≡ out.old.items ++ global_text name.now) }
{
    push_global_as(out, form_of(name.occ.as_bytes()), name)
}

/// What a module declares, where an operator stands.
#[tactic(auto, unfolding(crate::specs::Texts::global_op_text))]
pub fn push_global_op(out: &mut Vec<u8>, name: &OrigName) -> Result<(), AllocError>
    ensures { OnOk result (out.new.items ≡ out.old.items ++ global_op_text name.now) }
{
    match form_of(name.occ.as_bytes()) {
        NameForm::Colon => out.extend_from_slice(b":"),
        form => push_ticked(out, form, name),
    }
}
