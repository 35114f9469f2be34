//! Declarations without expressions in the flat text (Haskell 2010 Report, sections 4.2 and 4.4).
ghost use Rattle.std.specs.Prelude.{◌≡◌, ◌++◌, OnOk};
ghost use Rattle.flat_text.specs.Marks.{written};
ghost use Rattle.flat_text.specs.ExpressionMarks.{field_marks, con_decl_marks, data_marks, synonym_marks, type_sig_marks, fixity_marks};
ghost use Rattle.flat_text.specs.ExpressionTexts.{names_text, fields_text, cons_text, strict_text, data_text, fixity_text};

use crate::literal::push_decimal;
use crate::name::{Place, push_bare, push_bare_op};
use crate::types::push_type;
use bp_base::{Assoc, Fixity, Name};
use hs_core::{ConDecl, FieldDecl, Written};
use std::alloc::{AllocError, Global};

/// Names, the first with `lead` before it, each further one with `by`.
#[tactic(auto, unfolding(crate::specs::ExpressionTexts::names_text))]
pub fn push_names(
    out: &mut Vec<u8>,
    names: &[Name],
    lead: &[u8],
    by: &[u8],
) -> Result<(), AllocError>
    ensures { OnOk result (out.new.items ≡ out.old.items ++ names_text lead.now by.now names.now) }
{
    let mut before = lead;
    for each in names {
        out.extend_from_slice(before)?;
        push_bare(out, each)?;
        before = by;
    }
    Ok(())
}

fn push_strict(out: &mut Vec<u8>, strict: bool) -> Result<(), AllocError>
    ensures { OnOk result (out.new.items ≡ out.old.items ++ strict_text strict) }
{
    if strict {
        out.extend_from_slice(b"!")?;
    }
    Ok(())
}

/// A field: an atomic type.
#[tactic(auto, using(crate::proofs::DeclarationLemmas::declaration_texts, std::proofs::lemmas::Grind::common_steps))]
fn push_field(out: &mut Vec<u8>, field: &FieldDecl) -> Result<(), AllocError>
    ensures { OnOk result (out.new.items ≡ out.old.items ++ written (field_marks field.now)) }
{
    push_strict(out, field.strict)?;
    push_type(out, &field.ty, Place::Atom)?;
    Ok(())
}

#[tactic(auto, unfolding(crate::specs::ExpressionTexts::fields_text))]
fn push_fields(out: &mut Vec<u8>, fields: &[FieldDecl]) -> Result<(), AllocError>
    ensures { OnOk result (out.new.items ≡ out.old.items ++ fields_text fields.now) }
{
    for each in fields {
        out.extend_from_slice(b" ")?;
        push_field(out, each)?;
    }
    Ok(())
}

/// A constructor with its fields.
#[tactic(auto, using(crate::proofs::DeclarationLemmas::declaration_texts, std::proofs::lemmas::Grind::common_steps))]
fn push_con(out: &mut Vec<u8>, con: &ConDecl) -> Result<(), AllocError>
    ensures { OnOk result (out.new.items ≡ out.old.items ++ written (con_decl_marks con.now)) }
{
    push_bare(out, &con.occ)?;
    push_fields(out, con.fields.as_slice())?;
    Ok(())
}

#[tactic(auto, unfolding(crate::specs::ExpressionTexts::cons_text))]
fn push_cons(out: &mut Vec<u8>, cons: &[ConDecl]) -> Result<(), AllocError>
    ensures { OnOk result (out.new.items ≡ out.old.items ++ cons_text cons.now) }
{
    let mut before = b" = ".as_slice();
    for each in cons {
        out.extend_from_slice(before)?;
        push_con(out, each)?;
        before = b" | ".as_slice();
    }
    Ok(())
}

fn push_data_word(out: &mut Vec<u8>, is_new: bool) -> Result<(), AllocError>
    ensures { OnOk result (out.new.items ≡ out.old.items ++ data_text is_new) }
{
    if is_new {
        out.extend_from_slice(b"newtype")
    } else {
        out.extend_from_slice(b"data")
    }
}

/// `data T a b = C t t | D`
#[tactic(auto, using(crate::proofs::DeclarationLemmas::declaration_texts, std::proofs::lemmas::Grind::common_steps))]
pub fn push_data(
    out: &mut Vec<u8>,
    occ: &Name,
    is_new: bool,
    params: &[Name],
    cons: &[ConDecl],
) -> Result<(), AllocError>
    ensures { OnOk result (out.new.items ≡ out.old.items ++ written (data_marks occ.now is_new params.now cons.now)) }
{
    push_data_word(out, is_new)?;
    out.extend_from_slice(b" ")?;
    push_bare(out, occ)?;
    push_names(out, params, b" ", b" ")?;
    push_cons(out, cons)?;
    Ok(())
}

/// `type T a = t`
#[tactic(auto, using(crate::proofs::DeclarationLemmas::declaration_texts, std::proofs::lemmas::Grind::common_steps))]
pub fn push_synonym(
    out: &mut Vec<u8>,
    occ: &Name,
    params: &[Name],
    body: &Written,
) -> Result<(), AllocError>
    ensures { OnOk result (out.new.items ≡ out.old.items ++ written (synonym_marks occ.now params.now body.now)) }
{
    out.extend_from_slice(b"type ")?;
    push_bare(out, occ)?;
    push_names(out, params, b" ", b" ")?;
    out.extend_from_slice(b" = ")?;
    push_type(out, body, Place::Whole)?;
    Ok(())
}

/// `x :: t`
#[tactic(auto, using(crate::proofs::DeclarationLemmas::declaration_texts, std::proofs::lemmas::Grind::common_steps))]
pub fn push_type_sig(out: &mut Vec<u8>, occ: &Name, ty: &Written) -> Result<(), AllocError>
    ensures { OnOk result (out.new.items ≡ out.old.items ++ written (type_sig_marks occ.now ty.now)) }
{
    push_bare(out, occ)?;
    out.extend_from_slice(b" :: ")?;
    push_type(out, ty, Place::Whole)?;
    Ok(())
}

fn push_fixity_word(out: &mut Vec<u8>, assoc: Assoc) -> Result<(), AllocError>
    ensures { OnOk result (out.new.items ≡ out.old.items ++ fixity_text assoc) }
{
    match assoc {
        Assoc::Left => out.extend_from_slice(b"infixl"),
        Assoc::Right => out.extend_from_slice(b"infixr"),
        Assoc::Neither => out.extend_from_slice(b"infix"),
    }
}

/// `infixr 5 +++`
#[tactic(auto, using(crate::proofs::DeclarationLemmas::declaration_texts, std::proofs::lemmas::Grind::common_steps))]
pub fn push_fixity(
    alloc: Global,
    out: &mut Vec<u8>,
    occ: &Name,
    fixity: Fixity,
) -> Result<(), AllocError>
    ensures { OnOk result (out.new.items ≡ out.old.items ++ written (fixity_marks occ.now fixity)) }
{
    push_fixity_word(out, fixity.assoc)?;
    out.extend_from_slice(b" ")?;
    push_decimal(alloc, out, u64::from(fixity.level))?;
    out.extend_from_slice(b" ")?;
    push_bare_op(out, occ)?;
    Ok(())
}
