//! Expressions, right sides and declarations in the flat text (Haskell 2010 Report, sections 3 and 4.4.3).
ghost use Rattle.std.specs.Prelude.{◌≡◌, ◌++◌, OnOk};
ghost use Rattle.flat_text.specs.Marks.{written};
ghost use Rattle.flat_text.specs.ExpressionMarks.{decl_marks, rhs_marks, guard_marks, alt_marks, guarded_marks, op_marks};
ghost use Rattle.flat_text.specs.ExpressionTexts.{exp_text, exps_text, decls_text, alts_text, guards_text, choices_text, sign_text, brace_text};

use crate::declaration::{push_data, push_fixity, push_synonym, push_type_sig};
use crate::literal::{push_char, push_decimal, push_string};
use crate::name::{
    Place, push_bare, push_bare_op, push_close, push_global, push_global_op, push_open,
};
use crate::pattern::{push_pat, push_pats};
use crate::types::{at_atom, push_type};
use hs_core::{Alt, Alts, Choice, Choices, Decl, Decls, Exp, Exps, Guard, Guards, Rhs};
use std::alloc::{AllocError, Global};

/// The sign of a right side.
#[derive(Clone, Copy, Debug, PartialEq, Eq)]
pub enum Sign {
    /// ` = `, in a declaration.
    Equals,
    /// ` -> `, in an alternative.
    Arrow,
}

fn push_sign(out: &mut Vec<u8>, sign: Sign) -> Result<(), AllocError>
    ensures { OnOk result (out.new.items ≡ out.old.items ++ sign_text sign) }
{
    match sign {
        Sign::Equals => out.extend_from_slice(b" = "),
        Sign::Arrow => out.extend_from_slice(b" -> "),
    }
}

fn push_brace(out: &mut Vec<u8>, wanted: bool) -> Result<(), AllocError>
    ensures { OnOk result (out.new.items ≡ out.old.items ++ brace_text wanted) }
{
    if wanted {
        out.extend_from_slice(b"}")?;
    }
    Ok(())
}

/// An operator that is a name; other expressions are none, and nothing is written for them.
#[tactic(auto, using(crate::proofs::ExpressionLemmas::op_texts, std::proofs::lemmas::Grind::common_steps))]
fn push_op(out: &mut Vec<u8>, op: &Exp) -> Result<(), AllocError>
    ensures { OnOk result (out.new.items ≡ out.old.items ++ written (op_marks op.now)) }
{
    match op {
        Exp::Local { name } => push_bare_op(out, name),
        Exp::Global { name } => push_global_op(out, name),
        Exp::Int { .. }
        | Exp::Chr { .. }
        | Exp::Str { .. }
        | Exp::Apply { .. }
        | Exp::Lambda { .. }
        | Exp::Let { .. }
        | Exp::If { .. }
        | Exp::Case { .. }
        | Exp::Tuple { .. }
        | Exp::List { .. }
        | Exp::RightSection { .. }
        | Exp::Annot { .. } => Ok(()),
    }
}

/// An expression at a place.
#[cycle(exp)]
#[tactic(auto, using(crate::proofs::ExpressionLemmas::expression_texts, std::proofs::lemmas::Grind::common_steps))]
pub fn push_exp(alloc: Global, out: &mut Vec<u8>, exp: &Exp, place: Place) -> Result<(), AllocError>
    ensures { OnOk result (out.new.items ≡ out.old.items ++ exp_text place exp.now) }
{
    match exp {
        Exp::Local { name } => push_bare(out, name),
        Exp::Global { name } => push_global(out, name),
        Exp::Int { value } => push_decimal(alloc, out, *value),
        Exp::Chr { code } => push_char(alloc, out, *code),
        Exp::Str { codes } => push_string(alloc, out, codes.as_slice()),
        Exp::Apply { fun, args } => {
            push_open(out, at_atom(place))?;
            push_exp(alloc, out, fun.get(), Place::Atom)?;
            push_exps(alloc, out, args, Place::Atom, b" ", b" ")?;
            push_close(out, at_atom(place))?;
            Ok(())
        }
        Exp::Lambda { pats, body } => {
            push_open(out, at_atom(place))?;
            out.extend_from_slice(b"\\")?;
            push_pats(alloc, out, pats, b"", b" ")?;
            out.extend_from_slice(b" -> ")?;
            push_exp(alloc, out, body.get(), Place::Whole)?;
            push_close(out, at_atom(place))?;
            Ok(())
        }
        Exp::Let { decls, body } => {
            push_open(out, at_atom(place))?;
            out.extend_from_slice(b"let {")?;
            push_decls(alloc, out, decls, b"", b"; ")?;
            out.extend_from_slice(b"} in ")?;
            push_exp(alloc, out, body.get(), Place::Whole)?;
            push_close(out, at_atom(place))?;
            Ok(())
        }
        Exp::If { test, yes, no } => {
            push_open(out, at_atom(place))?;
            out.extend_from_slice(b"if ")?;
            push_exp(alloc, out, test.get(), Place::Whole)?;
            out.extend_from_slice(b" then ")?;
            push_exp(alloc, out, yes.get(), Place::Whole)?;
            out.extend_from_slice(b" else ")?;
            push_exp(alloc, out, no.get(), Place::Whole)?;
            push_close(out, at_atom(place))?;
            Ok(())
        }
        Exp::Case { of, alts } => {
            push_open(out, at_atom(place))?;
            out.extend_from_slice(b"case ")?;
            push_exp(alloc, out, of.get(), Place::Whole)?;
            out.extend_from_slice(b" of {")?;
            push_alts(alloc, out, alts)?;
            out.extend_from_slice(b"}")?;
            push_close(out, at_atom(place))?;
            Ok(())
        }
        Exp::Tuple { parts } => {
            out.extend_from_slice(b"(")?;
            push_exps(alloc, out, parts, Place::Whole, b"", b", ")?;
            out.extend_from_slice(b")")?;
            Ok(())
        }
        Exp::List { parts } => {
            out.extend_from_slice(b"[")?;
            push_exps(alloc, out, parts, Place::Whole, b"", b", ")?;
            out.extend_from_slice(b"]")?;
            Ok(())
        }
        Exp::RightSection { op, arg } => {
            out.extend_from_slice(b"(")?;
            push_op(out, op.get())?;
            out.extend_from_slice(b" ")?;
            push_exp(alloc, out, arg.get(), Place::Atom)?;
            out.extend_from_slice(b")")?;
            Ok(())
        }
        Exp::Annot { exp, ty } => {
            push_open(out, at_atom(place))?;
            push_exp(alloc, out, exp.get(), Place::Atom)?;
            out.extend_from_slice(b" :: ")?;
            push_type(out, ty, Place::Whole)?;
            push_close(out, at_atom(place))?;
            Ok(())
        }
    }
}

/// Expressions at a place, the first with `lead` before it, each further one with `by`.
#[cycle(exp)]
#[tactic(auto, unfolding(crate::specs::ExpressionTexts::exps_text))]
fn push_exps(
    alloc: Global,
    out: &mut Vec<u8>,
    exps: &Exps,
    place: Place,
    lead: &[u8],
    by: &[u8],
) -> Result<(), AllocError>
    ensures { OnOk result (out.new.items ≡ out.old.items ++ exps_text place lead.now by.now exps.now) }
{
    let mut before = lead;
    for each in exps.as_slice() {
        out.extend_from_slice(before)?;
        push_exp(alloc, out, each, place)?;
        before = by;
    }
    Ok(())
}

/// A declaration.
#[cycle(exp)]
#[tactic(auto, using(crate::proofs::ExpressionLemmas::decl_texts, std::proofs::lemmas::Grind::common_steps))]
pub fn push_decl(alloc: Global, out: &mut Vec<u8>, decl: &Decl) -> Result<(), AllocError>
    ensures { OnOk result (out.new.items ≡ out.old.items ++ written (decl_marks decl.now)) }
{
    match decl {
        Decl::DataDecl {
            occ,
            is_new,
            params,
            cons,
        } => push_data(out, occ, *is_new, params.as_slice(), cons.as_slice()),
        Decl::SynonymDecl { occ, params, body } => {
            push_synonym(out, occ, params.as_slice(), body)
        }
        Decl::TypeSig { occ, ty } => push_type_sig(out, occ, ty),
        Decl::FixityOf { occ, fixity } => push_fixity(alloc, out, occ, *fixity),
        Decl::Clause { occ, pats, rhs } => {
            push_bare(out, occ)?;
            push_pats(alloc, out, pats, b" ", b" ")?;
            push_rhs(alloc, out, rhs, Sign::Equals)?;
            Ok(())
        }
        Decl::PatBind { pat, rhs } => {
            push_pat(alloc, out, pat)?;
            push_rhs(alloc, out, rhs, Sign::Equals)?;
            Ok(())
        }
    }
}

/// Declarations, the first with `lead` before it, each further one with `by`.
#[cycle(exp)]
#[tactic(auto, unfolding(crate::specs::ExpressionTexts::decls_text))]
fn push_decls(
    alloc: Global,
    out: &mut Vec<u8>,
    decls: &Decls,
    lead: &[u8],
    by: &[u8],
) -> Result<(), AllocError>
    ensures { OnOk result (out.new.items ≡ out.old.items ++ decls_text lead.now by.now decls.now) }
{
    let mut before = lead;
    for each in decls.as_slice() {
        out.extend_from_slice(before)?;
        push_decl(alloc, out, each)?;
        before = by;
    }
    Ok(())
}

/// A right side, with its local declarations where it has some.
#[cycle(exp)]
#[tactic(auto, using(crate::proofs::ExpressionLemmas::side_texts, std::proofs::lemmas::Grind::common_steps))]
fn push_rhs(alloc: Global, out: &mut Vec<u8>, rhs: &Rhs, sign: Sign) -> Result<(), AllocError>
    ensures { OnOk result (out.new.items ≡ out.old.items ++ written (rhs_marks sign rhs.now)) }
{
    push_choices(alloc, out, &rhs.choices, sign)?;
    push_decls(alloc, out, &rhs.local, b" where {", b"; ")?;
    push_brace(out, !rhs.local.as_slice().is_empty())?;
    Ok(())
}

#[cycle(exp)]
#[tactic(auto, unfolding(crate::specs::ExpressionTexts::choices_text))]
fn push_choices(
    alloc: Global,
    out: &mut Vec<u8>,
    choices: &Choices,
    sign: Sign,
) -> Result<(), AllocError>
    ensures { OnOk result (out.new.items ≡ out.old.items ++ choices_text sign choices.now) }
{
    for each in choices.as_slice() {
        push_choice(alloc, out, each, sign)?;
    }
    Ok(())
}

/// An expression with the guards before it.
#[cycle(exp)]
#[tactic(auto, using(crate::proofs::ExpressionLemmas::side_texts, std::proofs::lemmas::Grind::common_steps))]
fn push_choice(
    alloc: Global,
    out: &mut Vec<u8>,
    choice: &Choice,
    sign: Sign,
) -> Result<(), AllocError>
    ensures { OnOk result (out.new.items ≡ out.old.items ++ written (guarded_marks sign choice.now)) }
{
    push_guards(alloc, out, &choice.guards)?;
    push_sign(out, sign)?;
    push_exp(alloc, out, &choice.exp, Place::Whole)?;
    Ok(())
}

#[cycle(exp)]
#[tactic(auto, unfolding(crate::specs::ExpressionTexts::guards_text))]
fn push_guards(alloc: Global, out: &mut Vec<u8>, guards: &Guards) -> Result<(), AllocError>
    ensures { OnOk result (out.new.items ≡ out.old.items ++ guards_text guards.now) }
{
    let mut before = b" | ".as_slice();
    for each in guards.as_slice() {
        out.extend_from_slice(before)?;
        push_guard(alloc, out, each)?;
        before = b", ".as_slice();
    }
    Ok(())
}

#[cycle(exp)]
#[tactic(auto, using(crate::proofs::ExpressionLemmas::side_texts, std::proofs::lemmas::Grind::common_steps))]
fn push_guard(alloc: Global, out: &mut Vec<u8>, guard: &Guard) -> Result<(), AllocError>
    ensures { OnOk result (out.new.items ≡ out.old.items ++ written (guard_marks guard.now)) }
{
    match guard {
        Guard::Test { exp } => push_exp(alloc, out, exp, Place::Atom),
        Guard::Bind { pat, exp } => {
            push_pat(alloc, out, pat)?;
            out.extend_from_slice(b" <- ")?;
            push_exp(alloc, out, exp, Place::Atom)?;
            Ok(())
        }
    }
}

#[cycle(exp)]
#[tactic(auto, unfolding(crate::specs::ExpressionTexts::alts_text))]
fn push_alts(alloc: Global, out: &mut Vec<u8>, alts: &Alts) -> Result<(), AllocError>
    ensures { OnOk result (out.new.items ≡ out.old.items ++ alts_text alts.now) }
{
    let mut before = b"".as_slice();
    for each in alts.as_slice() {
        out.extend_from_slice(before)?;
        push_alt(alloc, out, each)?;
        before = b"; ".as_slice();
    }
    Ok(())
}

#[cycle(exp)]
#[tactic(auto, using(crate::proofs::ExpressionLemmas::side_texts, std::proofs::lemmas::Grind::common_steps))]
fn push_alt(alloc: Global, out: &mut Vec<u8>, alt: &Alt) -> Result<(), AllocError>
    ensures { OnOk result (out.new.items ≡ out.old.items ++ written (alt_marks alt.now)) }
{
    push_pat(alloc, out, &alt.pat)?;
    push_rhs(alloc, out, &alt.rhs, Sign::Arrow)?;
    Ok(())
}
