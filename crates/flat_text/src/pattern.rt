//! Patterns in the flat text.
ghost use Rattle.std.specs.Prelude.{◌≡◌, ◌++◌, OnOk};
ghost use Rattle.flat_text.specs.Marks.{written};
ghost use Rattle.flat_text.specs.PatternMarks.{pat_marks};
ghost use Rattle.flat_text.specs.PatternTexts.{pats_text};

use crate::literal::{push_char, push_signed, push_string};
use crate::name::{push_bare, push_close, push_global, push_open};
use hs_core::{Pat, Pats};
use std::alloc::{AllocError, Global};

/// A pattern, which is an atom.
#[cycle(patterns)]
#[tactic(auto, using(crate::proofs::PatternLemmas::pattern_texts, std::proofs::lemmas::Grind::common_steps))]
pub fn push_pat(alloc: Global, out: &mut Vec<u8>, pat: &Pat) -> Result<(), AllocError>
    ensures { OnOk result (out.new.items ≡ out.old.items ++ written (pat_marks pat.now)) }
{
    match pat {
        Pat::PVar { name } => push_bare(out, name),
        Pat::PWild => out.extend_from_slice(b"_"),
        Pat::PInt { negative, value } => push_signed(alloc, out, *negative, *value),
        Pat::PChr { code } => push_char(alloc, out, *code),
        Pat::PStr { codes } => push_string(alloc, out, codes.as_slice()),
        Pat::PCon { name, args } => {
            let brackets = !args.as_slice().is_empty();
            push_open(out, brackets)?;
            push_global(out, name)?;
            push_pats(alloc, out, args, b" ", b" ")?;
            push_close(out, brackets)?;
            Ok(())
        }
        Pat::PTuple { parts } => {
            out.extend_from_slice(b"(")?;
            push_pats(alloc, out, parts, b"", b", ")?;
            out.extend_from_slice(b")")?;
            Ok(())
        }
        Pat::PList { parts } => {
            out.extend_from_slice(b"[")?;
            push_pats(alloc, out, parts, b"", b", ")?;
            out.extend_from_slice(b"]")?;
            Ok(())
        }
        Pat::PAs { name, pat } => {
            push_bare(out, name)?;
            out.extend_from_slice(b"@")?;
            push_pat(alloc, out, pat.get())?;
            Ok(())
        }
        Pat::PLazy { pat } => {
            out.extend_from_slice(b"(~")?;
            push_pat(alloc, out, pat.get())?;
            out.extend_from_slice(b")")?;
            Ok(())
        }
    }
}

/// Patterns, the first with `lead` before it, each further one with `by`.
#[cycle(patterns)]
#[tactic(auto, unfolding(crate::specs::PatternTexts::pats_text))]
pub fn push_pats(
    alloc: Global,
    out: &mut Vec<u8>,
    pats: &Pats,
    lead: &[u8],
    by: &[u8],
) -> Result<(), AllocError>
    ensures { OnOk result (out.new.items ≡ out.old.items ++ pats_text lead.now by.now pats.now) }
{
    let mut before = lead;
    for each in pats.as_slice() {
        out.extend_from_slice(before)?;
        push_pat(alloc, out, each)?;
        before = by;
    }
    Ok(())
}
