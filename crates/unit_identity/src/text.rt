//! The text of identities.
ghost use Rattle.std.specs.Prelude.{◌≡◌, ◌∷◌, ◌++◌, OnOk, IfOk};
ghost use Rattle.unit_identity.specs.Text.{OneSpelling, closing_of, pieces_of, text, text_unit};

use bp_base::{Bytes, Fill, Ident, Unit};
use std::alloc::{AllocError, Global};

/// The text of an identity: `<H>` of a hole, `c/M` of a module of a unit without holes, and `c[H=i,G=j]/M` else.
pub fn ident_text(alloc: Global, ident: &Ident) -> Result<Bytes, AllocError>
    ensures { IfOk result (λ bytes. bytes ≡ text ident.now) }
{
    let mut out = Vec::new(alloc);
    write_ident(&mut out, ident)?;
    Ok(Bytes::from_vec(out))
}

#[cycle(write)]
#[tactic(auto, using(crate::proofs::ReadBackLemmas::text_equations))]
fn write_ident(out: &mut Vec<u8>, ident: &Ident) -> Result<(), AllocError>
    ensures { OnOk result (out.new.items ≡ out.old.items ++ text ident.now) }
{
    match ident {
        Ident::Hole { name } => {
            out.push(b'<')?;
            out.extend_from_slice(name.as_bytes())?;
            out.push(b'>')?;
            Ok(())
        }
        Ident::Module { unit, module } => {
            write_unit(out, unit.get())?;
            out.push(b'/')?;
            out.extend_from_slice(module.as_bytes())?;
            Ok(())
        }
    }
}

#[cycle(write)]
#[tactic(auto, using(crate::proofs::ReadBackLemmas::text_equations))]
fn write_unit(out: &mut Vec<u8>, unit: &Unit) -> Result<(), AllocError>
    ensures { OnOk result (out.new.items ≡ out.old.items ++ text_unit unit.now) }
{
    out.extend_from_slice(unit.component.as_bytes())?;
    write_fills(out, unit.fills.as_slice())?;
    Ok(())
}

#[cycle(write)]
fn write_fills(out: &mut Vec<u8>, fills: &[Fill]) -> Result<(), AllocError>
    ensures { OnOk result (out.new.items ≡ out.old.items ++ (pieces_of fills.now 91 ++ closing_of fills.now)) }
{
    let mut mark = b'[';
    for each in fills {
        out.push(mark)?;
        write_fill(out, each)?;
        mark = b',';
    }
    if !fills.is_empty() {
        out.push(b']')?;
    }
    Ok(())
}

#[cycle(write)]
fn write_fill(out: &mut Vec<u8>, fill: &Fill) -> Result<(), AllocError>
    ensures { OnOk result (out.new.items ≡ out.old.items ++ (fill.now.hole ++ (61 ∷ text fill.now.ident))) }
{
    out.extend_from_slice(fill.hole.as_bytes())?;
    out.push(b'=')?;
    write_ident(out, &fill.ident)
}

/// Two well formed identities with one text are one.
pub fn one_spelling()
    ensures { OneSpelling }
{}
