//! A module of the flat program as text.
ghost use Rattle.std.specs.Prelude.{◌≡◌, ◌++◌, OnOk, IfOk};
ghost use Rattle.flat_lex.specs.Pieces.{text_of};
ghost use Rattle.flat_text.specs.Marks.{pieces_of, written};
ghost use Rattle.flat_text.specs.ModuleMarks.{module_marks, export_marks};
ghost use Rattle.flat_text.specs.ModuleTexts.{exports_text, head_text, import_text, imports_text, lines_text};

use crate::declaration::push_names;
use crate::expression::push_decl;
use crate::flat::{FlatExport, FlatModule};
use crate::name::{push_close, push_flat};
use bp_base::{Bytes, Name};
use hs_core::Decl;
use std::alloc::{AllocError, Global};

/// An exported name with its constructors.
#[tactic(auto, using(crate::proofs::ModuleLemmas::export_texts, std::proofs::lemmas::Grind::common_steps))]
fn push_export(out: &mut Vec<u8>, export: &FlatExport) -> Result<(), AllocError>
    ensures { OnOk result (out.new.items ≡ out.old.items ++ written (export_marks export.now)) }
{
    push_flat(out, &export.name)?;
    push_names(out, export.cons.as_slice(), b"(", b", ")?;
    push_close(out, !export.cons.as_slice().is_empty())?;
    Ok(())
}

#[tactic(auto, unfolding(crate::specs::ModuleTexts::exports_text))]
fn push_exports(out: &mut Vec<u8>, exports: &[FlatExport]) -> Result<(), AllocError>
    ensures { OnOk result (out.new.items ≡ out.old.items ++ exports_text exports.now) }
{
    let mut before = b"".as_slice();
    for each in exports {
        out.extend_from_slice(before)?;
        push_export(out, each)?;
        before = b", ".as_slice();
    }
    Ok(())
}

fn push_head(out: &mut Vec<u8>, name: &Name, exports: &[FlatExport]) -> Result<(), AllocError>
    ensures { OnOk result (out.new.items ≡ out.old.items ++ head_text name.now exports.now) }
{
    out.extend_from_slice(b"module ")?;
    out.extend_from_slice(name.as_bytes())?;
    out.extend_from_slice(b" (")?;
    push_exports(out, exports)?;
    out.extend_from_slice(b") where {\n")?;
    Ok(())
}

fn push_import(out: &mut Vec<u8>, name: &[u8]) -> Result<(), AllocError>
    ensures { OnOk result (out.new.items ≡ out.old.items ++ import_text name.now) }
{
    out.extend_from_slice(b"import qualified ")?;
    out.extend_from_slice(name)?;
    out.extend_from_slice(b";\n")?;
    Ok(())
}

fn push_imports(out: &mut Vec<u8>, imports: &[Name]) -> Result<(), AllocError>
    ensures { OnOk result (out.new.items ≡ out.old.items ++ imports_text imports.now) }
{
    for each in imports {
        push_import(out, each.as_bytes())?;
    }
    Ok(())
}

#[tactic(auto, unfolding(crate::specs::ModuleTexts::lines_text))]
fn push_lines(alloc: Global, out: &mut Vec<u8>, decls: &[Decl]) -> Result<(), AllocError>
    ensures { OnOk result (out.new.items ≡ out.old.items ++ lines_text decls.now) }
{
    for each in decls {
        push_decl(alloc, out, each)?;
        out.extend_from_slice(b";\n")?;
    }
    Ok(())
}

/// The text of a module of the flat program: a line for its head, one for the import of `Prelude` and for each further import,
/// one for each declaration, and one for the closing brace. What stands at which place is said by its marks.
pub fn print_module(alloc: Global, flat: &FlatModule) -> Result<Bytes, AllocError>
    ensures { IfOk result (λ text. text ≡ text_of (pieces_of (module_marks flat.now))) }
{
    let mut out = Vec::new(alloc);
    push_head(&mut out, &flat.name, flat.exports.as_slice())?;
    push_import(&mut out, b"Prelude")?;
    push_imports(&mut out, flat.imports.as_slice())?;
    push_lines(alloc, &mut out, flat.decls.as_slice())?;
    out.extend_from_slice(b"}\n")?;
    Ok(Bytes::from_vec(out))
}
