//! From the bytes of a source to its plain module, and to the module's flat text.
ghost use Rattle.std.specs.Prelude.{◌≡◌, Some, IfOk};
ghost use Rattle.bp_base.specs.declared.code.Code.TheVariants as code;
ghost use Rattle.bp_base.specs.declared.defect.Item.TheVariants.{Offset};
ghost use Rattle.bp_checks.specs.Refused.{Checks, OnRefusal, defect_at, Wrong};
ghost use Rattle.plain_check.specs.Given.{IsPlaced, module_at, plain_at, source_read, text_of};

use bp_base::{Bytes, Code, Defect, Item, LimitHit, Name, Refusal, Which};
use bp_checks::defect_at;
use haskell_module::{SourceError, read_module};
use hs_modules::Module;
use hs_plain::{PlainModule, print_module};
use plain_trees::plain_of;
use std::alloc::{AllocError, Global};

/// A defect of a source at a place.
fn refused_at(alloc: Global, code: Code, component: &Name, at: &Name, offset: u64) -> Refusal
    ensures { OnRefusal result (λ r. r ≡ Wrong (defect_at code component.now at.now (Offset offset))) }
{
    let item = Item::Offset { at: offset };
    match defect_at(alloc, code, component.as_bytes(), at.as_bytes(), item) {
        Ok(defect) => Refusal::Defect { defect },
        Err(_) => Refusal::NoMemory,
    }
}

/// What is wrong with a source, with its place.
fn source_refused(alloc: Global, component: &Name, at: &Name, error: SourceError) -> Refusal
    ensures { OnRefusal result (IsPlaced component.now at.now error) }
{
    match error {
        SourceError::LeftOut { offset } => refused_at(alloc, Code::LeftOut, component, at, offset),
        SourceError::Lexical { offset } => refused_at(alloc, Code::Lexical, component, at, offset),
        SourceError::Layout { offset } => refused_at(alloc, Code::Layout, component, at, offset),
        SourceError::Syntax { offset } => refused_at(alloc, Code::Syntax, component, at, offset),
        SourceError::Nesting => Refusal::Limit {
            hit: LimitHit {
                which: Which::Nesting,
                count: 201,
            },
        },
        SourceError::NoMemory => Refusal::NoMemory,
    }
}

/// The module that a source is.
#[tactic(auto, unfolding(crate::specs::Given::module_at))]
fn module_at(alloc: Global, component: &Name, at: &Name, bytes: &[u8]) -> Result<Module, Refusal>
    ensures { Checks (module_at (Some 200) component.now at.now bytes.now) result }
{
    match read_module(alloc, at.as_bytes(), bytes) {
        Ok(tree) => Ok(tree),
        Err(error) => Err(source_refused(alloc, component, at, error)),
    }
}

/// The module is not of the plain form.
fn no_module(alloc: Global, component: &Name, at: &Name) -> Result<Defect, AllocError>
    ensures { IfOk result (λ defect. defect ≡ defect_at code.Syntax component.now at.now (Offset 0)) }
{
    let start = Item::Offset { at: 0 };
    defect_at(
        alloc,
        Code::Syntax,
        component.as_bytes(),
        at.as_bytes(),
        start,
    )
}

/// The plain module that a tree is.
#[tactic(auto, unfolding(crate::specs::Given::plain_at))]
fn plain_at(
    alloc: Global,
    component: &Name,
    at: &Name,
    tree: &Module,
) -> Result<PlainModule, Refusal>
    ensures { Checks (plain_at component.now at.now tree.now) result }
{
    let found = plain_of(alloc, tree)?;
    match found {
        Some(plain) => Ok(plain),
        None => Err(Refusal::Defect {
            defect: no_module(alloc, component, at)?,
        }),
    }
}

/// The plain module of this name that a source is. What the lexer, layout and grammar refuse stands at its offset, and so does the name
/// of a head that tells another module; a module that nests deeper than 200 is the limit; Syntax stands at offset 0 for every other
/// module that is not of the plain form.
#[tactic(auto, unfolding(crate::specs::Given::source_read))]
pub fn read_source(
    alloc: Global,
    component: &Name,
    at: &Name,
    bytes: &[u8],
) -> Result<PlainModule, Refusal>
    ensures { Checks (source_read (Some 200) component.now at.now bytes.now) result }
{
    let tree = module_at(alloc, component, at, bytes)?;
    let plain = plain_at(alloc, component, at, &tree)?;
    Ok(plain)
}

/// The flat text of a module.
#[tactic(auto, unfolding(crate::specs::Given::text_of))]
pub fn flat_text(alloc: Global, plain: &PlainModule) -> Result<Bytes, AllocError>
    ensures { IfOk result (text_of plain.now).passes }
{
    print_module(alloc, plain)
}
