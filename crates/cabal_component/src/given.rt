//! What the fields of a component give: each value is read here, once.
ghost use Rattle.std.specs.Prelude.{◌≡◌, None, Some, List, ℕ, IfOk, MatchOption, map};
ghost use Rattle.std.specs.List.{filter};
ghost use Rattle.cabal_text.specs.Least.{least_of};
ghost use Rattle.cabal_component.specs.Given.{value_of, given, givens, lines_of, value_at, modules_at, renames_at, main_at};

use crate::component::Mixins;
use crate::entries::mixins_of;
use bp_base::{Names, Path, Renames, copied_names, copied_renames};
use cabal_stanzas::folder::{Paths, folders_of};
use cabal_stanzas::stanzas::Field;
use cabal_stanzas::table::{ComponentField, Kind, Use, component_field, is_field, use_of};
use cabal_stanzas::values::{ranged_names, source_name};
use cabal_text::names::{module_names, renames_of};
use cabal_text::tokens::tokens_of;
use sqlite_items::Items;
use std::alloc::{AllocError, Global};

/// A value of a field.
#[derive(Debug, Drop)]
pub enum Value {
    Modules { names: Names },
    Renames { renames: Renames },
    Main { path: Path },
    Dependencies { names: Names },
    Mixins { mixins: Mixins },
    Folders { paths: Paths },
}

/// What a field gives, with its line; no value where it hasn't the form that the field needs, or where the field may not stand.
#[derive(Debug, Drop)]
pub struct Given {
    pub line: u64,
    pub field: ComponentField,
    pub value: Option<Value>,
}

/// The value of a field, where it has the form that the field needs.
fn value_of(alloc: Global, field: ComponentField, text: &[u8]) -> Result<Option<Value>, AllocError>
    ensures { IfOk result (λ value. value ≡ value_of field text.now) }
{
    match field {
        ComponentField::ExposedModules
        | ComponentField::OtherModules
        | ComponentField::Signatures => {
            Ok(module_names(alloc, text)?.map(|names| Value::Modules { names }))
        }
        ComponentField::ReexportedModules => {
            let tokens = tokens_of(alloc, text)?;
            Ok(renames_of(alloc, &tokens)?.map(|renames| Value::Renames { renames }))
        }
        ComponentField::MainIs => Ok(source_name(alloc, text)?.map(|path| Value::Main { path })),
        ComponentField::BuildDepends => {
            Ok(ranged_names(alloc, text)?.map(|names| Value::Dependencies { names }))
        }
        ComponentField::Mixins => {
            Ok(mixins_of(alloc, text)?.map(|mixins| Value::Mixins { mixins }))
        }
        ComponentField::HsSourceDirs => {
            Ok(folders_of(alloc, text)?.map(|paths| Value::Folders { paths }))
        }
    }
}

/// What a field gives; nothing where a component of this kind ignores it.
fn read_field(alloc: Global, kind: Kind, field: &Field) -> Result<Option<Given>, AllocError>
    ensures { IfOk result (λ found. found ≡ given kind field.now) }
{
    let Some(of) = component_field(field.name.as_bytes()) else {
        return Ok(None);
    };
    match use_of(kind, of) {
        Use::Read => Ok(Some(Given {
            line: field.line,
            field: of,
            value: value_of(alloc, of, field.value.as_bytes())?,
        })),
        Use::Refused => Ok(Some(Given {
            line: field.line,
            field: of,
            value: None,
        })),
        Use::Ignored => Ok(None),
    }
}

/// What the fields of a component of this kind give, in their order.
pub fn givens(alloc: Global, kind: Kind, fields: &[Field]) -> Result<Items<Given>, AllocError>
    ensures { IfOk result (λ found. found ≡ givens kind fields.now) }
{
    let mut found = Items::new(alloc);
    for field in fields {
        if let Some(given) = read_field(alloc, kind, field)? {
            found.push(given)?;
        }
    }
    Ok(found)
}

/// The value of the first that is of this field.
pub fn value_at(field: ComponentField, givens: &[Given]) -> Option<&Value>
    ensures { MatchOption result (value_at field givens.now ≡ None) (λ v. value_at field givens.now ≡ Some v.now) }
{
    for given in givens {
        if is_field(given.field, field) {
            return given.value.as_ref();
        }
    }
    None
}

/// The modules or signatures that a field lists.
pub fn modules_at(
    alloc: Global,
    field: ComponentField,
    givens: &[Given],
) -> Result<Names, AllocError>
    ensures { IfOk result (λ names. names ≡ modules_at field givens.now) }
{
    match value_at(field, givens) {
        Some(Value::Modules { names }) => copied_names(alloc, names),
        _ => Ok(Items::new(alloc)),
    }
}

/// The re-exports.
pub fn renames_at(alloc: Global, givens: &[Given]) -> Result<Renames, AllocError>
    ensures { IfOk result (λ renames. renames ≡ renames_at givens.now) }
{
    match value_at(ComponentField::ReexportedModules, givens) {
        Some(Value::Renames { renames }) => copied_renames(alloc, renames),
        _ => Ok(Items::new(alloc)),
    }
}

/// The main file; nothing where there is none.
pub fn main_at(alloc: Global, givens: &[Given]) -> Result<Path, AllocError>
    ensures { IfOk result (λ path. path ≡ main_at givens.now) }
{
    match value_at(ComponentField::MainIs, givens) {
        Some(Value::Main { path }) => path.copied(alloc),
        _ => Path::from_bytes(alloc, b""),
    }
}
