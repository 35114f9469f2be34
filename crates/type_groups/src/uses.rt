//! Which type declarations a declaration mentions, by their numbers.
ghost use Rattle.std.specs.Prelude.{◌≡◌, ◌∷◌, [], List, map, flat_map, IfOk, OnOk, nat_eq};
ghost use Rattle.std.specs.List.{list_any};
ghost use Rattle.bp_base.specs.Texts.{Text};
ghost use Rattle.hs_core.specs.Types.{written_term};
ghost use Rattle.hs_core.specs.WellTyped.{number_of, meaning_types, field_terms, type_uses};
ghost use Rattle.kind_check.specs.Scopes.{decls_of, meaning_of, field_term};
ghost use Rattle.type_groups.specs.Uses.{IsPlaceOf, with_number, with_numbers, uses_in, use_list};

use bp_base::{OrigName, same_orig_name};
use hs_core::{ConDecl, FieldDecl, Indices, UseList, UseLists, Written};
use kind_check::{GroupDecl, Says};
use sqlite_items::Items;
use std::alloc::{AllocError, Global};

// The number of the first declaration of a name.
fn place_of(decls: &[GroupDecl], name: &OrigName) -> Option<usize>
    ensures { IsPlaceOf (number_of 0 (decls_of decls.now) name.now) result }
{
    for index in 0..decls.len() {
        if same_orig_name(&decls[index].name, name) {
            return Some(index);
        }
    }
    None
}

fn is_met(numbers: &[u64], number: u64) -> bool
    ensures { result ≡ list_any (λ m. nat_eq m number) numbers.now }
{
    numbers.iter().any(|each| *each == number)
}

// A number joins the others unless it is one of them.
fn put_once(numbers: &mut Indices, number: u64) -> Result<(), AllocError>
    ensures { OnOk result (numbers.new ≡ with_number numbers.old number) }
{
    if is_met(numbers.as_slice(), number) {
        return Ok(());
    }
    numbers.push(number)
}

// What a type mentions joins the others.
fn add_type(decls: &[GroupDecl], ty: &Written, numbers: &mut Indices) -> Result<(), AllocError>
    ensures { OnOk result ((ps : List Text) → numbers.new ≡ with_numbers numbers.old (uses_in (decls_of decls.now) (written_term ps ty.now ∷ []))) }
{
    match ty {
        Written::WVar { .. } => Ok(()),
        Written::WCon { name } => match place_of(decls, name) {
            Some(index) => put_once(numbers, index as u64),
            None => Ok(()),
        },
        Written::WApp { fun, arg } => {
            add_type(decls, fun.get(), numbers)?;
            add_type(decls, arg.get(), numbers)
        }
    }
}

// What the fields of a constructor mention joins the others.
fn add_fields(
    decls: &[GroupDecl],
    fields: &[FieldDecl],
    numbers: &mut Indices,
) -> Result<(), AllocError>
    ensures { OnOk result ((ps : List Text) → numbers.new ≡ with_numbers numbers.old (uses_in (decls_of decls.now) (map (field_term ps) fields.now))) }
{
    for index in 0..fields.len() {
        add_type(decls, &fields[index].ty, numbers)?;
    }
    Ok(())
}

// What the fields of constructors mention joins the others.
fn add_cons(decls: &[GroupDecl], cons: &[ConDecl], numbers: &mut Indices) -> Result<(), AllocError>
    ensures { OnOk result ((ps : List Text) → numbers.new ≡ with_numbers numbers.old (uses_in (decls_of decls.now) (flat_map (field_terms ps) cons.now))) }
{
    for index in 0..cons.len() {
        add_fields(decls, cons[index].fields.as_slice(), numbers)?;
    }
    Ok(())
}

// What a declaration says mentions these, which join the others.
fn add_says(decls: &[GroupDecl], says: &Says, numbers: &mut Indices) -> Result<(), AllocError>
    ensures { OnOk result ((ps : List Text) → numbers.new ≡ with_numbers numbers.old (uses_in (decls_of decls.now) (meaning_types (meaning_of ps says.now)))) }
{
    match says {
        Says::Fields { cons } => add_cons(decls, cons.as_slice(), numbers),
        Says::Synonym { body } => add_type(decls, body, numbers),
    }
}

/// What a declaration mentions, each number once, in order of first occurrence.
pub fn uses_of(alloc: Global, decls: &[GroupDecl], decl: &GroupDecl) -> Result<UseList, AllocError>
    ensures { IfOk result (λ u. u ≡ use_list (decls_of decls.now) decl.now) }
{
    let mut uses = Items::new(alloc);
    add_says(decls, &decl.says, &mut uses)?;
    Ok(UseList { uses })
}

/// What each declaration mentions.
pub fn all_uses(alloc: Global, decls: &[GroupDecl]) -> Result<UseLists, AllocError>
    ensures { IfOk result (λ us. us ≡ type_uses (decls_of decls.now)) }
{
    let mut all = Items::new(alloc);
    for index in 0..decls.len() {
        all.push(uses_of(alloc, decls, &decls[index])?)?;
    }
    Ok(all)
}
