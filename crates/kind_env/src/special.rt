//! Names that are known everywhere.
ghost use Rattle.std.specs.Prelude.{◌≡◌, ◌∷◌, [], ◌++◌, replicate, IfOk, OnOk};
ghost use Rattle.bp_base.specs.Specials.{base_prelude};
ghost use Rattle.bp_base.specs.declared.ty.Space.TheVariants.{Types, Values};
ghost use Rattle.hs_core.specs.Types.{kind_term, arrow, arrows, star};
ghost use Rattle.hs_core.specs.Globals.{special_kind, special_types, special_constructors, literal_types, known_names};
ghost use Rattle.kind_env.specs.Listings.{Adds, type_of_special, value_of_special, base_type_of, nth_type, nth_value, negate_names};

use bp_base::{Kind, Name, OrigName, Space, Special, base_prelude, special_name};
use kind_check::{Known, Knowns, Sense};
use sqlite_items::Boxed;
use std::alloc::{AllocError, Global};

/// One more name.
pub fn put(names: &mut Knowns, name: OrigName, sense: Sense) -> Result<(), AllocError>
    ensures { OnOk result (names.new ≡ names.old ++ record { name = name; sense = sense } ∷ []) }
{
    names.push(Known { name, sense })
}

// The kind with one parameter of kind `*` more.
#[tactic(auto, using(crate::proofs::ListLemmas::kind_from_star))]
fn from_star(alloc: Global, to: Kind) -> Result<Kind, AllocError>
    ensures { IfOk result (λ k. kind_term k ≡ arrow star (kind_term to)) }
{
    Ok(Kind::Arrow {
        from: Boxed::new(alloc, Kind::Star)?,
        to: Boxed::new(alloc, to)?,
    })
}

// The kind of so many parameters of kind `*`.
fn kind_with(alloc: Global, params: usize) -> Result<Kind, AllocError>
    ensures { IfOk result (λ k. kind_term k ≡ arrows (replicate params star) star) }
{
    let mut kind = Kind::Star;
    for _index in 0..params {
        kind = from_star(alloc, kind)?;
    }
    Ok(kind)
}

// How many parameters the type has.
fn params_of(special: Special) -> usize
    ensures { special_kind special ≡ arrows (replicate result star) star }
{
    match special {
        Special::Arrow => 2,
        Special::List => 1,
        Special::Unit => 0,
        Special::Tuple { parts } => parts,
        Special::Cons => 0,
    }
}

fn add_special_type(alloc: Global, names: &mut Knowns, special: Special) -> Result<(), AllocError>
    ensures { OnOk result (Adds (type_of_special special ∷ []) names.old names.new) }
{
    let name = special_name(alloc, Space::Types, special)?;
    let kind = kind_with(alloc, params_of(special))?;
    put(names, name, Sense::TypeOf { kind })
}

fn add_special_value(alloc: Global, names: &mut Knowns, special: Special) -> Result<(), AllocError>
    ensures { OnOk result (Adds (value_of_special special ∷ []) names.old names.new) }
{
    let name = special_name(alloc, Space::Values, special)?;
    put(names, name, Sense::Other)
}

// The special type of this number.
fn type_at(index: usize) -> Special
    ensures { result ≡ nth_type index }
{
    match index {
        0 => Special::Arrow,
        1 => Special::List,
        2 => Special::Unit,
        parts => Special::Tuple { parts: parts - 1 },
    }
}

// The special value of this number.
fn value_at(index: usize) -> Special
    ensures { result ≡ nth_value index }
{
    match index {
        0 => Special::Cons,
        1 => Special::List,
        2 => Special::Unit,
        parts => Special::Tuple { parts: parts - 1 },
    }
}

fn add_special_types(alloc: Global, names: &mut Knowns) -> Result<(), AllocError>
    ensures { OnOk result (Adds special_types names.old names.new) }
{
    for index in 0..17usize {
        add_special_type(alloc, names, type_at(index))?;
    }
    Ok(())
}

fn add_special_values(alloc: Global, names: &mut Knowns) -> Result<(), AllocError>
    ensures { OnOk result (Adds special_constructors names.old names.new) }
{
    for index in 0..17usize {
        add_special_value(alloc, names, value_at(index))?;
    }
    Ok(())
}

fn add_base_type(alloc: Global, names: &mut Knowns, occ: &[u8]) -> Result<(), AllocError>
    ensures { OnOk result (Adds (base_type_of occ.now ∷ []) names.old names.new) }
{
    let name = OrigName {
        at: base_prelude(alloc)?,
        space: Space::Types,
        occ: Name::from_bytes(alloc, occ)?,
    };
    put(names, name, Sense::TypeOf { kind: Kind::Star })
}

fn add_literal_types(alloc: Global, names: &mut Knowns) -> Result<(), AllocError>
    ensures { OnOk result (Adds literal_types names.old names.new) }
{
    add_base_type(alloc, names, b"Int")?;
    add_base_type(alloc, names, b"Char")?;
    add_base_type(alloc, names, b"Bool")
}

fn add_negate(alloc: Global, names: &mut Knowns) -> Result<(), AllocError>
    ensures { OnOk result (Adds negate_names names.old names.new) }
{
    let name = OrigName {
        at: base_prelude(alloc)?,
        space: Space::Values,
        occ: Name::from_bytes(alloc, b"negate")?,
    };
    put(names, name, Sense::Other)
}

/// The names with a syntax of their own, the types of literals, and `negate`.
pub fn add_known(alloc: Global, names: &mut Knowns) -> Result<(), AllocError>
    ensures { OnOk result (Adds known_names names.old names.new) }
{
    add_special_types(alloc, names)?;
    add_literal_types(alloc, names)?;
    add_special_values(alloc, names)?;
    add_negate(alloc, names)
}
