//! The equations of a linking.
ghost use Rattle.std.specs.Prelude.{◌≡◌, ◌++◌, ◌∷◌, [], List, ℕ, IfOk, OnOk, map};
ghost use Rattle.std.specs.List.{filter, flat_map};
ghost use Rattle.std.specs.Str.{bytes_eq};
ghost use Rattle.bp_base.specs.declared.ident.Ident.TheVariants.{Hole};
ghost use Rattle.mixin_names.specs.Names.{provisions_of};
ghost use Rattle.mixin_link.specs.Linkings.{fills_under};
ghost use Rattle.mixin_link.specs.Equations.{equation_in, equation, equations_at, equations_of};
ghost use Rattle.mixin_link.specs.Tables.{equations_in};

use crate::open::{OpenInclude, OpenIncludes};
use bp_base::{Fill, Fills, Ident, Name, Names, Provision, Rename};
use hole_unify::{Equation, Equations};
use sqlite_items::Items;
use std::alloc::{AllocError, Global};
use std::collections::HashMap;
use unit_identity::fill;

/// The fills of an include's open unit: each hole is its linkage name.
fn open_fills(alloc: Global, needs: &[Rename]) -> Result<Fills, AllocError>
    ensures { IfOk result (λ fills. fills ≡ fills_under Hole needs.now) }
{
    let mut fills = Items::new(alloc);
    for need in needs {
        fills.push(Fill {
            hole: need.from.copied(alloc)?,
            ident: Ident::Hole {
                name: need.to.copied(alloc)?,
            },
        })?;
    }
    Ok(fills)
}

/// The name of a provision has its identity in the unit with these fills.
fn equation_in(alloc: Global, fills: &Fills, provision: &Provision) -> Result<Equation, AllocError>
    ensures { IfOk result (λ e. e ≡ equation_in fills.now provision.now) }
{
    Ok(Equation {
        label: provision.name.copied(alloc)?,
        left: Ident::Hole {
            name: provision.name.copied(alloc)?,
        },
        right: fill(alloc, &provision.ident, fills)?,
    })
}

/// Adds an equation to those of its name.
fn add_equation(
    alloc: Global,
    table: &mut HashMap<Name, Equations>,
    equation: Equation,
) -> Result<(), AllocError>
    ensures { OnOk result ((q : List ℕ) → equations_in table.new q ≡ equations_in table.old q ++ filter (λ e. bytes_eq e.label q) (equation ∷ [])) }
{
    let name = equation.label.copied(alloc)?;
    let mut found = match table.remove(&name) {
        Some(found) => found,
        None => Items::new(alloc),
    };
    found.push(equation)?;
    table.insert(name, found)?;
    Ok(())
}

/// Adds the equation of a provision.
fn add_provision(
    alloc: Global,
    table: &mut HashMap<Name, Equations>,
    fills: &Fills,
    provision: &Provision,
) -> Result<(), AllocError>
    ensures { OnOk result ((q : List ℕ) → equations_in table.new q ≡ equations_in table.old q ++ map (equation_in fills.now) (provisions_of (provision.now ∷ []) q)) }
{
    let equation = equation_in(alloc, fills, provision)?;
    add_equation(alloc, table, equation)?;
    Ok(())
}

/// Adds the equations of provisions in their order.
fn add_provisions(
    alloc: Global,
    table: &mut HashMap<Name, Equations>,
    fills: &Fills,
    provides: &[Provision],
) -> Result<(), AllocError>
    ensures { OnOk result ((q : List ℕ) → equations_in table.new q ≡ equations_in table.old q ++ map (equation_in fills.now) (provisions_of provides.now q)) }
{
    for provision in provides {
        add_provision(alloc, table, fills, provision)?;
    }
    Ok(())
}

/// Adds the equations of an include.
fn add_include(
    alloc: Global,
    table: &mut HashMap<Name, Equations>,
    include: &OpenInclude,
) -> Result<(), AllocError>
    ensures { OnOk result ((q : List ℕ) → equations_in table.new q ≡ equations_in table.old q ++ map (equation include.now.needs) (provisions_of include.now.provides q)) }
{
    let fills = open_fills(alloc, include.needs.as_slice())?;
    add_provisions(alloc, table, &fills, include.provides.as_slice())?;
    Ok(())
}

/// The equations by the names of their provisions.
fn equations_by_name(
    alloc: Global,
    includes: &[OpenInclude],
) -> Result<HashMap<Name, Equations>, AllocError>
    ensures { IfOk result (λ table. (q : List ℕ) → equations_in table q ≡ equations_at q includes.now) }
{
    let mut table = HashMap::new(alloc);
    for include in includes {
        add_include(alloc, &mut table, include)?;
    }
    Ok(table)
}

/// The same equation once more.
fn copied_equation(alloc: Global, equation: &Equation) -> Result<Equation, AllocError>
    ensures { IfOk result (λ e. e ≡ equation.now) }
{
    Ok(Equation {
        label: equation.label.copied(alloc)?,
        left: equation.left.copied(alloc)?,
        right: equation.right.copied(alloc)?,
    })
}

/// The same equations once more.
fn copied_equations(alloc: Global, equations: &[Equation]) -> Result<Equations, AllocError>
    ensures { IfOk result (λ all. all ≡ equations.now) }
{
    let mut all = Items::new(alloc);
    for each in equations {
        all.push(copied_equation(alloc, each)?)?;
    }
    Ok(all)
}

/// The equations that the table has of a name.
fn equations_at(
    alloc: Global,
    table: &HashMap<Name, Equations>,
    name: &Name,
) -> Result<Equations, AllocError>
    ensures { IfOk result (λ found. found ≡ equations_in table.now name.now) }
{
    match table.get(name) {
        Some(found) => copied_equations(alloc, found.as_slice()),
        None => Ok(Items::new(alloc)),
    }
}

/// The equations that the table has of names, in the order of the names.
fn equations_from(
    alloc: Global,
    table: &HashMap<Name, Equations>,
    names: &[Name],
) -> Result<Equations, AllocError>
    ensures { IfOk result (λ all. all ≡ flat_map (equations_in table.now) names.now) }
{
    let mut all = Items::new(alloc);
    for name in names {
        all.append(equations_at(alloc, table, name)?)?;
    }
    Ok(all)
}

/// The equations by required name, at one name by include, and at one include in the order of its provisions.
pub fn equations_of(
    alloc: Global,
    required: &Names,
    includes: &OpenIncludes,
) -> Result<Equations, AllocError>
    ensures { IfOk result (λ all. all ≡ equations_of required.now includes.now) }
{
    let table = equations_by_name(alloc, includes.as_slice())?;
    equations_from(alloc, &table, required.as_slice())
}
