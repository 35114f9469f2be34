ghost use Rattle.std.specs.Prelude.{◌<◌, length};

use bp_base::{Fill, Ident, Name, Unit, same_ident};
use ident_table::*;
use sqlite_items::{Boxed, Items};
use std::alloc::{AllocError, Global};
use std::test::Fail;

fn hole(alloc: Global, name: &[u8]) -> Result<Ident, AllocError> {
    let name = Name::from_bytes(alloc, name)?;
    Ok(Ident::Hole { name })
}

// `p[A=a,B=b]/M`
fn module_of(alloc: Global, a: Ident, b: Ident) -> Result<Ident, AllocError> {
    let mut fills = Items::new(alloc);
    fills.push(Fill {
        hole: Name::from_bytes(alloc, b"A")?,
        ident: a,
    })?;
    fills.push(Fill {
        hole: Name::from_bytes(alloc, b"B")?,
        ident: b,
    })?;
    let unit = Unit {
        component: Name::from_bytes(alloc, b"p")?,
        fills,
    };
    Ok(Ident::Module {
        unit: Boxed::new(alloc, unit)?,
        module: Name::from_bytes(alloc, b"M")?,
    })
}

// Whether the identity of this number is this one.
fn is_at(
    alloc: Global,
    table: &IdentTable,
    number: usize,
    ident: &Ident,
) -> Result<bool, AllocError> {
    Ok(number < table.len() && same_ident(&table.ident_at(number)?, ident))
}

// The module that is filled twice by the identity of a number.
fn doubled(alloc: Global, table: &mut IdentTable, part: usize) -> Result<usize, AllocError>
    requires { part < length table.old }
{
    let mut fills = NumberFills::new(alloc);
    fills.push(NumberFill {
        hole: Name::from_bytes(alloc, b"A")?,
        ident: part,
    })?;
    fills.push(NumberFill {
        hole: Name::from_bytes(alloc, b"B")?,
        ident: part,
    })?;
    let component = Name::from_bytes(alloc, b"p")?;
    table.number_module(component, fills, Name::from_bytes(alloc, b"M")?)
}

#[test]
fn a_hole_is_numbered_once(rt: HostRuntime) -> Result<(), Fail> {
    let alloc = rt.alloc();
    let mut table = IdentTable::new(alloc);
    let ident = hole(alloc, b"H")?;
    assert!(rt; table.number(&ident)? == 0);
    assert!(rt; table.number(&ident)? == 0);
    assert!(rt; table.len() == 1);
    assert!(rt; is_at(alloc, &table, 0, &ident)?);
    Ok(())
}

#[test]
fn equal_fills_have_one_number(rt: HostRuntime) -> Result<(), Fail> {
    let alloc = rt.alloc();
    let mut table = IdentTable::new(alloc);
    let ident = module_of(alloc, hole(alloc, b"X")?, hole(alloc, b"X")?)?;
    assert!(rt; table.number(&ident)? == 1);
    assert!(rt; table.len() == 2);
    assert!(rt; is_at(alloc, &table, 1, &ident)?);
    let other = module_of(alloc, hole(alloc, b"X")?, ident)?;
    assert!(rt; table.number(&other)? == 2);
    assert!(rt; is_at(alloc, &table, 2, &other)?);
    Ok(())
}

#[test]
fn shared_parts_stand_once(rt: HostRuntime) -> Result<(), Fail> {
    let alloc = rt.alloc();
    let mut table = IdentTable::new(alloc);
    let mut top = table.number(&hole(alloc, b"X")?)?;
    for _ in 0..40 {
        assert!(rt; top < table.len());
        top = doubled(alloc, &mut table, top)?;
    }
    assert!(rt; top == 40);
    assert!(rt; table.len() == 41);
    Ok(())
}
