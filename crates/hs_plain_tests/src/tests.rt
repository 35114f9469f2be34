use bp_base::{Name, Names};
use hs_plain::*;
use std::alloc::{AllocError, Global};
use std::test::Fail;

const TEXT: &[u8] = b"module U0.M (U0.M.a, U0.M.b1, U0.M.f, U0.M.g) where {\n\
import qualified Prelude;\n\
f :: Prelude.Int -> Prelude.Int -> Prelude.Int;\n\
f a b = U0.M.g a 1;\n\
g :: Prelude.Int -> Prelude.Int -> Prelude.Int;\n\
g = U0.M.f;\n\
b1 :: Prelude.Int;\n\
b1 = 9223372036854775807;\n\
a :: Prelude.Int;\n\
a = U0.M.b1;\n\
}\n";

const EMPTY: &[u8] = b"module U0.A1 () where {\nimport qualified Prelude;\n}\n";

fn declared(alloc: Global, occ: &[u8]) -> Result<Atom, AllocError> {
    let occ = Name::from_bytes(alloc, occ)?;
    Ok(Atom::Declared { occ })
}

/// A value without arguments.
fn value(
    alloc: Global,
    occ: &[u8],
    arrows: u64,
    atom: Result<Atom, AllocError>,
) -> Result<Binding, AllocError> {
    let occ = Name::from_bytes(alloc, occ)?;
    let args = Names::new(alloc);
    let mut atoms = Atoms::new(alloc);
    atoms.push(atom?)?;
    Ok(Binding {
        occ,
        arrows,
        args,
        atoms,
    })
}

/// `f a b = g a 1`
fn applied(alloc: Global) -> Result<Binding, AllocError> {
    let mut binding = value(alloc, b"f", 2, declared(alloc, b"g"))?;
    binding.args.push(Name::from_bytes(alloc, b"a")?)?;
    binding.args.push(Name::from_bytes(alloc, b"b")?)?;
    let occ = Name::from_bytes(alloc, b"a")?;
    binding.atoms.push(Atom::Argument { occ })?;
    binding.atoms.push(Atom::Number { value: 1 })?;
    Ok(binding)
}

#[test]
fn bindings_stand_in_order_and_exports_rise(rt: HostRuntime) -> Result<(), Fail> {
    let alloc = rt.alloc();
    let greatest = Ok(Atom::Number {
        value: 9_223_372_036_854_775_807,
    });
    let mut bindings = Bindings::new(alloc);
    bindings.push(applied(alloc)?)?;
    bindings.push(value(alloc, b"g", 2, declared(alloc, b"f"))?)?;
    bindings.push(value(alloc, b"b1", 0, greatest)?)?;
    bindings.push(value(alloc, b"a", 0, declared(alloc, b"b1"))?)?;
    let name = Name::from_bytes(alloc, b"M")?;
    let text = print_module(alloc, &PlainModule { name, bindings })?;
    assert_eq!(rt; text.as_bytes(), TEXT);
    Ok(())
}

#[test]
fn a_module_may_be_empty(rt: HostRuntime) -> Result<(), Fail> {
    let alloc = rt.alloc();
    let name = Name::from_bytes(alloc, b"A1")?;
    let bindings = Bindings::new(alloc);
    let text = print_module(alloc, &PlainModule { name, bindings })?;
    assert_eq!(rt; text.as_bytes(), EMPTY);
    Ok(())
}
