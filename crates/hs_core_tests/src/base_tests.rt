use bp_base::{Assoc, Con, Entity, Export, Fixity, Interface, Space, Ty, base_prelude, same_ident};
use hs_core::base_interface;
use std::alloc::{AllocError, Global};
use std::test::Fail;

/// The names of the seven types and then of the 57 values, each in byte order.
const NAMES: &[u8] = b"Bool Char Either IO Int Maybe String \
!! $ && * + ++ - . /= < <= == > >= >> >>= abs chr concat const curry div drop either eqChar error filter \
flip foldl foldr fst head id length map maybe mod negate not null ord otherwise putStr putStrLn quot rem return reverse seq show snd \
tail take uncurry undefined zip ||";

fn joined(alloc: Global, exports: &[Export]) -> Result<Vec<u8>, AllocError> {
    let mut text = Vec::new(alloc);
    for export in exports {
        if !text.is_empty() {
            text.push(b' ')?;
        }
        text.extend_from_slice(export.occ.as_bytes())?;
    }
    Ok(text)
}

/// A type in prefix order: `@` before a function and its argument.
fn push_type(out: &mut Vec<u8>, ty: &Ty) -> Result<(), AllocError> {
    match ty {
        Ty::Var { index: 0 } => out.extend_from_slice(b"a "),
        Ty::Var { index: 1 } => out.extend_from_slice(b"b "),
        Ty::Var { .. } => out.extend_from_slice(b"c "),
        Ty::Con { name, .. } => {
            out.extend_from_slice(name.occ.as_bytes())?;
            out.extend_from_slice(b" ")
        }
        Ty::App { fun, arg } => {
            out.extend_from_slice(b"@ ")?;
            push_type(out, fun.get())?;
            push_type(out, arg.get())
        }
    }
}

fn type_text(alloc: Global, ty: &Ty) -> Result<Vec<u8>, AllocError> {
    let mut out = Vec::new(alloc);
    push_type(&mut out, ty)?;
    Ok(out)
}

#[test]
fn base_exports_types_then_values(rt: HostRuntime) -> Result<(), Fail> {
    let alloc = rt.alloc();
    let base = base_interface(alloc)?;
    assert!(rt; same_ident(&base.module, &base_prelude(alloc)?));
    let names = joined(alloc, base.exports.as_slice())?;
    assert_eq!(rt; names.as_slice(), NAMES);
    Ok(())
}

/// The value with this name: its type in prefix order, how many variables that has, and its fixity.
fn is_value(
    alloc: Global,
    base: &Interface,
    occ: &[u8],
    ty: &[u8],
    vars: u64,
    fixity: Fixity,
) -> Result<bool, AllocError> {
    for export in base.exports.as_slice() {
        if export.occ.as_bytes() == occ {
            if let Entity::Value {
                name,
                scheme,
                fixity: found,
            } = &export.entity
            {
                let text = type_text(alloc, &scheme.body)?;
                return Ok(
                    text.as_slice() == ty
                        && scheme.vars == vars
                        && *found == fixity
                        && name.space == Space::Values
                        && name.occ.as_bytes() == occ,
                );
            }
        }
    }
    Ok(false)
}

#[test]
fn values_have_types_and_fixities(rt: HostRuntime) -> Result<(), Fail> {
    let alloc = rt.alloc();
    let base = base_interface(alloc)?;
    let rows: [(&[u8], &[u8], u64, Assoc, u8); 14] = [
        (b"+", b"@ @ -> Int @ @ -> Int Int ", 0, Assoc::Left, 6),
        (b"rem", b"@ @ -> Int @ @ -> Int Int ", 0, Assoc::Left, 7),
        (b">=", b"@ @ -> Int @ @ -> Int Bool ", 0, Assoc::Neither, 4),
        (b"||", b"@ @ -> Bool @ @ -> Bool Bool ", 0, Assoc::Right, 2),
        (
            b".",
            b"@ @ -> @ @ -> a b @ @ -> @ @ -> c a @ @ -> c b ",
            3,
            Assoc::Right,
            9,
        ),
        (b"$", b"@ @ -> @ @ -> a b @ @ -> a b ", 2, Assoc::Right, 0),
        (b"otherwise", b"Bool ", 0, Assoc::Left, 9),
        (
            b"curry",
            b"@ @ -> @ @ -> @ @ (,) a b c @ @ -> a @ @ -> b c ",
            3,
            Assoc::Left,
            9,
        ),
        (
            b"either",
            b"@ @ -> @ @ -> a b @ @ -> @ @ -> c b @ @ -> @ @ Either a c b ",
            3,
            Assoc::Left,
            9,
        ),
        (
            b"foldl",
            b"@ @ -> @ @ -> a @ @ -> b a @ @ -> a @ @ -> @ [] b a ",
            2,
            Assoc::Left,
            9,
        ),
        (
            b"zip",
            b"@ @ -> @ [] a @ @ -> @ [] b @ [] @ @ (,) a b ",
            2,
            Assoc::Left,
            9,
        ),
        (b"undefined", b"a ", 1, Assoc::Left, 9),
        (
            b">>=",
            b"@ @ -> @ IO a @ @ -> @ @ -> a @ IO b @ IO b ",
            2,
            Assoc::Left,
            1,
        ),
        (b"putStrLn", b"@ @ -> @ [] Char @ IO () ", 0, Assoc::Left, 9),
    ];
    for (occ, ty, vars, assoc, level) in rows {
        assert!(rt; is_value(alloc, &base, occ, ty, vars, Fixity { assoc, level })?);
    }
    Ok(())
}

/// Whether both constructors of `Either` are exported with it.
fn shows_both(export: &Export) -> bool {
    match export.cons.as_slice() {
        [left, right] => {
            left.as_bytes() == b"Left".as_slice() && right.as_bytes() == b"Right".as_slice()
        }
        _ => false,
    }
}

/// Whether the constructor has one field, of the second parameter.
fn is_right(alloc: Global, con: &Con) -> Result<bool, AllocError> {
    match con.fields.as_slice() {
        [field] => {
            let text = type_text(alloc, &field.ty)?;
            Ok(text.as_slice() == b"b ".as_slice())
        }
        _ => Ok(false),
    }
}

/// Whether it is a data type with two parameters and two constructors, the second of which is as `Right` is.
fn is_either(alloc: Global, entity: &Entity) -> Result<bool, AllocError> {
    match entity {
        Entity::DataType {
            params,
            is_new,
            cons,
            ..
        } => match cons.as_slice() {
            [_, right] => Ok(*params == 2 && !*is_new && is_right(alloc, right)?),
            _ => Ok(false),
        },
        _ => Ok(false),
    }
}

/// Whether it is a synonym of `[Char]`.
fn is_string(alloc: Global, entity: &Entity) -> Result<bool, AllocError> {
    match entity {
        Entity::Synonym { params, body, .. } => {
            let text = type_text(alloc, body)?;
            Ok(*params == 0 && text.as_slice() == b"@ [] Char ".as_slice())
        }
        _ => Ok(false),
    }
}

#[test]
fn types_have_constructors(rt: HostRuntime) -> Result<(), Fail> {
    let alloc = rt.alloc();
    let base = base_interface(alloc)?;
    match base.exports.as_slice() {
        [_, _, either, _, _, _, string, ..] => {
            assert!(rt; shows_both(either));
            assert!(rt; is_either(alloc, &either.entity)?);
            assert!(rt; is_string(alloc, &string.entity)?);
        }
        _ => assert!(rt; false),
    }
    Ok(())
}
