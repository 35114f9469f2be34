use bp_base::{Ident, Kind, Name, OrigName, Space, Unit};
use sqlite_items::{Boxed, Items};
use std::alloc::{AllocError, Global};
use std::process::Abort;
use std::test::Fail;
use type_unify::*;

/// A name of `base/Prelude`, of the kind of types.
fn con(alloc: Global, text: &[u8]) -> Result<Term, AllocError> {
    Term::con(alloc, name(alloc, text)?, Kind::Star)
}

fn name(alloc: Global, text: &[u8]) -> Result<OrigName, AllocError> {
    let unit = Unit {
        component: Name::from_bytes(alloc, b"base")?,
        fills: Items::new(alloc),
    };
    Ok(OrigName {
        at: Ident::Module {
            unit: Boxed::new(alloc, unit)?,
            module: Name::from_bytes(alloc, b"Prelude")?,
        },
        space: Space::Types,
        occ: Name::from_bytes(alloc, text)?,
    })
}

/// `[t]`.
fn list_of(alloc: Global, part: Term) -> Result<Term, AllocError> {
    Term::app(con(alloc, b"[]")?, part)
}

/// A rigid variable applied to a rigid variable applied to .. the given type, `depth` times.
fn deep(alloc: Global, depth: usize, end: Term) -> Result<Term, AllocError> {
    let mut all = end;
    for _ in 0..depth {
        all = Term::app(Term::rigid(alloc, 0)?, all)?;
    }
    Ok(all)
}

fn refused(answer: Result<(), UnifyError>) -> bool {
    matches!(answer, Err(UnifyError::NoUnifier))
}

#[test]
fn an_unknown_and_lists(rt: HostRuntime) -> Result<(), Fail> {
    let alloc = rt.alloc();
    let unknown = Term::flex(alloc, 0)?;
    let of_unknown = list_of(alloc, unknown.copied(alloc)?)?;
    let of_int = list_of(alloc, con(alloc, b"Int")?)?;
    let mut bindings = Bindings::new(alloc);
    assert!(rt; refused(unify(alloc, &mut bindings, &unknown, &of_unknown)));
    assert_eq!(rt; bindings.len(), 0);
    assert!(rt; unify(alloc, &mut bindings, &of_unknown, &of_int).is_ok());
    assert_eq!(rt; bindings.len(), 1);
    let found = bindings.resolve(alloc, &unknown)?;
    assert!(rt; matches!(found.nodes(), [Node::Con { .. }]));
    assert!(rt; refused(unify(alloc, &mut bindings, &unknown, &con(alloc, b"Char")?)));
    assert!(rt; unify(alloc, &mut bindings, &unknown, &con(alloc, b"Int")?).is_ok());
    assert_eq!(rt; bindings.len(), 1);
    Ok(())
}

#[test]
fn leaves(rt: HostRuntime) -> Result<(), Fail> {
    let alloc = rt.alloc();
    let mut bindings = Bindings::new(alloc);
    let one = Term::rigid(alloc, 1)?;
    let two = Term::rigid(alloc, 2)?;
    assert!(rt; unify(alloc, &mut bindings, &one, &one).is_ok());
    assert!(rt; refused(unify(alloc, &mut bindings, &one, &two)));
    assert!(rt; refused(unify(alloc, &mut bindings, &one, &con(alloc, b"Int")?)));
    let arrow = Kind::Arrow {
        from: Boxed::new(alloc, Kind::Star)?,
        to: Boxed::new(alloc, Kind::Star)?,
    };
    let higher = Term::con(alloc, name(alloc, b"Int")?, arrow)?;
    assert!(rt; unify(alloc, &mut bindings, &higher, &con(alloc, b"Int")?).is_ok());
    assert_eq!(rt; bindings.len(), 0);
    Ok(())
}

// Each unknown is a list of the next.
fn bind_chain(
    rt: &impl Abort,
    alloc: Global,
    bindings: &mut Bindings,
    length: u64,
) -> Result<(), Fail> {
    for id in 0..length {
        let next = list_of(alloc, Term::flex(alloc, id + 1)?)?;
        assert!(rt; unify(alloc, bindings, &Term::flex(alloc, id)?, &next).is_ok());
    }
    Ok(())
}

#[test]
fn a_chain(rt: HostRuntime) -> Result<(), Fail> {
    let alloc = rt.alloc();
    let mut bindings = Bindings::new(alloc);
    bind_chain(&rt, alloc, &mut bindings, 10_000)?;
    assert_eq!(rt; bindings.len(), 10_000);
    let first = bindings.resolve(alloc, &Term::flex(alloc, 0)?)?;
    assert_eq!(rt; first.nodes().len(), 20_001);
    assert!(rt;
        refused(unify(
            alloc,
            &mut bindings,
            &Term::flex(alloc, 10_000)?,
            &Term::flex(alloc, 0)?
        ))
    );
    assert_eq!(rt; bindings.len(), 10_000);
    Ok(())
}

#[test]
fn a_million_deep(rt: HostRuntime) -> Result<(), Fail> {
    let alloc = rt.alloc();
    let mut bindings = Bindings::new(alloc);
    let type_of = deep(alloc, 1_000_000, Term::flex(alloc, 7)?)?;
    assert!(rt; refused(unify(alloc, &mut bindings, &Term::flex(alloc, 7)?, &type_of)));
    assert_eq!(rt; bindings.len(), 0);
    Ok(())
}

#[test]
fn two_of_a_hundred_thousand_nodes(rt: HostRuntime) -> Result<(), Fail> {
    let alloc = rt.alloc();
    let mut bindings = Bindings::new(alloc);
    let left = deep(alloc, 50_000, Term::flex(alloc, 1)?)?;
    let right = deep(alloc, 50_000, con(alloc, b"Int")?)?;
    assert!(rt; unify(alloc, &mut bindings, &left, &right).is_ok());
    assert_eq!(rt; bindings.len(), 1);
    Ok(())
}
