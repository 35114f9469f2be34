//! Worked equations.
use bp_base::{Fill, Name};
use hole_unify::{
    Equation, Equations, Head, IdentUnifyError, are_lawful, unify_idents, unify_shared,
};
use sqlite_items::Items;
use std::alloc::{AllocError, Global};
use std::test::Fail;
use unit_identity::{ident_text, read_ident};

/// A label with the texts of two identities.
type Row = (&'static [u8], &'static [u8], &'static [u8]);

fn add(alloc: Global, all: &mut Equations, row: (&[u8], &[u8], &[u8])) -> Result<(), Fail> {
    all.push(Equation {
        label: Name::from_bytes(alloc, row.0)?,
        left: read_ident(alloc, row.1)?,
        right: read_ident(alloc, row.2)?,
    })?;
    Ok(())
}

fn add_fills(alloc: Global, text: &mut Vec<u8>, fills: &[Fill]) -> Result<(), AllocError> {
    for fill in fills {
        text.extend_from_slice(fill.hole.as_bytes())?;
        text.push(b'=')?;
        text.extend_from_slice(ident_text(alloc, &fill.ident)?.as_bytes())?;
        text.push(b' ')?;
    }
    Ok(())
}

fn add_head(text: &mut Vec<u8>, head: &Head) -> Result<(), AllocError> {
    text.push(b' ')?;
    text.extend_from_slice(head.component.as_bytes())?;
    text.push(b'/')?;
    text.extend_from_slice(head.module.as_bytes())?;
    Ok(())
}

fn add_cause(text: &mut Vec<u8>, cause: &IdentUnifyError) -> Result<(), AllocError> {
    match cause {
        IdentUnifyError::Clash { label, one, other } => {
            text.extend_from_slice(b"clash ")?;
            text.extend_from_slice(label.as_bytes())?;
            add_head(text, one)?;
            add_head(text, other)?;
        }
        IdentUnifyError::Cycle { label, hole } => {
            text.extend_from_slice(b"cycle ")?;
            text.extend_from_slice(label.as_bytes())?;
            text.push(b' ')?;
            text.extend_from_slice(hole.as_bytes())?;
        }
        IdentUnifyError::NoMemory => text.extend_from_slice(b"no memory")?,
    }
    Ok(())
}

/// The answer as one text: the fills in their order, or the cause.
fn outcome(alloc: Global, all: &Equations) -> Result<Vec<u8>, AllocError> {
    let mut text = Vec::new(alloc);
    if !are_lawful(alloc, all)? {
        text.extend_from_slice(b"unlawful")?;
        return Ok(text);
    }
    match unify_idents(alloc, all) {
        Ok(fills) => add_fills(alloc, &mut text, fills.as_slice())?,
        Err(cause) => add_cause(&mut text, &cause)?,
    }
    Ok(text)
}

/// The outcome of the equations of a few rows.
fn outcome_of(alloc: Global, rows: &[Row]) -> Result<Vec<u8>, Fail> {
    let mut all = Items::new(alloc);
    for (label, left, right) in rows {
        add(alloc, &mut all, (*label, *left, *right))?;
    }
    let text = outcome(alloc, &all)?;
    Ok(text)
}

#[test]
fn one_equation(rt: HostRuntime) -> Result<(), Fail> {
    let alloc = rt.alloc();
    let cases: [((&'static [u8], &'static [u8]), &'static [u8]); 16] = [
        ((b"q[H=<B>]/M", b"q[H=<A>]/M"), b"B=<A> "),
        ((b"p/M", b"q/M"), b"clash N p/M q/M"),
        ((b"p/M", b"p/K"), b"clash N p/M p/K"),
        ((b"q[H=<A>]/M", b"q[H=<A>]/K"), b"clash N q/M q/K"),
        ((b"q[H=<A>]/M", b"p/M"), b"clash N q/M p/M"),
        ((b"<H>", b"q[H=<H>]/M"), b"cycle N H"),
        ((b"q[H=<H>]/M", b"<H>"), b"cycle N H"),
        ((b"<H>", b"<H>"), b""),
        ((b"f[L=<A>,R=p/M]/M", b"f[L=<A>,R=p/M]/M"), b""),
        ((b"<A>", b"p/M"), b"A=p/M "),
        ((b"q[H=p/M]/M", b"<A>"), b"A=q[H=p/M]/M "),
        ((b"<A.B>", b"<A>"), b"A.B=<A> "),
        ((b"f[L=<A>,R=<B>]/M", b"f[L=<B>,R=p/M]/M"), b"A=p/M B=p/M "),
        (
            (b"f[L=p/M,R=<A>]/M", b"f[L=<A>,R=q/M]/M"),
            b"clash N p/M q/M",
        ),
        (
            (b"f[L=<A>,R=<B>]/M", b"f[L=g[H=<B>]/M,R=g[H=<A>]/M]/M"),
            b"cycle N A",
        ),
        (
            (b"f[L=<A>,R=p/M]/M", b"f[L=g[H=<A>]/M,R=r/M]/M"),
            b"clash N p/M r/M",
        ),
    ];
    for (sides, expected) in cases {
        let text = outcome_of(alloc, &[(b"N", sides.0, sides.1)])?;
        assert!(rt; text.as_slice() == expected);
    }
    Ok(())
}

#[test]
fn more_equations(rt: HostRuntime) -> Result<(), Fail> {
    let alloc = rt.alloc();
    let cases: [(&'static [Row], &'static [u8]); 18] = [
        (&[], b""),
        (
            &[(b"X", b"<A>", b"<B>"), (b"Y", b"<B>", b"<C>")],
            b"B=<A> C=<A> ",
        ),
        (
            &[(b"X", b"<C>", b"<B>"), (b"Y", b"<B>", b"<A>")],
            b"B=<A> C=<A> ",
        ),
        (
            &[(b"X", b"<B>", b"<Aa>"), (b"Y", b"<Aa>", b"<AB>")],
            b"Aa=<AB> B=<AB> ",
        ),
        (
            &[(b"X", b"<A>", b"p/M"), (b"Y", b"<A>", b"q/M")],
            b"clash Y p/M q/M",
        ),
        (
            &[(b"X", b"<C>", b"q[H=<B>]/M"), (b"Y", b"<B>", b"<A>")],
            b"B=<A> C=q[H=<A>]/M ",
        ),
        (
            &[(b"X", b"<A>", b"q[H=<B>]/M"), (b"Y", b"<A>", b"q[H=p/M]/M")],
            b"A=q[H=p/M]/M B=p/M ",
        ),
        (
            &[(b"X", b"<A>", b"q[H=<B>]/M"), (b"Y", b"<B>", b"q[H=<A>]/M")],
            b"cycle Y A",
        ),
        (
            &[(b"X", b"<A>", b"<B>"), (b"Y", b"<A>", b"q[H=<B>]/M")],
            b"cycle Y A",
        ),
        (
            &[(b"X", b"<H>", b"q[H=<H>]/M"), (b"Y", b"p/M", b"q[H=<A>]/M")],
            b"cycle X H",
        ),
        (
            &[(b"X", b"<X>", b"q[H=<A>]/M"), (b"Y", b"<Y>", b"q[H=<B>]/K")],
            b"X=q[H=<A>]/M Y=q[H=<B>]/K ",
        ),
        (
            &[
                (b"U", b"<A>", b"<B>"),
                (b"V", b"<A>", b"<C>"),
                (b"W", b"<B>", b"<D>"),
                (b"X", b"<C>", b"<D>"),
            ],
            b"B=<A> C=<A> D=<A> ",
        ),
        (
            &[
                (b"U", b"<A>", b"p/M"),
                (b"V", b"<B>", b"q/M"),
                (b"W", b"<A>", b"<B>"),
                (b"X", b"r/M", b"s/M"),
            ],
            b"clash W p/M q/M",
        ),
        (
            &[
                (b"U", b"<B>", b"<A>"),
                (b"V", b"<X>", b"q[H=<A>]/M"),
                (b"W", b"<Y>", b"q[H=<B>]/M"),
            ],
            b"B=<A> X=q[H=<A>]/M Y=q[H=<A>]/M ",
        ),
        (
            &[
                (b"U", b"<A>", b"r[H=<B>]/M"),
                (b"V", b"<B>", b"q[H=<C>]/M"),
                (b"W", b"<C>", b"q[H=<B>]/M"),
            ],
            b"cycle W B",
        ),
        (
            &[
                (b"U", b"<X>", b"q[H=<A>]/M"),
                (b"V", b"<Y>", b"q[H=<B>]/M"),
                (b"W", b"<X>", b"<Y>"),
                (b"X", b"<A>", b"p/M"),
                (b"Y", b"<B>", b"r/M"),
            ],
            b"clash Y p/M r/M",
        ),
        (&[(b"N", b"q[H=<A>]/M", b"q[G=<A>]/M")], b"unlawful"),
        (&[(b"N", b"q[H=q/M]/M", b"p/M")], b"unlawful"),
    ];
    for (rows, expected) in cases {
        let text = outcome_of(alloc, rows)?;
        assert!(rt; text.as_slice() == expected);
    }
    Ok(())
}

/// The hole of a letter and a number below 100.
fn hole(alloc: Global, letter: u8, number: u8) -> Result<Vec<u8>, AllocError> {
    let digits = [
        b'<',
        letter,
        b'0' + number / 10 % 10,
        b'0' + number % 10,
        b'>',
    ];
    let mut text = Vec::new(alloc);
    text.extend_from_slice(digits.as_slice())?;
    Ok(text)
}

/// Each hole of a letter is filled by a unit with the next one twice.
fn add_pairs(alloc: Global, all: &mut Equations, letter: u8, count: u8) -> Result<(), Fail> {
    for number in 0..count {
        let next = hole(alloc, letter, number.wrapping_add(1))?;
        let mut pair = Vec::new(alloc);
        pair.extend_from_slice(b"f[L=")?;
        pair.extend_from_slice(next.as_slice())?;
        pair.extend_from_slice(b",R=")?;
        pair.extend_from_slice(next.as_slice())?;
        pair.extend_from_slice(b"]/M")?;
        let left = hole(alloc, letter, number)?;
        add(alloc, all, (b"P", left.as_slice(), pair.as_slice()))?;
    }
    Ok(())
}

#[test]
fn pairs_are_written_out(rt: HostRuntime) -> Result<(), Fail> {
    let alloc = rt.alloc();
    let mut all = Items::new(alloc);
    add_pairs(alloc, &mut all, b'A', 10)?;
    let text = outcome(alloc, &all)?;
    // the text of a pair has ten bytes beside twice that of its part, from <A10> on, and a hole with its marks has five
    assert!(rt; text.len() == 30 * 1023 - 10 * 10 + 10 * 5);
    Ok(())
}

#[test]
fn pairs_are_refused(rt: HostRuntime) -> Result<(), Fail> {
    let alloc = rt.alloc();
    for (last, expected) in [
        (
            (b"N".as_slice(), b"p/M".as_slice(), b"q/M".as_slice()),
            b"clash N p/M q/M".as_slice(),
        ),
        (
            (b"N".as_slice(), b"<A40>".as_slice(), b"<A00>".as_slice()),
            b"cycle N A00".as_slice(),
        ),
    ] {
        let mut all = Items::new(alloc);
        add_pairs(alloc, &mut all, b'A', 40)?;
        add(alloc, &mut all, last)?;
        let text = outcome(alloc, &all)?;
        assert!(rt; text.as_slice() == expected);
    }
    Ok(())
}

#[test]
fn two_rows_of_pairs(rt: HostRuntime) -> Result<(), Fail> {
    let alloc = rt.alloc();
    let mut all = Items::new(alloc);
    add_pairs(alloc, &mut all, b'A', 16)?;
    add_pairs(alloc, &mut all, b'B', 16)?;
    add(alloc, &mut all, (b"T", b"<A00>", b"<B00>"))?;
    add(alloc, &mut all, (b"L", b"<A16>", b"p/M"))?;
    add(alloc, &mut all, (b"N", b"<B16>", b"q/M"))?;
    let text = outcome(alloc, &all)?;
    assert!(rt; text.as_slice() == b"clash N p/M q/M".as_slice());
    Ok(())
}

/// The term of the first hole has 2^41 - 1 identities, and the table holds each of them once.
#[test]
fn forty_pairs_are_answered(rt: HostRuntime) -> Result<(), Fail> {
    let alloc = rt.alloc();
    let mut all = Items::new(alloc);
    add_pairs(alloc, &mut all, b'A', 40)?;
    assert!(rt; are_lawful(alloc, &all)?);
    let shared = unify_shared(alloc, &all)?;
    assert!(rt; shared.fills.as_slice().len() == 40);
    // 41 holes, 40 modules of holes, and 39 modules of what they are filled by
    assert!(rt; shared.table.len() == 120);
    Ok(())
}

#[test]
fn two_rows_of_forty_pairs(rt: HostRuntime) -> Result<(), Fail> {
    let alloc = rt.alloc();
    let mut all = Items::new(alloc);
    add_pairs(alloc, &mut all, b'A', 40)?;
    add_pairs(alloc, &mut all, b'B', 40)?;
    add(alloc, &mut all, (b"T", b"<A00>", b"<B00>"))?;
    assert!(rt; are_lawful(alloc, &all)?);
    let shared = unify_shared(alloc, &all)?;
    // all holes of the second row, and those of the first one but the last
    assert!(rt; shared.fills.as_slice().len() == 81);
    Ok(())
}
