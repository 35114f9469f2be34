use bp_base::{Fill, Fills, Name, Unit, same_ident};
use sqlite_items::Items;
use std::alloc::Global;
use std::test::Fail;
use unit_identity::*;

fn fills(alloc: Global, holes: &[(&[u8], &[u8])]) -> Result<Fills, IdentError> {
    let mut all = Items::new(alloc);
    for (hole, text) in holes {
        let fill = Fill {
            hole: Name::from_bytes(alloc, *hole)?,
            ident: read_ident(alloc, *text)?,
        };
        all.push(fill)?;
    }
    Ok(all)
}

#[test]
fn texts_read_back(rt: HostRuntime) -> Result<(), Fail> {
    let alloc = rt.alloc();
    for text in [
        b"<Str.Chars>".as_slice(),
        b"q/N",
        b"p[A=<X>,B=q/N]/M",
        b"p:exe:e-1[H=p:s[G=<A>,H=q/N]/M.N']/M_1",
    ] {
        let ident = read_ident(alloc, text)?;
        let again = ident_text(alloc, &ident)?;
        assert!(rt; again.as_bytes() == text);
        assert!(rt; is_well_formed(&ident));
    }
    Ok(())
}

#[test]
fn other_bytes_are_no_identity(rt: HostRuntime) {
    let alloc = rt.alloc();
    for text in [
        b"".as_slice(),
        b"/",
        b"<>",
        b"<A",
        b"<a>",
        b"<A>>",
        b"p/",
        b"p/m",
        b"p[]/M",
        b"p[B=<X>,A=q/N]/M",
        b"p[A=<X>,A=<X>]/M",
        b"p[A=<X>]",
        b"p[A=<X>/M",
        b"p[A=<X>,]/M",
        b"p[A]/M",
        b"p--q/M",
        b"p:exe:/M",
        b"p[A=<X>]/M ",
        b"\xff/M",
    ] {
        let read = read_ident(alloc, text);
        assert!(rt; matches!(read, Err(IdentError::NotIdent)));
    }
}

#[test]
fn holes_are_filled_at_every_depth(rt: HostRuntime) -> Result<(), Fail> {
    let alloc = rt.alloc();
    let by = fills(alloc, [(b"A".as_slice(), b"q/N".as_slice())].as_slice())?;
    for (before, after) in [
        (b"p[H=<A>]/M".as_slice(), b"p[H=q/N]/M".as_slice()),
        (b"<A>", b"q/N"),
        (b"<B>", b"<B>"),
        (b"p[H=p[H=<A>]/M,K=<B>]/M", b"p[H=p[H=q/N]/M,K=<B>]/M"),
    ] {
        let filled = fill(alloc, &read_ident(alloc, before)?, &by)?;
        assert!(rt; ident_text(alloc, &filled)?.as_bytes() == after);
    }
    let first = fills(
        alloc,
        [(b"H".as_slice(), b"p[G=<A>]/M".as_slice())].as_slice(),
    )?;
    let both = compose(alloc, &first, &by)?;
    assert_eq!(rt; both.len(), 1);
    let found = filler(both.as_slice(), &Name::from_bytes(alloc, b"H")?).ok_or("no fill")?;
    assert!(rt; same_ident(found, &read_ident(alloc, b"p[G=q/N]/M")?));
    let unit = Unit {
        component: Name::from_bytes(alloc, b"p")?,
        fills: fills(alloc, [(b"H".as_slice(), b"<A>".as_slice())].as_slice())?,
    };
    let unit = fill_unit(alloc, &unit, &by)?;
    assert!(rt; is_well_formed_unit(&unit));
    let found = filler(unit.fills.as_slice(), &Name::from_bytes(alloc, b"H")?).ok_or("no fill")?;
    assert!(rt; ident_text(alloc, found)?.as_bytes() == b"q/N".as_slice());
    Ok(())
}
