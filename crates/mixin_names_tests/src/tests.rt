//! Worked entries.
use bp_base::{Ident, Name, Names, Provision, Provisions, Rename, Renames};
use cabal_component::{Mixin, Provides};
use mixin_names::{NameError, needs, provides};
use sqlite_items::Items;
use std::alloc::{AllocError, Global};
use std::test::Fail;

fn add_provision(
    alloc: Global,
    all: &mut Provisions,
    name: &[u8],
    hole: &[u8],
) -> Result<(), AllocError> {
    all.push(Provision {
        name: Name::from_bytes(alloc, name)?,
        ident: Ident::Hole {
            name: Name::from_bytes(alloc, hole)?,
        },
    })
}

fn rename(alloc: Global, from: &[u8], to: &[u8]) -> Result<Renames, AllocError> {
    let mut all = Items::new(alloc);
    all.push(Rename {
        from: Name::from_bytes(alloc, from)?,
        to: Name::from_bytes(alloc, to)?,
    })?;
    Ok(all)
}

/// An entry of `q`.
fn entry(alloc: Global, provides: Provides, needs: Renames) -> Result<Mixin, AllocError> {
    Ok(Mixin {
        dep: Name::from_bytes(alloc, b"q")?,
        provides,
        needs,
    })
}

/// What an entry of `q` brings, where `q` exposes C, with identity Z, and before and after it A, with identities X and Y.
fn brought(alloc: Global, provides_of: Provides) -> Result<Vec<u8>, NameError> {
    let mut exposed = Items::new(alloc);
    add_provision(alloc, &mut exposed, b"A", b"X")?;
    add_provision(alloc, &mut exposed, b"C", b"Z")?;
    add_provision(alloc, &mut exposed, b"A", b"Y")?;
    brought_of(alloc, provides_of, &exposed)
}

/// The same of what `q` exposes.
fn brought_of(
    alloc: Global,
    provides_of: Provides,
    exposed: &Provisions,
) -> Result<Vec<u8>, NameError> {
    let found = provides(
        alloc,
        &entry(alloc, provides_of, Items::new(alloc))?,
        exposed,
    )?;
    let mut text = Vec::new(alloc);
    for each in found.as_slice() {
        add_text(&mut text, each.name.as_bytes())?;
        if let Ident::Hole { name } = &each.ident {
            add_text(&mut text, name.as_bytes())?;
        }
    }
    Ok(text)
}

fn names_of(alloc: Global, one: &[u8]) -> Result<Names, AllocError> {
    let mut names = Items::new(alloc);
    names.push(Name::from_bytes(alloc, one)?)?;
    Ok(names)
}

fn add_text(text: &mut Vec<u8>, more: &[u8]) -> Result<(), AllocError> {
    text.extend_from_slice(more)?;
    text.push(b' ')?;
    Ok(())
}

/// `q requires (from as to)`, of a dependency with these holes.
fn linked(alloc: Global, from: &[u8], to: &[u8], holes: &Names) -> Result<Vec<u8>, NameError> {
    let found = needs(
        alloc,
        &entry(alloc, Provides::Whole, rename(alloc, from, to)?)?,
        holes,
    )?;
    let mut text = Vec::new(alloc);
    for each in found.as_slice() {
        add_text(&mut text, each.from.as_bytes())?;
        add_text(&mut text, each.to.as_bytes())?;
    }
    Ok(text)
}

/// What is found, or what is missing.
fn shown(alloc: Global, found: Result<Vec<u8>, NameError>) -> Result<Vec<u8>, AllocError> {
    let mut text = Vec::new(alloc);
    match found {
        Ok(found) => return Ok(found),
        Err(NameError::NoProvision { name }) => {
            add_text(&mut text, b"no provision")?;
            add_text(&mut text, name.as_bytes())?;
        }
        Err(NameError::NoRequirement { name }) => {
            add_text(&mut text, b"no requirement")?;
            add_text(&mut text, name.as_bytes())?;
        }
        Err(NameError::NoMemory) => return Err(AllocError),
    }
    Ok(text)
}

fn is_brought(alloc: Global, provides_of: Provides, expected: &[u8]) -> Result<bool, AllocError> {
    Ok(shown(alloc, brought(alloc, provides_of))?.as_slice() == expected)
}

#[test]
fn provisions_are_renamed(rt: HostRuntime) -> Result<(), Fail> {
    let alloc = rt.alloc();
    let items = rename(alloc, b"A", b"B")?;
    assert!(rt; is_brought(alloc, Provides::Listed { items }, b"B X B Y ")?);
    let items = rename(alloc, b"D", b"B")?;
    assert!(rt; is_brought(alloc, Provides::Listed { items }, b"no provision D ")?);
    assert!(rt;
        is_brought(
            alloc,
            Provides::Listed {
                items: Items::new(alloc)
            },
            b""
        )?
    );
    assert!(rt; is_brought(alloc, Provides::Whole, b"A X C Z A Y ")?);
    let names = names_of(alloc, b"A")?;
    assert!(rt; is_brought(alloc, Provides::Hiding { names }, b"C Z ")?);
    let names = names_of(alloc, b"D")?;
    assert!(rt; is_brought(alloc, Provides::Hiding { names }, b"no provision D ")?);
    let mut only = Items::new(alloc);
    add_provision(alloc, &mut only, b"C", b"Z")?;
    let items = rename(alloc, b"A", b"B")?;
    let missing = shown(alloc, brought_of(alloc, Provides::Listed { items }, &only))?;
    assert!(rt; missing.as_slice() == b"no provision A ".as_slice());
    Ok(())
}

#[test]
fn requirements_are_renamed(rt: HostRuntime) -> Result<(), Fail> {
    let alloc = rt.alloc();
    let mut holes = names_of(alloc, b"H")?;
    holes.push(Name::from_bytes(alloc, b"K")?)?;
    let found = shown(alloc, linked(alloc, b"H", b"G", &holes))?;
    assert!(rt; found.as_slice() == b"H G K K ".as_slice());
    let only = names_of(alloc, b"K")?;
    let missing = shown(alloc, linked(alloc, b"H", b"G", &only))?;
    assert!(rt; missing.as_slice() == b"no requirement H ".as_slice());
    Ok(())
}
