//! The tables are gone through.
use crate::tables::{LINKINGS, REFUSALS, Row};
use bp_base::{Include, Linking, Name, Path, Provision};
use cabal_component::read_component;
use mixin_link::{LinkError, Summaries, Summary, are_lawful, link_names};
use sqlite_items::Items;
use std::alloc::{AllocError, Global};
use std::test::Fail;
use unit_identity::{ident_text, read_ident};

/// Adds a hole, or a provision with its identity.
fn add_word(alloc: Global, summary: &mut Summary, word: &[u8]) -> Result<(), Fail> {
    let mut parts = word.splitn(2, |b| *b == b'=');
    let name = Name::from_bytes(alloc, parts.next().unwrap_or(b""))?;
    match parts.next() {
        Some(ident) => summary.provisions.push(Provision {
            name,
            ident: read_ident(alloc, ident)?,
        })?,
        None => summary.holes.push(name)?,
    }
    Ok(())
}

fn add_summary(alloc: Global, all: &mut Summaries, text: &[u8]) -> Result<(), Fail> {
    let mut words = text.split(|b| *b == b' ');
    let mut summary = Summary {
        component: Name::from_bytes(alloc, words.next().unwrap_or(b""))?,
        holes: Items::new(alloc),
        provisions: Items::new(alloc),
    };
    for word in words {
        add_word(alloc, &mut summary, word)?;
    }
    all.push(summary)?;
    Ok(())
}

fn add_provisions(
    alloc: Global,
    text: &mut Vec<u8>,
    provisions: &[Provision],
) -> Result<(), AllocError> {
    for provision in provisions {
        text.push(b' ')?;
        text.extend_from_slice(provision.name.as_bytes())?;
        text.push(b'=')?;
        text.extend_from_slice(ident_text(alloc, &provision.ident)?.as_bytes())?;
    }
    Ok(())
}

fn add_includes(alloc: Global, text: &mut Vec<u8>, includes: &[Include]) -> Result<(), AllocError> {
    for include in includes {
        text.extend_from_slice(b" |")?;
        add_provisions(alloc, text, include.provides.as_slice())?;
    }
    Ok(())
}

/// The holes, the required names, and what each include provides.
fn add_linking(alloc: Global, text: &mut Vec<u8>, linking: &Linking) -> Result<(), AllocError> {
    for hole in linking.holes.as_slice() {
        text.push(b' ')?;
        text.extend_from_slice(hole.as_bytes())?;
    }
    text.extend_from_slice(b" |")?;
    add_provisions(alloc, text, linking.required.as_slice())?;
    add_includes(alloc, text, linking.includes.as_slice())
}

fn add_names(text: &mut Vec<u8>, kind: &[u8], names: &[&Name]) -> Result<(), AllocError> {
    text.push(b' ')?;
    text.extend_from_slice(kind)?;
    for name in names {
        text.push(b' ')?;
        text.extend_from_slice(name.as_bytes())?;
    }
    Ok(())
}

fn add_refusal(text: &mut Vec<u8>, error: &LinkError) -> Result<(), AllocError> {
    match error {
        LinkError::NoProvision { dep, name } => add_names(text, b"NoProvision", &[dep, name]),
        LinkError::NoRequirement { dep, name } => add_names(text, b"NoRequirement", &[dep, name]),
        LinkError::NameTaken { name } => add_names(text, b"NameTaken", &[name]),
        LinkError::LinkClash { name } => add_names(text, b"LinkClash", &[name]),
        LinkError::LinkCycle { name } => add_names(text, b"LinkCycle", &[name]),
        LinkError::NoMemory => Err(AllocError),
    }
}

fn summaries_of(alloc: Global, text: &[u8]) -> Result<Summaries, Fail> {
    let mut all = Items::new(alloc);
    for each in text.split(|b| *b == b';') {
        add_summary(alloc, &mut all, each)?;
    }
    Ok(all)
}

/// The linking of a library with these lines, as text with a space before each word.
fn outcome(alloc: Global, summaries: &Summaries, lines: &[u8]) -> Result<Vec<u8>, Fail> {
    let mut file = b"name: own\nlibrary\n  ".to_vec(alloc)?;
    file.extend_from_slice(lines)?;
    let path = Path::from_bytes(alloc, b"own.cabal")?;
    let components = read_component(alloc, &path, file.as_slice())?;
    let mut text = Vec::new(alloc);
    if !are_lawful(alloc, summaries)? {
        text.extend_from_slice(b" unlawful")?;
        return Ok(text);
    }
    for component in components.as_slice() {
        match link_names(alloc, component, summaries) {
            Ok(linking) => add_linking(alloc, &mut text, &linking)?,
            Err(error) => add_refusal(&mut text, &error)?,
        }
    }
    Ok(text)
}

/// The number of the first row that is wrong, from 1, or 0.
fn first_wrong(alloc: Global, rows: &[Row]) -> Result<usize, Fail> {
    for (i, (summaries, lines, expected)) in rows.iter().enumerate() {
        let summaries = summaries_of(alloc, summaries)?;
        let text = outcome(alloc, &summaries, lines)?;
        let trimmed = expected.trim_ascii();
        if text.as_slice().trim_ascii() != trimmed {
            return Ok(i.saturating_add(1));
        }
    }
    Ok(0)
}

#[test]
fn components_are_linked(rt: HostRuntime) -> Result<(), Fail> {
    assert_eq!(rt; first_wrong(rt.alloc(), &LINKINGS)?, 0);
    Ok(())
}

#[test]
fn components_are_refused(rt: HostRuntime) -> Result<(), Fail> {
    assert_eq!(rt; first_wrong(rt.alloc(), &REFUSALS)?, 0);
    Ok(())
}
