//! Each case of the table has its answer.
use crate::reading::{decls_of, entities_of, module_here, show_entity};
use crate::tables::MODULES;
use bp_base::Name;
use kind_module::{KindsError, kinds_give};
use std::alloc::{AllocError, Global};
use std::test::Fail;

fn refusal(letter: u8, name: &Name, out: &mut Vec<u8>) -> Result<(), AllocError> {
    out.push(letter)?;
    out.extend_from_slice(name.as_bytes())
}

fn answer(alloc: Global, decls: &[u8], names: &[u8]) -> Result<Vec<u8>, AllocError> {
    let mut out = Vec::new(alloc);
    let outside = entities_of(alloc, names)?;
    let own = decls_of(alloc, decls)?;
    match kinds_give(alloc, &outside, &module_here(alloc)?, own.as_slice()) {
        Ok(entities) => {
            for entity in entities.as_slice() {
                show_entity(entity, &mut out)?;
            }
        }
        Err(KindsError::Kind { name }) => refusal(b'!', &name, &mut out)?,
        Err(KindsError::SynonymUse { name }) => refusal(b'?', &name, &mut out)?,
        Err(KindsError::TypeDepth) => out.push(b'^')?,
        Err(KindsError::NoMemory) => return Err(AllocError),
    }
    Ok(out)
}

/// Whether a case has the answer that it wants.
fn is_right(alloc: Global, line: &[u8]) -> Result<bool, AllocError> {
    let mut parts = line.split(|b| *b == b'|');
    let decls = parts.next().unwrap_or(b"");
    let names = parts.next().unwrap_or(b"");
    let want = parts.next().unwrap_or(b"");
    let given = answer(alloc, decls, names)?;
    Ok(given.as_slice() == want)
}

#[test]
fn modules_have_their_types(rt: HostRuntime) -> Result<(), Fail> {
    let mut number: usize = 0;
    for line in MODULES.split(|b| *b == b'\n') {
        number = number.saturating_add(1);
        if !line.is_empty() {
            assert!(rt; is_right(rt.alloc(), line)?, "case {number}");
        }
    }
    Ok(())
}

/// Synonyms that add 1, 2, 4 and so on to the depth of a type.
const TOWER: &[u8] =
    b"Aa~La@;Ba~AAa@@;Ca~BBa@@;Da~CCa@@;Ea~DDa@@;Fa~EEa@@;Ga~FFa@@;Ha~GGa@@;Ia~HHa@@;Ja~IIa@@;";

fn over_the_tower(alloc: Global, value: &[u8]) -> Result<Vec<u8>, AllocError> {
    let mut decls = Vec::new(alloc);
    decls.extend_from_slice(TOWER)?;
    decls.extend_from_slice(value)?;
    answer(alloc, decls.as_slice(), b"L**>;X*")
}

#[test]
fn a_declared_type_has_at_most_1000_levels(rt: HostRuntime) -> Result<(), Fail> {
    let alloc = rt.alloc();
    let high = over_the_tower(alloc, b"v:JIHGFCBAX@@@@@@@@")?;
    assert!(rt; high.as_slice() != b"^".as_slice());
    let higher = over_the_tower(alloc, b"v:JIHGFDX@@@@@@")?;
    assert!(rt; higher.as_slice() == b"^".as_slice());
    Ok(())
}
