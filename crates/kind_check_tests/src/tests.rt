//! Each case of the tables has its answer.
use crate::reading::{
    base_entities, base_name, base_type_of, decls_of, names_of, resolved_of, show, show_type,
    type_of,
};
use crate::tables::{BASE_TYPES, EXPANSIONS, GROUPS, LAWFUL, MODULES, TYPES};
use bp_base::{Kind, Ty};
use hs_core::Written;
use kind_check::{GroupError, KindEnv, TypeError, TypeGroup, kind_of_type, kinds_of};
use kind_env::env_of;
use std::alloc::{AllocError, Global};
use std::test::Fail;
use type_expand::{ExpandError, expand, first_unlawful};
use type_groups::{ModuleKinds, kinds_of_module};

/// What is asked of each case of a table.
#[derive(Clone, Copy, Debug)]
enum Asked {
    Groups,
    Types,
    BaseTypes,
    Modules,
    Expansions,
    Lawful,
}

fn group_answer(alloc: Global, text: &[u8], env: &KindEnv) -> Result<Vec<u8>, AllocError> {
    let mut out = Vec::new(alloc);
    let group = TypeGroup {
        decls: decls_of(alloc, text)?,
    };
    match kinds_of(alloc, &group, env) {
        Ok(kinds) => {
            for kind in kinds.as_slice() {
                out.push(b' ')?;
                show(kind, &mut out)?;
            }
        }
        Err(GroupError::Kind { occ }) => {
            out.push(b'!')?;
            out.extend_from_slice(occ.as_bytes())?;
        }
        Err(GroupError::NoMemory) => return Err(AllocError),
    }
    Ok(out)
}

fn type_answer(alloc: Global, ty: &Written, env: &KindEnv) -> Result<Vec<u8>, AllocError> {
    let mut out = Vec::new(alloc);
    match kind_of_type(alloc, ty, env) {
        Ok(kind) => show(&kind, &mut out)?,
        Err(TypeError::Kind) => out.push(b'!')?,
        Err(TypeError::SynonymUse) => out.push(b'?')?,
        Err(TypeError::NoMemory) => return Err(AllocError),
    }
    Ok(out)
}

fn show_module(module: &ModuleKinds, out: &mut Vec<u8>) -> Result<(), AllocError> {
    for (group, answer) in module.groups.as_slice().iter().zip(module.kinds.as_slice()) {
        out.push(b' ')?;
        for (decl, kind) in group.decls.as_slice().iter().zip(answer.kinds.as_slice()) {
            out.extend_from_slice(decl.name.occ.as_bytes())?;
            show(kind, out)?;
        }
    }
    Ok(())
}

fn module_answer(alloc: Global, text: &[u8], env: KindEnv) -> Result<Vec<u8>, AllocError> {
    let mut out = Vec::new(alloc);
    let decls = decls_of(alloc, text)?;
    match kinds_of_module(alloc, &decls, env) {
        Ok(module) => show_module(&module, &mut out)?,
        Err(GroupError::Kind { occ }) => {
            out.push(b'!')?;
            out.extend_from_slice(occ.as_bytes())?;
        }
        Err(GroupError::NoMemory) => return Err(AllocError),
    }
    Ok(out)
}

fn expansion_answer(alloc: Global, text: &[u8], env: &KindEnv) -> Result<Vec<u8>, AllocError> {
    let mut out = Vec::new(alloc);
    let ty = resolved_of(alloc, text)?;
    match expand(alloc, &ty, env) {
        Ok(whole) => show_type(&whole, &mut out)?,
        Err(ExpandError::SynonymUse) => out.push(b'?')?,
        Err(ExpandError::TypeDepth) => out.push(b'^')?,
        Err(ExpandError::NoMemory) => return Err(AllocError),
    }
    Ok(out)
}

fn lawful_answer(alloc: Global, env: &KindEnv) -> Result<Vec<u8>, AllocError> {
    let mut out = Vec::new(alloc);
    match first_unlawful(alloc, env)? {
        Some(index) => out.push(b'0'.saturating_add((index % 10) as u8))?,
        None => out.push(b'-')?,
    }
    Ok(out)
}

/// Whether a case has the answer that it wants.
fn is_right(alloc: Global, asked: Asked, line: &[u8]) -> Result<bool, AllocError> {
    let mut parts = line.split(|b| *b == b'|');
    let text = parts.next().unwrap_or(b"");
    let env = KindEnv {
        names: names_of(alloc, parts.next().unwrap_or(b""))?,
    };
    let want = parts.next().unwrap_or(b"");
    let answer = match asked {
        Asked::Groups => group_answer(alloc, text, &env)?,
        Asked::Types => type_answer(alloc, &type_of(alloc, text)?, &env)?,
        Asked::BaseTypes => {
            let base = env_of(alloc, &base_entities(alloc)?)?;
            type_answer(alloc, &base_type_of(alloc, text)?, &base)?
        }
        Asked::Modules => module_answer(alloc, text, env)?,
        Asked::Expansions => expansion_answer(alloc, text, &env)?,
        Asked::Lawful => lawful_answer(alloc, &env)?,
    };
    Ok(answer.as_slice() == want)
}

/// The number of the first case of a table that is wrong, from 1, or 0.
fn first_wrong(alloc: Global, asked: Asked, table: &[u8]) -> Result<usize, AllocError> {
    let mut number: usize = 0;
    for line in table.split(|b| *b == b'\n') {
        number = number.saturating_add(1);
        if !line.is_empty() && !is_right(alloc, asked, line)? {
            return Ok(number);
        }
    }
    Ok(0)
}

#[test]
fn groups_have_their_kinds(rt: HostRuntime) -> Result<(), Fail> {
    assert_eq!(rt; first_wrong(rt.alloc(), Asked::Groups, GROUPS)?, 0);
    Ok(())
}

#[test]
fn written_types_have_their_kinds(rt: HostRuntime) -> Result<(), Fail> {
    assert_eq!(rt; first_wrong(rt.alloc(), Asked::Types, TYPES)?, 0);
    Ok(())
}

#[test]
fn types_over_base_have_their_kinds(rt: HostRuntime) -> Result<(), Fail> {
    assert_eq!(rt; first_wrong(rt.alloc(), Asked::BaseTypes, BASE_TYPES)?, 0);
    Ok(())
}

#[test]
fn a_string_is_a_list_of_characters(rt: HostRuntime) -> Result<(), Fail> {
    let alloc = rt.alloc();
    let base = env_of(alloc, &base_entities(alloc)?)?;
    let text = Ty::Con {
        name: base_name(alloc, b"String")?,
        kind: Kind::Star,
    };
    let mut out = Vec::new(alloc);
    if let Ok(whole) = expand(alloc, &text, &base) {
        show_type(&whole, &mut out)?;
    }
    assert!(rt; out.as_slice() == b"[]Char@".as_slice());
    Ok(())
}

#[test]
fn modules_have_their_kinds(rt: HostRuntime) -> Result<(), Fail> {
    assert_eq!(rt; first_wrong(rt.alloc(), Asked::Modules, MODULES)?, 0);
    Ok(())
}

#[test]
fn types_expand(rt: HostRuntime) -> Result<(), Fail> {
    assert_eq!(rt; first_wrong(rt.alloc(), Asked::Expansions, EXPANSIONS)?, 0);
    Ok(())
}

#[test]
fn unlawful_synonyms_are_found(rt: HostRuntime) -> Result<(), Fail> {
    assert_eq!(rt; first_wrong(rt.alloc(), Asked::Lawful, LAWFUL)?, 0);
    Ok(())
}

/// A type in which so many applications stand in one another.
fn deep(alloc: Global, depth: usize) -> Result<Vec<u8>, AllocError> {
    let mut text = Vec::new(alloc);
    for _ in 1..depth {
        text.push(b'L')?;
    }
    text.push(b'I')?;
    for _ in 1..depth {
        text.push(b'@')?;
    }
    Ok(text)
}

#[test]
fn a_type_has_at_most_1000_levels(rt: HostRuntime) -> Result<(), Fail> {
    let alloc = rt.alloc();
    let env = KindEnv {
        names: names_of(alloc, b"L**>")?,
    };
    let high = resolved_of(alloc, &deep(alloc, 1_000)?)?;
    assert!(rt; expand(alloc, &high, &env).is_ok());
    let higher = resolved_of(alloc, &deep(alloc, 1_001)?)?;
    assert!(rt; matches!(expand(alloc, &higher, &env), Err(ExpandError::TypeDepth)));
    Ok(())
}
