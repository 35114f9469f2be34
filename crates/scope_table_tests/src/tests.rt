//! Names in scope, and what they mean.
//!
//! A row has three fields: items of a scope, a name that is asked for, and its meaning. An item is `x Q A` for the value or
//! type `x` of the module `A` behind the qualifier `Q`, which is `-` where there is none; the name is `x Q` alike. The meaning is
//! the module, or why there is none.
use bp_base::{Entity, Ident, Kind, Name, OrigName, Scheme, Space, Ty, fixity_of_default};
use hs_scopes::{MeaningFault, Scope, ScopeItem, ScopeItems};
use scope_table::{meant, scope_table};
use sqlite_items::Items;
use std::alloc::{AllocError, Global};
use std::test::Fail;

fn space_of(word: &[u8]) -> Space {
    match word.first() {
        Some(b) if b.is_ascii_uppercase() => Space::Types,
        _ => Space::Values,
    }
}

/// What stands before the byte, and behind it.
fn cut(text: &[u8], at: u8) -> (&[u8], &[u8]) {
    match text.iter().position(|b| *b == at) {
        Some(i) => (&text[..i], &text[i + 1..]),
        None => (text, b"".as_slice()),
    }
}

fn qualifier_of(alloc: Global, word: &[u8]) -> Result<Name, AllocError> {
    if word == b"-".as_slice() {
        Ok(Name::from_vec(Vec::new(alloc)))
    } else {
        Name::from_bytes(alloc, word)
    }
}

fn entity(alloc: Global, occ: &[u8], module: &[u8]) -> Result<Entity, AllocError> {
    let space = space_of(occ);
    let name = OrigName {
        at: Ident::Hole {
            name: Name::from_bytes(alloc, module)?,
        },
        space,
        occ: Name::from_bytes(alloc, occ)?,
    };
    match space {
        Space::Types => Ok(Entity::Abstract {
            name,
            kind: Kind::Star,
        }),
        Space::Values => Ok(Entity::Value {
            name,
            scheme: Scheme {
                vars: 1,
                body: Ty::Var { index: 0 },
            },
            fixity: fixity_of_default(),
        }),
    }
}

fn items(alloc: Global, text: &[u8]) -> Result<ScopeItems, AllocError> {
    let mut all = Items::new(alloc);
    for each in text.split(|b| *b == b';') {
        let (occ, rest) = cut(each, b' ');
        let (qualifier, module) = cut(rest, b' ');
        all.push(ScopeItem {
            qualifier: qualifier_of(alloc, qualifier)?,
            occ: Name::from_bytes(alloc, occ)?,
            entity: entity(alloc, occ, module)?,
            con: Name::from_vec(Vec::new(alloc)),
        })?;
    }
    Ok(all)
}

fn is_meant(alloc: Global, text: &[u8], asked: &[u8], wanted: &[u8]) -> Result<bool, AllocError> {
    let scope = Scope {
        items: items(alloc, text)?,
    };
    let table = scope_table(alloc, &scope)?;
    let (word, qualifier) = cut(asked, b' ');
    let qualifier = qualifier_of(alloc, qualifier)?;
    let occ = Name::from_bytes(alloc, word)?;
    match meant(&table, space_of(word), &qualifier, &occ) {
        Ok(found) => match &found.name.at {
            Ident::Hole { name } => Ok(name.as_bytes() == wanted),
            _ => Ok(false),
        },
        Err(MeaningFault::NotInScope) => Ok(wanted == b"NotInScope".as_slice()),
        Err(MeaningFault::AmbiguousName) => Ok(wanted == b"AmbiguousName".as_slice()),
    }
}

/// How many rows are right, before the first that is not.
fn right_rows(alloc: Global, table: &[u8]) -> Result<u64, AllocError> {
    let mut right = 0;
    for row in table.split(|b| *b == b'\n') {
        let (text, rest) = cut(row, b'|');
        let (asked, wanted) = cut(rest, b'|');
        if !is_meant(alloc, text, asked, wanted)? {
            return Ok(right);
        }
        if right < 1000 {
            right += 1;
        }
    }
    Ok(right)
}

const TABLE: &str = "f - A;f A A|f -|A
f - A;f A A|f A|A
f - A;f - A|f -|A
f - A;f - B|f -|AmbiguousName
f - A;f B B|f -|A
f A A|f -|NotInScope
f - A|g -|NotInScope
f A A;f A B|f A|AmbiguousName
T - A;T - B|T -|AmbiguousName
T A A;T B B|T B|B";

#[test]
fn names_mean(rt: HostRuntime) -> Result<(), Fail> {
    let right = right_rows(rt.alloc(), TABLE.as_bytes())?;
    assert_eq!(rt; right, 10);
    Ok(())
}
