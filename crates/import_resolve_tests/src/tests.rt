//! Imports, and what they bring into scope.
//!
//! A row has four fields: what is visible, own names, imports, and what is in scope. A module that is visible is its name and
//! what it exports, where `/` begins another interface; `T:C:D` is a type with its constructors. In an import `q` stands for
//! `qualified`, and `only` begins a list; there `T:C` lists a constructor and `T:..` all of them.
use bp_base::{
    Entity, Export, Exports, Ident, Interface, Interfaces, Kind, Name, Names, OrigName, Scheme,
    Space, Ty, fixity_of_default,
};
use hs_modules::{
    CNameTree, ConTree, ImpDeclTree, ImportList, ItemTree, Module, SubsTree, TopBlock, TopSlot,
};
use hs_scopes::Scope;
use hs_trees::VarTree;
use import_resolve::{ScopeError, Visible, Visibles, scope_of};
use sqlite_items::Items;
use std::alloc::{AllocError, Global};
use std::test::Fail;

fn is_capital(word: &[u8]) -> bool {
    match word.first() {
        Some(b) => b.is_ascii_uppercase(),
        None => false,
    }
}

fn hole(alloc: Global) -> Result<Ident, AllocError> {
    Ok(Ident::Hole {
        name: Name::from_bytes(alloc, b"H")?,
    })
}

fn entity(alloc: Global, word: &[u8]) -> Result<Entity, AllocError> {
    let at = hole(alloc)?;
    let occ = Name::from_bytes(alloc, word)?;
    if is_capital(word) {
        Ok(Entity::DataType {
            name: OrigName {
                at,
                space: Space::Types,
                occ,
            },
            kind: Kind::Star,
            params: 0,
            is_new: false,
            cons: Items::new(alloc),
        })
    } else {
        Ok(Entity::Value {
            name: OrigName {
                at,
                space: Space::Values,
                occ,
            },
            scheme: Scheme {
                vars: 1,
                body: Ty::Var { index: 0 },
            },
            fixity: fixity_of_default(),
        })
    }
}

/// The first part of a word, and the others.
fn parts<'a>(alloc: Global, word: &'a [u8]) -> Result<(&'a [u8], Names), AllocError> {
    let mut head = word;
    let mut others = Items::new(alloc);
    let mut is_first = true;
    for part in word.split(|b| *b == b':') {
        if is_first {
            head = part;
            is_first = false;
        } else {
            others.push(Name::from_bytes(alloc, part)?)?;
        }
    }
    Ok((head, others))
}

fn exports(alloc: Global, text: &[u8]) -> Result<Exports, AllocError> {
    let mut all = Items::new(alloc);
    for word in text.split(|b| *b == b' ') {
        if !word.is_empty() {
            let (head, cons) = parts(alloc, word)?;
            all.push(Export {
                occ: Name::from_bytes(alloc, head)?,
                entity: entity(alloc, head)?,
                cons,
            })?;
        }
    }
    Ok(all)
}

fn interfaces(alloc: Global, text: &[u8]) -> Result<Interfaces, AllocError> {
    let mut all = Items::new(alloc);
    for shown in text.split(|b| *b == b'/') {
        all.push(Interface {
            module: hole(alloc)?,
            exports: exports(alloc, shown)?,
        })?;
    }
    Ok(all)
}

/// The first word, and what stands behind it.
fn cut(text: &[u8]) -> (&[u8], &[u8]) {
    match text.iter().position(|b| *b == b' ') {
        Some(at) => (&text[..at], &text[at + 1..]),
        None => (text, b"".as_slice()),
    }
}

fn visibles(alloc: Global, text: &[u8]) -> Result<Visibles, AllocError> {
    let mut all = Items::new(alloc);
    for each in text.split(|b| *b == b';') {
        let (name, shows) = cut(each);
        all.push(Visible {
            name: Name::from_bytes(alloc, name)?,
            shows: interfaces(alloc, shows)?,
        })?;
    }
    Ok(all)
}

fn subs(alloc: Global, names: Names) -> Result<SubsTree, AllocError> {
    let mut all = Items::new(alloc);
    for name in names.as_slice() {
        if name.as_bytes() == b"..".as_slice() {
            return Ok(SubsTree::All);
        }
        all.push(CNameTree::Con(ConTree::Id(name.copied(alloc)?)))?;
    }
    Ok(SubsTree::Only(all))
}

fn items(alloc: Global, text: &[u8]) -> Result<Items<ItemTree>, AllocError> {
    let mut all = Items::new(alloc);
    for word in text.split(|b| *b == b' ') {
        if !word.is_empty() {
            let (head, names) = parts(alloc, word)?;
            let name = Name::from_bytes(alloc, head)?;
            if !is_capital(head) {
                all.push(ItemTree::Var(VarTree::Id(name)))?;
            } else if names.is_empty() {
                all.push(ItemTree::Type(name))?;
            } else {
                all.push(ItemTree::TypeWith(name, subs(alloc, names)?))?;
            }
        }
    }
    Ok(all)
}

fn list(alloc: Global, text: &[u8]) -> Result<ImportList, AllocError> {
    let (word, rest) = cut(text);
    match word {
        b"only" => Ok(ImportList::Only(items(alloc, rest)?, false)),
        b"hiding" => Ok(ImportList::Hiding(items(alloc, rest)?, false)),
        _ => Ok(ImportList::Everything),
    }
}

fn import(alloc: Global, text: &[u8]) -> Result<ImpDeclTree, AllocError> {
    let (first, behind) = cut(text);
    let qualified = first == b"q".as_slice();
    let (modid, rest) = if qualified {
        cut(behind)
    } else {
        (first, behind)
    };
    let (word, named) = cut(rest);
    let modid = Name::from_bytes(alloc, modid)?;
    if word == b"as".as_slice() {
        let (alias, listed) = cut(named);
        return Ok(ImpDeclTree {
            qualified,
            modid,
            alias: Some(Name::from_bytes(alloc, alias)?),
            list: list(alloc, listed)?,
        });
    }
    Ok(ImpDeclTree {
        qualified,
        modid,
        alias: None,
        list: list(alloc, rest)?,
    })
}

/// The module `M` with these imports.
fn module_of(alloc: Global, text: &[u8]) -> Result<Module, AllocError> {
    let mut slots = Items::new(alloc);
    for each in text.split(|b| *b == b';') {
        if !each.is_empty() {
            slots.push(TopSlot::Import(import(alloc, each)?))?;
        }
    }
    Ok(Module::Named(
        Name::from_bytes(alloc, b"M")?,
        TopBlock {
            first: TopSlot::Empty,
            rest: slots,
        },
    ))
}

fn add_word(text: &mut Vec<u8>, before: &[u8], name: &[u8]) -> Result<(), AllocError> {
    if !text.is_empty() {
        text.push(b' ')?;
    }
    text.extend_from_slice(before)?;
    text.extend_from_slice(name)?;
    Ok(())
}

fn shown_scope(alloc: Global, scope: &Scope) -> Result<Vec<u8>, AllocError> {
    let mut text = Vec::new(alloc);
    for item in scope.items.as_slice() {
        add_word(&mut text, item.qualifier.as_bytes(), b"")?;
        if !item.qualifier.as_bytes().is_empty() {
            text.push(b'.')?;
        }
        text.extend_from_slice(item.occ.as_bytes())?;
    }
    Ok(text)
}

fn shown(alloc: Global, answer: Result<Scope, ScopeError>) -> Result<Vec<u8>, AllocError> {
    let mut text = Vec::new(alloc);
    match answer {
        Ok(scope) => return shown_scope(alloc, &scope),
        Err(ScopeError::NoModule { name }) => {
            add_word(&mut text, b"NoModule ", name.as_bytes())?;
        }
        Err(ScopeError::AmbiguousModule { name }) => {
            add_word(&mut text, b"AmbiguousModule ", name.as_bytes())?;
        }
        Err(ScopeError::NotInScope { name }) => {
            add_word(&mut text, b"NotInScope ", name.as_bytes())?;
        }
        Err(ScopeError::AmbiguousName { name }) => {
            add_word(&mut text, b"AmbiguousName ", name.as_bytes())?;
        }
        Err(ScopeError::ExportClash { name }) => {
            add_word(&mut text, b"ExportClash ", name.as_bytes())?;
        }
        Err(ScopeError::NoMemory) => return Err(AllocError),
    }
    Ok(text)
}

/// What stands before `|`, and behind it.
fn field(row: &[u8]) -> (&[u8], &[u8]) {
    match row.iter().position(|b| *b == b'|') {
        Some(at) => (&row[..at], &row[at + 1..]),
        None => (row, b"".as_slice()),
    }
}

fn is_right(alloc: Global, row: &[u8]) -> Result<bool, AllocError> {
    let (seen, behind_seen) = field(row);
    let (own, behind_own) = field(behind_seen);
    let (imports, wanted) = field(behind_own);
    let module = module_of(alloc, imports)?;
    let own = exports(alloc, own)?;
    let visible = visibles(alloc, seen)?;
    let answer = scope_of(alloc, &module, &own, &visible);
    let text = shown(alloc, answer)?;
    Ok(text.as_slice() == wanted)
}

/// How many rows are right, before the first that is not.
fn right_rows(alloc: Global, table: &[u8]) -> Result<u64, AllocError> {
    let mut right = 0;
    for row in table.split(|b| *b == b'\n') {
        if !is_right(alloc, row)? {
            return Ok(right);
        }
        if right < 1000 {
            right += 1;
        }
    }
    Ok(right)
}

const TABLE: &str = "Prelude id;A f T:C:D||A|id Prelude.id f T C D A.f A.T A.C A.D
Prelude id;A f||q A|id Prelude.id A.f
Prelude id;A f||A as X|id Prelude.id f X.f
Prelude id;A f||q A as X|id Prelude.id X.f
Prelude id;A f g T:C:D||A only f T:C|id Prelude.id f T C A.f A.T A.C
Prelude id;A f T:C:D||A only T|id Prelude.id T A.T
Prelude id;A f T:C:D||q A only T:..|id Prelude.id A.T A.C A.D
Prelude id;A f T:C:D||A hiding C|id Prelude.id f T D A.f A.T A.D
Prelude id;A f T:C:D||A hiding T:C|id Prelude.id f D A.f A.D
Prelude id;A f T:C:D||A hiding T:..|id Prelude.id f A.f
Prelude id;A f T:T||A hiding T|id Prelude.id f A.f
Prelude id;A f T:C||A hiding z f|id Prelude.id T C A.T A.C
Prelude id;A f||Prelude only;A|f A.f
Prelude id||q Prelude|Prelude.id
Prelude id|x T:C||x T C M.x M.T M.C id Prelude.id
Prelude id;A f||A;A as B|id Prelude.id f A.f f B.f
A f||A|NoModule Prelude
Prelude id||B|NoModule B
Prelude id;A f/f||A|AmbiguousModule A
Prelude id;A f||A only z|NotInScope z
Prelude id;A T:C U:D||A only T:D|NotInScope D
Prelude id;A T:C||A only C|NotInScope C
Prelude id;A f||A only z;B|NotInScope z
Prelude id;A f||B;A only z|NoModule B";

#[test]
fn imports_bring(rt: HostRuntime) -> Result<(), Fail> {
    let right = right_rows(rt.alloc(), TABLE.as_bytes())?;
    assert_eq!(rt; right, 24);
    Ok(())
}
