//! Export lists, and what they export.
//!
//! A row has five fields: what is in scope, what the module `M` declares, its header, its imports, and what it exports or why
//! it does not. An item of the scope is `x Q A` for the value or type `x` of the module `A` behind the qualifier `Q`, which is
//! `-` where there is none; `T:C:D` is a type with its constructors, and `C@T:C:D` a constructor of it. A header is `h` where
//! there is none, `n` with no list, and else `e` and the list: `v:x` is a value, `t:T`, `t:T:..` and `t:T:C` are types, and
//! `m:X` is `module X`. An import is `A`, or `A=X` for `A as X`.
use bp_base::{
    Con, Entity, Export, Exports, Ident, Kind, Name, Names, OrigName, Scheme, Space, Ty,
    fixity_of_default,
};
use export_resolve::exports_of;
use hs_modules::{
    CNameTree, ConTree, ExportTree, ExportsTree, ImpDeclTree, ImportList, Module, QVarTree,
    SubsTree, TopBlock, TopSlot,
};
use hs_scopes::{Scope, ScopeItem, ScopeItems};
use import_resolve::ScopeError;
use sqlite_items::Items;
use std::alloc::{AllocError, Global};
use std::test::Fail;

/// What stands before the byte, and behind it.
fn cut(text: &[u8], at: u8) -> (&[u8], &[u8]) {
    match text.iter().position(|b| *b == at) {
        Some(i) => (&text[..i], &text[i + 1..]),
        None => (text, b"".as_slice()),
    }
}

fn names(alloc: Global, text: &[u8]) -> Result<Names, AllocError> {
    let mut all = Items::new(alloc);
    for word in text.split(|b| *b == b':') {
        if !word.is_empty() {
            all.push(Name::from_bytes(alloc, word)?)?;
        }
    }
    Ok(all)
}

fn cons(alloc: Global, text: &[u8]) -> Result<Items<Con>, AllocError> {
    let mut all = Items::new(alloc);
    for word in text.split(|b| *b == b':') {
        if !word.is_empty() {
            all.push(Con {
                occ: Name::from_bytes(alloc, word)?,
                fields: Items::new(alloc),
                fixity: fixity_of_default(),
            })?;
        }
    }
    Ok(all)
}

fn is_capital(word: &[u8]) -> bool {
    match word.first() {
        Some(b) => b.is_ascii_uppercase(),
        None => false,
    }
}

fn entity(alloc: Global, word: &[u8], module: &[u8]) -> Result<Entity, AllocError> {
    let (head, rest) = cut(word, b':');
    let at = Ident::Hole {
        name: Name::from_bytes(alloc, module)?,
    };
    let occ = Name::from_bytes(alloc, head)?;
    if is_capital(head) {
        return Ok(Entity::DataType {
            name: OrigName {
                at,
                space: Space::Types,
                occ,
            },
            kind: Kind::Star,
            params: 0,
            is_new: false,
            cons: cons(alloc, rest)?,
        });
    }
    Ok(Entity::Value {
        name: OrigName {
            at,
            space: Space::Values,
            occ,
        },
        scheme: Scheme {
            vars: 1,
            body: Ty::Var { index: 0 },
        },
        fixity: fixity_of_default(),
    })
}

fn qualifier_of(alloc: Global, word: &[u8]) -> Result<Name, AllocError> {
    if word == b"-".as_slice() {
        Ok(Name::from_vec(Vec::new(alloc)))
    } else {
        Name::from_bytes(alloc, word)
    }
}

fn item(alloc: Global, text: &[u8]) -> Result<ScopeItem, AllocError> {
    let (word, rest) = cut(text, b' ');
    let (qualifier, module) = cut(rest, b' ');
    let qualifier = qualifier_of(alloc, qualifier)?;
    let (con, of) = cut(word, b'@');
    if of.is_empty() {
        let (head, _) = cut(word, b':');
        return Ok(ScopeItem {
            qualifier,
            occ: Name::from_bytes(alloc, head)?,
            entity: entity(alloc, word, module)?,
            con: Name::from_vec(Vec::new(alloc)),
        });
    }
    Ok(ScopeItem {
        qualifier,
        occ: Name::from_bytes(alloc, con)?,
        entity: entity(alloc, of, module)?,
        con: Name::from_bytes(alloc, con)?,
    })
}

fn items(alloc: Global, text: &[u8]) -> Result<ScopeItems, AllocError> {
    let mut all = Items::new(alloc);
    for each in text.split(|b| *b == b';') {
        if !each.is_empty() {
            all.push(item(alloc, each)?)?;
        }
    }
    Ok(all)
}

fn declared(alloc: Global, text: &[u8]) -> Result<Exports, AllocError> {
    let mut all = Items::new(alloc);
    for word in text.split(|b| *b == b' ') {
        if !word.is_empty() {
            let (head, rest) = cut(word, b':');
            all.push(Export {
                occ: Name::from_bytes(alloc, head)?,
                entity: entity(alloc, word, b"M")?,
                cons: names(alloc, rest)?,
            })?;
        }
    }
    Ok(all)
}

fn subs(alloc: Global, text: &[u8]) -> Result<SubsTree, AllocError> {
    if text == b"..".as_slice() {
        return Ok(SubsTree::All);
    }
    let mut all = Items::new(alloc);
    for word in text.split(|b| *b == b':') {
        let name = Name::from_bytes(alloc, word)?;
        all.push(CNameTree::Con(ConTree::Id(name)))?;
    }
    Ok(SubsTree::Only(all))
}

fn export(alloc: Global, text: &[u8]) -> Result<ExportTree, AllocError> {
    let (kind, word) = cut(text, b':');
    let (head, rest) = cut(word, b':');
    let name = Name::from_bytes(alloc, head)?;
    match kind {
        b"v" => Ok(ExportTree::Var(QVarTree::Id(name))),
        b"m" => Ok(ExportTree::Module(name)),
        _ if rest.is_empty() => Ok(ExportTree::Type(name)),
        _ => Ok(ExportTree::TypeWith(name, subs(alloc, rest)?)),
    }
}

fn export_list(alloc: Global, text: &[u8]) -> Result<ExportsTree, AllocError> {
    let mut exports = Items::new(alloc);
    for word in text.split(|b| *b == b' ') {
        if !word.is_empty() {
            exports.push(export(alloc, word)?)?;
        }
    }
    Ok(ExportsTree {
        exports,
        trailing: false,
    })
}

fn import(alloc: Global, word: &[u8]) -> Result<ImpDeclTree, AllocError> {
    let (modid, named) = cut(word, b'=');
    let mut alias = None;
    if !named.is_empty() {
        alias = Some(Name::from_bytes(alloc, named)?);
    }
    Ok(ImpDeclTree {
        qualified: false,
        modid: Name::from_bytes(alloc, modid)?,
        alias,
        list: ImportList::Everything,
    })
}

fn block(alloc: Global, text: &[u8]) -> Result<TopBlock, AllocError> {
    let mut rest = Items::new(alloc);
    for word in text.split(|b| *b == b' ') {
        if !word.is_empty() {
            rest.push(TopSlot::Import(import(alloc, word)?))?;
        }
    }
    Ok(TopBlock {
        first: TopSlot::Empty,
        rest,
    })
}

fn module_of(alloc: Global, header: &[u8], imports: &[u8]) -> Result<Module, AllocError> {
    let block = block(alloc, imports)?;
    let (kind, list) = cut(header, b' ');
    match kind {
        b"h" => Ok(Module::Headless(block)),
        b"n" => Ok(Module::Named(Name::from_bytes(alloc, b"M")?, block)),
        _ => Ok(Module::Exporting(
            Name::from_bytes(alloc, b"M")?,
            export_list(alloc, list)?,
            block,
        )),
    }
}

fn add_export(text: &mut Vec<u8>, export: &Export) -> Result<(), AllocError> {
    if !text.is_empty() {
        text.push(b' ')?;
    }
    text.extend_from_slice(export.occ.as_bytes())?;
    for con in export.cons.as_slice() {
        text.push(b':')?;
        text.extend_from_slice(con.as_bytes())?;
    }
    Ok(())
}

fn refused(alloc: Global, why: &[u8], name: &Name) -> Result<Vec<u8>, AllocError> {
    let mut text = Vec::from_slice(alloc, why)?;
    text.extend_from_slice(name.as_bytes())?;
    Ok(text)
}

fn shown(alloc: Global, answer: Result<Exports, ScopeError>) -> Result<Vec<u8>, AllocError> {
    match answer {
        Ok(exports) => {
            let mut text = Vec::new(alloc);
            for export in exports.as_slice() {
                add_export(&mut text, export)?;
            }
            Ok(text)
        }
        Err(ScopeError::NoModule { name }) => refused(alloc, b"NoModule ", &name),
        Err(ScopeError::AmbiguousModule { name }) => refused(alloc, b"AmbiguousModule ", &name),
        Err(ScopeError::NotInScope { name }) => refused(alloc, b"NotInScope ", &name),
        Err(ScopeError::AmbiguousName { name }) => refused(alloc, b"AmbiguousName ", &name),
        Err(ScopeError::ExportClash { name }) => refused(alloc, b"ExportClash ", &name),
        Err(ScopeError::NoMemory) => Err(AllocError),
    }
}

fn is_right(alloc: Global, row: &[u8]) -> Result<bool, AllocError> {
    let (seen, behind_seen) = cut(row, b'|');
    let (own, behind_own) = cut(behind_seen, b'|');
    let (header, behind_header) = cut(behind_own, b'|');
    let (imports, wanted) = cut(behind_header, b'|');
    let scope = Scope {
        items: items(alloc, seen)?,
    };
    let own = declared(alloc, own)?;
    let module = module_of(alloc, header, imports)?;
    let answer = exports_of(alloc, &module, &own, &scope);
    let text = shown(alloc, answer)?;
    Ok(text.as_slice() == wanted)
}

/// How many rows are right, before the first that is not.
fn right_rows(alloc: Global, table: &[u8]) -> Result<u64, AllocError> {
    let mut right = 0;
    for row in table.split(|b| *b == b'\n') {
        if !is_right(alloc, row)? {
            return Ok(right);
        }
        if right < 1000 {
            right += 1;
        }
    }
    Ok(right)
}

const TABLE: &str = "f - M;f M M||e v:f||f
f - A;f A A||e v:A.f|A|f
f A A||e v:f|A|NotInScope f
f - A;f - B||e v:f|A B|AmbiguousName f
f - A;f - A||e v:f v:f|A|f
T:C:D - M;C@T:C:D - M;D@T:C:D - M||e t:T||T
T:C:D - M;C@T:C:D - M;D@T:C:D - M||e t:T:..||T:C:D
T:C:D - M;C@T:C:D - M||e t:T:..||T:C
T:C:D - M;C@T:C:D - M||e t:T:C||T:C
T:C:D - M;C@T:C:D - M||e t:T:D||NotInScope D
T:C:D - M;D@T:C:D M M||e t:T:D||T:D
T:C - A;C@T:C - B||e t:T:C|A B|NotInScope C
T:C - A;C@T:C - B||e t:T:..|A B|T
f - A;f A A;g A A||e m:A|A|f
f - A;f X A||e m:X|A=X|f
f - A;f X A||e m:A|A=X|NotInScope A
f - A;f A B||e m:A|A|
C@T:C - A;C@T:C A A;T:C A A||e m:A|A|
T:C - A;T:C A A;C@T:C - A;C@T:C A A||e m:A|A|T:C
f - A;f X B||e v:f v:X.f|A B=X|ExportClash f
g - A;g X B;f - A;f X B||e v:g v:X.g v:f v:X.f|A B=X|ExportClash f
T:T - M;T@T:T - M||e t:T:..||T:T
|f T:C|n||T:C f
main - M;f - M|main f|h||main
f - M|f|h||NotInScope main
f - A;f - B||e v:z v:f|A B|NotInScope z
id - P;id Prelude P||e m:Prelude||id
id - P;id Q P||e m:Prelude|Prelude=Q|NotInScope Prelude
f - M;f M M||e m:M||f
g - M;f - M;U - M;T - M||e v:g v:f t:U t:T||T U f g
||e||";

#[test]
fn lists_export(rt: HostRuntime) -> Result<(), Fail> {
    let right = right_rows(rt.alloc(), TABLE.as_bytes())?;
    assert_eq!(rt; right, 31);
    Ok(())
}
