use bp_base::{Item, Name, Names, Path, Refusal, defect_code};
use cabal_component::{Component, Components};
use project_order::build_order;
use sqlite_items::Items;
use std::alloc::{AllocError, Global};
use std::process::Abort;
use std::test::Fail;

/// Each row: components between semicolons, as the name and what it depends on; the target; and its order, or the code of what is refused
/// with the component and the name that it names.
const ROWS: [(&[u8], &[u8], &[u8]); 14] = [
    (b"one base", b"one", b"one"),
    (b"one;two one base", b"two", b"one two"),
    (b"two one;one;three", b"two", b"one two"),
    (b"a b c;b d;c d;d", b"a", b"d b c a"),
    (b"a c b;b;c", b"a", b"c b a"),
    (b"p:exe:e p p:s;p p:s;p:s", b"p:exe:e", b"p:s p p:exe:e"),
    (b"a b;b a", b"a", b"5 a -"),
    (b"a b;b c;c b", b"a", b"5 b -"),
    (b"a a", b"a", b"5 a -"),
    (b"a b;b c", b"a", b"3 b c"),
    (b"a c d", b"a", b"3 a c"),
    (b"one", b"two", b"3 - two"),
    (b"one", b"base", b"3 - base"),
    (b"a b;b;b a", b"a", b"b a"),
];

fn names(alloc: Global, words: &[u8]) -> Result<Names, AllocError> {
    let mut names = Items::new(alloc);
    for word in words.split(|b| *b == b' ') {
        names.push(Name::from_bytes(alloc, word)?)?;
    }
    Ok(names)
}

fn component(alloc: Global, words: &[u8]) -> Result<Component, AllocError> {
    let mut deps = Items::new(alloc);
    let mut name = Name::from_bytes(alloc, b"")?;
    for (i, word) in names(alloc, words)?.as_slice().iter().enumerate() {
        if i == 0 {
            name = word.copied(alloc)?;
        } else {
            deps.push(word.copied(alloc)?)?;
        }
    }
    Ok(Component {
        name,
        executable: false,
        exposed: Items::new(alloc),
        other: Items::new(alloc),
        main_is: Path::from_bytes(alloc, b"")?,
        signatures: Items::new(alloc),
        reexports: Items::new(alloc),
        deps,
        mixins: Items::new(alloc),
        dirs: Items::new(alloc),
        file: Path::from_bytes(alloc, b"")?,
    })
}

fn components(alloc: Global, row: &[u8]) -> Result<Components, AllocError> {
    let mut all = Items::new(alloc);
    for words in row.split(|b| *b == b';') {
        all.push(component(alloc, words)?)?;
    }
    Ok(all)
}

fn push_word(out: &mut Vec<u8>, word: &[u8]) -> Result<(), AllocError> {
    if !out.is_empty() {
        out.push(b' ')?;
    }
    let word = if word.is_empty() {
        b"-".as_slice()
    } else {
        word
    };
    out.extend_from_slice(word)?;
    Ok(())
}

/// An answer, as a row has it.
fn shown(alloc: Global, answer: &Result<Names, Refusal>) -> Result<Vec<u8>, AllocError> {
    let mut out = Vec::new(alloc);
    match answer {
        Ok(order) => {
            for name in order.as_slice() {
                push_word(&mut out, name.as_bytes())?;
            }
        }
        Err(Refusal::Defect { defect }) => {
            out.push(b'0' + defect_code(&defect.code))?;
            push_word(&mut out, defect.place.component.as_bytes())?;
            match &defect.place.item {
                Item::Named { occ } => push_word(&mut out, occ.as_bytes())?,
                _ => push_word(&mut out, b"")?,
            }
        }
        Err(_) => {}
    }
    Ok(out)
}

#[test]
fn rows(rt: HostRuntime) -> Result<(), Fail> {
    let alloc = rt.alloc();
    for (row, target, wanted) in ROWS {
        let components = components(alloc, row)?;
        let target = Name::from_bytes(alloc, target)?;
        let answer = build_order(alloc, components.as_slice(), &target);
        let found = shown(alloc, &answer)?;
        assert_eq!(rt; found.as_slice(), wanted);
    }
    Ok(())
}
