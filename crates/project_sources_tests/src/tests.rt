use bp_base::{Bytes, Defect, Item, Path, defect_code};
use bp_checks::Stop;
use bp_edges::{Calls, File, Files, MemTree};
use cabal_component::Components;
use project_sources::{
    Input, Package, gathered, package_files, read_files, read_packages, told_apart, whole_file,
};
use sqlite_items::Items;
use std::alloc::{AllocError, Global};
use std::process::Abort;
use std::test::Fail;

/// Each row: files between `|`, as path, `~` and content; how many bytes were read before; the reading that fails; and the names of
/// components, or the code of what is refused with the component and the item that it names, or `limit`, or `fault`.
const ROWS: [(&[u8], u64, u64, &[u8]); 12] = [
    (
        b"cabal.project~packages: a|a/a.cabal~name: a\nlibrary\n",
        0,
        9,
        b"a",
    ),
    (
        b"cabal.project~packages: a b|a/a.cabal~name: a\nlibrary\n|b/b.cabal~name: b\nlibrary\nlibrary s\n",
        0,
        9,
        b"a b b:s",
    ),
    (b"", 0, 9, b"6 - cabal.project"),
    (b"cabal.project~packages: .\n", 0, 9, b"1 - 1"),
    (
        b"cabal.project~packages: a b|a/a.cabal~name: a\nlibrary\n",
        0,
        9,
        b"6 - b/b.cabal",
    ),
    (
        b"cabal.project~packages: a b|a/a.cabal~library\n",
        0,
        9,
        b"2 a/a.cabal 1",
    ),
    (
        b"cabal.project~packages: a a|a/a.cabal~name: a\nlibrary\n",
        0,
        9,
        b"4 a -",
    ),
    (
        b"cabal.project~packages: base|base/base.cabal~name: base\nlibrary s\n",
        0,
        9,
        b"4 base:s -",
    ),
    (
        b"cabal.project~packages: a|a/a.cabal~name: a\nlibrary\n",
        33554432,
        9,
        b"limit",
    ),
    (
        b"cabal.project~packages: a|a/a.cabal~name: a\nlibrary\n",
        33554410,
        9,
        b"limit",
    ),
    (
        b"cabal.project~packages: a|a/a.cabal~name: a\nlibrary\n",
        0,
        0,
        b"fault",
    ),
    (
        b"cabal.project~packages: a|a/a.cabal~name: a\nlibrary\n",
        0,
        1,
        b"fault",
    ),
];

/// Each row: files, how many bytes were read before, and the paths of the sources of the first component, or what is refused, as above.
const SOURCES: [(&[u8], u64, &[u8]); 7] = [
    (
        b"cabal.project~packages: a|a/a.cabal~name: a\nlibrary\n signatures: H\n other-modules: A.B\n exposed-modules: M\n hs-source-dirs: s .\n|a/s/M.hs~m|a/M.hs~n|a/A/B.hs~b|a/H.hsig~h",
        0,
        b"a/H.hsig a/s/M.hs a/A/B.hs",
    ),
    (
        b"cabal.project~packages: a.cabal|a.cabal~name: a\nexecutable e\n main-is: app/Go.hs\n other-modules: M\n|M.hs~m|app/Go.hs~g",
        0,
        b"M.hs app/Go.hs",
    ),
    (
        b"cabal.project~packages: a|a/a.cabal~name: a\nlibrary\n exposed-modules: M\n hs-source-dirs: s t\n|a/M.hs~m",
        0,
        b"6 a a/s/M.hs",
    ),
    (
        b"cabal.project~packages: a|a/a.cabal~name: a\nlibrary\n exposed-modules: M N\n|a/M.hs~12345|a/N.hs~1",
        33554427,
        b"limit",
    ),
    (
        b"cabal.project~packages: a|a/a.cabal~name: a\nlibrary\n exposed-modules: M N\n|a/M.hs~12345|a/N.hs~1",
        33554426,
        b"a/M.hs a/N.hs",
    ),
    (
        b"cabal.project~packages: a|a/a.cabal~name: a\nlibrary\n exposed-modules: M N\n|a/M.hs~12345",
        33554428,
        b"limit",
    ),
    (
        b"cabal.project~packages: a|a/a.cabal~name: a\nlibrary\n",
        0,
        b"",
    ),
];

fn file(alloc: Global, part: &[u8]) -> Result<File, AllocError> {
    let mut path = Path::from_bytes(alloc, b"")?;
    let mut bytes = Bytes::from_bytes(alloc, b"")?;
    for (i, text) in part.split(|b| *b == b'~').enumerate() {
        if i == 0 {
            path = Path::from_bytes(alloc, text)?;
        } else {
            bytes = Bytes::from_bytes(alloc, text)?;
        }
    }
    Ok(File { path, bytes })
}

fn files(alloc: Global, row: &[u8]) -> Result<Files, AllocError> {
    let mut all = Vec::new(alloc);
    for part in row.split(|b| *b == b'|') {
        all.push(file(alloc, part)?)?;
    }
    Ok(Files::from_vec(all))
}

fn components(alloc: Global, packages: &[Package]) -> Result<Components, AllocError> {
    let mut all = Items::new(alloc);
    for package in packages {
        for component in package.components.as_slice() {
            all.push(component.copied(alloc)?)?;
        }
    }
    Ok(all)
}

fn read(alloc: Global, tree: &mut MemTree, seen: u64) -> Result<Components, Stop> {
    let path = Path::from_bytes(alloc, b"cabal.project")?;
    let content = whole_file(alloc, tree, &path, seen, b"", b"")?;
    let paths = package_files(alloc, content.as_bytes())?;
    let seen = seen.saturating_add(content.as_bytes().len() as u64);
    let packages = read_packages(alloc, tree, seen, paths.as_slice())?;
    let all = components(alloc, packages.as_slice())?;
    told_apart(alloc, all.as_slice())?;
    Ok(all)
}

fn read_whole(alloc: Global, tree: &mut MemTree) -> Result<Components, Stop> {
    let project = read_files(alloc, tree)?;
    Ok(components(alloc, project.packages.as_slice())?)
}

fn push_word(out: &mut Vec<u8>, word: &[u8]) -> Result<(), AllocError> {
    if !out.is_empty() {
        out.push(b' ')?;
    }
    let word = if word.is_empty() {
        b"-".as_slice()
    } else {
        word
    };
    out.extend_from_slice(word)?;
    Ok(())
}

fn push_defect(out: &mut Vec<u8>, defect: &Defect) -> Result<(), AllocError> {
    out.push(b'0' + defect_code(&defect.code) % 10)?;
    push_word(out, defect.place.component.as_bytes())?;
    match &defect.place.item {
        Item::Named { occ } => push_word(out, occ.as_bytes()),
        Item::Line { number } => push_word(out, &[b'0' + (*number % 10) as u8]),
        _ => push_word(out, b""),
    }
}

/// An answer, as a row has it.
fn shown(alloc: Global, answer: &Result<Components, Stop>) -> Result<Vec<u8>, AllocError> {
    let mut out = Vec::new(alloc);
    match answer {
        Ok(all) => {
            for component in all.as_slice() {
                push_word(&mut out, component.name.as_bytes())?;
            }
        }
        Err(Stop::Refused(defect)) => push_defect(&mut out, defect)?,
        Err(Stop::Limit(_)) => out.extend_from_slice(b"limit")?,
        Err(Stop::ReadFault) => out.extend_from_slice(b"fault")?,
        Err(Stop::NoMemory) => {}
    }
    Ok(out)
}

#[test]
fn rows(rt: HostRuntime) -> Result<(), Fail> {
    let alloc = rt.alloc();
    for (row, seen, fails, wanted) in ROWS {
        let calls = Calls::from_vec(vec![in alloc; fails]?);
        let mut tree = MemTree::new(files(alloc, row)?, calls);
        let answer = if seen == 0 {
            read_whole(alloc, &mut tree)
        } else {
            read(alloc, &mut tree, seen)
        };
        let found = shown(alloc, &answer)?;
        assert_eq!(rt; found.as_slice(), wanted);
    }
    Ok(())
}

/// The input of the first component.
fn gather_first(alloc: Global, tree: &mut MemTree, seen: u64) -> Result<Option<Input>, Stop> {
    let project = read_files(alloc, tree)?;
    match project.components.as_slice() {
        [first, ..] => Ok(Some(gathered(alloc, tree, seen, first)?)),
        [] => Ok(None),
    }
}

/// The paths of sources, or what is refused.
fn shown_sources(
    alloc: Global,
    answer: &Result<Option<Input>, Stop>,
) -> Result<Vec<u8>, AllocError> {
    let mut out = Vec::new(alloc);
    match answer {
        Ok(Some(input)) => {
            for source in input.sources.as_slice() {
                push_word(&mut out, source.path.as_bytes())?;
            }
        }
        Ok(None) | Err(Stop::NoMemory) => {}
        Err(Stop::Refused(defect)) => push_defect(&mut out, defect)?,
        Err(Stop::Limit(_)) => out.extend_from_slice(b"limit")?,
        Err(Stop::ReadFault) => out.extend_from_slice(b"fault")?,
    }
    Ok(out)
}

#[test]
fn sources_are_gathered(rt: HostRuntime) -> Result<(), Fail> {
    let alloc = rt.alloc();
    for (row, seen, wanted) in SOURCES {
        let mut tree = MemTree::new(files(alloc, row)?, Calls::new(alloc));
        let answer = gather_first(alloc, &mut tree, seen);
        let found = shown_sources(alloc, &answer)?;
        assert_eq!(rt; found.as_slice(), wanted);
    }
    Ok(())
}
