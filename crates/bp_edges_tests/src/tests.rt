use bp_base::{Bytes, Path};
use bp_edges::*;
use std::alloc::{AllocError, Global};
use std::fs;
use std::io::{self, Write};
use std::test::Fail;

fn path(alloc: Global, text: &[u8]) -> Result<Path, AllocError> {
    Path::from_bytes(alloc, text)
}

fn file(alloc: Global, at: &[u8], bytes: &[u8]) -> Result<File, AllocError> {
    let bytes = Bytes::from_bytes(alloc, bytes)?;
    Ok(File {
        path: path(alloc, at)?,
        bytes,
    })
}

/// Two files with one path, and another one.
fn three_files(alloc: Global) -> Result<Files, AllocError> {
    let mut items = Vec::new(alloc);
    items.push(file(alloc, b"a", b"first")?)?;
    items.push(file(alloc, b"a", b"second")?)?;
    items.push(file(alloc, b"b", b"")?)?;
    Ok(Files::from_vec(items))
}

fn is_text(found: &Option<Bytes>, text: &[u8]) -> bool {
    match found {
        Some(bytes) => bytes.as_bytes() == text,
        None => false,
    }
}

#[test]
fn trees_in_memory(rt: HostRuntime) -> Result<(), Fail> {
    let alloc = rt.alloc();
    let mut fails = Vec::new(alloc);
    fails.push(1)?;
    let mut tree = MemTree::new(three_files(alloc)?, Calls::from_vec(fails));
    assert!(rt; is_text(&tree.read(alloc, &path(alloc, b"a")?)?, b"first"));
    assert!(rt;
        matches!(
            tree.read(alloc, &path(alloc, b"a")?),
            Err(ReadError::Failed)
        )
    );
    assert!(rt; is_text(&tree.read(alloc, &path(alloc, b"b")?)?, b""));
    assert!(rt; tree.read(alloc, &path(alloc, b"c")?)?.is_none());
    let mut quiet = QuietTree::new(three_files(alloc)?);
    assert!(rt; is_text(&quiet.read(alloc, &path(alloc, b"a")?)?, b"first"));
    Ok(())
}

#[test]
fn a_keeper_in_memory(rt: HostRuntime) -> Result<(), Fail> {
    let alloc = rt.alloc();
    let mut keeper = QuietKeeper::new(three_files(alloc)?);
    let name = path(alloc, b"a")?;
    keeper.put(alloc, &name, &Bytes::from_bytes(alloc, b"new")?)?;
    assert!(rt; is_text(&keeper.get(alloc, &name)?, b"new"));
    assert!(rt; is_text(&keeper.get(alloc, &path(alloc, b"b")?)?, b""));
    assert!(rt; keeper.get(alloc, &path(alloc, b"c")?)?.is_none());
    Ok(())
}

#[test]
fn sinks_in_memory(rt: HostRuntime) -> Result<(), Fail> {
    let alloc = rt.alloc();
    let mut fails = Vec::new(alloc);
    fails.push(WriteFail { call: 1, take: 2 })?;
    fails.push(WriteFail { call: 2, take: 9 })?;
    fails.push(WriteFail { call: 3, take: 1 })?;
    let mut sink = MemSink::new(alloc, WriteFails::from_vec(fails));
    assert!(rt; sink.write_all(alloc, b"ab").is_ok());
    assert!(rt; matches!(sink.write_all(alloc, b"cde"), Err(WriteError::Failed)));
    assert!(rt; matches!(sink.write_all(alloc, b"xy"), Err(WriteError::Failed)));
    assert!(rt; sink.write_all(alloc, b"").is_ok());
    assert!(rt; sink.as_bytes() == b"abcdx".as_slice());
    let mut quiet = QuietSink::new(alloc);
    assert!(rt; quiet.write_all(alloc, b"ab").is_ok());
    assert!(rt; quiet.as_bytes() == b"ab".as_slice());
    Ok(())
}

/// Paths of no file, of which no file can have the last two.
const ABSENT: [&[u8]; 4] = [
    b"tree_test/N.hs",
    b"tree_test/M.hs/N.hs",
    b"tree_test/\xff",
    b"tree_test/M.hs\0",
];

#[test]
fn a_folder_is_read(rt: HostRuntime) -> Result<(), Fail> {
    let alloc = rt.alloc();
    // A folder that an earlier run left will do.
    let _ = fs::create_dir(&rt, "tree_test");
    fs::write(&rt, "tree_test/M.hs", "module M")?;
    let mut tree = FolderTree::new(&rt);
    assert!(rt;
        is_text(
            &tree.read(alloc, &path(alloc, b"tree_test/M.hs")?)?,
            b"module M"
        )
    );
    for name in ABSENT {
        assert!(rt; tree.read(alloc, &path(alloc, name)?)?.is_none());
    }
    let long = vec![in alloc; b'a'; 300]?;
    assert!(rt; tree.read(alloc, &path(alloc, &long)?)?.is_none());
    let folder = tree.read(alloc, &path(alloc, b"tree_test")?);
    assert!(rt; matches!(folder, Err(ReadError::Failed)));
    Ok(())
}

#[test]
fn a_folder_keeps(rt: HostRuntime) -> Result<(), Fail> {
    let alloc = rt.alloc();
    let mut keeper = FolderKeeper::new(&rt);
    let name = path(alloc, b"one.bpe")?;
    assert!(rt; keeper.get(alloc, &path(alloc, b"two.bpe")?)?.is_none());
    keeper.put(alloc, &name, &Bytes::from_bytes(alloc, b"longer")?)?;
    keeper.put(alloc, &name, &Bytes::from_bytes(alloc, b"new")?)?;
    assert!(rt; is_text(&keeper.get(alloc, &name)?, b"new"));
    Ok(())
}

/// Takes three bytes and then no more.
#[derive(Drop)]
struct Narrow {
    left: usize,
}

impl Write for Narrow {
    fn write(&mut self, bytes: &[u8]) -> io::Result<usize> {
        let count = bytes.len().min(self.left);
        self.left -= count;
        Ok(count)
    }

    fn flush(&mut self) -> io::Result<()> {
        Ok(())
    }
}

#[test]
fn a_stream_is_written(rt: HostRuntime) -> Result<(), Fail> {
    let alloc = rt.alloc();
    let mut sink = OutSink::new(fs::create(&rt, "out_test")?);
    assert!(rt; sink.write_all(alloc, b"module ").is_ok());
    assert!(rt; sink.write_all(alloc, b"M").is_ok());
    let written = fs::read_to_string(&rt, "out_test")?;
    assert!(rt; written.as_str() == "module M");
    let mut narrow = OutSink::new(Narrow { left: 3 });
    assert!(rt; narrow.write_all(alloc, b"ab").is_ok());
    assert!(rt; matches!(narrow.write_all(alloc, b"cd"), Err(WriteError::Failed)));
    assert!(rt; narrow.write_all(alloc, b"").is_ok());
    Ok(())
}
