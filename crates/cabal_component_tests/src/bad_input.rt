//! Bytes that nobody writes: whatever a file holds, it is answered.
use crate::shown::{Asked, answer, refused};
use std::alloc::{AllocError, Global};
use std::test::Fail;

/// A text with a part repeated between its ends.
fn repeated(
    alloc: Global,
    front: &[u8],
    part: &[u8],
    count: usize,
    back: &[u8],
) -> Result<Vec<u8>, AllocError> {
    let mut text = front.to_vec(alloc)?;
    for _ in 0..count {
        text.extend_from_slice(part)?;
    }
    text.extend_from_slice(back)?;
    Ok(text)
}

/// The refused line of a library's field whose value has a part repeated, or 0.
fn refused_field(
    alloc: Global,
    front: &[u8],
    part: &[u8],
    count: usize,
) -> Result<u64, AllocError> {
    let mut head = b"name: p\nlibrary\n  ".to_vec(alloc)?;
    head.extend_from_slice(front)?;
    refused(alloc, &repeated(alloc, &head, part, count, b"\n")?)
}

#[test]
fn brackets_are_answered(rt: HostRuntime) -> Result<(), Fail> {
    let alloc = rt.alloc();
    assert_eq!(rt; refused_field(alloc, b"mixins: d ", b"(", 100_000)?, 3);
    assert_eq!(rt; refused_field(alloc, b"mixins: ", b"d (A, ", 100_000)?, 3);
    assert_eq!(rt; refused_field(alloc, b"mixins: ", b")", 100_000)?, 3);
    assert_eq!(rt;
        refused_field(alloc, b"build-depends: d ==", b"{1, ", 100_000)?,
        0
    );
    assert_eq!(rt;
        refused_field(alloc, b"build-depends: d ==", b"}, d", 100_000)?,
        3
    );
    assert_eq!(rt;
        refused_field(alloc, b"build-depends: d =={1, 2}, e (", b")", 100_000)?,
        0
    );
    Ok(())
}

#[test]
fn long_lists_are_answered(rt: HostRuntime) -> Result<(), Fail> {
    let alloc = rt.alloc();
    assert_eq!(rt; refused_field(alloc, b"build-depends: ", b",", 100_000)?, 3);
    assert_eq!(rt;
        refused_field(alloc, b"exposed-modules: ", b",", 100_000)?,
        0
    );
    assert_eq!(rt;
        refused_field(alloc, b"exposed-modules: ", b"A,", 10_000)?,
        3
    );
    assert_eq!(rt; refused_field(alloc, b"build-depends: ", b"d,", 10_000)?, 0);
    assert_eq!(rt; refused_field(alloc, b"mixins: ", b"d (A),", 10_000)?, 0);
    assert_eq!(rt;
        refused_field(alloc, b"hs-source-dirs: ", b"./a/,", 10_000)?,
        0
    );
    Ok(())
}

#[test]
fn a_mebibyte_is_answered(rt: HostRuntime) -> Result<(), Fail> {
    let alloc = rt.alloc();
    let spaces = repeated(alloc, b"", b" ", 1_048_576, b"")?;
    assert_eq!(rt; refused(alloc, &spaces)?, 1);
    let none = answer(alloc, Asked::Project, &spaces)?;
    assert!(rt; none.as_slice() == b"|".as_slice());
    let inside = repeated(
        alloc,
        b"name: p\nlibrary\n  build-depends: a",
        b" ",
        1_048_576,
        b", b\n",
    )?;
    assert_eq!(rt; refused(alloc, &inside)?, 0);
    let lines = repeated(alloc, b"name: p\n", b"library\n", 131_072, b"")?;
    assert_eq!(rt; refused(alloc, &lines)?, 0);
    let bytes = repeated(alloc, b"name: p\n", b"\xff", 1_048_576, b"")?;
    assert_eq!(rt; refused(alloc, &bytes)?, 2);
    Ok(())
}
