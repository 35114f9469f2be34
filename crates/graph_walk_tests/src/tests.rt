use graph_walk::{Node, Nodes, Numbers, Use, WalkError, post_order};
use sqlite_items::Items;
use std::alloc::{AllocError, Global};
use std::process::Abort;
use std::test::Fail;

/// Each row: the nodes from 0, between spaces, as the digits of what they use, `.` of nothing, `x` of a node that isn't there; the digits
/// of those to start from; and the order, or `cycle` with a node, or `absent` with a node and the one that asks.
const ROWS: [(&[u8], &[u8], &[u8]); 14] = [
    (b".", b"0", b"0"),
    (b"1 .", b"0", b"10"),
    (b"12 2 .", b"0", b"210"),
    (b"21 . .", b"0", b"210"),
    (b"12 3 3 .", b"0", b"3120"),
    (b". . .", b"20", b"20"),
    (b". 0 1", b"12", b"012"),
    (b"11 .", b"00", b"10"),
    (b"0", b"0", b"cycle 0"),
    (b"1 2 1", b"0", b"cycle 1"),
    (b"1 2 0", b"0", b"cycle 0"),
    (b"12 . x", b"0", b"absent 2 0"),
    (b"x", b"0", b"absent 0"),
    (b"2 7", b"01", b"absent 2 0"),
];

fn numbers(alloc: Global, word: &[u8]) -> Result<Numbers, AllocError> {
    let mut numbers = Items::new(alloc);
    for byte in word {
        if byte.is_ascii_digit() {
            numbers.push(u64::from(*byte - b'0'))?;
        }
    }
    Ok(numbers)
}

fn nodes(alloc: Global, row: &[u8]) -> Result<Nodes, AllocError> {
    let mut nodes = Items::new(alloc);
    for word in row.split(|b| *b == b' ') {
        let uses = numbers(alloc, word)?;
        let there = word.first() != Some(&b'x');
        nodes.push(Node { uses, there })?;
    }
    Ok(nodes)
}

fn push_digit(out: &mut Vec<u8>, number: u64) -> Result<(), AllocError> {
    out.push(b'0' + (number % 10) as u8)?;
    Ok(())
}

fn push_use(out: &mut Vec<u8>, wanted: Use) -> Result<(), AllocError> {
    push_digit(out, wanted.to)?;
    if let Some(by) = wanted.by {
        out.push(b' ')?;
        push_digit(out, by)?;
    }
    Ok(())
}

/// A walk's answer, as a row has it.
fn shown(alloc: Global, answer: &Result<Numbers, WalkError>) -> Result<Vec<u8>, AllocError> {
    let mut out = Vec::new(alloc);
    match answer {
        Ok(order) => {
            for number in order.as_slice() {
                push_digit(&mut out, *number)?;
            }
        }
        Err(WalkError::Cycle { at }) => {
            out.extend_from_slice(b"cycle ")?;
            push_digit(&mut out, *at)?;
        }
        Err(WalkError::Absent { wanted }) => {
            out.extend_from_slice(b"absent ")?;
            push_use(&mut out, *wanted)?;
        }
        Err(WalkError::NoMemory) => {}
    }
    Ok(out)
}

fn walked(alloc: Global, row: &[u8], starts: &[u8]) -> Result<Vec<u8>, AllocError> {
    let nodes = nodes(alloc, row)?;
    let starts = numbers(alloc, starts)?;
    let answer = post_order(alloc, nodes.as_slice(), starts.as_slice());
    shown(alloc, &answer)
}

#[test]
fn rows(rt: HostRuntime) -> Result<(), Fail> {
    let alloc = rt.alloc();
    for (row, starts, wanted) in ROWS {
        let found = walked(alloc, row, starts)?;
        assert_eq!(rt; found.as_slice(), wanted);
    }
    Ok(())
}

/// Each node uses the next.
fn chain(alloc: Global, count: u64) -> Result<Nodes, AllocError> {
    let mut nodes = Items::new(alloc);
    for number in 1..=count {
        let mut uses = Items::new(alloc);
        if number < count {
            uses.push(number)?;
        }
        nodes.push(Node { uses, there: true })?;
    }
    Ok(nodes)
}

#[test]
fn a_chain_of_a_hundred_thousand(rt: HostRuntime) -> Result<(), Fail> {
    let alloc = rt.alloc();
    let nodes = chain(alloc, 100_000)?;
    let order = post_order(alloc, nodes.as_slice(), &[0]);
    let Ok(order) = order else {
        return Err(Fail::from(AllocError));
    };
    assert_eq!(rt; order.len(), 100_000);
    assert_eq!(rt; order.as_slice().first(), Some(&99_999));
    Ok(())
}
