//! Chains of operators, and how they are read.
//!
//! A row has a chain and its reading, or `none`. A digit is an operand, `-` a sign, and `l6`, `r5` and `n4` are operators with
//! their fixities. Behind `<` stands the operator of a left section, before `>` that of a right one. A reading has round
//! brackets about what an operator is applied to, and square ones about a negation.
use bp_base::{Assoc, Fixity};
use chain_readings::{Operator, Piece, ReadError, Reading, left_section, reading, right_section};
use std::alloc::{AllocError, Global};
use std::test::Fail;

fn digit(byte: u8) -> u8 {
    if byte.is_ascii_digit() {
        byte - b'0'
    } else {
        0
    }
}

fn fixity(assoc: u8, level: u8) -> Fixity {
    let assoc = match assoc {
        b'l' => Assoc::Left,
        b'r' => Assoc::Right,
        _ => Assoc::Neither,
    };
    Fixity {
        assoc,
        level: digit(level),
    }
}

fn operator(assoc: u8, level: u8) -> Operator {
    Operator {
        index: 0,
        fixity: fixity(assoc, level),
    }
}

fn pieces(alloc: Global, text: &[u8]) -> Result<Vec<Piece>, AllocError> {
    let mut all = Vec::new(alloc);
    let mut assoc = None;
    for byte in text {
        match (assoc, *byte) {
            (None, b'-') => all.push(Piece::Minus)?,
            (None, b'l' | b'r' | b'n') => assoc = Some(*byte),
            (None, _) => all.push(Piece::Operand(digit(*byte) as usize))?,
            (Some(letter), level) => {
                all.push(Piece::Operator(operator(letter, level)))?;
                assoc = None;
            }
        }
    }
    Ok(all)
}

fn show_fixity(out: &mut Vec<u8>, fixity: Fixity) -> Result<(), AllocError> {
    let letter = match fixity.assoc {
        Assoc::Left => b'l',
        Assoc::Right => b'r',
        Assoc::Neither => b'n',
    };
    out.push(letter)?;
    out.push(b'0' + fixity.level % 10)?;
    Ok(())
}

fn show(out: &mut Vec<u8>, reading: &Reading) -> Result<(), AllocError> {
    match reading {
        Reading::Operand(index) => out.push(b'0' + (*index % 10) as u8)?,
        Reading::Negate(arg) => {
            out.push(b'[')?;
            out.push(b'-')?;
            show(out, arg.get())?;
            out.push(b']')?;
        }
        Reading::Apply {
            operator,
            left,
            right,
        } => {
            out.push(b'(')?;
            show(out, left.get())?;
            show_fixity(out, operator.fixity)?;
            show(out, right.get())?;
            out.push(b')')?;
        }
    }
    Ok(())
}

/// What stands before the byte, and behind it.
fn cut(text: &[u8], at: u8) -> Option<(&[u8], &[u8])> {
    match text.iter().position(|b| *b == at) {
        Some(i) => Some((&text[..i], &text[i + 1..])),
        None => None,
    }
}

fn fixity_of(text: &[u8]) -> Fixity {
    match text {
        [assoc, level] => fixity(*assoc, *level),
        _ => fixity(b'l', b'9'),
    }
}

fn read(alloc: Global, text: &[u8]) -> Result<Reading, ReadError> {
    if let Some((chain, operator)) = cut(text, b'<') {
        let chain = pieces(alloc, chain)?;
        return left_section(alloc, chain.as_slice(), fixity_of(operator));
    }
    if let Some((operator, chain)) = cut(text, b'>') {
        let chain = pieces(alloc, chain)?;
        return right_section(alloc, fixity_of(operator), chain.as_slice());
    }
    let chain = pieces(alloc, text)?;
    reading(alloc, chain.as_slice())
}

fn is_right(alloc: Global, row: &[u8]) -> Result<bool, AllocError> {
    let Some((text, wanted)) = cut(row, b'|') else {
        return Ok(false);
    };
    match read(alloc, text) {
        Ok(tree) => {
            let mut out = Vec::new(alloc);
            show(&mut out, &tree)?;
            Ok(out.as_slice() == wanted)
        }
        Err(_) => Ok(wanted == b"none".as_slice()),
    }
}

/// How many rows are right, before the first that is not.
fn right_rows(alloc: Global, table: &[u8]) -> Result<u64, AllocError> {
    let mut right = 0;
    for row in table.split(|b| *b == b'\n') {
        if !is_right(alloc, row)? {
            return Ok(right);
        }
        if right < 1000 {
            right += 1;
        }
    }
    Ok(right)
}

const TABLE: &str = "0|0
0l61l62|((0l61)l62)
0r51r52|(0r5(1r52))
0n41n42|none
0l61r62|none
0r61l62|none
0l71l62|((0l71)l62)
0l61l72|(0l6(1l72))
0r01r52|(0r0(1r52))
0r51r02|((0r51)r02)
-0|[-0]
-0l61|([-0]l61)
-0l71|[-(0l71)]
-0r61|none
-0n41|([-0]n41)
0l6-1|none
0l7-1|none
0n4-1|(0n4[-1])
--0|none
0l6|none
l60|none
01|none
|none
0l61<l6|(0l61)
0l61<l7|none
0r51<r5|none
-0<l6|[-0]
-0<l7|none
l6>0l71|(0l71)
l7>0l61|none
r5>0r51|(0r51)
l6>0l61|none
r5>-0|[-0]
r6>-0|none";

#[test]
fn chains_are_read(rt: HostRuntime) -> Result<(), Fail> {
    let right = right_rows(rt.alloc(), TABLE.as_bytes())?;
    assert_eq!(rt; right, 34);
    Ok(())
}
