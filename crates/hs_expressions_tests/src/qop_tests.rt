use bp_base::Bytes;
use hs_expressions::{begins_exp, begins_qop, read_qop};
use hs_forms::Fault;
use hs_tokens::{Token, TokenKind, Tokens, terminals_of};
use sqlite_items::Items;
use std::alloc::{AllocError, Global};
use std::test::Fail;

fn kind_of(word: &[u8]) -> TokenKind {
    match word {
        b"->" | b":" | b"let" => TokenKind::Reserved,
        b"(" | b")" | b"`" => TokenKind::Special,
        b"M.x" => TokenKind::Var,
        b"M.+" => TokenKind::VarSym,
        b"M.:+" => TokenKind::ConSym,
        [b'A'..=b'Z', ..] => TokenKind::Con,
        [b'a'..=b'z', ..] => TokenKind::Var,
        [b':', ..] => TokenKind::ConSym,
        _ => TokenKind::VarSym,
    }
}

fn tokens_of(alloc: Global, text: &str) -> Result<Tokens, AllocError> {
    let mut all = Items::new(alloc);
    for word in text.split_ascii_whitespace() {
        all.push(Token {
            kind: kind_of(word.as_bytes()),
            text: Bytes::from_bytes(alloc, word.as_bytes())?,
            offset: 0,
            column: 0,
            first: false,
        })?;
    }
    Ok(all)
}

/// What a table writes of an answer: how many terminals are left behind an operator or at the refusal, and whether an
/// operator and an expression begin.
fn answer_of(alloc: Global, text: &str) -> Result<String, AllocError> {
    let tokens = tokens_of(alloc, text)?;
    let terminals = terminals_of(alloc, &tokens)?;
    let all = terminals.as_slice();
    let starts = begins_qop(all);
    let opens = begins_exp(all);
    match read_qop(alloc, all) {
        Ok(read) => format!(in alloc; "read {} {starts} {opens}", read.rest.len()),
        Err(Fault::At(left)) => format!(in alloc; "left {left} {starts} {opens}"),
        Err(Fault::NoMemory) => format!(in alloc; "memory"),
    }
}

/// Whether a row is right: an answer, and the words that have it.
fn is_right(alloc: Global, row: &str) -> Result<bool, AllocError> {
    let (want, text) = row.split_once('|').unwrap_or(("", ""));
    let found = answer_of(alloc, text)?;
    Ok(found.as_str() == want.trim_end())
}

/// The first row that is not right.
fn wrong_row(alloc: Global, rows: &str) -> Result<&str, AllocError> {
    for row in rows.lines() {
        if !is_right(alloc, row)? {
            return Ok(row);
        }
    }
    Ok("")
}

const OPERATORS: &str = "read 1 true false | + x
read 1 true true | - x
read 1 true false | M.+ x
read 1 true false | : x
read 1 true false | :+ x
read 1 true false | M.:+ x
read 1 true false | ` f ` x
read 1 true false | ` M.x ` x
read 1 true false | ` C ` x
left 2 true false | ` + `
left 1 true false | ` f x
left 0 true false | ` f
left 0 true false | `
left 0 false false |
left 1 false true | x
left 1 false true | let
left 1 false false | ->
left 2 false true | ( +";

#[test]
fn operators_and_their_refusals(rt: HostRuntime) -> Result<(), Fail> {
    let wrong = wrong_row(rt.alloc(), OPERATORS)?;
    assert_eq!(rt; wrong, "");
    Ok(())
}
