use bp_base::Bytes;
use hs_declarations::{read_kinded, read_synonym};
use hs_forms::Fault;
use hs_readers::Read;
use hs_tokens::{Terminal, Token, TokenKind, Tokens, terminals_of};
use sqlite_items::Items;
use std::alloc::{AllocError, Global};
use std::test::Fail;

fn kind_of(word: &[u8]) -> TokenKind {
    match word {
        b"type" | b"data" | b"=" | b"->" | b"::" => TokenKind::Reserved,
        b"(" | b")" | b"," | b"[" | b"]" => TokenKind::Special,
        [b'A'..=b'Z', ..] => TokenKind::Con,
        [b'a'..=b'z', ..] => TokenKind::Var,
        _ => TokenKind::VarSym,
    }
}

fn tokens_of(alloc: Global, text: &str) -> Result<Tokens, AllocError> {
    let mut all = Items::new(alloc);
    for word in text.split_ascii_whitespace() {
        let word = word.as_bytes();
        all.push(Token {
            kind: kind_of(word),
            text: Bytes::from_bytes(alloc, word)?,
            offset: 0,
            column: 0,
            first: false,
        })?;
    }
    Ok(all)
}

/// Which reader reads.
#[derive(Clone, Copy)]
enum Part {
    Synonym,
    Kinded,
}

/// How many tokens were read, or the index of the refusal.
fn spelled<T: Drop>(
    alloc: Global,
    count: usize,
    read: Result<Read<'_, T>, Fault>,
) -> Result<String, AllocError> {
    match read {
        Ok(read) => {
            let seen = count.saturating_sub(read.rest.len());
            format!(in alloc; "reads {seen}")
        }
        Err(Fault::At(left)) => {
            let index = count.saturating_sub(left);
            format!(in alloc; "refused {index}")
        }
        Err(Fault::NoMemory) => format!(in alloc; "memory"),
    }
}

/// The answer within a depth of 1.
fn answer_for(alloc: Global, part: Part, terminals: &[Terminal]) -> Result<String, AllocError> {
    let count = terminals.len();
    match part {
        Part::Synonym => spelled(alloc, count, read_synonym(alloc, terminals, Some(1))),
        Part::Kinded => spelled(alloc, count, read_kinded(alloc, terminals, Some(1))),
    }
}

/// Whether a row is right: an answer, and the words that have it.
fn is_right(alloc: Global, part: Part, row: &str) -> Result<bool, AllocError> {
    let (want, text) = row.split_once('|').unwrap_or(("", ""));
    let tokens = tokens_of(alloc, text)?;
    let terminals = terminals_of(alloc, &tokens)?;
    let found = answer_for(alloc, part, terminals.as_slice())?;
    Ok(found.as_str() == want.trim_end())
}

/// The first row that is not right.
fn wrong_row<'a>(alloc: Global, part: Part, rows: &'a str) -> Result<&'a str, AllocError> {
    for row in rows.lines() {
        if !is_right(alloc, part, row)? {
            return Ok(row);
        }
    }
    Ok("")
}

#[test]
fn synonyms(rt: HostRuntime) -> Result<(), Fail> {
    let alloc = rt.alloc();
    let rows = "\
reads 4|type T = U
reads 6|type T a b = a
reads 8|type T a = M.U [ a ]
reads 6|type T = a -> b
reads 4|type T = U = V
refused 0|
refused 0|data T = U
refused 1|type
refused 1|type t = U
refused 1|type M.T = U
refused 2|type T
refused 2|type T ( a )
refused 3|type T a
refused 3|type T a B
refused 3|type T = =
refused 4|type T a =
refused 5|type T = a ->
refused 6|type T = a -> b -> c
";
    let wrong = wrong_row(alloc, Part::Synonym, rows)?;
    assert_eq!(rt; wrong, "");
    Ok(())
}

#[test]
fn types_with_a_kind(rt: HostRuntime) -> Result<(), Fail> {
    let alloc = rt.alloc();
    let rows = "\
reads 4|data T :: *
reads 6|data T :: * -> *
reads 6|data T :: ( * )
reads 4|data T :: * *
refused 0|
refused 0|type T = U
refused 1|data
refused 1|data M.T :: *
refused 2|data T
refused 2|data T a :: *
refused 2|data T = U
refused 3|data T :: U
refused 5|data T :: * ->
refused 6|data T :: * -> * -> *
";
    let wrong = wrong_row(alloc, Part::Kinded, rows)?;
    assert_eq!(rt; wrong, "");
    Ok(())
}
