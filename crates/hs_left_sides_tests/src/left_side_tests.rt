use bp_base::Bytes;
use hs_forms::Fault;
use hs_left_forms::LeftSide;
use hs_left_sides::read_left_side;
use hs_readers::Read;
use hs_tokens::{Token, TokenKind, Tokens, terminals_of};
use sqlite_items::Items;
use std::alloc::{AllocError, Global};
use std::test::Fail;

fn kind_of(word: &[u8]) -> TokenKind {
    match word {
        b"=" | b"|" | b":" | b"@" | b"~" | b"_" | b"->" | b"::" => TokenKind::Reserved,
        b"(" | b")" | b"," | b"[" | b"]" | b"{" | b"}" | b";" | b"`" => TokenKind::Special,
        [b'A'..=b'Z', ..] => TokenKind::Con,
        [b'a'..=b'z', ..] => TokenKind::Var,
        [b'0'..=b'9', ..] => TokenKind::Integer,
        [b':', ..] => TokenKind::ConSym,
        _ => TokenKind::VarSym,
    }
}

fn tokens_of(alloc: Global, text: &str) -> Result<Tokens, AllocError> {
    let mut all = Items::new(alloc);
    for word in text.split_ascii_whitespace() {
        let word = word.as_bytes();
        all.push(Token {
            kind: kind_of(word),
            text: Bytes::from_bytes(alloc, word)?,
            offset: 0,
            column: 0,
            first: false,
        })?;
    }
    Ok(all)
}

/// Which kind of left side was read.
fn name_of(side: &LeftSide) -> &'static str {
    match side {
        LeftSide::Function(_) => "function",
        LeftSide::Pattern(_) => "pattern",
    }
}

/// How many tokens were read as what, or the index of the refusal.
fn spelled(
    alloc: Global,
    count: usize,
    read: Result<Read<'_, LeftSide>, Fault>,
) -> Result<String, AllocError> {
    match read {
        Ok(read) => {
            let seen = count.saturating_sub(read.rest.len());
            let name = name_of(&read.tree);
            format!(in alloc; "{name} {seen}")
        }
        Err(Fault::At(left)) => {
            let index = count.saturating_sub(left);
            format!(in alloc; "refused {index}")
        }
        Err(Fault::NoMemory) => format!(in alloc; "memory"),
    }
}

/// Whether a row is right: an answer within a depth of 2, and the words that have it.
fn is_right(alloc: Global, row: &str) -> Result<bool, AllocError> {
    let (want, text) = row.split_once('|').unwrap_or(("", ""));
    let tokens = tokens_of(alloc, text)?;
    let terminals = terminals_of(alloc, &tokens)?;
    let found = spelled(
        alloc,
        terminals.len(),
        read_left_side(alloc, terminals.as_slice(), Some(2)),
    )?;
    Ok(found.as_str() == want.trim_end())
}

/// The first row that is not right.
fn wrong_row<'a>(alloc: Global, rows: &'a str) -> Result<&'a str, AllocError> {
    for row in rows.lines() {
        if !is_right(alloc, row)? {
            return Ok(row);
        }
    }
    Ok("")
}

#[test]
fn left_sides(rt: HostRuntime) -> Result<(), Fail> {
    let alloc = rt.alloc();
    let rows = "\
function 3|f x y
function 3|f x y = z
function 4|( + ) x
function 3|x + y
function 5|x ` f ` y
function 4|- 1 + y
function 3|x - 1
function 4|x - - 1
function 5|x @ p + y
function 4|C x + y
function 6|( x + y ) z
function 8|( ( f x ) y ) z
function 6|( C x ) + y
function 5|( f x ) y = z
pattern 1|x
pattern 3|( x )
pattern 3|x @ y
pattern 3|x : xs
pattern 5|x ` C ` y
pattern 5|( a , b )
pattern 3|( + )
pattern 2|- 1
pattern 2|C x
pattern 5|( x : y )
pattern 2|~ x
pattern 1|x = y
refused 0|
refused 0|= x
refused 1|- x
refused 1|(
refused 2|f @
refused 2|x +
refused 2|x + = z
refused 3|x + y + z
refused 2|f x : y
refused 3|x : y + z
refused 2|x ` 1
refused 3|x ` f y
refused 4|x ` f `
refused 2|f x + y
refused 2|x : =
refused 4|( f x )
refused 5|( x + y )
refused 5|( x + y ) = z
refused 3|( x ) y
refused 3|( x y + z
refused 4|( x + y , z )
refused 5|( x : y ) z
refused 3|( f x , y )
refused 3|( ( ( x
refused 2|~ ~ ~ x
";
    let wrong = wrong_row(alloc, rows)?;
    assert_eq!(rt; wrong, "");
    Ok(())
}
