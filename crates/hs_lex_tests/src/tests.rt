//! Sources with their tokens.
use hs_lex::*;
use hs_tokens::{Token, TokenKind};
use std::alloc::Global;
use std::process::Abort;
use std::test::Fail;

#[derive(Clone, Copy)]
/// A token that is wanted: its kind, text, offset, column, and whether it is the first on its line.
struct Wanted {
    kind: TokenKind,
    text: &'static [u8],
    offset: u64,
    column: u64,
    first: bool,
}

/// Whether the token is the one that is wanted.
fn is_wanted(token: &Token, wanted: &Wanted) -> bool {
    token.kind == wanted.kind
        && token.text.as_bytes() == wanted.text
        && token.offset == wanted.offset
        && token.column == wanted.column
        && token.first == wanted.first
}

/// Whether the tokens are those that are wanted.
fn are_wanted(tokens: &[Token], wanted: &[Wanted]) -> bool {
    if tokens.len() != wanted.len() {
        return false;
    }
    for (token, want) in tokens.iter().zip(wanted.iter()) {
        if !is_wanted(token, want) {
            return false;
        }
    }
    true
}

fn expected(kind: TokenKind, text: &'static [u8], offset: u64, column: u64, first: bool) -> Wanted {
    Wanted {
        kind,
        text,
        offset,
        column,
        first,
    }
}

/// The number of tokens, if the source has some.
fn count_of(alloc: Global, source: &[u8]) -> Option<usize> {
    match lex(alloc, source) {
        Ok(tokens) => Some(tokens.len()),
        Err(_) => None,
    }
}

/// Whether the whole source is one token of this kind.
fn is_one(alloc: Global, source: &[u8], kind: TokenKind) -> bool {
    match lex(alloc, source) {
        Ok(tokens) => match tokens.get(0) {
            Some(token) => tokens.len() == 1
                && token.kind == kind
                && token.text.as_bytes() == source,
            None => false,
        },
        Err(_) => false,
    }
}

/// Whether the source is refused so.
fn is_refused(alloc: Global, source: &[u8], error: LexError) -> bool {
    match lex(alloc, source) {
        Ok(_) => false,
        Err(found) => found == error,
    }
}

#[test]
fn tokens_stand_at_their_places(rt: HostRuntime) -> Result<(), Fail> {
    let alloc = rt.alloc();
    let tokens = lex(alloc, b"x = 1")?;
    let want = [
        expected(TokenKind::Var, b"x", 0, 1, true),
        expected(TokenKind::Reserved, b"=", 2, 3, false),
        expected(TokenKind::Integer, b"1", 4, 5, false),
    ];
    assert!(rt; are_wanted(tokens.as_slice(), want.as_slice()));
    // a tab, each line end, a character past ASCII, a comment before a token, a gap
    let tokens = lex(
        alloc,
        b"\ta\r\n b\x0cc\r{- \xc3\xa9 -} d '\xc3\xa9' e\n\"p\\\n  \\q\" f",
    )?;
    let want = [
        expected(TokenKind::Var, b"a", 1, 9, true),
        expected(TokenKind::Var, b"b", 5, 2, true),
        expected(TokenKind::Var, b"c", 7, 1, true),
        expected(TokenKind::Var, b"d", 18, 9, true),
        expected(TokenKind::Char, b"'\xc3\xa9'", 20, 11, false),
        expected(TokenKind::Var, b"e", 25, 15, false),
        expected(TokenKind::Text, b"\"p\\\n  \\q\"", 27, 1, true),
        expected(TokenKind::Var, b"f", 37, 7, false),
    ];
    assert!(rt; are_wanted(tokens.as_slice(), want.as_slice()));
    one_cover();
    one_answer();
    Ok(())
}

#[test]
fn names_are_whole_runs(rt: HostRuntime) -> Result<(), Fail> {
    let alloc = rt.alloc();
    let tokens = lex(alloc, b"M.N.x M.where M.-> M.+ M... :+ M.N.T")?;
    let want = [
        expected(TokenKind::Var, b"M.N.x", 0, 1, true),
        expected(TokenKind::Con, b"M", 6, 7, false),
        expected(TokenKind::VarSym, b".", 7, 8, false),
        expected(TokenKind::Reserved, b"where", 8, 9, false),
        expected(TokenKind::Con, b"M", 14, 15, false),
        expected(TokenKind::VarSym, b".->", 15, 16, false),
        expected(TokenKind::VarSym, b"M.+", 19, 20, false),
        expected(TokenKind::Con, b"M", 23, 24, false),
        expected(TokenKind::VarSym, b"...", 24, 25, false),
        expected(TokenKind::ConSym, b":+", 28, 29, false),
        expected(TokenKind::Con, b"M.N.T", 31, 32, false),
    ];
    assert!(rt; are_wanted(tokens.as_slice(), want.as_slice()));
    assert_eq!(rt;
        count_of(
            alloc,
            b"module M where -- all\n{- a {- b -} c -} x --> y |-- z"
        ),
        Some(8)
    );
    assert_eq!(rt; count_of(alloc, b"0x1fg 1.x 1e+ 0o8 0b1"), Some(12));
    assert_eq!(rt; count_of(alloc, b""), Some(0));
    Ok(())
}

#[test]
fn literals_are_single_tokens(rt: HostRuntime) -> Result<(), Fail> {
    let alloc = rt.alloc();
    assert!(rt; is_one(alloc, b"9223372036854775807", TokenKind::Integer));
    assert!(rt; is_one(alloc, b"0x7fffffffffffffff", TokenKind::Integer));
    assert!(rt; is_one(alloc, b"0O777", TokenKind::Integer));
    assert!(rt; is_one(alloc, b"'\\SOH'", TokenKind::Char));
    assert!(rt; is_one(alloc, b"'\\1114111'", TokenKind::Char));
    assert!(rt; is_one(alloc, b"'\"'", TokenKind::Char));
    assert!(rt;
        is_one(
            alloc,
            b"\"\\a\\b\\f\\n\\r\\t\\v\\\\\\\"\\'\\&\\^A\\^_\\^@\"",
            TokenKind::Text
        )
    );
    assert!(rt;
        is_one(
            alloc,
            b"\"\\NUL\\SOH\\STX\\ETX\\EOT\\ENQ\\ACK\\BEL\\BS\\HT\\LF\\VT\\FF\\CR\\SO\\SI\"",
            TokenKind::Text
        )
    );
    assert!(rt;
        is_one(
            alloc,
            b"\"\\DLE\\DC1\\DC2\\DC3\\DC4\\NAK\\SYN\\ETB\\CAN\\EM\\SUB\\ESC\\FS\\GS\\RS\\US\\SP\\DEL\"",
            TokenKind::Text
        )
    );
    assert!(rt;
        is_one(
            alloc,
            b"\"\\55296 \\o4177777 \\x10FFFF' \\ \t\x0b\r\n\x0c\\\"",
            TokenKind::Text
        )
    );
    Ok(())
}

#[test]
fn the_first_fault_is_answered(rt: HostRuntime) -> Result<(), Fail> {
    let alloc = rt.alloc();
    assert!(rt; is_refused(alloc, b"x = {-", LexError::Lexical { offset: 4 }));
    assert!(rt; is_refused(alloc, b"do", LexError::LeftOut { offset: 0 }));
    assert!(rt; is_refused(alloc, b"1.5", LexError::LeftOut { offset: 0 }));
    assert!(rt; is_refused(alloc, b"M.do \"", LexError::LeftOut { offset: 2 }));
    assert!(rt; is_refused(alloc, b"x \" do", LexError::Lexical { offset: 2 }));
    assert!(rt;
        is_refused(
            alloc,
            b" 9223372036854775808",
            LexError::Lexical { offset: 1 }
        )
    );
    assert!(rt; is_refused(alloc, b"x \xc3\xa9", LexError::Lexical { offset: 2 }));
    assert!(rt; is_refused(alloc, b"x -- \xff\ny", LexError::Lexical { offset: 2 }));
    assert!(rt; is_refused(alloc, b"''", LexError::Lexical { offset: 0 }));
    assert!(rt; is_refused(alloc, b"'ab'", LexError::Lexical { offset: 0 }));
    assert!(rt; is_refused(alloc, b"'\\1114112'", LexError::Lexical { offset: 0 }));
    assert!(rt; is_refused(alloc, b"'\\&'", LexError::Lexical { offset: 0 }));
    assert!(rt; is_refused(alloc, b"\"\\q\"", LexError::Lexical { offset: 0 }));
    assert!(rt; is_refused(alloc, b"\"\t\"", LexError::Lexical { offset: 0 }));
    assert!(rt; is_refused(alloc, b"x\x01", LexError::Lexical { offset: 1 }));
    Ok(())
}
