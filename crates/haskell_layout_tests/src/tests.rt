use bp_base::Bytes;
use haskell_layout::*;
use hs_tokens::{Token, TokenKind, Tokens};
use sqlite_items::Items;
use std::alloc::{AllocError, Global};
use std::mem;
use std::test::Fail;

fn kind_of(word: &[u8]) -> TokenKind {
    match word {
        b"(" | b")" | b"[" | b"]" | b"{" | b"}" | b"," | b";" => TokenKind::Special,
        b"if" | b"then" | b"else" | b"case" | b"of" | b"let" | b"in" | b"where" | b"data" => {
            TokenKind::Reserved
        }
        b"\\" | b"|" | b"->" | b"=" | b"::" | b"<-" | b"module" | b"import" => TokenKind::Reserved,
        [b'0'..=b'9', ..] => TokenKind::Integer,
        [b'A'..=b'Z', ..] => TokenKind::Con,
        [b'a'..=b'z', ..] => TokenKind::Var,
        _ => TokenKind::VarSym,
    }
}

/// Reads tokens between spaces and line ends.
#[derive(Drop)]
struct Reader {
    out: Tokens,
    word: Vec<u8>,
    line: u64,
    start: u64,
    first: bool,
}

impl Reader {
    fn end_word(&mut self, alloc: Global) -> Result<(), AllocError> {
        if self.word.is_empty() {
            return Ok(());
        }
        let word = mem::replace(&mut self.word, Vec::new(alloc));
        self.out.push(Token {
            kind: kind_of(word.as_slice()),
            text: Bytes::from_vec(word),
            offset: self.start,
            column: self.start.saturating_sub(self.line).saturating_add(1),
            first: self.first,
        })?;
        self.first = false;
        Ok(())
    }

    fn read(&mut self, alloc: Global, at: u64, byte: u8) -> Result<(), AllocError> {
        match byte {
            b' ' => self.end_word(alloc),
            b'\n' => {
                self.end_word(alloc)?;
                self.line = at.saturating_add(1);
                self.first = true;
                Ok(())
            }
            _ => {
                if self.word.is_empty() {
                    self.start = at;
                }
                self.word.push(byte)?;
                Ok(())
            }
        }
    }
}

fn read(alloc: Global, source: &str) -> Result<Tokens, AllocError> {
    let mut reader = Reader {
        out: Items::new(alloc),
        word: Vec::new(alloc),
        line: 0,
        start: 0,
        first: true,
    };
    for (at, byte) in source.as_bytes().iter().enumerate() {
        reader.read(alloc, at as u64, *byte)?;
    }
    reader.end_word(alloc)?;
    let Reader {
        out,
        word: _,
        line: _,
        start: _,
        first: _,
    } = reader;
    Ok(out)
}

/// The tokens' texts, with a space between each two.
fn shown(alloc: Global, tokens: &Tokens) -> Result<Vec<u8>, AllocError> {
    let mut text = Vec::new(alloc);
    for token in tokens.as_slice() {
        if !text.is_empty() {
            text.push(b' ')?;
        }
        text.extend_from_slice(token.text.as_bytes())?;
    }
    Ok(text)
}

fn laid_out(alloc: Global, source: &str) -> Result<Tokens, LayoutError> {
    let tokens = read(alloc, source)?;
    layout(alloc, &tokens, source.len() as u64)
}

const BLOCKS: [(&str, &str); 10] = [
    ("let x = 1 in x", "{ let { x = 1 } in x }"),
    ("", "{ }"),
    (
        "module M where\nx :: Int\nx = 1\n",
        "module M where { x :: Int ; x = 1 }",
    ),
    ("signature A where\ndata T", "signature A where { data T }"),
    (
        "f x = case x of\n  A -> y\n  C -> 2\n  where y = 1\ng = 1",
        "{ f x = case x of { A -> y ; C -> 2 ; } where { y = 1 } ; g = 1 }",
    ),
    (
        "f = case x of\n  where y = 1",
        "{ f = case x of { } where { y = 1 } }",
    ),
    (
        "f = a where\ng = b where",
        "{ f = a where { } ; g = b where { } }",
    ),
    (
        "f = case x of\n   A -> case y of\n      B -> 1\n   C -> 2\ng = 3",
        "{ f = case x of { A -> case y of { B -> 1 } ; C -> 2 } ; g = 3 }",
    ),
    ("f = a where\n{ b = c }", "{ f = a where ; { b = c } }"),
    (
        "module M where { f = let { x = 1 } in x }",
        "module M where { f = let { x = 1 } in x }",
    ),
];

const CLOSING: [(&str, &str); 10] = [
    (
        "g x = ( case x of A -> 1 ; C -> 3 , 2 )",
        "{ g x = ( case x of { A -> 1 ; C -> 3 } , 2 ) }",
    ),
    (
        "( case x of y | a , b -> c , d )",
        "{ ( case x of { y | a , b -> c } , d ) }",
    ),
    ("[ case x of y , 2 ]", "{ [ case x of { y } , 2 ] }"),
    ("( [ case x of y ) ]", "{ ( [ case x of { y ) } ] }"),
    (
        "let x = case y of A -> case z of B -> 1 in x",
        "{ let { x = case y of { A -> case z of { B -> 1 } } } in x }",
    ),
    (
        "if a then case b of C -> d else e",
        "{ if a then case b of { C -> d } else e }",
    ),
    (
        "if case a of B -> c then d",
        "{ if case a of { B -> c } then d }",
    ),
    (
        "case case x of A -> B of C -> d",
        "{ case case x of { A -> B } of { C -> d } }",
    ),
    ("let x = ( y in z )", "{ let { x = ( y in z ) } }"),
    (
        "let { x = case y of A -> 1 } in x",
        "{ let { x = case y of { A -> 1 } } in x }",
    ),
];

#[test]
fn blocks_begin_and_end_by_columns(rt: HostRuntime) -> Result<(), Fail> {
    let alloc = rt.alloc();
    for (source, text) in BLOCKS {
        let tokens = laid_out(alloc, source)?;
        assert_eq!(rt;
            shown(alloc, &tokens)?.as_slice(),
            text.as_bytes(),
            "{source}"
        );
    }
    Ok(())
}

#[test]
fn closing_tokens_end_blocks(rt: HostRuntime) -> Result<(), Fail> {
    let alloc = rt.alloc();
    for (source, text) in CLOSING {
        let tokens = laid_out(alloc, source)?;
        assert_eq!(rt;
            shown(alloc, &tokens)?.as_slice(),
            text.as_bytes(),
            "{source}"
        );
    }
    Ok(())
}

#[test]
fn braces_without_the_other_are_refused(rt: HostRuntime) -> Result<(), Fail> {
    let alloc = rt.alloc();
    let sources = [
        ("}", 0),
        ("x = 1 }", 3),
        ("module M where {", 4),
        ("module M where { f = ( } }", 8),
        ("let { x = 1 in x", 7),
    ];
    for (source, index) in sources {
        let refused = laid_out(alloc, source).err();
        assert_eq!(rt; refused, Some(LayoutError::Layout { index }), "{source}");
    }
    Ok(())
}

#[test]
fn made_tokens_stand_where_the_next_one_does(rt: HostRuntime) -> Result<(), Fail> {
    let alloc = rt.alloc();
    let tokens = laid_out(alloc, "let x = 1 in x\n")?;
    let places = [
        (0, 0, false),
        (0, 1, true),
        (4, 0, false),
        (4, 5, false),
        (6, 7, false),
        (8, 9, false),
        (10, 0, false),
        (10, 11, false),
        (13, 14, false),
        (15, 0, false),
    ];
    assert_eq!(rt; tokens.len(), places.len());
    for (token, place) in tokens.as_slice().iter().zip(places.as_slice()) {
        assert_eq!(rt; (token.offset, token.column, token.first), *place);
    }
    Ok(())
}

#[test]
fn the_laws_can_be_called() {
    given_tokens_stand();
    braces_match();
    braces_stay();
}
