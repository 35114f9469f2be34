use bp_base::Bytes;
use haskell_parse::{parse_kind, parse_pat, parse_type};
use hs_forms::ParseError;
use hs_tokens::{Token, TokenKind, Tokens};
use sqlite_items::Items;
use std::alloc::{AllocError, Global};
use std::test::Fail;

fn kind_of(word: &[u8]) -> TokenKind {
    match word {
        b"->" | b"<-" | b":" | b"@" | b"~" | b"_" | b"=" => TokenKind::Reserved,
        b"(" | b")" | b"," | b"[" | b"]" | b"`" | b"{" | b";" => TokenKind::Special,
        b"M.x" => TokenKind::Var,
        b"M.+" => TokenKind::VarSym,
        b"M.:+" => TokenKind::ConSym,
        [b'A'..=b'Z', ..] => TokenKind::Con,
        [b'a'..=b'z', ..] => TokenKind::Var,
        [b'0'..=b'9', ..] => TokenKind::Integer,
        [b'\'', ..] => TokenKind::Char,
        [b'"', ..] => TokenKind::Text,
        [b':', ..] => TokenKind::ConSym,
        _ => TokenKind::VarSym,
    }
}

fn push_word(alloc: Global, all: &mut Tokens, word: &[u8]) -> Result<(), AllocError> {
    all.push(Token {
        kind: kind_of(word),
        text: Bytes::from_bytes(alloc, word)?,
        offset: 0,
        column: 0,
        first: false,
    })
}

fn push_words(alloc: Global, all: &mut Tokens, text: &str) -> Result<(), AllocError> {
    for word in text.split_ascii_whitespace() {
        push_word(alloc, all, word.as_bytes())?;
    }
    Ok(())
}

/// The words of `front` so many times, those of `middle`, and those of `back` as often.
fn nested(
    alloc: Global,
    times: usize,
    front: &str,
    middle: &str,
    back: &str,
) -> Result<Tokens, AllocError> {
    let mut all = Items::new(alloc);
    for _ in 0..times {
        push_words(alloc, &mut all, front)?;
    }
    push_words(alloc, &mut all, middle)?;
    for _ in 0..times {
        push_words(alloc, &mut all, back)?;
    }
    Ok(all)
}

#[derive(Clone, Copy, Debug, PartialEq, Eq)]
enum Answer {
    Tree,
    Syntax(u64),
    Deep(u64),
    Memory,
}

fn answer_of<T: Drop>(parsed: Result<T, ParseError>) -> Answer {
    match parsed {
        Ok(_) => Answer::Tree,
        Err(ParseError::Syntax { index }) => Answer::Syntax(index),
        Err(ParseError::DepthLimit { index }) => Answer::Deep(index),
        Err(ParseError::NoMemory) => Answer::Memory,
    }
}

fn type_answer(alloc: Global, tokens: &Tokens) -> Answer {
    answer_of(parse_type(alloc, tokens))
}

fn kind_answer(alloc: Global, tokens: &Tokens) -> Answer {
    answer_of(parse_kind(alloc, tokens))
}

fn pat_answer(alloc: Global, tokens: &Tokens) -> Answer {
    answer_of(parse_pat(alloc, tokens))
}

/// Which sort of trees is read.
#[derive(Clone, Copy)]
enum Sort {
    Type,
    Kind,
    Pattern,
}

fn answer_for(alloc: Global, sort: Sort, tokens: &Tokens) -> Answer {
    match sort {
        Sort::Type => type_answer(alloc, tokens),
        Sort::Kind => kind_answer(alloc, tokens),
        Sort::Pattern => pat_answer(alloc, tokens),
    }
}

/// What a table writes of an answer.
fn spelled(alloc: Global, answer: Answer) -> Result<String, AllocError> {
    match answer {
        Answer::Tree => format!(in alloc; "tree"),
        Answer::Syntax(index) => format!(in alloc; "syntax {index}"),
        Answer::Deep(index) => format!(in alloc; "deep {index}"),
        Answer::Memory => format!(in alloc; "memory"),
    }
}

/// Whether the tokens have the answer that a table writes.
fn has_answer(alloc: Global, sort: Sort, tokens: &Tokens, want: &str) -> Result<bool, AllocError> {
    let found = spelled(alloc, answer_for(alloc, sort, tokens))?;
    Ok(found.as_str() == want.trim_end())
}

/// Whether a row is right: an answer, and the words that have it.
fn is_right(alloc: Global, sort: Sort, row: &str) -> Result<bool, AllocError> {
    let (want, text) = row.split_once('|').unwrap_or(("", ""));
    let tokens = nested(alloc, 1, text, "", "")?;
    has_answer(alloc, sort, &tokens, want)
}

/// The first row that is not right.
fn wrong_row<'a>(alloc: Global, sort: Sort, rows: &'a str) -> Result<&'a str, AllocError> {
    for row in rows.lines() {
        if !is_right(alloc, sort, row)? {
            return Ok(row);
        }
    }
    Ok("")
}

/// Words so many times in front, those in the middle, and as many times those behind.
fn nested_row(alloc: Global, row: &str) -> Result<Tokens, AllocError> {
    let (times, row) = row.split_once('|').unwrap_or(("", ""));
    let (front, row) = row.split_once('|').unwrap_or(("", ""));
    let (middle, back) = row.split_once('|').unwrap_or(("", ""));
    let times = times.trim().parse::<usize>().unwrap_or(0);
    nested(alloc, times, front, middle, back)
}

/// Whether a row of nested words is right.
fn is_right_nested(alloc: Global, sort: Sort, row: &str) -> Result<bool, AllocError> {
    let (want, words) = row.split_once('|').unwrap_or(("", ""));
    let tokens = nested_row(alloc, words)?;
    has_answer(alloc, sort, &tokens, want)
}

/// The first row of nested words that is not right.
fn wrong_nested_row<'a>(alloc: Global, sort: Sort, rows: &'a str) -> Result<&'a str, AllocError> {
    for row in rows.lines() {
        if !is_right_nested(alloc, sort, row)? {
            return Ok(row);
        }
    }
    Ok("")
}

/// Types, and the index of what is refused.
const TYPES: &str = "\
tree     | a -> b
syntax 0 | ->
syntax 0 |
tree     | M.T a ( b , c -> d ) [ e ]
tree     | ( ) [ ] ( -> ) ( , , )
syntax 2 | ( -> a
syntax 2 | ( , a
syntax 2 | ( a
syntax 2 | a ->
syntax 1 | a )
syntax 0 | M.x
syntax 2 | [ a , b ]";

/// Types that are nested so many times.
const NESTED_TYPES: &str = "\
syntax 1   | 14 | a , |  |
tree       | 200 | ( | a | )
deep 201   | 201 | ( | a | )
syntax 201 | 201 | ( |  |
tree       | 200 | [ | a | ]
deep 201   | 201 | [ | a | ]
tree       | 200 | a -> | a |
deep 401   | 201 | a -> | a |";

/// Kinds, and the index of what is refused.
const KINDS: &str = "\
tree     | *
tree     | * -> *
tree     | ( * -> * ) -> * -> *
tree     | ( ( * ) )
syntax 0 |
syntax 0 | ->
syntax 0 | +
syntax 0 | a
syntax 1 | ( )
syntax 2 | ( *
syntax 2 | ( * *
syntax 2 | * ->
syntax 1 | * *
syntax 1 | * )
syntax 6 | * -> ( * -> * ]";

/// Kinds that are nested so many times.
const NESTED_KINDS: &str = "\
tree       | 200 | ( | * | )
deep 200   | 201 | ( | * | )
syntax 200 | 200 | ( |  |
syntax 1   | 201 | ( + | * | )
tree       | 200 | * -> | * |
deep 401   | 201 | * -> | * |
tree       | 100 | * -> ( | * | )
deep 301   | 101 | * -> ( | * | )";

/// Patterns, and the index of what is refused.
const PATTERNS: &str = "\
tree     | x : xs
syntax 0 | ->
syntax 0 |
tree     | _
tree     | 'a'
tree     | M.C x ( y , z ) [ 1 ] \"s\"
tree     | C
syntax 1 | x y
syntax 3 | x @ C y
tree     | C x @ y z
tree     | x @ ~ ( C y )
tree     | x @ y @ _
syntax 1 | C @ x
syntax 1 | _ @ x
syntax 2 | x @
syntax 2 | x @ - 1
syntax 1 | ~
syntax 1 | ~ - 1
tree     | - 1
tree     | - 1 : - 2 :+ x
syntax 1 | - x
syntax 1 | -
syntax 2 | - 1 x
syntax 1 | C - 1
syntax 0 | + 1
tree     | ( - 1 )
tree     | ( - )
syntax 2 | ( - x
syntax 2 | ( -
tree     | ( + ) @ x
syntax 2 | ( + x
syntax 2 | ( + 1
syntax 1 | ( M.+ )
tree     | ( )
tree     | ( ) x
syntax 2 | ( ,
tree     | ( , ) x y
syntax 2 | ( , x
tree     | ( :+ ) x y
syntax 2 | ( :+ x
tree     | ( M.:+ )
tree     | ( : ) x y
syntax 2 | ( : x
syntax 1 | (
syntax 2 | ( x
syntax 3 | ( x ,
syntax 3 | ( x , )
syntax 2 | ( x ]
syntax 5 | ( x , y ) z
tree     | [ ]
tree     | [ ] x
tree     | [ x , y , - 1 ]
syntax 1 | [
syntax 2 | [ x
syntax 3 | [ x , ]
syntax 2 | [ x )
tree     | x ` M.C ` y : z
syntax 2 | x ` y
syntax 3 | x ` C y
syntax 2 | x `
syntax 2 | x :
syntax 2 | x : : y
syntax 1 | x )
syntax 1 | x <- y
syntax 0 | M.x
syntax 0 | {";

/// Patterns that are nested so many times.
const NESTED_PATTERNS: &str = "\
tree       | 200 | ( | x | )
deep 201   | 201 | ( | x | )
syntax 201 | 201 | ( |  |
syntax 202 | 201 | ( | ) |
tree       | 200 | ( | ( ) | )
tree       | 200 | ( | - 1 | )
deep 202   | 201 | ( | - 1 | )
syntax 202 | 201 | ( | - x |
tree       | 200 | ( _ , | x | )
tree       | 200 | [ | x | ]
deep 201   | 201 | [ | x | ]
syntax 202 | 201 | [ | ] |
tree       | 200 | a @ | x |
deep 401   | 201 | a @ | x |
tree       | 200 | ~ | x |
deep 200   | 201 | ~ | x |
tree       | 200 | x : | x |
deep 401   | 201 | x : | x |
tree       | 200 | x :+ | - 1 |
deep 801   | 201 | x ` C ` | x |
tree       | 100 | x : ( | x | )
deep 301   | 101 | x : ( | x | )
tree       | 201 | C |  |";

#[test]
fn types_and_their_refusals(rt: HostRuntime) -> Result<(), Fail> {
    let alloc = rt.alloc();
    assert_eq!(rt; wrong_row(alloc, Sort::Type, TYPES)?, "");
    Ok(())
}

#[test]
fn types_are_200_deep(rt: HostRuntime) -> Result<(), Fail> {
    let alloc = rt.alloc();
    assert_eq!(rt; wrong_nested_row(alloc, Sort::Type, NESTED_TYPES)?, "");
    Ok(())
}

#[test]
fn kinds_and_their_refusals(rt: HostRuntime) -> Result<(), Fail> {
    let alloc = rt.alloc();
    assert_eq!(rt; wrong_row(alloc, Sort::Kind, KINDS)?, "");
    Ok(())
}

#[test]
fn kinds_are_200_deep(rt: HostRuntime) -> Result<(), Fail> {
    let alloc = rt.alloc();
    assert_eq!(rt; wrong_nested_row(alloc, Sort::Kind, NESTED_KINDS)?, "");
    Ok(())
}

#[test]
fn patterns_and_their_refusals(rt: HostRuntime) -> Result<(), Fail> {
    let alloc = rt.alloc();
    assert_eq!(rt; wrong_row(alloc, Sort::Pattern, PATTERNS)?, "");
    Ok(())
}

#[test]
fn patterns_are_200_deep(rt: HostRuntime) -> Result<(), Fail> {
    let alloc = rt.alloc();
    assert_eq!(rt;
        wrong_nested_row(alloc, Sort::Pattern, NESTED_PATTERNS)?,
        ""
    );
    Ok(())
}

/// A list in round brackets with so many commas.
fn tuple(alloc: Global, commas: usize) -> Result<Tokens, AllocError> {
    let mut all = Items::new(alloc);
    push_words(alloc, &mut all, "( a")?;
    for _ in 0..commas {
        push_words(alloc, &mut all, ", a")?;
    }
    push_words(alloc, &mut all, ")")?;
    Ok(all)
}

#[test]
fn tuples_have_at_most_15_parts(rt: HostRuntime) -> Result<(), Fail> {
    let alloc = rt.alloc();
    for (commas, want) in [
        (1, Answer::Tree),
        (14, Answer::Tree),
        (15, Answer::Syntax(30)),
    ] {
        let tokens = tuple(alloc, commas)?;
        assert_eq!(rt; type_answer(alloc, &tokens), want, "a type of {commas}");
        assert_eq!(rt; pat_answer(alloc, &tokens), want, "a pattern of {commas}");
    }
    Ok(())
}

/// A round bracket, so many commas, and what follows.
fn tuple_name(alloc: Global, front: &str, commas: usize, back: &str) -> Result<Tokens, AllocError> {
    let mut all = Items::new(alloc);
    push_words(alloc, &mut all, front)?;
    for _ in 0..commas {
        push_words(alloc, &mut all, ",")?;
    }
    push_words(alloc, &mut all, back)?;
    Ok(all)
}

#[test]
fn names_of_tuples(rt: HostRuntime) -> Result<(), Fail> {
    let alloc = rt.alloc();
    for (front, commas, back, want) in [
        ("(", 14, ")", Answer::Tree),
        ("(", 15, ")", Answer::Syntax(15)),
        ("( x", 0, ")", Answer::Tree),
    ] {
        let tokens = tuple_name(alloc, front, commas, back)?;
        assert_eq!(rt; pat_answer(alloc, &tokens), want, "a name of {commas}");
    }
    Ok(())
}

/// A list of so many parts more than one.
fn list(alloc: Global, more: usize) -> Result<Tokens, AllocError> {
    let mut all = Items::new(alloc);
    push_words(alloc, &mut all, "[ x")?;
    for _ in 0..more {
        push_words(alloc, &mut all, ", x")?;
    }
    push_words(alloc, &mut all, "]")?;
    Ok(all)
}

#[test]
fn a_list_of_41_parts(rt: HostRuntime) -> Result<(), Fail> {
    let alloc = rt.alloc();
    let tokens = list(alloc, 40)?;
    assert_eq!(rt; pat_answer(alloc, &tokens), Answer::Tree);
    Ok(())
}
