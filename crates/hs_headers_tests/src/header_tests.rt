use bp_base::Bytes;
use hs_forms::Fault;
use hs_headers::{read_exports, read_import, read_module_head, read_signature_head};
use hs_readers::Read;
use hs_tokens::{Terminal, Token, TokenKind, Tokens, terminals_of};
use sqlite_items::Items;
use std::alloc::{AllocError, Global};
use std::test::Fail;

fn kind_of(word: &[u8]) -> TokenKind {
    match word {
        b"import" | b"module" | b"where" | b".." | b":" => TokenKind::Reserved,
        b"(" | b")" | b"," | b";" => TokenKind::Special,
        b"M.x" => TokenKind::Var,
        b"M.+" => TokenKind::VarSym,
        b"M.:+" => TokenKind::ConSym,
        [b'A'..=b'Z', ..] => TokenKind::Con,
        [b'a'..=b'z', ..] => TokenKind::Var,
        [b':', ..] => TokenKind::ConSym,
        _ => TokenKind::VarSym,
    }
}

fn tokens_of(alloc: Global, text: &str) -> Result<Tokens, AllocError> {
    let mut all = Items::new(alloc);
    for word in text.split_ascii_whitespace() {
        let word = word.as_bytes();
        all.push(Token {
            kind: kind_of(word),
            text: Bytes::from_bytes(alloc, word)?,
            offset: 0,
            column: 0,
            first: false,
        })?;
    }
    Ok(all)
}

/// Which reader reads.
#[derive(Clone, Copy)]
enum Part {
    Exports,
    Import,
    Module,
    Signature,
}

/// How many tokens were read, or the index of the refusal.
#[derive(Clone, Copy)]
enum Answer {
    Read(usize),
    Refused(usize),
    Memory,
}

fn answer_of<T: Drop>(read: Result<Read<'_, T>, Fault>, count: usize) -> Answer {
    match read {
        Ok(read) => Answer::Read(count.saturating_sub(read.rest.len())),
        Err(Fault::At(left)) => Answer::Refused(count.saturating_sub(left)),
        Err(Fault::NoMemory) => Answer::Memory,
    }
}

fn answer_for(alloc: Global, part: Part, terminals: &[Terminal]) -> Answer {
    match part {
        Part::Exports => answer_of(read_exports(alloc, terminals), terminals.len()),
        Part::Import => answer_of(read_import(alloc, terminals), terminals.len()),
        Part::Module => answer_of(read_module_head(alloc, terminals), terminals.len()),
        Part::Signature => answer_of(read_signature_head(alloc, terminals), terminals.len()),
    }
}

/// What a table writes of an answer.
fn spelled(alloc: Global, answer: Answer) -> Result<String, AllocError> {
    match answer {
        Answer::Read(count) => format!(in alloc; "reads {count}"),
        Answer::Refused(index) => format!(in alloc; "syntax {index}"),
        Answer::Memory => format!(in alloc; "memory"),
    }
}

/// Whether a row is right: an answer, and the words that have it.
fn is_right(alloc: Global, part: Part, row: &str) -> Result<bool, AllocError> {
    let (want, text) = row.split_once('|').unwrap_or(("", ""));
    let tokens = tokens_of(alloc, text)?;
    let terminals = terminals_of(alloc, &tokens)?;
    let found = spelled(alloc, answer_for(alloc, part, terminals.as_slice()))?;
    Ok(found.as_str() == want.trim_end())
}

/// The first row that is not right.
fn wrong_row<'a>(alloc: Global, part: Part, rows: &'a str) -> Result<&'a str, AllocError> {
    for row in rows.lines() {
        if !is_right(alloc, part, row)? {
            return Ok(row);
        }
    }
    Ok("")
}

#[test]
fn exports(rt: HostRuntime) -> Result<(), Fail> {
    let alloc = rt.alloc();
    let rows = "\
reads 2|( )
reads 3|( , )
reads 3|( x ) where
reads 4|( x , ) where
reads 7|( ( + ) , y ) where
reads 7|( M.x , ( M.+ ) )
reads 3|( T )
reads 3|( M.T )
reads 6|( T ( .. ) )
reads 5|( T ( ) )
reads 8|( T ( x , C ) )
reads 10|( T ( ( + ) , C ) )
reads 10|( T ( C , ( :+ ) ) )
reads 4|( module M.N )
reads 11|( x , T ( ) , module M , )
syntax 0|
syntax 0|x
syntax 1|(
syntax 2|( ,
syntax 2|( , ,
syntax 2|( , x )
syntax 1|( :+
syntax 2|( ( )
syntax 2|( ( :+ ) )
syntax 3|( ( + x
syntax 2|( x
syntax 2|( x y
syntax 2|( x ( y ) )
syntax 3|( x , ; )
syntax 3|( x , , )
syntax 2|( module )
syntax 2|( module x )
syntax 3|( T (
syntax 4|( T ( .. ,
syntax 5|( T ( x ,
syntax 5|( T ( x , ) )
syntax 3|( T ( , ) )
syntax 3|( T ( M.C ) )
syntax 3|( T ( M.x ) )
syntax 4|( T ( ( M.:+ ) ) )
syntax 6|( T ( x , C
";
    let wrong = wrong_row(alloc, Part::Exports, rows)?;
    assert_eq!(rt; wrong, "");
    Ok(())
}

#[test]
fn imports(rt: HostRuntime) -> Result<(), Fail> {
    let alloc = rt.alloc();
    let rows = "\
reads 2|import M
reads 2|import M.N ;
reads 3|import qualified M
reads 4|import M as N
reads 5|import qualified M as N.O
reads 4|import M ( )
reads 5|import M ( , )
reads 5|import M ( x )
reads 6|import M ( x , )
reads 5|import M hiding ( )
reads 9|import M hiding ( T ( .. ) )
reads 9|import M as N ( T , x )
reads 13|import qualified M as N hiding ( ( + ) , T )
reads 7|import M ( as , hiding )
reads 5|import M ( qualified )
syntax 0|
syntax 0|module M
syntax 1|import
syntax 1|import x
syntax 2|import qualified
syntax 2|import qualified as
syntax 3|import M as
syntax 3|import M as x
syntax 3|import M hiding
syntax 3|import M hiding x
syntax 3|import M ( M.T )
syntax 3|import M ( M.x )
syntax 3|import M ( module N )
syntax 4|import M ( ( M.+ ) )
syntax 4|import M ( x
syntax 5|import M ( T (
syntax 7|import M ( T ( x , ) )
";
    let wrong = wrong_row(alloc, Part::Import, rows)?;
    assert_eq!(rt; wrong, "");
    Ok(())
}

#[test]
fn heads(rt: HostRuntime) -> Result<(), Fail> {
    let alloc = rt.alloc();
    let modules = "\
reads 3|module M where
reads 3|module M.N where x
reads 5|module M ( ) where
reads 6|module M ( , ) where
reads 9|module M ( T ( .. ) ) where
syntax 0|
syntax 0|signature H where
syntax 0|x
syntax 1|module
syntax 1|module x
syntax 2|module M
syntax 2|module M x
syntax 3|module M (
syntax 4|module M ( )
syntax 4|module M ( ) ;
syntax 4|module M ( x where
";
    assert_eq!(rt; wrong_row(alloc, Part::Module, modules)?, "");
    let signatures = "\
reads 3|signature H where
reads 3|signature H.I where x
syntax 0|
syntax 0|module M where
syntax 1|signature
syntax 1|signature where
syntax 2|signature H
syntax 2|signature H ( ) where
";
    assert_eq!(rt; wrong_row(alloc, Part::Signature, signatures)?, "");
    Ok(())
}
