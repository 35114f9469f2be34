use bp_base::Bytes;
use hs_tokens::{Terminal, Token, TokenKind, Tokens, Word, terminals_of};
use sqlite_items::Items;
use std::alloc::{AllocError, Global};
use std::test::Fail;

fn token(alloc: Global, kind: TokenKind, text: &[u8]) -> Result<Token, AllocError> {
    Ok(Token {
        kind,
        text: Bytes::from_bytes(alloc, text)?,
        offset: 0,
        column: 0,
        first: false,
    })
}

#[test]
fn terminals_of_tokens(rt: HostRuntime) -> Result<(), Fail> {
    let alloc = rt.alloc();
    let mut tokens: Tokens = Items::new(alloc);
    tokens.push(token(alloc, TokenKind::Var, b"x")?)?;
    tokens.push(token(alloc, TokenKind::Var, b"M.x")?)?;
    tokens.push(token(alloc, TokenKind::VarSym, b"M.+")?)?;
    tokens.push(token(alloc, TokenKind::Reserved, b":")?)?;
    tokens.push(token(alloc, TokenKind::Reserved, b"let")?)?;
    tokens.push(token(alloc, TokenKind::Special, b"(")?)?;
    let seen = terminals_of(alloc, &tokens)?;
    assert!(rt;
        matches!(
            seen.as_slice(),
            [
                Terminal::Var(_),
                Terminal::QVar(_),
                Terminal::QVarSym(_),
                Terminal::Colon,
                Terminal::Word(Word::Let),
                Terminal::LeftParen,
            ]
        )
    );
    Ok(())
}
