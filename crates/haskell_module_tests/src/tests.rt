use haskell_module::{SourceError, read_module, read_signature, read_tokens};
use hs_modules::Module;
use hs_tokens::Tokens;
use std::alloc::{AllocError, Global};
use std::test::Fail;

/// Each row: a source, and the texts of its tokens, each with a space behind it, or why it has none with the number of bytes before.
const ROWS: [(&[u8], &[u8]); 12] = [
    (b"", b"{ } "),
    (b"x = 1", b"{ x = 1 } "),
    (
        b"module M where\nx = 1\ny = x\n",
        b"module M where { x = 1 ; y = x } ",
    ),
    (b"module M where { x = 1 }", b"module M where { x = 1 } "),
    (b"x = let y = 1 in y", b"{ x = let { y = 1 } in y } "),
    (b"{- open", b"lexical 0"),
    (b"x = \"a", b"lexical 4"),
    (b"x = 1.5", b"left out 4"),
    (b"module M where { x = 1", b"layout 22"),
    (b"x = 1 }", b"layout 6"),
    (b"} \"a", b"lexical 2"),
    (b"  x = (1\n  , 2) }", b"layout 16"),
];

fn push_number(out: &mut Vec<u8>, number: u64) -> Result<(), AllocError> {
    if number >= 10 {
        out.push(b'0' + (number / 10 % 10) as u8)?;
    }
    out.push(b'0' + (number % 10) as u8)?;
    Ok(())
}

fn refused(alloc: Global, word: &[u8], offset: u64) -> Result<Vec<u8>, AllocError> {
    let mut out = Vec::from_slice(alloc, word)?;
    push_number(&mut out, offset)?;
    Ok(out)
}

fn texts(alloc: Global, tokens: &Tokens) -> Result<Vec<u8>, AllocError> {
    let mut out = Vec::new(alloc);
    for token in tokens.as_slice() {
        out.extend_from_slice(token.text.as_bytes())?;
        out.push(b' ')?;
    }
    Ok(out)
}

/// Why a source is not read, as a row has it.
fn fault(alloc: Global, error: SourceError) -> Result<Vec<u8>, AllocError> {
    match error {
        SourceError::Lexical { offset } => refused(alloc, b"lexical ", offset),
        SourceError::LeftOut { offset } => refused(alloc, b"left out ", offset),
        SourceError::Layout { offset } => refused(alloc, b"layout ", offset),
        SourceError::Syntax { offset } => refused(alloc, b"syntax ", offset),
        SourceError::Nesting => Vec::from_slice(alloc, b"nesting"),
        SourceError::NoMemory => Ok(Vec::new(alloc)),
    }
}

/// What a source is, as a row has it.
fn shown(alloc: Global, source: &[u8]) -> Result<Vec<u8>, AllocError> {
    match read_tokens(alloc, source) {
        Ok(tokens) => texts(alloc, &tokens),
        Err(error) => fault(alloc, error),
    }
}

/// Which kind of tree a source is, with the name of its head.
fn tree(alloc: Global, read: Result<Module, SourceError>) -> Result<Vec<u8>, AllocError> {
    match read {
        Ok(tree) => told(alloc, &tree),
        Err(error) => fault(alloc, error),
    }
}

fn told(alloc: Global, tree: &Module) -> Result<Vec<u8>, AllocError> {
    let (kind, name): (&[u8], &[u8]) = match tree {
        Module::Headless(_) => (b"no head", b""),
        Module::Named(name, _) => (b"module ", name.as_bytes()),
        Module::Exporting(name, _, _) => (b"exporting ", name.as_bytes()),
        Module::Signature(name, _) => (b"signature ", name.as_bytes()),
    };
    let mut out = Vec::from_slice(alloc, kind)?;
    out.extend_from_slice(name)?;
    Ok(out)
}

/// Each row: the name that is asked for, a source, and what it is as a module, and as a signature.
const TREES: [(&[u8], &[u8], &[u8], &[u8]); 12] = [
    (b"M", b"module M where\nx = 1\n", b"module M", b"syntax 0"),
    (
        b"A.B",
        b"module A.B (x) where\nx = 1\n",
        b"exporting A.B",
        b"syntax 0",
    ),
    (b"M", b"module N where\nx = 1\n", b"syntax 7", b"syntax 0"),
    (b"M", b"x = 1\n", b"syntax 0", b"syntax 0"),
    (b"Main", b"x = 1\n", b"no head", b"syntax 0"),
    (
        b"H",
        b"signature H where\ndata T\nx :: T\n",
        b"syntax 0",
        b"signature H",
    ),
    (
        b"H",
        b"signature I where\nx :: T\n",
        b"syntax 0",
        b"syntax 10",
    ),
    (
        b"H",
        b"signature H where\nx = 1\n",
        b"syntax 0",
        b"syntax 20",
    ),
    (
        b"M",
        b"module M where\nx = = 1\n",
        b"syntax 19",
        b"syntax 0",
    ),
    (b"M", b"module M where\nx = 1 }", b"layout 21", b"layout 21"),
    (
        b"M",
        b"module N where\nx = 'a",
        b"lexical 19",
        b"lexical 19",
    ),
    (b"M", b"", b"syntax 0", b"syntax 0"),
];

#[test]
fn rows(rt: HostRuntime) -> Result<(), Fail> {
    let alloc = rt.alloc();
    for (source, wanted) in ROWS {
        let found = shown(alloc, source)?;
        assert_eq!(rt; found.as_slice(), wanted);
    }
    Ok(())
}

#[test]
fn trees(rt: HostRuntime) -> Result<(), Fail> {
    let alloc = rt.alloc();
    for (name, source, module, signature) in TREES {
        let found = tree(alloc, read_module(alloc, name, source))?;
        assert_eq!(rt; found.as_slice(), module);
        let found = tree(alloc, read_signature(alloc, name, source))?;
        assert_eq!(rt; found.as_slice(), signature);
    }
    Ok(())
}
