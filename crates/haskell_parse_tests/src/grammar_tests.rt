use bp_base::Bytes;
use haskell_parse::{parse_exp, parse_items, parse_module, parse_signature};
use hs_forms::ParseError;
use hs_tokens::{Token, TokenKind, Tokens};
use sqlite_items::Items;
use std::alloc::{AllocError, Global};
use std::test::Fail;

fn is_reserved(word: &[u8]) -> bool {
    match word {
        b"type" | b"data" | b"newtype" | b"module" | b"where" | b"import" => true,
        b"let" | b"in" | b"if" | b"then" | b"else" | b"case" | b"of" => true,
        b"infixl" | b"infixr" | b"infix" | b"=" | b"->" | b"<-" | b"::" | b":" | b"|" | b".." =>
            true,
        b"\\" | b"@" | b"~" | b"_" => true,
        _ => false,
    }
}

fn kind_of(word: &[u8]) -> TokenKind {
    if is_reserved(word) {
        return TokenKind::Reserved;
    }
    match word {
        b"(" | b")" | b"," | b"[" | b"]" | b"{" | b"}" | b";" | b"`" => TokenKind::Special,
        b"M.x" => TokenKind::Var,
        b"M.+" => TokenKind::VarSym,
        b"M.:+" => TokenKind::ConSym,
        [b'A'..=b'Z', ..] => TokenKind::Con,
        [b'a'..=b'z', ..] => TokenKind::Var,
        [b'0'..=b'9', ..] => TokenKind::Integer,
        [b'\'', ..] => TokenKind::Char,
        [b'"', ..] => TokenKind::Text,
        [b':', ..] => TokenKind::ConSym,
        _ => TokenKind::VarSym,
    }
}

fn push_words(alloc: Global, all: &mut Tokens, text: &str) -> Result<(), AllocError> {
    for word in text.split_ascii_whitespace() {
        let word = word.as_bytes();
        all.push(Token {
            kind: kind_of(word),
            text: Bytes::from_bytes(alloc, word)?,
            offset: 0,
            column: 0,
            first: false,
        })?;
    }
    Ok(())
}

/// The words of `front` so many times, those of `middle`, and those of `back` as often.
fn nested(
    alloc: Global,
    times: usize,
    front: &str,
    middle: &str,
    back: &str,
) -> Result<Tokens, AllocError> {
    let mut all = Items::new(alloc);
    for _ in 0..times {
        push_words(alloc, &mut all, front)?;
    }
    push_words(alloc, &mut all, middle)?;
    for _ in 0..times {
        push_words(alloc, &mut all, back)?;
    }
    Ok(all)
}

/// Which production is asked for.
#[derive(Clone, Copy)]
enum Part {
    Exp,
    Module,
    Signature,
    Items,
}

fn spelled<T: Drop>(alloc: Global, parsed: Result<T, ParseError>) -> Result<String, AllocError> {
    match parsed {
        Ok(_) => format!(in alloc; "tree"),
        Err(ParseError::Syntax { index }) => format!(in alloc; "syntax {index}"),
        Err(ParseError::DepthLimit { index }) => format!(in alloc; "deep {index}"),
        Err(ParseError::NoMemory) => format!(in alloc; "memory"),
    }
}

fn answer_for(alloc: Global, part: Part, tokens: &Tokens) -> Result<String, AllocError> {
    match part {
        Part::Exp => spelled(alloc, parse_exp(alloc, tokens)),
        Part::Module => spelled(alloc, parse_module(alloc, tokens)),
        Part::Signature => spelled(alloc, parse_signature(alloc, tokens)),
        Part::Items => spelled(alloc, parse_items(alloc, tokens)),
    }
}

/// The rows that are not right, each with the answer that was found: a row is an answer and the words that have it.
fn wrong_rows(alloc: Global, part: Part, rows: &str) -> Result<String, AllocError> {
    let mut wrong = String::new(alloc);
    for row in rows.lines() {
        let (want, text) = row.split_once('|').unwrap_or(("", ""));
        let tokens = nested(alloc, 0, "", text, "")?;
        let found = answer_for(alloc, part, &tokens)?;
        if found.as_str() != want {
            wrong.push_str(row)?;
            wrong.push_str(": ")?;
            wrong.push_str(found.as_str())?;
            wrong.push_str("\n")?;
        }
    }
    Ok(wrong)
}

#[test]
fn expressions(rt: HostRuntime) -> Result<(), Fail> {
    let alloc = rt.alloc();
    let rows = "\
tree|x
tree|f x y
tree|M.x
tree|1
tree|'c' \"s\"
tree|( )
tree|( , , )
tree|( + )
tree|( - )
tree|( :+ )
tree|( : )
tree|[ ]
tree|[ x , y ]
tree|( x , y )
tree|( x )
tree|- x
tree|( - x )
tree|x - - y
tree|x + - y
tree|x + y * z
tree|x ` f ` y
tree|x ` M.x ` y
tree|( x + )
tree|( + x )
tree|( x - )
tree|( x + y + )
tree|( ` f ` x )
tree|( x ` f ` )
tree|x :: T
tree|x :: T -> U
tree|( x :: T )
tree|[ x :: T , y ]
tree|\\ x -> y
tree|\\ x y -> x y :: T
tree|\\ ( x , y ) -> x
tree|x + \\ y -> z
tree|f ( \\ y -> z )
tree|if x then y else z
tree|if x then y else z + w :: T
tree|let { } in x
tree|let { x = y ; f z = w ; ; } in x
tree|let { x :: T ; infixl 6 + } in x
tree|let { x + y = z ; ( f x ) y = z ; ( x , y ) = z } in x
tree|let { x | y , z <- w = v | otherwise = u where { v = x } } in x
tree|case x of { }
tree|case x of { y -> z }
tree|case x of { ; C y -> z ; [ ] -> w ; }
tree|case x of { y | z -> w | ( C v ) <- u , t -> s where { } }
tree|case x of { - 1 -> y }
tree|case x of { y -> z } + w
tree|f x ( case x of { } )
syntax 0|
syntax 1|f )
syntax 1|(
syntax 1|x =
syntax 2|x +
syntax 2|x + )
syntax 2|x + * y
syntax 1|- + y
syntax 2|( x
syntax 3|( x ,
syntax 3|( x , )
syntax 3|( x + , y )
syntax 3|( + x ,
syntax 2|[ x
syntax 3|[ x , ]
syntax 3|x ` f
syntax 1|\\ -> y
syntax 2|\\ x
syntax 3|\\ x ->
syntax 2|if x
syntax 4|if x then y
syntax 4|if x then y ; else z
syntax 1|let x
syntax 3|let { x } in y
syntax 6|let { x = y }
syntax 6|let { x = y } of
syntax 3|case x of
syntax 4|case x of {
syntax 5|case x of { y }
syntax 6|case x of { y -> }
syntax 7|case x of { y | z :: T -> w }
syntax 14|case x of { y | \\ z -> w :: T -> v }
syntax 2|x ::
syntax 3|x :: T + y
syntax 1|f \\ x -> y
";
    let wrong = wrong_rows(alloc, Part::Exp, rows)?;
    assert_eq!(rt; wrong.as_str(), "");
    Ok(())
}

#[test]
fn modules(rt: HostRuntime) -> Result<(), Fail> {
    let alloc = rt.alloc();
    let rows = "\
tree|{ }
tree|{ x = y }
tree|{ ; x = y ; }
tree|module M where { }
tree|module M ( x , T ( .. ) , module N , ) where { import N ; x = y }
tree|{ import M ; ; import N ; data T = C a | D ; newtype U = E T ; type V = T ; x :: T ; x = C y ; f x = y ; infixr 5 ++ }
tree|{ x ++ y = z ; ( ++ ) x y = z ; x ` f ` y = z ; ( x + y ) z = w ; ( x ) = y ; x @ y = z ; - 1 = x }
tree|{ f ( x : xs ) [ y ] ~ z _ = x where { x = y } }
syntax 0|
syntax 0|signature S where { }
syntax 1|{ =
syntax 1|{ = }
syntax 2|{ x }
syntax 2|{ x ; }
syntax 3|{ x = }
syntax 4|{ x = y import M }
syntax 5|{ x = y ; import M }
syntax 3|{ f x }
syntax 3|{ f x , y :: T }
syntax 2|{ C }
syntax 2|{ T :: U }
syntax 4|{ x = y ) }
syntax 2|module M { }
syntax 4|module M where {
syntax 5|module M where { } }
syntax 5|{ x = y } z
";
    let wrong = wrong_rows(alloc, Part::Module, rows)?;
    assert_eq!(rt; wrong.as_str(), "");
    Ok(())
}

#[test]
fn declarations(rt: HostRuntime) -> Result<(), Fail> {
    let alloc = rt.alloc();
    let rows = "\
tree|{ data T }
tree|{ data T a b }
syntax 3|{ data T :: * }
tree|{ data T = C }
tree|{ data T = C a b }
tree|{ data T = C ! a b }
tree|{ data T = C a ! b }
tree|{ data T = a :+ b }
tree|{ data T = ! a :+ b }
tree|{ data T = ! a :+ ! b }
tree|{ data T = C a :+ b }
tree|{ data T = M.C a :+ b }
tree|{ data T = [ a ] :+ b }
tree|{ data T = ( :+ ) a }
tree|{ data T = C a ` D ` b }
tree|{ data T = C | D a }
tree|{ data T = C a :+ b | ! a :* b }
syntax 7|{ data T = a :+ b :* c }
syntax 2|{ data }
syntax 2|{ data t }
syntax 2|{ data M.T }
syntax 4|{ data T = }
syntax 4|{ data T = :+ a }
syntax 4|{ data T = | }
syntax 5|{ data T = ! ! a }
syntax 5|{ data T = M.C }
syntax 5|{ data T = a }
syntax 5|{ data T = ! :+ b }
syntax 5|{ data T = ( + ) a }
syntax 6|{ data T = ! a }
syntax 6|{ data T = a :+ }
syntax 6|{ data T = a :+ | }
syntax 6|{ data T = C ! ! a }
syntax 6|{ data T = C ! }
syntax 7|{ data T = C ! a :+ b }
syntax 5|{ data T = C M.:+ b }
syntax 6|{ data T = C ` M.D ` b }
syntax 7|{ data T = C ( a }
syntax 6|{ data T = C | }
tree|{ data T = C ( ( a ) ) }
tree|{ newtype T = C a }
tree|{ newtype T a = ( :+ ) a }
syntax 6|{ newtype T = C a b }
syntax 2|{ newtype }
syntax 3|{ newtype T }
syntax 4|{ newtype T a }
syntax 4|{ newtype T = }
syntax 4|{ newtype T = M.C a }
syntax 5|{ newtype T = C }
syntax 5|{ newtype T = C ! a }
tree|{ type T = U }
syntax 3|{ type T }
tree|{ x :: T }
tree|{ x , y :: T }
tree|{ ( + ) :: T }
tree|{ ( + ) , x :: M.T a }
syntax 4|{ x :: T = U }
syntax 2|{ T :: U }
syntax 4|{ ( T ) :: U }
syntax 3|{ ( + :: T }
syntax 2|{ x }
syntax 3|{ x y :: T }
syntax 3|{ x , }
syntax 3|{ x , T :: U }
syntax 4|{ x , y = T }
syntax 3|{ x :: }
syntax 3|{ x :: = }
syntax 5|{ x :: a -> }
tree|{ x :: a -> b -> c }
tree|{ infixl + }
tree|{ infixl 6 + }
tree|{ infixr 5 :+ , - }
tree|{ infix 4 ` f ` }
tree|{ infix 4 ` T ` }
syntax 4|{ infixl 6 + x }
syntax 2|{ infixl }
syntax 2|{ infixl 12 + }
syntax 2|{ infixl 0x5 + }
syntax 3|{ infixl 6 }
syntax 3|{ infixl 6 7 }
syntax 3|{ infixl 6 x }
syntax 3|{ infixl 6 M.:+ }
syntax 3|{ infixl 6 : }
syntax 4|{ infixl 6 ` M.T ` }
syntax 5|{ infixl 6 ` f + }
syntax 5|{ infixl 6 + , }
";
    let wrong = wrong_rows(alloc, Part::Module, rows)?;
    assert_eq!(rt; wrong.as_str(), "");
    Ok(())
}

#[test]
fn modules_and_signatures(rt: HostRuntime) -> Result<(), Fail> {
    let alloc = rt.alloc();
    let rows = "\
tree|{ }
tree|{ x = y }
tree|signature S where { x :: T }
syntax 1|{ = }
syntax 5|signature S where { x = y }
syntax 0|where
";
    let wrong = wrong_rows(alloc, Part::Items, rows)?;
    assert_eq!(rt; wrong.as_str(), "");
    let rows = "\
tree|signature S where { }
syntax 0|module M where { }
syntax 0|{ }
syntax 1|signature
tree|signature S where { ; }
tree|signature M.S where { import M }
tree|signature S where { import M ; }
tree|signature S where { import M ; x :: T }
tree|signature S where { import M ; ; x :: T ; }
tree|signature S where { import M ; ; import N ; x :: T ; }
tree|signature S where { data T ; data U :: * ; data V a = C a ; newtype W = D a ; type X = T ; x :: T ; infixl 6 + ; ; }
syntax 5|signature S where { } }
syntax 0|
syntax 0|module S where { }
syntax 1|signature s where { }
syntax 2|signature S { }
syntax 3|signature S where
syntax 3|signature S where x :: T
syntax 4|signature S where {
syntax 4|signature S where { =
syntax 5|signature S where { ; =
syntax 5|signature S where { x = y }
syntax 5|signature S where { x }
syntax 5|signature S where { f x = y }
syntax 4|signature S where { T = x }
syntax 6|signature S where { import M = }
syntax 6|signature S where { import M x :: T }
syntax 6|signature S where { data T ( }
syntax 7|signature S where { data T :: U }
syntax 7|signature S where { data T a :: * }
syntax 8|signature S where { x :: T ; import M }
syntax 9|signature S where { x :: T ; ; import M }
syntax 8|signature S where { x :: T y = z }
syntax 7|signature S where { x :: T
";
    let wrong = wrong_rows(alloc, Part::Signature, rows)?;
    assert_eq!(rt; wrong.as_str(), "");
    Ok(())
}

#[test]
fn chains_have_200_operators(rt: HostRuntime) -> Result<(), Fail> {
    let alloc = rt.alloc();
    let tokens = nested(alloc, 200, "x +", "x", "")?;
    let found = answer_for(alloc, Part::Exp, &tokens)?;
    assert_eq!(rt; found.as_str(), "tree");
    let tokens = nested(alloc, 201, "x +", "x", "")?;
    let found = answer_for(alloc, Part::Exp, &tokens)?;
    assert_eq!(rt; found.as_str(), "deep 401");
    Ok(())
}

/// Expressions that are nested so many times: the answer, how often, what stands in front, in the middle and behind.
const NESTED: &str = "\
tree      # 200 # ( # x # )
deep 201  # 201 # ( # x # )
tree      # 200 # [ # x # ]
deep 201  # 201 # [ # x # ]
tree      # 200 # ( x , # x # )
tree      # 200 # ( # x # + )
tree      # 200 # ( + # x # )
tree      # 100 # ( - # x # )
deep 202  # 101 # ( - # x # )
tree      # 200 # f ( # x # )
tree      # 200 # \\ x -> # x #
deep 600  # 201 # \\ x -> # x #
tree      # 200 # if x then x else # x #
deep 1000 # 201 # if x then x else # x #
tree      # 200 # if # x # then x else x
tree      # 200 # let { } in # x #
deep 800  # 201 # let { } in # x #
tree      # 80  # let { x = # x # } in y
tree      # 40  # let { x = y where { z = # x # } } in y
tree      # 200 # case # x # of { }
tree      # 80  # case x of { y -> # x # }
tree      # 40  # case x of { y | # x # -> y }";

#[test]
fn nested_expressions(rt: HostRuntime) -> Result<(), Fail> {
    let alloc = rt.alloc();
    let mut wrong = String::new(alloc);
    for row in NESTED.lines() {
        let mut cells = row.split('#');
        let want = cells.next().unwrap_or("").trim();
        let times = cells
            .next()
            .unwrap_or("")
            .trim()
            .parse::<usize>()
            .unwrap_or(0);
        let front = cells.next().unwrap_or("");
        let middle = cells.next().unwrap_or("");
        let tokens = nested(alloc, times, front, middle, cells.next().unwrap_or(""))?;
        let found = answer_for(alloc, Part::Exp, &tokens)?;
        if found.as_str() != want {
            wrong.push_str(row)?;
            wrong.push_str(": ")?;
            wrong.push_str(found.as_str())?;
            wrong.push_str("\n")?;
        }
    }
    assert_eq!(rt; wrong.as_str(), "");
    Ok(())
}

#[test]
fn long_lists_and_blocks_are_read(rt: HostRuntime) -> Result<(), Fail> {
    let alloc = rt.alloc();
    let mut list = nested(alloc, 0, "", "[ x", "")?;
    for _ in 0..99_999 {
        push_words(alloc, &mut list, ", x")?;
    }
    push_words(alloc, &mut list, "]")?;
    let found = answer_for(alloc, Part::Exp, &list)?;
    assert_eq!(rt; found.as_str(), "tree");
    let mut block = nested(alloc, 0, "", "{ x = y", "")?;
    for _ in 0..99_999 {
        push_words(alloc, &mut block, "; x = y")?;
    }
    push_words(alloc, &mut block, "}")?;
    let found = answer_for(alloc, Part::Module, &block)?;
    assert_eq!(rt; found.as_str(), "tree");
    let chain = nested(alloc, 100_000, "x +", "x", "")?;
    let found = answer_for(alloc, Part::Exp, &chain)?;
    assert_eq!(rt; found.as_str(), "deep 401");
    Ok(())
}
