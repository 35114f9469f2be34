//! The words that Haskell reserves.
ghost use Rattle.std.specs.Prelude.{◌≡◌};
ghost use Rattle.hs_tokens.specs.Words.{declaration_word, expression_word, left_out_word, word_of, is_left_out};

/// A word that Haskell reserves (Haskell 2010 Report, section 2.4), but `_`.
#[derive(Clone, Copy, Debug, PartialEq, Eq)]
pub enum Word {
    Case,
    Class,
    Data,
    Default,
    Deriving,
    Do,
    Else,
    Foreign,
    If,
    Import,
    In,
    Infix,
    Infixl,
    Infixr,
    Instance,
    Let,
    Module,
    Newtype,
    Of,
    Then,
    Type,
    Where,
}

/// The reserved word of declarations that the text is.
#[tactic(auto, unfolding(crate::specs::Words::declaration_word))]
fn declaration_word(text: &[u8]) -> Option<Word>
    ensures { result ≡ declaration_word text.now }
{
    match text {
        b"data" => Some(Word::Data),
        b"import" => Some(Word::Import),
        b"infix" => Some(Word::Infix),
        b"infixl" => Some(Word::Infixl),
        b"infixr" => Some(Word::Infixr),
        b"module" => Some(Word::Module),
        b"newtype" => Some(Word::Newtype),
        b"type" => Some(Word::Type),
        _ => None,
    }
}

/// The reserved word of expressions that the text is.
#[tactic(auto, unfolding(crate::specs::Words::expression_word))]
fn expression_word(text: &[u8]) -> Option<Word>
    ensures { result ≡ expression_word text.now }
{
    match text {
        b"case" => Some(Word::Case),
        b"else" => Some(Word::Else),
        b"if" => Some(Word::If),
        b"in" => Some(Word::In),
        b"let" => Some(Word::Let),
        b"of" => Some(Word::Of),
        b"then" => Some(Word::Then),
        b"where" => Some(Word::Where),
        _ => None,
    }
}

/// The reserved word of what this project leaves out that the text is.
#[tactic(auto, unfolding(crate::specs::Words::left_out_word))]
fn left_out_word(text: &[u8]) -> Option<Word>
    ensures { result ≡ left_out_word text.now }
{
    match text {
        b"class" => Some(Word::Class),
        b"default" => Some(Word::Default),
        b"deriving" => Some(Word::Deriving),
        b"do" => Some(Word::Do),
        b"foreign" => Some(Word::Foreign),
        b"instance" => Some(Word::Instance),
        _ => None,
    }
}

/// The reserved word that the text is.
pub fn word_of(text: &[u8]) -> Option<Word>
    ensures { result ≡ word_of text.now }
{
    declaration_word(text)
        .or(expression_word(text))
        .or(left_out_word(text))
}

/// Whether this project leaves out what the word begins.
pub fn is_left_out(word: Word) -> bool
    ensures { result ≡ is_left_out word }
{
    matches!(
        word,
        Word::Class | Word::Default | Word::Deriving | Word::Do | Word::Foreign | Word::Instance
    )
}
