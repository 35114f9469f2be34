//! Classes of bytes.
ghost use Rattle.std.specs.Prelude.{◌≡◌, ◌≤◌, length};
ghost use Rattle.std.specs.List.{prefix_len};
ghost use Rattle.hs_lex.specs.Classes.{is_in, begins, start_of};

/// A class of bytes.
#[derive(Clone, Copy, Debug, PartialEq, Eq)]
pub enum Class {
    Digit,
    Octal,
    Hexadecimal,
    /// What goes on in a name.
    Name,
    /// A symbol's character.
    Symbol,
    Dash,
    White,
    /// The end of a line.
    Ending,
    /// All but the end of a line.
    Line,
    /// A byte of a character past ASCII that is not its first.
    Continuation,
}

/// What begins with a byte.
#[derive(Clone, Copy, Debug, PartialEq, Eq)]
pub enum Start {
    Small,
    Large,
    Digit,
    White,
    /// `{`, which begins a comment too.
    Brace,
    Special,
    Symbol,
    /// A character's quote.
    Quote,
    /// A string's quote.
    DoubleQuote,
    Other,
}

/// Whether the byte is in the class.
pub fn holds(class: Class, byte: u8) -> bool
    ensures { result ≡ is_in class byte }
{
    match class {
        Class::Digit => byte.is_ascii_digit(),
        Class::Octal => matches!(byte, b'0'..=b'7'),
        Class::Hexadecimal => matches!(byte, b'0'..=b'9' | b'A'..=b'F' | b'a'..=b'f'),
        Class::Name => byte.is_ascii_alphanumeric() || byte == b'_' || byte == b'\'',
        Class::Symbol => matches!(
            byte,
            b'!' | b'#'..=b'&' | b'*' | b'+' | b'-' | b'.' | b'/' | b':' | b'<'..=b'@' | b'\\' | b'^' | b'|' | b'~'
        ),
        Class::Dash => byte == b'-',
        Class::White => matches!(byte, b' ' | 9..=13),
        Class::Ending => matches!(byte, 10 | 12 | 13),
        Class::Line => !matches!(byte, 10 | 12 | 13),
        Class::Continuation => matches!(byte, 128..=191),
    }
}

/// What begins with the byte.
#[tactic(auto, unfolding(crate::specs::Classes::start_of))]
pub fn opening(byte: u8) -> Start
    ensures { result ≡ start_of byte }
{
    if byte.is_ascii_lowercase() || byte == b'_' {
        Start::Small
    } else if byte.is_ascii_uppercase() {
        Start::Large
    } else if byte.is_ascii_digit() {
        Start::Digit
    } else if holds(Class::White, byte) {
        Start::White
    } else if byte == b'{' {
        Start::Brace
    } else if matches!(byte, b'(' | b')' | b',' | b';' | b'[' | b']' | b'`' | b'}') {
        Start::Special
    } else if holds(Class::Symbol, byte) {
        Start::Symbol
    } else if byte == b'\'' {
        Start::Quote
    } else if byte == b'"' {
        Start::DoubleQuote
    } else {
        Start::Other
    }
}

/// How many bytes at the front are in the class.
pub fn count(class: Class, bytes: &[u8]) -> usize
    ensures value { result ≡ prefix_len (is_in class) bytes.now }
    ensures within { result ≤ length bytes.now }
{
    bytes.iter().take_while(|byte| holds(class, **byte)).count()
}

/// Whether the first byte is in the class.
pub fn begins(class: Class, bytes: &[u8]) -> bool
    ensures { result ≡ begins (is_in class) bytes.now }
{
    match bytes.first() {
        Some(byte) => holds(class, *byte),
        None => false,
    }
}
