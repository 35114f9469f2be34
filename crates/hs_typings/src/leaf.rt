//! Looks at the next terminals.
ghost use Rattle.std.specs.Prelude.{◌≡◌, ◌∷◌, MatchOption, Some, true, false};
ghost use Rattle.hs_forms.specs.Reading.{begins};
ghost use Rattle.hs_tokens.specs.declared.terminal.Terminal.TheVariants as t;
ghost use Rattle.hs_modules.specs.Tokens.{fixity_word};
ghost use Rattle.hs_modules.specs.Formed.{is_level};
ghost use Rattle.hs_declaration_forms.specs.Typings.{fills_place, is_digit, starts_fixity, starts_op};

use bp_base::Bytes;
use hs_headers::begins_with_colon;
use hs_modules::Fixity;
use hs_tokens::{Terminal, Word};

/// The word of a fixity declaration, and what stands after it.
pub fn after_fixity(tokens: &[Terminal]) -> Option<(Fixity, &[Terminal])>
    ensures { MatchOption result (begins starts_fixity tokens.now ≡ false) (λ x. tokens.now ≡ fixity_word x.0 ∷ x.1.now) }
{
    match tokens.split_first() {
        Some((Terminal::Word(Word::Infixl), rest)) => Some((Fixity::Left, rest)),
        Some((Terminal::Word(Word::Infixr), rest)) => Some((Fixity::Right, rest)),
        Some((Terminal::Word(Word::Infix), rest)) => Some((Fixity::Neither, rest)),
        _ => None,
    }
}

/// Whether the word of a fixity declaration stands here.
pub fn begins_fixity(tokens: &[Terminal]) -> bool
    ensures { result ≡ begins starts_fixity tokens.now }
{
    after_fixity(tokens).is_some()
}

/// Whether a number is one decimal digit.
fn is_level(text: &[u8]) -> bool
    ensures { result ≡ is_level (Some text.now) }
{
    match text.split_first() {
        Some((first, rest)) => rest.len() == 0 && b'0' <= *first && *first <= b'9',
        None => false,
    }
}

/// A number of one decimal digit, and what stands after it.
pub fn after_digit(tokens: &[Terminal]) -> Option<(&Bytes, &[Terminal])>
    ensures { MatchOption result (begins is_digit tokens.now ≡ false) (λ x. (tokens.now ≡ t.Integer x.0.now ∷ x.1.now) × (is_level (Some x.0.now) ≡ true)) }
{
    match tokens.split_first() {
        Some((Terminal::Integer(text), rest)) if is_level(text.as_bytes()) => Some((text, rest)),
        _ => None,
    }
}

/// Whether an operator that is not qualified begins here.
pub fn begins_op(tokens: &[Terminal]) -> bool
    ensures { result ≡ begins starts_op tokens.now }
{
    match tokens.first() {
        Some(Terminal::VarSym(_) | Terminal::Backquote) => true,
        Some(Terminal::ConSym(name)) => begins_with_colon(name.as_bytes()),
        _ => false,
    }
}

/// Whether a token stands here that ends no place of a block.
pub fn begins_place(tokens: &[Terminal]) -> bool
    ensures { result ≡ begins fills_place tokens.now }
{
    match tokens.first() {
        None | Some(Terminal::Semicolon | Terminal::RightBrace) => false,
        _ => true,
    }
}
