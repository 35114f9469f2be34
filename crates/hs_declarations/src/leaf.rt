//! Looks at the next terminals.
ghost use Rattle.std.specs.Prelude.{◌≡◌, ◌∷◌, MatchOption, false};
ghost use Rattle.hs_forms.specs.Reading.{begins};
ghost use Rattle.hs_tokens.specs.declared.terminal.Terminal.TheVariants as t;
ghost use Rattle.hs_tokens.specs.declared.word.Word.TheVariants as w;
ghost use Rattle.hs_declarations.specs.Declarations.{is_data_word, is_double_colon, is_equals, is_type_word};

use hs_tokens::{Terminal, Word};

/// What stands after a `=`.
pub fn after_equals(tokens: &[Terminal]) -> Option<&[Terminal]>
    ensures { MatchOption result (begins is_equals tokens.now ≡ false) (λ rest. tokens.now ≡ t.Equals ∷ rest.now) }
{
    match tokens.split_first() {
        Some((Terminal::Equals, rest)) => Some(rest),
        _ => None,
    }
}

/// What stands after `type`.
pub fn after_type(tokens: &[Terminal]) -> Option<&[Terminal]>
    ensures { MatchOption result (begins is_type_word tokens.now ≡ false) (λ rest. tokens.now ≡ t.Word w.Type ∷ rest.now) }
{
    match tokens.split_first() {
        Some((Terminal::Word(Word::Type), rest)) => Some(rest),
        _ => None,
    }
}

/// What stands after `data`.
pub fn after_data(tokens: &[Terminal]) -> Option<&[Terminal]>
    ensures { MatchOption result (begins is_data_word tokens.now ≡ false) (λ rest. tokens.now ≡ t.Word w.Data ∷ rest.now) }
{
    match tokens.split_first() {
        Some((Terminal::Word(Word::Data), rest)) => Some(rest),
        _ => None,
    }
}

/// What stands after a `::`.
pub fn after_double_colon(tokens: &[Terminal]) -> Option<&[Terminal]>
    ensures { MatchOption result (begins is_double_colon tokens.now ≡ false) (λ rest. tokens.now ≡ t.DoubleColon ∷ rest.now) }
{
    match tokens.split_first() {
        Some((Terminal::DoubleColon, rest)) => Some(rest),
        _ => None,
    }
}
