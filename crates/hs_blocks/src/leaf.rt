//! Looks at the next terminals of a block.
ghost use Rattle.std.specs.Prelude.{◌≡◌, ◌∷◌, MatchOption, false};
ghost use Rattle.hs_forms.specs.Reading.{begins};
ghost use Rattle.hs_trees.specs.Patterns.{starts_lpat};
ghost use Rattle.hs_tokens.specs.declared.terminal.Terminal.TheVariants.{Equals, LeftArrow};
ghost use Rattle.hs_block_forms.specs.Blocks.{is_bar, is_equals, is_left_arrow, is_where};
ghost use Rattle.hs_block_forms.proofs.GuardLemmas.{past};

use hs_readers::{after_minus, begins_apat};
use hs_tokens::{Terminal, Word};

/// What stands after a `=`.
pub fn after_equals(tokens: &[Terminal]) -> Option<&[Terminal]>
    ensures { MatchOption result (begins is_equals tokens.now ≡ false) (λ rest. tokens.now ≡ Equals ∷ rest.now) }
{
    match tokens.split_first() {
        Some((Terminal::Equals, rest)) => Some(rest),
        _ => None,
    }
}

/// What stands after a `<-`.
pub fn after_left_arrow(tokens: &[Terminal]) -> Option<&[Terminal]>
    ensures { MatchOption result (begins is_left_arrow tokens.now ≡ false) (λ rest. tokens.now ≡ LeftArrow ∷ rest.now) }
{
    match tokens.split_first() {
        Some((Terminal::LeftArrow, rest)) => Some(rest),
        _ => None,
    }
}

/// Whether a `|` stands here.
pub fn begins_bar(tokens: &[Terminal]) -> bool
    ensures { result ≡ begins is_bar tokens.now }
{
    matches!(tokens.first(), Some(Terminal::Bar))
}

/// Whether a `where` stands here.
pub fn begins_where(tokens: &[Terminal]) -> bool
    ensures { result ≡ begins is_where tokens.now }
{
    matches!(tokens.first(), Some(Terminal::Word(Word::Where)))
}

/// Whether a pattern begins here, as far as its first terminal tells.
pub fn begins_lpat(tokens: &[Terminal]) -> bool
    ensures { result ≡ begins starts_lpat tokens.now }
{
    begins_apat(tokens) || after_minus(tokens).is_some()
}

/// Whether a terminal stands here that follows no guard.
pub fn goes_past(tokens: &[Terminal]) -> bool
    ensures { result ≡ begins past tokens.now }
{
    match tokens.first() {
        None | Some(Terminal::Comma | Terminal::Equals | Terminal::Arrow) => false,
        Some(_) => true,
    }
}
