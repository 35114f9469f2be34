//! Looks at the terminals about the places of a block.
ghost use Rattle.std.specs.Prelude.{◌≡◌, ◌∷◌, MatchOption, false};
ghost use Rattle.hs_forms.specs.Reading.{begins};
ghost use Rattle.hs_tokens.specs.declared.terminal.Terminal.TheVariants as t;
ghost use Rattle.hs_block_forms.specs.Blocks.{is_left_brace, is_right_brace, is_semicolon};

use hs_tokens::Terminal;

/// What stands after a `{`.
pub fn after_left_brace(tokens: &[Terminal]) -> Option<&[Terminal]>
    ensures { MatchOption result (begins is_left_brace tokens.now ≡ false) (λ rest. tokens.now ≡ t.LeftBrace ∷ rest.now) }
{
    match tokens.split_first() {
        Some((Terminal::LeftBrace, rest)) => Some(rest),
        _ => None,
    }
}

/// What stands after a `}`.
pub fn after_right_brace(tokens: &[Terminal]) -> Option<&[Terminal]>
    ensures { MatchOption result (begins is_right_brace tokens.now ≡ false) (λ rest. tokens.now ≡ t.RightBrace ∷ rest.now) }
{
    match tokens.split_first() {
        Some((Terminal::RightBrace, rest)) => Some(rest),
        _ => None,
    }
}

/// Whether a `;` stands here.
pub fn begins_semicolon(tokens: &[Terminal]) -> bool
    ensures { result ≡ begins is_semicolon tokens.now }
{
    matches!(tokens.first(), Some(Terminal::Semicolon))
}
