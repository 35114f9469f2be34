//! Looks at the next terminals behind a bracket.
ghost use Rattle.std.specs.Prelude.{◌≡◌, ◌∷◌, MatchOption, false, true};
ghost use Rattle.hs_forms.specs.Reading.{begins};
ghost use Rattle.hs_tokens.specs.Terminals.{is_backquote};
ghost use Rattle.hs_operand_forms.specs.Brackets.{is_left_bracket, is_symbol};
ghost use Rattle.hs_tokens.specs.declared.terminal.Terminal.TheVariants.{LeftBracket};

use hs_tokens::Terminal;

/// What stands after a `[`.
pub fn after_left_bracket(tokens: &[Terminal]) -> Option<&[Terminal]>
    ensures { MatchOption result (begins is_left_bracket tokens.now ≡ false) (λ rest. tokens.now ≡ LeftBracket ∷ rest.now) }
{
    match tokens.split_first() {
        Some((Terminal::LeftBracket, rest)) => Some(rest),
        _ => None,
    }
}

/// A symbol and what stands after it.
pub fn after_symbol(tokens: &[Terminal]) -> Option<(&Terminal, &[Terminal])>
    ensures { MatchOption result (begins is_symbol tokens.now ≡ false) (λ x. (is_symbol x.0.now ≡ true) × (tokens.now ≡ x.0.now ∷ x.1.now)) }
{
    let (first, rest) = tokens.split_first()?;
    if is_symbol(first) {
        Some((first, rest))
    } else {
        None
    }
}

/// Whether a terminal is an operator without backquotes.
fn is_symbol(terminal: &Terminal) -> bool
    ensures { result ≡ is_symbol terminal.now }
{
    match terminal {
        Terminal::VarSym(_) | Terminal::QVarSym(_) | Terminal::ConSym(_) | Terminal::Colon => true,
        _ => false,
    }
}

/// Whether a backquote stands here.
pub fn begins_backquote(tokens: &[Terminal]) -> bool
    ensures { result ≡ begins is_backquote tokens.now }
{
    matches!(tokens.first(), Some(Terminal::Backquote))
}
