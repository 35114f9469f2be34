//! Looks at the next terminals of a pattern.
ghost use Rattle.std.specs.Prelude.{◌≡◌, ◌∷◌, MatchOption, false};
ghost use Rattle.hs_forms.specs.Reading.{begins};
ghost use Rattle.hs_tokens.specs.Terminals.{is_at, is_backquote, is_con, is_integer, is_minus, minus, starts_qconop};
ghost use Rattle.hs_trees.specs.Patterns.{starts_apat, starts_pat};
ghost use Rattle.hs_tokens.specs.declared.terminal.Terminal.TheVariants.{At, Backquote, Con, Integer, VarSym};

use bp_base::Bytes;
use hs_tokens::Terminal;

/// What stands after a `@`.
pub fn after_at(tokens: &[Terminal]) -> Option<&[Terminal]>
    ensures { MatchOption result (begins is_at tokens.now ≡ false) (λ rest. tokens.now ≡ At ∷ rest.now) }
{
    match tokens.split_first() {
        Some((Terminal::At, rest)) => Some(rest),
        _ => None,
    }
}

/// What stands after a backquote.
pub fn after_backquote(tokens: &[Terminal]) -> Option<&[Terminal]>
    ensures { MatchOption result (begins is_backquote tokens.now ≡ false) (λ rest. tokens.now ≡ Backquote ∷ rest.now) }
{
    match tokens.split_first() {
        Some((Terminal::Backquote, rest)) => Some(rest),
        _ => None,
    }
}

/// A constructor and what stands after it.
pub fn after_con(tokens: &[Terminal]) -> Option<(&Bytes, &[Terminal])>
    ensures { MatchOption result (begins is_con tokens.now ≡ false) (λ x. tokens.now ≡ Con x.0.now ∷ x.1.now) }
{
    match tokens.split_first() {
        Some((Terminal::Con(name), rest)) => Some((name, rest)),
        _ => None,
    }
}

/// An integer and what stands after it.
pub fn after_integer(tokens: &[Terminal]) -> Option<(&Bytes, &[Terminal])>
    ensures { MatchOption result (begins is_integer tokens.now ≡ false) (λ x. tokens.now ≡ Integer x.0.now ∷ x.1.now) }
{
    match tokens.split_first() {
        Some((Terminal::Integer(text), rest)) => Some((text, rest)),
        _ => None,
    }
}

/// What stands after the symbol `-`.
pub fn after_minus(tokens: &[Terminal]) -> Option<&[Terminal]>
    ensures { MatchOption result (begins is_minus tokens.now ≡ false) (λ rest. tokens.now ≡ VarSym minus ∷ rest.now) }
{
    match tokens.split_first() {
        Some((Terminal::VarSym(name), rest)) if name.as_bytes() == b"-".as_slice() => Some(rest),
        _ => None,
    }
}

/// Whether an `apat` begins here.
pub fn begins_apat(tokens: &[Terminal]) -> bool
    ensures { result ≡ begins starts_apat tokens.now }
{
    match tokens.first() {
        Some(
            Terminal::Var(_)
            | Terminal::Con(_)
            | Terminal::Integer(_)
            | Terminal::Char(_)
            | Terminal::Text(_)
            | Terminal::LeftParen
            | Terminal::LeftBracket
            | Terminal::Underscore
            | Terminal::Tilde,
        ) => true,
        _ => false,
    }
}

/// Whether a constructor operator begins here.
pub fn begins_qconop(tokens: &[Terminal]) -> bool
    ensures { result ≡ begins starts_qconop tokens.now }
{
    match tokens.first() {
        Some(Terminal::ConSym(_) | Terminal::Colon | Terminal::Backquote) => true,
        _ => false,
    }
}

/// Whether a pattern begins here.
pub fn starts_pat(tokens: &[Terminal]) -> bool
    ensures { result ≡ starts_pat tokens.now }
{
    match after_minus(tokens) {
        Some(rest) => after_integer(rest).is_some(),
        None => begins_apat(tokens),
    }
}
