//! Looks at the next terminal.
ghost use Rattle.std.specs.Prelude.{◌≡◌, ◌≤◌, ◌∷◌, MatchOption, false, drop, length};
ghost use Rattle.std.specs.List.{prefix_len};
ghost use Rattle.hs_forms.specs.Reading.{begins};
ghost use Rattle.hs_tokens.specs.Terminals.{is_arrow, is_comma, is_right_paren, is_right_bracket, is_star, star};
ghost use Rattle.hs_trees.specs.Types.{starts_atype, starts_tuple_name};
ghost use Rattle.hs_trees.specs.Kinds.{is_left_paren};
ghost use Rattle.hs_tokens.specs.declared.terminal.Terminal.TheVariants.{LeftParen, RightParen, RightBracket, Arrow, VarSym};

use hs_tokens::Terminal;

/// What stands after a `->`.
pub fn after_arrow(tokens: &[Terminal]) -> Option<&[Terminal]>
    ensures { MatchOption result (begins is_arrow tokens.now ≡ false) (λ rest. tokens.now ≡ Arrow ∷ rest.now) }
{
    match tokens.split_first() {
        Some((Terminal::Arrow, rest)) => Some(rest),
        _ => None,
    }
}

/// What stands after a `)`.
pub fn after_right_paren(tokens: &[Terminal]) -> Option<&[Terminal]>
    ensures { MatchOption result (begins is_right_paren tokens.now ≡ false) (λ rest. tokens.now ≡ RightParen ∷ rest.now) }
{
    match tokens.split_first() {
        Some((Terminal::RightParen, rest)) => Some(rest),
        _ => None,
    }
}

/// What stands after a `]`.
pub fn after_right_bracket(tokens: &[Terminal]) -> Option<&[Terminal]>
    ensures { MatchOption result (begins is_right_bracket tokens.now ≡ false) (λ rest. tokens.now ≡ RightBracket ∷ rest.now) }
{
    match tokens.split_first() {
        Some((Terminal::RightBracket, rest)) => Some(rest),
        _ => None,
    }
}

/// Whether an `atype` begins here.
pub fn begins_atype(tokens: &[Terminal]) -> bool
    ensures { result ≡ begins starts_atype tokens.now }
{
    match tokens.first() {
        Some(Terminal::Con(_) | Terminal::Var(_) | Terminal::LeftParen | Terminal::LeftBracket) =>
            true,
        _ => false,
    }
}

/// What stands after a `(`.
pub fn after_left_paren(tokens: &[Terminal]) -> Option<&[Terminal]>
    ensures { MatchOption result (begins is_left_paren tokens.now ≡ false) (λ rest. tokens.now ≡ LeftParen ∷ rest.now) }
{
    match tokens.split_first() {
        Some((Terminal::LeftParen, rest)) => Some(rest),
        _ => None,
    }
}

/// What stands after the symbol `*`.
pub fn after_star(tokens: &[Terminal]) -> Option<&[Terminal]>
    ensures { MatchOption result (begins is_star tokens.now ≡ false) (λ rest. tokens.now ≡ VarSym star ∷ rest.now) }
{
    match tokens.split_first() {
        Some((Terminal::VarSym(name), rest)) if name.as_bytes() == b"*".as_slice() => Some(rest),
        _ => None,
    }
}

/// What stands after so many terminals.
pub fn after(tokens: &[Terminal], count: usize) -> &[Terminal]
    requires { count ≤ length tokens.now }
    ensures { result.now ≡ drop count tokens.now }
{
    &tokens[count..]
}

/// How many commas stand here.
pub fn count_commas(tokens: &[Terminal]) -> usize
    ensures value { result ≡ prefix_len is_comma tokens.now }
    ensures within { result ≤ length tokens.now }
{
    tokens
        .iter()
        .take_while(|terminal| matches!(terminal, Terminal::Comma))
        .count()
}

/// Whether a `->` stands here.
pub fn begins_arrow(tokens: &[Terminal]) -> bool
    ensures { result ≡ begins is_arrow tokens.now }
{
    matches!(tokens.first(), Some(Terminal::Arrow))
}

/// Whether a `,` stands here.
pub fn begins_comma(tokens: &[Terminal]) -> bool
    ensures { result ≡ begins is_comma tokens.now }
{
    matches!(tokens.first(), Some(Terminal::Comma))
}

/// Whether the name of the unit or of a tuple stands here, behind its `(`.
pub fn begins_tuple_name(tokens: &[Terminal]) -> bool
    ensures { result ≡ begins starts_tuple_name tokens.now }
{
    matches!(tokens.first(), Some(Terminal::RightParen | Terminal::Comma))
}
