//! Looks at the next terminals of an expression.
ghost use Rattle.std.specs.Prelude.{◌≡◌, ◌∷◌, MatchOption, false};
ghost use Rattle.hs_forms.specs.Reading.{begins};
ghost use Rattle.hs_tokens.specs.Terminals.{is_minus};
ghost use Rattle.hs_tokens.specs.declared.terminal.Terminal.TheVariants as t;
ghost use Rattle.hs_tokens.specs.declared.word.Word.TheVariants as w;
ghost use Rattle.hs_expression_forms.specs.Expressions.{is_double_colon, starts_aexp, starts_exp, starts_qop};
ghost use Rattle.hs_expressions.specs.Leaves.{is_backslash, is_let, is_in, is_if, is_then, is_else, is_case, is_of};

use hs_readers::after_minus;
use hs_tokens::{Terminal, Word};

/// Whether the symbol `-` stands here.
pub fn begins_minus(tokens: &[Terminal]) -> bool
    ensures { result ≡ begins is_minus tokens.now }
{
    after_minus(tokens).is_some()
}

/// Whether an `aexp` begins here.
pub fn begins_aexp(tokens: &[Terminal]) -> bool
    ensures { result ≡ begins starts_aexp tokens.now }
{
    match tokens.first() {
        Some(
            Terminal::Var(_)
            | Terminal::QVar(_)
            | Terminal::Con(_)
            | Terminal::Integer(_)
            | Terminal::Char(_)
            | Terminal::Text(_)
            | Terminal::LeftParen
            | Terminal::LeftBracket,
        ) => true,
        _ => false,
    }
}

/// Whether an operator begins here.
pub fn begins_qop(tokens: &[Terminal]) -> bool
    ensures { result ≡ begins starts_qop tokens.now }
{
    match tokens.first() {
        Some(
            Terminal::VarSym(_)
            | Terminal::QVarSym(_)
            | Terminal::ConSym(_)
            | Terminal::Colon
            | Terminal::Backquote,
        ) => true,
        _ => false,
    }
}

/// Whether an expression begins here.
pub fn begins_exp(tokens: &[Terminal]) -> bool
    ensures { result ≡ begins starts_exp tokens.now }
{
    match tokens.first() {
        Some(Terminal::Backslash | Terminal::Word(Word::Let | Word::If | Word::Case)) => true,
        _ => begins_minus(tokens) || begins_aexp(tokens),
    }
}

/// What stands after a `\`.
pub fn after_backslash(tokens: &[Terminal]) -> Option<&[Terminal]>
    ensures { MatchOption result (begins is_backslash tokens.now ≡ false) (λ rest. tokens.now ≡ t.Backslash ∷ rest.now) }
{
    match tokens.split_first() {
        Some((Terminal::Backslash, rest)) => Some(rest),
        _ => None,
    }
}

/// What stands after a `::`.
pub fn after_double_colon(tokens: &[Terminal]) -> Option<&[Terminal]>
    ensures { MatchOption result (begins is_double_colon tokens.now ≡ false) (λ rest. tokens.now ≡ t.DoubleColon ∷ rest.now) }
{
    match tokens.split_first() {
        Some((Terminal::DoubleColon, rest)) => Some(rest),
        _ => None,
    }
}

/// What stands after a `let`.
pub fn after_let(tokens: &[Terminal]) -> Option<&[Terminal]>
    ensures { MatchOption result (begins is_let tokens.now ≡ false) (λ rest. tokens.now ≡ t.Word w.Let ∷ rest.now) }
{
    match tokens.split_first() {
        Some((Terminal::Word(Word::Let), rest)) => Some(rest),
        _ => None,
    }
}

/// What stands after a `in`.
pub fn after_in(tokens: &[Terminal]) -> Option<&[Terminal]>
    ensures { MatchOption result (begins is_in tokens.now ≡ false) (λ rest. tokens.now ≡ t.Word w.In ∷ rest.now) }
{
    match tokens.split_first() {
        Some((Terminal::Word(Word::In), rest)) => Some(rest),
        _ => None,
    }
}

/// What stands after a `if`.
pub fn after_if(tokens: &[Terminal]) -> Option<&[Terminal]>
    ensures { MatchOption result (begins is_if tokens.now ≡ false) (λ rest. tokens.now ≡ t.Word w.If ∷ rest.now) }
{
    match tokens.split_first() {
        Some((Terminal::Word(Word::If), rest)) => Some(rest),
        _ => None,
    }
}

/// What stands after a `then`.
pub fn after_then(tokens: &[Terminal]) -> Option<&[Terminal]>
    ensures { MatchOption result (begins is_then tokens.now ≡ false) (λ rest. tokens.now ≡ t.Word w.Then ∷ rest.now) }
{
    match tokens.split_first() {
        Some((Terminal::Word(Word::Then), rest)) => Some(rest),
        _ => None,
    }
}

/// What stands after a `else`.
pub fn after_else(tokens: &[Terminal]) -> Option<&[Terminal]>
    ensures { MatchOption result (begins is_else tokens.now ≡ false) (λ rest. tokens.now ≡ t.Word w.Else ∷ rest.now) }
{
    match tokens.split_first() {
        Some((Terminal::Word(Word::Else), rest)) => Some(rest),
        _ => None,
    }
}

/// What stands after a `case`.
pub fn after_case(tokens: &[Terminal]) -> Option<&[Terminal]>
    ensures { MatchOption result (begins is_case tokens.now ≡ false) (λ rest. tokens.now ≡ t.Word w.Case ∷ rest.now) }
{
    match tokens.split_first() {
        Some((Terminal::Word(Word::Case), rest)) => Some(rest),
        _ => None,
    }
}

/// What stands after a `of`.
pub fn after_of(tokens: &[Terminal]) -> Option<&[Terminal]>
    ensures { MatchOption result (begins is_of tokens.now ≡ false) (λ rest. tokens.now ≡ t.Word w.Of ∷ rest.now) }
{
    match tokens.split_first() {
        Some((Terminal::Word(Word::Of), rest)) => Some(rest),
        _ => None,
    }
}
