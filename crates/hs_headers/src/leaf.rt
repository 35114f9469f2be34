//! Looks at the next terminals.
ghost use Rattle.std.specs.Prelude.{◌≡◌, ◌∷◌, MatchOption, true, false, codes, nat_eq};
ghost use Rattle.std.specs.List.{list_any};
ghost use Rattle.hs_forms.specs.Reading.{begins};
ghost use Rattle.hs_tokens.specs.Terminals.{is_comma, is_var_sym};
ghost use Rattle.hs_tokens.specs.declared.terminal.Terminal.TheVariants.{Comma, Con, ConSym, DotDot, QVar, QVarSym, Var, VarSym};
ghost use Rattle.hs_tokens.specs.declared.terminal.Terminal.TheVariants as t;
ghost use Rattle.hs_tokens.specs.declared.word.Word.TheVariants.{Import, Module, Where};
ghost use Rattle.hs_modules.specs.Words.{has_dot, begins_with_colon};
ghost use Rattle.hs_headers.specs.Names.{is_as_word, is_dots, is_hiding_word, is_import_word, is_module_word, is_own_con, is_own_con_sym, is_qualified_word, is_qvar, is_qvar_sym, is_signature_word, is_var, is_where_word};
ghost use Rattle.hs_headers.specs.Names.{is_left_paren, starts_export, starts_list, starts_name, starts_qvar, starts_var};

use bp_base::Bytes;
use hs_tokens::{Terminal, Word};

/// What stands after a `,`.
pub fn after_comma(tokens: &[Terminal]) -> Option<&[Terminal]>
    ensures { MatchOption result (begins is_comma tokens.now ≡ false) (λ rest. tokens.now ≡ Comma ∷ rest.now) }
{
    match tokens.split_first() {
        Some((Terminal::Comma, rest)) => Some(rest),
        _ => None,
    }
}

/// A variable and what stands after it.
pub fn after_var(tokens: &[Terminal]) -> Option<(&Bytes, &[Terminal])>
    ensures { MatchOption result (begins is_var tokens.now ≡ false) (λ x. tokens.now ≡ Var x.0.now ∷ x.1.now) }
{
    match tokens.split_first() {
        Some((Terminal::Var(name), rest)) => Some((name, rest)),
        _ => None,
    }
}

/// A qualified variable and what stands after it.
pub fn after_qvar(tokens: &[Terminal]) -> Option<(&Bytes, &[Terminal])>
    ensures { MatchOption result (begins is_qvar tokens.now ≡ false) (λ x. tokens.now ≡ QVar x.0.now ∷ x.1.now) }
{
    match tokens.split_first() {
        Some((Terminal::QVar(name), rest)) => Some((name, rest)),
        _ => None,
    }
}

/// A symbol of a variable and what stands after it.
pub fn after_var_sym(tokens: &[Terminal]) -> Option<(&Bytes, &[Terminal])>
    ensures { MatchOption result (begins is_var_sym tokens.now ≡ false) (λ x. tokens.now ≡ VarSym x.0.now ∷ x.1.now) }
{
    match tokens.split_first() {
        Some((Terminal::VarSym(name), rest)) => Some((name, rest)),
        _ => None,
    }
}

/// A qualified symbol of a variable and what stands after it.
pub fn after_qvar_sym(tokens: &[Terminal]) -> Option<(&Bytes, &[Terminal])>
    ensures { MatchOption result (begins is_qvar_sym tokens.now ≡ false) (λ x. tokens.now ≡ QVarSym x.0.now ∷ x.1.now) }
{
    match tokens.split_first() {
        Some((Terminal::QVarSym(name), rest)) => Some((name, rest)),
        _ => None,
    }
}

fn is_dot(byte: u8) -> bool
    ensures { result ≡ nat_eq byte 46 }
{
    byte == b'.'
}

fn any_dot(text: &[u8]) -> bool
    ensures { result ≡ list_any (λ b. nat_eq b 46) text.now }
{
    text.iter().any(|b| is_dot(*b))
}

/// Whether a dot stands in the text.
#[tactic(auto, using(crate::proofs::NameLemmas::dot_listed))]
pub fn has_dot(text: &[u8]) -> bool
    ensures { result ≡ has_dot text.now }
{
    any_dot(text)
}

/// Whether the text begins with a colon.
pub fn begins_with_colon(text: &[u8]) -> bool
    ensures { result ≡ begins_with_colon text.now }
{
    match text.first() {
        Some(b':') => true,
        _ => false,
    }
}

/// A constructor that is not qualified, and what stands after it.
pub fn after_own_con(tokens: &[Terminal]) -> Option<(&Bytes, &[Terminal])>
    ensures { MatchOption result (begins is_own_con tokens.now ≡ false) (λ x. (tokens.now ≡ Con x.0.now ∷ x.1.now) × (has_dot x.0.now ≡ false)) }
{
    match tokens.split_first() {
        Some((Terminal::Con(name), rest)) if !has_dot(name.as_bytes()) => Some((name, rest)),
        _ => None,
    }
}

/// A symbol of a constructor that is not qualified, and what stands after it.
pub fn after_own_con_sym(tokens: &[Terminal]) -> Option<(&Bytes, &[Terminal])>
    ensures { MatchOption result (begins is_own_con_sym tokens.now ≡ false) (λ x. (tokens.now ≡ ConSym x.0.now ∷ x.1.now) × (begins_with_colon x.0.now ≡ true)) }
{
    match tokens.split_first() {
        Some((Terminal::ConSym(name), rest)) if begins_with_colon(name.as_bytes()) => {
            Some((name, rest))
        }
        _ => None,
    }
}

/// What stands after a `..`.
pub fn after_dots(tokens: &[Terminal]) -> Option<&[Terminal]>
    ensures { MatchOption result (begins is_dots tokens.now ≡ false) (λ rest. tokens.now ≡ DotDot ∷ rest.now) }
{
    match tokens.split_first() {
        Some((Terminal::DotDot, rest)) => Some(rest),
        _ => None,
    }
}

/// What stands after `module`.
pub fn after_module(tokens: &[Terminal]) -> Option<&[Terminal]>
    ensures { MatchOption result (begins is_module_word tokens.now ≡ false) (λ rest. tokens.now ≡ t.Word Module ∷ rest.now) }
{
    match tokens.split_first() {
        Some((Terminal::Word(Word::Module), rest)) => Some(rest),
        _ => None,
    }
}

/// What stands after `import`.
pub fn after_import(tokens: &[Terminal]) -> Option<&[Terminal]>
    ensures { MatchOption result (begins is_import_word tokens.now ≡ false) (λ rest. tokens.now ≡ t.Word Import ∷ rest.now) }
{
    match tokens.split_first() {
        Some((Terminal::Word(Word::Import), rest)) => Some(rest),
        _ => None,
    }
}

/// Whether `import` stands here.
pub fn begins_import(tokens: &[Terminal]) -> bool
    ensures { result ≡ begins is_import_word tokens.now }
{
    after_import(tokens).is_some()
}

/// What stands after `where`.
pub fn after_where(tokens: &[Terminal]) -> Option<&[Terminal]>
    ensures { MatchOption result (begins is_where_word tokens.now ≡ false) (λ rest. tokens.now ≡ t.Word Where ∷ rest.now) }
{
    match tokens.split_first() {
        Some((Terminal::Word(Word::Where), rest)) => Some(rest),
        _ => None,
    }
}

/// What stands after `qualified`, which is a name elsewhere.
pub fn after_qualified(tokens: &[Terminal]) -> Option<&[Terminal]>
    ensures { MatchOption result (begins is_qualified_word tokens.now ≡ false) (λ rest. tokens.now ≡ Var (codes "qualified") ∷ rest.now) }
{
    match tokens.split_first() {
        Some((Terminal::Var(name), rest)) if name.as_bytes() == b"qualified".as_slice() => {
            Some(rest)
        }
        _ => None,
    }
}

/// What stands after `as`, which is a name elsewhere.
pub fn after_as(tokens: &[Terminal]) -> Option<&[Terminal]>
    ensures { MatchOption result (begins is_as_word tokens.now ≡ false) (λ rest. tokens.now ≡ Var (codes "as") ∷ rest.now) }
{
    match tokens.split_first() {
        Some((Terminal::Var(name), rest)) if name.as_bytes() == b"as".as_slice() => Some(rest),
        _ => None,
    }
}

/// What stands after `hiding`, which is a name elsewhere.
pub fn after_hiding(tokens: &[Terminal]) -> Option<&[Terminal]>
    ensures { MatchOption result (begins is_hiding_word tokens.now ≡ false) (λ rest. tokens.now ≡ Var (codes "hiding") ∷ rest.now) }
{
    match tokens.split_first() {
        Some((Terminal::Var(name), rest)) if name.as_bytes() == b"hiding".as_slice() => Some(rest),
        _ => None,
    }
}

/// Whether a `(` stands here.
pub fn begins_left_paren(tokens: &[Terminal]) -> bool
    ensures { result ≡ begins is_left_paren tokens.now }
{
    matches!(tokens.first(), Some(Terminal::LeftParen))
}

/// Whether a variable or a bracket stands here.
pub fn begins_var(tokens: &[Terminal]) -> bool
    ensures { result ≡ begins starts_var tokens.now }
{
    match tokens.first() {
        Some(Terminal::Var(_) | Terminal::LeftParen) => true,
        _ => false,
    }
}

/// Whether a variable, qualified or not, or a bracket stands here.
pub fn begins_qvar(tokens: &[Terminal]) -> bool
    ensures { result ≡ begins starts_qvar tokens.now }
{
    match tokens.first() {
        Some(Terminal::Var(_) | Terminal::QVar(_) | Terminal::LeftParen) => true,
        _ => false,
    }
}

/// Whether a name or a bracket stands here.
pub fn begins_name(tokens: &[Terminal]) -> bool
    ensures { result ≡ begins starts_name tokens.now }
{
    match tokens.first() {
        Some(Terminal::Con(_) | Terminal::Var(_) | Terminal::LeftParen) => true,
        _ => false,
    }
}

/// Whether an export begins here.
pub fn begins_export(tokens: &[Terminal]) -> bool
    ensures { result ≡ begins starts_export tokens.now }
{
    match tokens.first() {
        Some(
            Terminal::Con(_)
            | Terminal::Var(_)
            | Terminal::QVar(_)
            | Terminal::LeftParen
            | Terminal::Word(Word::Module),
        ) => true,
        _ => false,
    }
}

/// Whether the list of an import begins here.
pub fn begins_list(tokens: &[Terminal]) -> bool
    ensures { result ≡ begins starts_list tokens.now }
{
    begins_left_paren(tokens) || after_hiding(tokens).is_some()
}

/// What stands after `signature`, which is a name elsewhere.
pub fn after_signature(tokens: &[Terminal]) -> Option<&[Terminal]>
    ensures { MatchOption result (begins is_signature_word tokens.now ≡ false) (λ rest. tokens.now ≡ Var (codes "signature") ∷ rest.now) }
{
    match tokens.split_first() {
        Some((Terminal::Var(name), rest)) if name.as_bytes() == b"signature".as_slice() => {
            Some(rest)
        }
        _ => None,
    }
}
