//! Looks at the next terminals.
ghost use Rattle.std.specs.Prelude.{◌≡◌, ◌∷◌, MatchOption, codes, false};
ghost use Rattle.hs_forms.specs.Reading.{begins};
ghost use Rattle.hs_tokens.specs.declared.terminal.Terminal.TheVariants as t;
ghost use Rattle.hs_tokens.specs.declared.word.Word.TheVariants as w;
ghost use Rattle.hs_declarations.specs.Declarations.{is_data_word};
ghost use Rattle.hs_block_forms.specs.Blocks.{is_bar};
ghost use Rattle.hs_declaration_forms.specs.Datatypes.{constr_goes, is_bang, is_newtype_word, starts_conop, starts_field, starts_type_decl};

use hs_declarations::after_data;
use hs_readers::begins_atype;
use hs_tokens::{Terminal, Word};

/// What stands after the symbol `!`.
pub fn after_bang(tokens: &[Terminal]) -> Option<&[Terminal]>
    ensures { MatchOption result (begins is_bang tokens.now ≡ false) (λ rest. tokens.now ≡ t.VarSym (codes "!") ∷ rest.now) }
{
    match tokens.split_first() {
        Some((Terminal::VarSym(name), rest)) if name.as_bytes() == b"!".as_slice() => Some(rest),
        _ => None,
    }
}

/// What stands after `newtype`.
pub fn after_newtype(tokens: &[Terminal]) -> Option<&[Terminal]>
    ensures { MatchOption result (begins is_newtype_word tokens.now ≡ false) (λ rest. tokens.now ≡ t.Word w.Newtype ∷ rest.now) }
{
    match tokens.split_first() {
        Some((Terminal::Word(Word::Newtype), rest)) => Some(rest),
        _ => None,
    }
}

/// Whether a field begins here.
pub fn begins_field(tokens: &[Terminal]) -> bool
    ensures { result ≡ begins starts_field tokens.now }
{
    begins_atype(tokens) || after_bang(tokens).is_some()
}

/// Whether the operator of a constructor stands here, qualified or not.
fn begins_conop(tokens: &[Terminal]) -> bool
    ensures { result ≡ begins starts_conop tokens.now }
{
    match tokens.first() {
        Some(Terminal::ConSym(_) | Terminal::Backquote) => true,
        _ => false,
    }
}

/// Whether a token stands here by which a constructor goes on.
pub fn goes_on_constr(tokens: &[Terminal]) -> bool
    ensures { result ≡ begins constr_goes tokens.now }
{
    begins_field(tokens) || begins_conop(tokens)
}

/// Whether a `|` stands here.
pub fn begins_bar(tokens: &[Terminal]) -> bool
    ensures { result ≡ begins is_bar tokens.now }
{
    matches!(tokens.first(), Some(Terminal::Bar))
}

/// Whether the declaration of a type begins here.
pub fn begins_type_decl(tokens: &[Terminal]) -> bool
    ensures { result ≡ begins starts_type_decl tokens.now }
{
    matches!(
        tokens.first(),
        Some(Terminal::Word(Word::Data | Word::Newtype | Word::Type))
    )
}

/// Whether `data` stands here.
pub fn begins_data(tokens: &[Terminal]) -> bool
    ensures { result ≡ begins is_data_word tokens.now }
{
    after_data(tokens).is_some()
}

/// Whether `newtype` stands here.
pub fn begins_newtype(tokens: &[Terminal]) -> bool
    ensures { result ≡ begins is_newtype_word tokens.now }
{
    after_newtype(tokens).is_some()
}
