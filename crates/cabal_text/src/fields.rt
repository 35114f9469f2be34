//! Fields, heads and lists.
ghost use Rattle.std.specs.Prelude.{◌≡◌, ◌≤◌, ◌<◌, ◌∷◌, [], List, ℕ, length, take, drop, not, None, Some, MatchOption, IfSome};
ghost use Rattle.std.specs.List.{prefix_len};
ghost use Rattle.cabal_text.specs.Characters.{is_space, is_field_char, is_gap};
ghost use Rattle.cabal_text.specs.Fields.{field_of, first_word, is_word, items_of};

use crate::characters::{is_field_char, is_gap, is_space};
use crate::lines::indent_of;

/// How many characters of a field's name stand at the front.
fn name_len(text: &[u8]) -> usize
    ensures value { result ≡ prefix_len is_field_char text.now }
    ensures within { result ≤ length text.now }
{
    text.iter().take_while(|b| is_field_char(**b)).count()
}

/// The name and the value of a field.
#[tactic(auto, unfolding(crate::specs::Fields::field_of))]
pub fn field_of(text: &[u8]) -> Option<(&[u8], &[u8])>
    ensures { MatchOption result (field_of text.now ≡ None) (λ field. field_of text.now ≡ Some (field.0.now, field.1.now)) }
{
    let (name, rest) = text.split_at(name_len(text));
    if name.is_empty() {
        return None;
    }
    match &rest[indent_of(rest)..] {
        [b':', value @ ..] => Some((name, value)),
        _ => None,
    }
}

/// The word up to the first space.
#[tactic(auto, unfolding(crate::specs::Fields::first_word))]
pub fn first_word(text: &[u8]) -> &[u8]
    ensures { result.now ≡ first_word text.now }
{
    for (i, b) in text.iter().enumerate() {
        if is_space(*b) {
            return &text[..i];
        }
    }
    text
}

/// Whether a text is the word, in any case.
#[tactic(auto, unfolding(crate::specs::Fields::is_word))]
pub fn is_word(text: &[u8], word: &[u8]) -> bool
    ensures { result ≡ is_word text.now word.now }
{
    text.eq_ignore_ascii_case(word)
}

/// How many characters stand before the first space or comma.
fn item_len(text: &[u8]) -> usize
    ensures value { result ≡ prefix_len (λ b. not (is_gap b)) text.now }
    ensures within { result ≤ length text.now }
{
    text.iter().take_while(|b| !is_gap(**b)).count()
}

/// A list from its first item on.
fn skip_gaps(text: &[u8]) -> &[u8]
    ensures same { items_of result.now ≡ items_of text.now }
    ensures shorter { length result.now ≤ length text.now }
    ensures item { 0 < length result.now → 0 < prefix_len (λ b. not (is_gap b)) result.now }
{
    let mut rest = text;
    while let [first, after @ ..] = rest {
        if !is_gap(*first) {
            break;
        }
        rest = after;
    }
    rest
}

/// The first item of a list and what comes after it.
pub fn next_item(text: &[u8]) -> Option<(&[u8], &[u8])>
    ensures item { MatchOption result (items_of text.now ≡ []) (λ x. items_of text.now ≡ x.0.now ∷ items_of x.1.now) }
    ensures shorter { IfSome result (λ x. length x.1.now < length text.now) }
{
    let rest = skip_gaps(text);
    if rest.is_empty() {
        return None;
    }
    Some(rest.split_at(item_len(rest)))
}
