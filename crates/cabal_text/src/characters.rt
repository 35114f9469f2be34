//! Characters of project and component files.
ghost use Rattle.std.specs.Prelude.{◌≡◌};
ghost use Rattle.cabal_text.specs.Characters.{is_space, is_field_char, is_gap};

/// A space, or a tab, which counts as one.
#[tactic(auto, unfolding(crate::specs::Characters::is_space))]
pub fn is_space(b: u8) -> bool
    ensures { result ≡ is_space b }
{
    b == b' ' || b == b'\t'
}

/// A character of a field's name.
#[tactic(auto, unfolding(crate::specs::Characters::is_field_char))]
pub fn is_field_char(b: u8) -> bool
    ensures { result ≡ is_field_char b }
{
    b.is_ascii_alphanumeric() || b == b'-' || b == b'_'
}

/// What stands between the items of a list: spaces, commas and line ends.
#[tactic(auto, unfolding(crate::specs::Characters::is_gap))]
pub fn is_gap(b: u8) -> bool
    ensures { result ≡ is_gap b }
{
    is_space(b) || b == b',' || b == b'\n'
}
