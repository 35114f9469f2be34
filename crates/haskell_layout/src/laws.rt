//! What holds of every layout.
ghost use Rattle.haskell_layout.specs.Laws.{GivenStand, BracesStay, BracesMatch, BracesLayOut};

/// The tokens of the source stand in its layout in their order. What layout makes is one of `{`, `}` and `;`, in column 0 and
/// not first on its line, at the offset of the token of the source that follows, or at the end of the source.
pub fn given_tokens_stand()
    ensures { GivenStand }
{}

/// Tokens in which no block is due, since a `{` stands wherever one would be, are their own layout.
pub fn braces_stay()
    ensures { BracesStay }
{}

/// The braces of a layout match.
pub fn braces_match()
    ensures { BracesMatch }
{}

/// Tokens whose every block has braces that match are their own layout.
pub fn braces_lay_out()
    ensures { BracesLayOut }
{}
