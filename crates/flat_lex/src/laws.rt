//! What holds of every text of pieces, and of the literals in it.
ghost use Rattle.flat_lex.specs.Literals.{LiteralsArePieces};
ghost use Rattle.flat_lex.specs.Pieces.{PiecesAreRead};

/// The tokens of a text of pieces are its lexemes, where no two pieces touch that could be read as one.
pub fn pieces_are_read()
    ensures { PiecesAreRead }
{}

/// A printed integer, character or string is read as one token, whatever follows that can't go on with it.
pub fn literals_are_pieces()
    ensures { LiteralsArePieces }
{}
