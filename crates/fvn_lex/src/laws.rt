//! What is proved of all texts, each law carried by a function that does nothing.
ghost use Rattle.fvn_lex.specs.Laws.{TokensAreTheCut, FaultIsTheFirst, TextsAreSlices, PiecesAreTheCut, TrailingWhiteSpace, PiecesByForm, PiecesStandAlone, JoinedPiecesAreRead, SpacesAreNeeded};

/// A text has these tokens exactly where it is a row of white space, comments and tokens, each as long as it
/// can be, with these tokens among them.
pub fn tokens_are_the_cut()
    ensures { TokensAreTheCut }
{}

/// A text has a fault exactly where such a row leads up to it, and no part can begin there.
pub fn fault_is_the_first()
    ensures { FaultIsTheFirst }
{}

/// The text of each token is its slice of the bytes.
pub fn texts_are_slices()
    ensures { TextsAreSlices }
{}

/// A text has these pieces exactly where it is a row of white space, comments and tokens, each as long as it can be,
/// with these pieces among them.
pub fn pieces_are_the_cut()
    ensures { PiecesAreTheCut }
{}

/// A byte of white space at the end of a text changes nothing, so a line and the line with its line feed have
/// the same tokens.
pub fn trailing_white_space()
    ensures { TrailingWhiteSpace }
{}

/// A piece is a token by itself exactly where it is a word or one of the special bytes.
pub fn pieces_by_form()
    ensures { PiecesByForm }
{}

/// Each piece of a text is a token by itself.
pub fn pieces_stand_alone()
    ensures { PiecesStandAlone }
{}

/// Pieces joined with a space wherever two of them would else be one token, and maybe elsewhere, are cut into
/// these pieces again.
pub fn lex_join()
    ensures { JoinedPiecesAreRead }
{}

/// A space is needed exactly where two pieces without one would not be cut into these two.
pub fn spaces_are_needed()
    ensures { SpacesAreNeeded }
{}
