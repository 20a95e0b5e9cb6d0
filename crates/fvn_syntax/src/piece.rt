//! Tokens with their texts, which are parts of the text that was cut.
ghost use Rattle.std.specs.Prelude.{◌≡◌, ◌⊎◌, Some, IfOk, IfErr};
ghost use Rattle.fvn_lex.specs.declared.token.LexFault.TheVariants.{NoMemory as OutOfMemory};
ghost use Rattle.fvn_lex.specs.Cut.{pieces_of};
ghost use Rattle.fvn_lex.specs.Parts.{HasPieces, IsFirstFault};
ghost use Rattle.fvn_syntax.specs.Pieces.{is_word, is_name, is_special, is_dot};

use fvn_lex::{Class, LexFault, tokens};
use std::alloc::Global;
use std::marker::Model;

/// Bytes of a text.
#[derive(Drop)]
pub struct Text<'a> {
    bytes: &'a [u8],
}

impl<'a> Model for Text<'a> {
    ghost use Rattle.std.specs.Prelude.{List, ℕ};

    ghost Value = { List ℕ };

    ghost view = { λ t. t.bytes.now };
}

impl<'a> Text<'a> {
    /// These bytes.
    pub fn new(bytes: &'a [u8]) -> Text<'a>
        ensures { result ≡ bytes.now }
    {
        Text { bytes }
    }

    /// The bytes.
    pub fn bytes(&self) -> &'a [u8]
        ensures { result.now ≡ self.now }
    {
        self.bytes
    }
}

/// A token with its text.
#[derive(Drop)]
pub struct Piece<'a> {
    class: Class,
    text: &'a [u8],
}

impl<'a> Model for Piece<'a> {
    ghost use Rattle.fvn_lex.specs.Cut.{Piece as LexPiece};

    ghost Value = { LexPiece };

    ghost view = { λ p. record { class = p.class; text = p.text.now } };
}

impl<'a> Piece<'a> {
    /// The token of this class and text.
    pub fn new(class: Class, text: &'a [u8]) -> Piece<'a>
        ensures { result ≡ record { class = class; text = text.now } }
    {
        Piece { class, text }
    }

    /// What kind of token it is.
    pub fn class(&self) -> Class
        ensures { result ≡ self.now.class }
    {
        self.class
    }

    /// Its text.
    pub fn text(&self) -> &'a [u8]
        ensures { result.now ≡ self.now.text }
    {
        self.text
    }

    /// Whether it is a word of any text.
    pub fn is_word(&self) -> bool
        ensures { result ≡ is_word self.now }
    {
        matches!(self.class, Class::Word)
    }

    /// Whether it is the word of this text.
    pub fn is_name(&self, text: &[u8]) -> bool
        ensures { result ≡ is_name text.now self.now }
    {
        self.is_word() && self.text == text
    }

    /// Whether it is the special byte of this text.
    pub fn is_special(&self, text: &[u8]) -> bool
        ensures { result ≡ is_special text.now self.now }
    {
        matches!(self.class, Class::Special) && self.text == text
    }

    /// Whether it is the dot.
    pub fn is_dot(&self) -> bool
        ensures { result ≡ is_dot self.now }
    {
        matches!(self.class, Class::Dot)
    }
}

/// Some tokens of a text, one after another.
#[derive(Drop)]
pub struct Row<'a> {
    pieces: &'a [Piece<'a>],
}

impl<'a> Model for Row<'a> {
    ghost use Rattle.std.specs.Prelude.{List};
    ghost use Rattle.fvn_lex.specs.Cut.{Piece as LexPiece};

    ghost Value = { List LexPiece };

    ghost view = { λ r. r.pieces.now };
}

impl<'a> Row<'a> {
    /// These tokens.
    pub fn new(pieces: &'a [Piece<'a>]) -> Row<'a>
        ensures { result ≡ pieces.now }
    {
        Row { pieces }
    }

    /// The tokens.
    pub fn pieces(&self) -> &'a [Piece<'a>]
        ensures { result.now ≡ self.now }
    {
        self.pieces
    }
}

// The pieces of a text, as they are computed, or its fault.
fn cut_pieces<'a>(alloc: Global, bytes: &'a [u8]) -> Result<Vec<Piece<'a>>, LexFault>
    ensures ok { IfOk result (λ list. pieces_of bytes.now ≡ Some list.items) }
    ensures err { IfErr result (λ fault. (fault ≡ OutOfMemory) ⊎ IsFirstFault bytes.now fault) }
{
    let list = tokens(alloc, bytes)?;
    let mut pieces = Vec::new(alloc);
    for token in &list {
        let text = &bytes[token.start..token.end];
        pieces.push(Piece::new(token.class, text))?;
    }
    Ok(pieces)
}

/// The pieces of a text, or the first fault for which it has none.
pub fn cut<'a>(alloc: Global, bytes: &'a [u8]) -> Result<Vec<Piece<'a>>, LexFault>
    ensures ok { IfOk result (λ list. HasPieces bytes.now list.items) }
    ensures err { IfErr result (λ fault. (fault ≡ OutOfMemory) ⊎ IsFirstFault bytes.now fault) }
{
    cut_pieces(alloc, bytes)
}
