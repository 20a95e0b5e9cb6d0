//! The tokens of a text, and single ones among them.
ghost use Rattle.std.specs.Prelude.{◌≡◌, ◌↔◌, ◌∷◌, IsTrue, IfOk, IfErr, IfSome, IfNone};
ghost use Rattle.fvn_lex.specs.Parts.{HasPieces};
ghost use Rattle.fvn_problems.specs.inner.Split.{is_full_stop, is_end, BeginsNotWith};
ghost use Rattle.fvn_problems.specs.inner.Steps.{IsLexFault};

use crate::fault::ProblemFault;
use fvn_lex::LexFault;
use fvn_syntax::{Piece, Row, cut};
use std::alloc::Global;

/// The tokens of a text.
pub fn cut_text<'a>(alloc: Global, bytes: &'a [u8]) -> Result<Vec<Piece<'a>>, ProblemFault>
    ensures ok { IfOk result (λ list. HasPieces bytes.now list.items) }
    ensures err { IfErr result (IsLexFault bytes.now) }
{
    match cut(alloc, bytes) {
        Ok(list) => Ok(list),
        Err(LexFault::NoMemory) => Err(ProblemFault::NoMemory),
        Err(fault) => Err(ProblemFault::Lex(fault)),
    }
}

// Whether it is the dot.
fn is_full_stop(piece: &Piece<'_>) -> bool
    ensures { result ≡ is_full_stop piece.now }
{
    piece.is_dot() && piece.text() == b".".as_slice()
}

/// Whether there is nothing, or a dot alone.
pub fn is_end(rest: &[Piece<'_>]) -> bool
    ensures { result ≡ is_end rest.now }
{
    match rest.split_first() {
        None => true,
        Some((piece, more)) => more.is_empty() && is_full_stop(piece),
    }
}

// Whether the two pieces are one.
fn is_same(p: &Piece<'_>, q: &Piece<'_>) -> bool
    ensures { IsTrue result ↔ (p.now ≡ q.now) }
{
    p.class() == q.class() && p.text() == q.text()
}

/// What is behind a piece, where the row begins with it.
pub fn behind<'a>(row: &'a [Piece<'a>], piece: &Piece<'_>) -> Option<Row<'a>>
    ensures some { IfSome result (λ rest. row.now ≡ piece.now ∷ rest) }
    ensures none { IfNone result (BeginsNotWith piece.now row.now) }
{
    let (first, rest) = row.split_first()?;
    if is_same(first, piece) {
        Some(Row::new(rest))
    } else {
        None
    }
}
