//! Where a written term ends, by its form alone, with the parentheses that are open on a stack.
ghost use Rattle.std.specs.Prelude.{◌≡◌, ◌≤◌, [], ◌∷◌, length, take, drop, reverse, option_map, IfOk, IfSome, IfNone};
ghost use Rattle.fvn_syntax.specs.Pieces.{is_colon_name};
ghost use Rattle.fvn_syntax.specs.Raw.{IsTermBefore, LeavesOnly, BeginsWithNoTerm};
ghost use Rattle.fvn_syntax.specs.declared.form.Spot.TheVariants.{Wanted};
ghost use Rattle.fvn_syntax.specs.inner.Form.{Goes, view, behind, step, is_whole, behind_term};

use crate::piece::Piece;
use fvn_terms::NoMemory;
use std::alloc::Global;

/// A parenthesis that is open: around a term, or around arguments.
#[derive(Clone, Copy)]
pub enum Mark {
    Round,
    Call,
}

/// What was read last: what asks for a term, a name, what asks for a sort, a sort, or a whole term.
///
/// Of a name it tells whether a bracket behind it belongs to it.
#[derive(Clone, Copy)]
pub enum Spot {
    Wanted,
    Named(bool),
    SortWanted,
    SortNamed,
    Whole,
}

/// The form so far: the open parentheses, the innermost last, and what was read last.
#[derive(Drop)]
pub struct Form {
    pub marks: Vec<Mark>,
    pub spot: Spot,
}

/// What a piece does: the reading goes on, or the term ended before it, or there is no term.
#[derive(Drop)]
pub enum Move {
    On(Form),
    End,
    Bad,
}

/// Whether a text ends with a colon and has a byte before it.
pub fn ends_with_colon(text: &[u8]) -> bool
    ensures { result ≡ is_colon_name text.now }
{
    1 < text.len() && text[text.len() - 1] == b':'
}

// Opens a parenthesis.
fn open(mut marks: Vec<Mark>, mark: Mark) -> Result<Move, NoMemory>
    ensures { IfOk result (λ m. view m ≡ Goes (mark ∷ reverse marks.items) Wanted) }
{
    marks.push(mark)?;
    Ok(Move::On(Form {
        marks,
        spot: Spot::Wanted,
    }))
}

// The form goes on here.
fn goes(marks: Vec<Mark>, spot: Spot) -> Move
    ensures { view result ≡ Goes (reverse marks.items) spot }
{
    Move::On(Form { marks, spot })
}

// Reads a piece behind a whole term.
fn read_behind(mut marks: Vec<Mark>, piece: &Piece<'_>) -> Result<Move, NoMemory>
    ensures { IfOk result (λ m. view m ≡ behind piece.now (reverse marks.items)) }
{
    match marks.pop() {
        None => Ok(Move::End),
        Some(Mark::Call) if piece.is_special(b",") => open(marks, Mark::Call),
        Some(_) => {
            if piece.is_special(b")") {
                Ok(goes(marks, Spot::Whole))
            } else {
                Ok(Move::Bad)
            }
        }
    }
}

// Reads one more piece.
fn read(form: Form, piece: &Piece<'_>) -> Result<Move, NoMemory>
    ensures { IfOk result (λ m. view m ≡ step (reverse form.marks.items) piece.now form.spot) }
{
    let Form { marks, spot } = form;
    match spot {
        Spot::Wanted => {
            if piece.is_special(b"(") {
                return open(marks, Mark::Round);
            }
            if !piece.is_word() {
                return Ok(Move::Bad);
            }
            let colon = ends_with_colon(piece.text());
            Ok(goes(marks, Spot::Named(colon)))
        }
        Spot::Named(colon) => {
            if piece.is_special(b"(") {
                return open(marks, Mark::Call);
            }
            if colon && piece.is_special(b"[") {
                return Ok(goes(marks, Spot::SortWanted));
            }
            read_behind(marks, piece)
        }
        Spot::SortWanted => {
            if piece.is_word() {
                Ok(goes(marks, Spot::SortNamed))
            } else {
                Ok(Move::Bad)
            }
        }
        Spot::SortNamed => {
            if piece.is_special(b",") {
                return Ok(goes(marks, Spot::SortWanted));
            }
            if piece.is_special(b"]") {
                return Ok(goes(marks, Spot::Whole));
            }
            Ok(Move::Bad)
        }
        Spot::Whole => read_behind(marks, piece),
    }
}

// Whether a term may end where this was read last.
fn is_whole_at(spot: Spot) -> bool
    ensures { result ≡ is_whole spot }
{
    matches!(spot, Spot::Named(_) | Spot::Whole)
}

// The number of pieces of the term, by the reader as a function.
#[tactic(auto, unfolding(crate::specs::inner::Form::left_behind))]
fn skip(alloc: Global, row: &[Piece<'_>]) -> Result<Option<usize>, NoMemory>
    ensures within { IfOk result (λ r. IfSome r (λ n. n ≤ length row.now)) }
    ensures rest { IfOk result (λ r. option_map (λ n. drop n row.now) r ≡ behind_term row.now) }
{
    let mut form = Form {
        marks: Vec::new(alloc),
        spot: Spot::Wanted,
    };
    for (i, piece) in row.iter().enumerate() {
        match read(form, piece)? {
            Move::On(next) => form = next,
            Move::End => return Ok(Some(i)),
            Move::Bad => return Ok(None),
        }
    }
    if form.marks.is_empty() && is_whole_at(form.spot) {
        Ok(Some(row.len()))
    } else {
        Ok(None)
    }
}

/// The number of pieces that the term takes with which the row begins, or none where it begins with no term.
///
/// A name and a parenthesis behind it belong together, and so do a name that ends with a colon, has a byte
/// before it, and a bracket behind it. The depth of the term costs no call depth.
pub fn skip_term(alloc: Global, row: &[Piece<'_>]) -> Result<Option<usize>, NoMemory>
    ensures within { IfOk result (λ r. IfSome r (λ n. n ≤ length row.now)) }
    ensures term { IfOk result (λ r. IfSome r (λ n. IsTermBefore (drop n row.now) row.now)) }
    ensures alone { IfOk result (λ r. IfSome r (λ n. IsTermBefore [] (take n row.now))) }
    ensures only { IfOk result (λ r. IfSome r (λ n. LeavesOnly (drop n row.now) row.now)) }
    ensures none { IfOk result (λ r. IfNone r (BeginsWithNoTerm row.now)) }
{
    let taken = skip(alloc, row)?;
    Ok(taken)
}
