//! Reading equations.
ghost use Rattle.std.specs.Prelude.{◌≡◌, IfOk, codes};
ghost use Rattle.std.specs.List.{list_any};
ghost use Rattle.fvn_syntax.specs.Pieces.{is_name};
ghost use Rattle.fvn_module_statements.specs.inner.Equations.{
  term_of,
  mark_named,
  is_variant,
  left_out_at_mark,
  marks_of,
  label_behind,
  label_of,
  behind_equals,
  right_of,
  equation_of,
  asked_equation,
};

use crate::attributes::{is_close, read_word};
use crate::outcome::Reading;
use crate::reader::{Reader, read_all};
use crate::words::is_text;
use fvn_base::Seq;
use fvn_module_syntax::{Feature, Mark, Statement};
use fvn_syntax::{Piece, Row, Text, skip_term};
use fvn_terms::NoMemory;
use std::alloc::Global;

// The term at the beginning, and what follows it.
fn read_side<'a>(
    alloc: Global,
    row: &'a [Piece<'a>],
) -> Result<Option<(Row<'a>, Row<'a>)>, NoMemory>
    ensures { IfOk result (λ r. r ≡ term_of row.now) }
{
    match skip_term(alloc, row)? {
        None => Ok(None),
        Some(n) => Ok(Some((Row::new(&row[..n]), Row::new(&row[n..])))),
    }
}

// The attribute that begins with a word.
fn read_named<'a>(word: &[u8], row: &'a [Piece<'a>]) -> Option<(Mark<'a>, Row<'a>)>
    ensures { result ≡ mark_named word.now row.now }
{
    if is_text(word, b"variant") {
        return Some((Mark::Variant, Row::new(row)));
    }
    if is_text(word, b"label") {
        let Some((text, rest)) = read_word(row) else {
            return None;
        };
        return Some((Mark::Label(text), rest));
    }
    None
}

// An attribute.
struct AnyMark;

impl<'a> Reader<'a, Mark<'a>> for AnyMark {
    ghost use Rattle.fvn_module_statements.specs.inner.Equations.{mark_of};

    ghost reads = { mark_of };

    fn read(
        &self,
        _alloc: Global,
        row: &'a [Piece<'a>],
    ) -> Result<Option<(Mark<'a>, Row<'a>)>, NoMemory> {
        let Some((piece, rest)) = row.split_first() else {
            return Ok(None);
        };
        if !piece.is_word() {
            return Ok(None);
        }
        Ok(read_named(piece.text(), rest))
    }
}

// Whether the attribute is `variant`.
fn is_variant(mark: &Mark<'_>) -> bool
    ensures { result ≡ is_variant mark.now }
{
    matches!(mark, Mark::Variant)
}

// Whether one of the attributes is `variant`.
fn any_variant(marks: &[Mark<'_>]) -> bool
    ensures { result ≡ list_any is_variant marks.now }
{
    marks.iter().any(|mark| is_variant(mark))
}

// The left-out form that begins where no attribute can be read.
fn left_out_at_mark(row: &[Piece<'_>]) -> Option<Feature>
    ensures { result ≡ left_out_at_mark row.now }
{
    let Some(piece) = row.first() else {
        return None;
    };
    if piece.is_word() && !piece.is_name(b"label") {
        Some(Feature::Attribute)
    } else {
        None
    }
}

// The attributes in brackets that are the tokens.
fn read_marks<'a>(alloc: Global, row: &'a [Piece<'a>]) -> Result<Reading<Seq<Mark<'a>>>, NoMemory>
    ensures { IfOk result (λ r. r ≡ marks_of row.now) }
{
    let Some((piece, rest)) = row.split_first() else {
        return Ok(Reading::LeftOut(Feature::Equation));
    };
    if !piece.is_special(b"[") {
        return Ok(Reading::NoForm);
    }
    let (marks, rest) = read_all(alloc, &AnyMark, rest)?;
    if marks.is_empty() || !is_close(rest.pieces()) {
        return match left_out_at_mark(rest.pieces()) {
            Some(feature) => Ok(Reading::LeftOut(feature)),
            None => Ok(Reading::NoForm),
        };
    }
    if any_variant(marks.as_slice()) {
        Ok(Reading::Read(marks))
    } else {
        Ok(Reading::LeftOut(Feature::Equation))
    }
}

// The rest of a label, behind its bracket.
fn label_behind<'a>(row: &'a [Piece<'a>]) -> Option<(Option<Text<'a>>, Row<'a>)>
    ensures { result ≡ label_behind row.now }
{
    let Some((name, rest)) = row.split_first() else {
        return None;
    };
    let Some((bracket, rest)) = rest.split_first() else {
        return None;
    };
    let Some((colon, rest)) = rest.split_first() else {
        return None;
    };
    if name.is_word() && bracket.is_special(b"]") && colon.is_name(b":") {
        Some((Some(Text::new(name.text())), Row::new(rest)))
    } else {
        None
    }
}

// The label at the beginning, where there is one, and what follows it.
fn read_label<'a>(row: &'a [Piece<'a>]) -> Option<(Option<Text<'a>>, Row<'a>)>
    ensures { result ≡ label_of row.now }
{
    match row.split_first() {
        Some((piece, rest)) if piece.is_special(b"[") => label_behind(rest),
        _ => Some((None, Row::new(row))),
    }
}

// What follows an `=`, if the row begins with one.
fn behind_equals<'a>(row: &'a [Piece<'a>]) -> Option<Row<'a>>
    ensures { result ≡ behind_equals row.now }
{
    let Some((first, rest)) = row.split_first() else {
        return None;
    };
    if first.is_name(b"=") {
        Some(Row::new(rest))
    } else {
        None
    }
}

// The right side and the attributes.
fn read_right<'a>(
    alloc: Global,
    label: Option<Text<'a>>,
    left: Row<'a>,
    row: &'a [Piece<'a>],
) -> Result<Reading<Statement<'a>>, NoMemory>
    ensures { IfOk result (λ r. r ≡ right_of label.entry left.entry (term_of row.now)) }
{
    let Some((right, rest)) = read_side(alloc, row)? else {
        return Ok(Reading::NoForm);
    };
    match read_marks(alloc, rest.pieces())? {
        Reading::Read(marks) => Ok(Reading::Read(Statement::Equation {
            label,
            left,
            right,
            marks,
        })),
        Reading::LeftOut(feature) => Ok(Reading::LeftOut(feature)),
        Reading::NoForm => Ok(Reading::NoForm),
    }
}

// What follows `eq`, from left to right.
fn read_whole<'a>(alloc: Global, row: &'a [Piece<'a>]) -> Result<Reading<Statement<'a>>, NoMemory>
    ensures { IfOk result (λ r. r ≡ equation_of row.now) }
{
    let Some((label, rest)) = read_label(row) else {
        return Ok(Reading::NoForm);
    };
    let Some((left, rest)) = read_side(alloc, rest.pieces())? else {
        return Ok(Reading::NoForm);
    };
    let Some(rest) = behind_equals(rest.pieces()) else {
        return Ok(Reading::NoForm);
    };
    read_right(alloc, label, left, rest.pieces())
}

// Whether `variant` is named.
fn names_variant(row: &[Piece<'_>]) -> bool
    ensures { result ≡ list_any (is_name (codes "variant")) row.now }
{
    row.iter().any(|piece| piece.is_name(b"variant"))
}

/// What follows `eq`: where it has no form, the equation is left out as long as `variant` is not named.
pub fn read_equation<'a>(
    alloc: Global,
    row: &'a [Piece<'a>],
) -> Result<Reading<Statement<'a>>, NoMemory>
    ensures { IfOk result (λ r. r ≡ asked_equation row.now) }
{
    match read_whole(alloc, row)? {
        Reading::Read(statement) => Ok(Reading::Read(statement)),
        Reading::LeftOut(feature) => Ok(Reading::LeftOut(feature)),
        Reading::NoForm => {
            if names_variant(row) {
                return Ok(Reading::NoForm);
            }
            Ok(Reading::LeftOut(Feature::Equation))
        }
    }
}
