//! Cutting texts into entries.
ghost use Rattle.std.specs.Prelude.{◌≡◌, List, ◌∷◌, IfOk, IfErr, IfSome, IfNone};
ghost use Rattle.fvn_lex.specs.Cut.{Piece};
ghost use Rattle.fvn_lex.specs.Parts.{HasPieces};
ghost use Rattle.fvn_syntax.specs.Pieces.{comma};
ghost use Rattle.fvn_weights_reading.specs.inner.Split.{numbers_in, AreNumbersSplit, IsEntrySplit, BeginsWithNoEntry, IsEntriesRow, IsNoEntriesRow};
ghost use Rattle.fvn_weights_reading.specs.inner.Steps.{IsLexFault};

use crate::entry::Entry;
use crate::numbers::count_numbers;
use fvn_lex::LexFault;
use fvn_problems::ProblemFault;
use fvn_syntax::{Piece, Row, Text, cut};
use fvn_terms::NoMemory;
use std::alloc::Global;

/// The tokens of a text.
pub(crate) fn cut_text<'a>(alloc: Global, bytes: &'a [u8]) -> Result<Vec<Piece<'a>>, ProblemFault>
    ensures ok { IfOk result (λ list. HasPieces bytes.now list.items) }
    ensures err { IfErr result (IsLexFault bytes.now) }
{
    match cut(alloc, bytes) {
        Ok(list) => Ok(list),
        Err(LexFault::NoMemory) => Err(ProblemFault::NoMemory),
        Err(fault) => Err(ProblemFault::Lex(fault)),
    }
}

// What is behind a comma, where the row begins with one.
fn behind_comma<'a>(row: &'a [Piece<'a>]) -> Option<Row<'a>>
    ensures some { IfSome result (λ rest. row.now ≡ comma ∷ rest) }
    ensures none { IfNone result ((rest : List Piece) → row.now ≡ comma ∷ rest → ⊥) }
{
    let Some((first, rest)) = row.split_first() else {
        return None;
    };
    let comma = first.is_special(b",");
    if !comma {
        return None;
    }
    Some(Row::new(rest))
}

// The numbers with which the row begins, where there are any, and what is behind them.
fn split_numbers<'a>(row: &'a [Piece<'a>]) -> Option<(Row<'a>, Row<'a>)>
    ensures some { IfSome result (λ r. AreNumbersSplit row.now r.0 r.1) }
    ensures none { IfNone result (numbers_in row.now ≡ 0) }
{
    let count = count_numbers(row);
    if count == 0 {
        return None;
    }
    Some((Row::new(&row[..count]), Row::new(&row[count..])))
}

// The entry with which the row begins, and what is behind it.
fn split_entry<'a>(row: &'a [Piece<'a>]) -> Option<(Entry<'a>, Row<'a>)>
    ensures some { IfSome result (λ r. IsEntrySplit row.now r.0 r.1) }
    ensures none { IfNone result (BeginsWithNoEntry row.now) }
{
    let Some((first, behind)) = row.split_first() else {
        return None;
    };
    let word = first.is_word();
    if !word {
        return None;
    }
    let Some((second, after)) = behind.split_first() else {
        return None;
    };
    let colon = second.is_name(b":");
    if !colon {
        return None;
    }
    let Some((numbers, rest)) = split_numbers(after) else {
        return None;
    };
    let name = Text::new(first.text());
    Some((Entry { name, numbers }, rest))
}

/// The entries that the row is.
pub(crate) fn split_entries<'a>(
    alloc: Global,
    row: &'a [Piece<'a>],
) -> Result<Option<Vec<Entry<'a>>>, NoMemory>
    ensures some { IfOk result (λ r. IfSome r (λ es. IsEntriesRow row.now es.items)) }
    ensures none { IfOk result (λ r. IfNone r (IsNoEntriesRow row.now)) }
{
    let mut list = Vec::new(alloc);
    let empty = row.is_empty();
    if empty {
        return Ok(Some(list));
    }
    let Some((first, after)) = split_entry(row) else {
        return Ok(None);
    };
    list.push(first)?;
    let mut rest = after;
    while let Some(more) = behind_comma(rest.pieces()) {
        let Some((entry, after)) = split_entry(more.pieces()) else {
            return Ok(None);
        };
        list.push(entry)?;
        rest = after;
    }
    let ended = rest.pieces().is_empty();
    if !ended {
        return Ok(None);
    }
    Ok(Some(list))
}
