//! Reading sorts.
ghost use Rattle.std.specs.Prelude.{◌≡◌, IfOk};
ghost use Rattle.fvn_module_statements.specs.inner.Sorts.{kind_before, bracket_sort, sort_of, arrow_of, rank_of};

use crate::attributes::read_word;
use crate::reader::{Reader, read_all};
use fvn_base::Seq;
use fvn_module_syntax::RawRank;
use fvn_syntax::{Piece, RawSort, Row, Text};
use fvn_terms::NoMemory;
use std::alloc::Global;

// A comma and a word.
struct AfterComma;

impl<'a> Reader<'a, Text<'a>> for AfterComma {
    ghost use Rattle.fvn_module_statements.specs.inner.Sorts.{after_comma};

    ghost reads = { after_comma };

    fn read(
        &self,
        _alloc: Global,
        row: &'a [Piece<'a>],
    ) -> Result<Option<(Text<'a>, Row<'a>)>, NoMemory> {
        match row.split_first() {
            Some((piece, rest)) if piece.is_special(b",") => Ok(read_word(rest)),
            _ => Ok(None),
        }
    }
}

// A sort that is no arrow.
struct Argument;

impl<'a> Reader<'a, RawSort<'a>> for Argument {
    ghost use Rattle.fvn_module_statements.specs.inner.Sorts.{argument_of};

    ghost reads = { argument_of };

    fn read(
        &self,
        alloc: Global,
        row: &'a [Piece<'a>],
    ) -> Result<Option<(RawSort<'a>, Row<'a>)>, NoMemory> {
        match row.first() {
            Some(piece) if piece.is_name(b"->") || piece.is_name(b"~>") => Ok(None),
            _ => read_sort(alloc, row),
        }
    }
}

// The kind of these sorts, before a bracket that closes.
fn kind_before<'a>(
    first: Text<'a>,
    others: Seq<Text<'a>>,
    row: &'a [Piece<'a>],
) -> Option<(RawSort<'a>, Row<'a>)>
    ensures { result ≡ kind_before first.entry others.entry row.now }
{
    let Some((piece, rest)) = row.split_first() else {
        return None;
    };
    if piece.is_special(b"]") {
        Some((RawSort::Kind(first, others), Row::new(rest)))
    } else {
        None
    }
}

// The kind of sorts, behind a bracket that opens.
fn bracket_sort<'a>(
    alloc: Global,
    row: &'a [Piece<'a>],
) -> Result<Option<(RawSort<'a>, Row<'a>)>, NoMemory>
    ensures { IfOk result (λ r. r ≡ bracket_sort row.now) }
{
    let Some((piece, rest)) = row.split_first() else {
        return Ok(None);
    };
    if !piece.is_word() {
        return Ok(None);
    }
    let (others, rest) = read_all(alloc, &AfterComma, rest)?;
    Ok(kind_before(Text::new(piece.text()), others, rest.pieces()))
}

/// The sort at the beginning of some tokens, and what follows it.
pub fn read_sort<'a>(
    alloc: Global,
    row: &'a [Piece<'a>],
) -> Result<Option<(RawSort<'a>, Row<'a>)>, NoMemory>
    ensures { IfOk result (λ r. r ≡ sort_of row.now) }
{
    let Some((piece, rest)) = row.split_first() else {
        return Ok(None);
    };
    if piece.is_special(b"[") {
        return bracket_sort(alloc, rest);
    }
    if !piece.is_word() {
        return Ok(None);
    }
    Ok(Some((RawSort::Name(Text::new(piece.text())), Row::new(rest))))
}

// The arrow at the beginning, whether it is that of partial operators, and what follows it.
fn read_arrow<'a>(row: &'a [Piece<'a>]) -> Option<(bool, Row<'a>)>
    ensures { result ≡ arrow_of row.now }
{
    let Some((piece, rest)) = row.split_first() else {
        return None;
    };
    if piece.is_name(b"->") {
        Some((false, Row::new(rest)))
    } else if piece.is_name(b"~>") {
        Some((true, Row::new(rest)))
    } else {
        None
    }
}

/// The sorts of arguments and result at the beginning of some tokens, and what follows them.
pub fn read_rank<'a>(
    alloc: Global,
    row: &'a [Piece<'a>],
) -> Result<Option<(RawRank<'a>, Row<'a>)>, NoMemory>
    ensures { IfOk result (λ r. r ≡ rank_of row.now) }
{
    let (args, rest) = read_all(alloc, &Argument, row)?;
    let Some((partial, rest)) = read_arrow(rest.pieces()) else {
        return Ok(None);
    };
    let Some((result, rest)) = read_sort(alloc, rest.pieces())? else {
        return Ok(None);
    };
    Ok(Some((
        RawRank {
            args,
            partial,
            result,
        },
        rest,
    )))
}
