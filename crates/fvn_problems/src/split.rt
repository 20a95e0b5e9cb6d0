//! Cutting rows of pieces into terms and pairs.
ghost use Rattle.std.specs.Prelude.{◌≡◌, ◌↔◌, List, [], ◌∷◌, IsTrue, IfOk, IfSome, IfNone};
ghost use Rattle.std.specs.List.{list_all};
ghost use Rattle.fvn_syntax.specs.Pieces.{right_brace};
ghost use Rattle.fvn_syntax.specs.Raw.{BeginsWithNoTerm};
ghost use Rattle.fvn_problems.specs.Spelling.{RawQuery, RawPair, RawProblem};
ghost use Rattle.fvn_problems.specs.inner.Split.{
  is_alone,
  IsBetween,
  IsTermSplit,
  IsPairSplit,
  BeginsWithNoPair,
  ArePairsSplit,
  BeginsWithNoPairs,
  IsQueryRow,
  IsQuerySplit,
  IsProblemRow,
  IsProblemSplit,
  IsBindingRow,
  IsBindingSplit,
};

use crate::text::{behind, is_end};
use fvn_base::Seq;
use fvn_lex::Class;
use fvn_syntax::{Piece, Row, skip_term};
use fvn_terms::NoMemory;
use std::alloc::Global;

/// The pieces of the two terms of a pair.
#[derive(Drop)]
pub struct Halves<'a> {
    pub left: Row<'a>,
    pub right: Row<'a>,
}

// The term with which the row begins, and what is behind it.
fn split_term<'a>(
    alloc: Global,
    row: &'a [Piece<'a>],
) -> Result<Option<(Row<'a>, Row<'a>)>, NoMemory>
    ensures some { IfOk result (λ r. IfSome r (λ x. IsTermSplit row.now x.0 x.1)) }
    ensures none { IfOk result (λ r. IfNone r (BeginsWithNoTerm row.now)) }
{
    match skip_term(alloc, row)? {
        None => Ok(None),
        Some(n) => Ok(Some((Row::new(&row[..n]), Row::new(&row[n..])))),
    }
}

// The pair with which the row begins, and what is behind it.
fn split_pair<'a>(
    alloc: Global,
    between: &[u8],
    row: &'a [Piece<'a>],
) -> Result<Option<(Halves<'a>, Row<'a>)>, NoMemory>
    ensures some { IfOk result (λ r. IfSome r (λ x. IsPairSplit between.now row.now x.0 x.1)) }
    ensures none { IfOk result (λ r. IfNone r (BeginsWithNoPair between.now row.now)) }
{
    let Some((left, rest)) = split_term(alloc, row)? else {
        return Ok(None);
    };
    let Some(second) = behind(rest.pieces(), &Piece::new(Class::Word, between)) else {
        return Ok(None);
    };
    let Some((right, rest)) = split_term(alloc, second.pieces())? else {
        return Ok(None);
    };
    Ok(Some((Halves { left, right }, rest)))
}

// The pairs with which the row begins, with a separator between each two, and what is behind them.
fn split_pairs<'a>(
    alloc: Global,
    between: &[u8],
    separator: &Piece<'_>,
    row: &'a [Piece<'a>],
) -> Result<Option<(Seq<Halves<'a>>, Row<'a>)>, NoMemory>
    requires { IsBetween separator.now }
    ensures some { IfOk result (λ r.
        IfSome r (λ x. ArePairsSplit between.now separator.now row.now x.0 x.1)) }
    ensures none { IfOk result (λ r.
        IfNone r (BeginsWithNoPairs between.now separator.now row.now)) }
{
    let Some((pair, after)) = split_pair(alloc, between, row)? else {
        return Ok(None);
    };
    let mut list = Vec::new(alloc);
    list.push(pair)?;
    let mut rest = after;
    while let Some(more) = behind(rest.pieces(), separator) {
        let Some((pair, after)) = split_pair(alloc, between, more.pieces())? else {
            return Ok(None);
        };
        list.push(pair)?;
        rest = after;
    }
    Ok(Some((Seq::from_vec(list), rest)))
}

/// The term of a term text.
pub fn split_query<'a>(alloc: Global, row: &'a [Piece<'a>]) -> Result<Option<Row<'a>>, NoMemory>
    ensures some { IfOk result (λ r. IfSome r (IsQuerySplit row.now)) }
    ensures none { IfOk result (λ r. IfNone r ((q : RawQuery) → IsQueryRow row.now q → ⊥)) }
{
    match split_term(alloc, row)? {
        None => Ok(None),
        Some((term, rest)) => {
            if is_end(rest.pieces()) {
                Ok(Some(term))
            } else {
                Ok(None)
            }
        }
    }
}

/// The halves of the pairs of a problem.
pub fn split_problem<'a>(
    alloc: Global,
    row: &'a [Piece<'a>],
) -> Result<Option<Seq<Halves<'a>>>, NoMemory>
    ensures some { IfOk result (λ r. IfSome r (IsProblemSplit row.now)) }
    ensures none { IfOk result (λ r. IfNone r ((p : RawProblem) → IsProblemRow row.now p → ⊥)) }
{
    let separator = Piece::new(Class::Word, b"/\\");
    match split_pairs(alloc, b"=?", &separator, row)? {
        None => Ok(None),
        Some((list, rest)) => {
            if is_end(rest.pieces()) {
                Ok(Some(list))
            } else {
                Ok(None)
            }
        }
    }
}

// Whether the pieces of a term are a name alone or a variable of a kind.
fn is_alone(row: &[Piece<'_>]) -> bool
    ensures { result ≡ is_alone row.now }
{
    match row.split_first() {
        None => false,
        Some((first, more)) => {
            first.is_word()
                && !match more.first() {
                    None => false,
                    Some(second) => second.is_special(b"("),
                }
        }
    }
}

// Whether in each pair the first term is a name alone or a variable of a kind.
fn are_alone(list: &[Halves<'_>]) -> bool
    ensures { result ≡ list_all (λ h. is_alone h.left) list.now }
{
    for halves in list {
        if !is_alone(halves.left.pieces()) {
            return false;
        }
    }
    true
}

// Whether the row is the brace that closes, alone.
fn is_closed<'a>(row: &'a [Piece<'a>]) -> bool
    ensures { IsTrue result ↔ (row.now ≡ right_brace ∷ []) }
{
    match behind(row, &Piece::new(Class::Special, b"}")) {
        None => false,
        Some(rest) => rest.pieces().is_empty(),
    }
}

/// The halves of the bindings of a binding text.
pub fn split_bindings<'a>(
    alloc: Global,
    row: &'a [Piece<'a>],
) -> Result<Option<Seq<Halves<'a>>>, NoMemory>
    ensures some { IfOk result (λ r. IfSome r (IsBindingSplit row.now)) }
    ensures none { IfOk result (λ r. IfNone r ((bs : List RawPair) → IsBindingRow row.now bs → ⊥)) }
{
    let Some(inner) = behind(row, &Piece::new(Class::Special, b"{")) else {
        return Ok(None);
    };
    if is_closed(inner.pieces()) {
        return Ok(Some(Seq::new(alloc)));
    }
    let separator = Piece::new(Class::Special, b",");
    match split_pairs(alloc, b"-->", &separator, inner.pieces())? {
        None => Ok(None),
        Some((list, after)) => {
            if !is_closed(after.pieces()) {
                return Ok(None);
            }
            if !are_alone(list.as_slice()) {
                return Ok(None);
            }
            Ok(Some(list))
        }
    }
}
