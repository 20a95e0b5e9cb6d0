//! Rows of sorts, of which those that are below another are left out.
ghost use Rattle.std.specs.Prelude.{◌≡◌, [], ◌∷◌, not, length, IsTrue, IfOk};
ghost use Rattle.std.specs.List.{filter, list_any};
ghost use Rattle.fvn_forms.specs.SortOrder.{at_or_below};
ghost use Rattle.fvn_refine.specs.inner.Rows.{is_row_below, with_row, with_rows, AreJoined};

use fvn_base::Seq;
use fvn_signature::Signature;
use fvn_terms::{NoMemory, SortId};
use std::alloc::Global;

// Whether a sort is another one or below it.
pub(crate) fn is_at_or_below(sig: &Signature, s: SortId, q: SortId) -> bool
    ensures { result ≡ at_or_below sig.now s q }
{
    sig.leq(s, q)
}

// Whether each sort of the row is at or below the one in its place.
pub(crate) fn is_row_below(sig: &Signature, row: &[SortId], other: &[SortId]) -> bool
    ensures { result ≡ is_row_below sig.now row.now other.now }
{
    if row.len() != other.len() {
        return false;
    }
    for (s, q) in row.iter().zip(other.iter()) {
        if !is_at_or_below(sig, *s, *q) {
            return false;
        }
    }
    true
}

// Whether one of the rows is at or above this one.
fn has_above(sig: &Signature, rows: &[Seq<SortId>], row: &[SortId]) -> bool
    ensures { result ≡ list_any (is_row_below sig.now row.now) rows.now }
{
    for r in rows {
        if is_row_below(sig, row, r.as_slice()) {
            return true;
        }
    }
    false
}

// The rows that are not at or below this one.
fn without_below(
    alloc: Global,
    sig: &Signature,
    rows: Vec<Seq<SortId>>,
    row: &[SortId],
) -> Result<Vec<Seq<SortId>>, NoMemory>
    ensures { IfOk result (λ kept. kept.items ≡ filter (λ r. not
        (is_row_below sig.now r row.now)) rows.items) }
{
    let mut kept = Vec::with_capacity(alloc, rows.len().saturating_add(1))?;
    for r in rows {
        if is_row_below(sig, r.as_slice(), row) {
            continue;
        }
        kept.push(r)?;
    }
    Ok(kept)
}

// The rows with one more, but for those below another.
pub(crate) fn with_row(
    alloc: Global,
    sig: &Signature,
    rows: Vec<Seq<SortId>>,
    row: Seq<SortId>,
) -> Result<Vec<Seq<SortId>>, NoMemory>
    ensures { IfOk result (λ all. all.items ≡ with_row sig.now rows.items row) }
{
    if has_above(sig, rows.as_slice(), row.as_slice()) {
        return Ok(rows);
    }
    let mut all = without_below(alloc, sig, rows, row.as_slice())?;
    all.push(row)?;
    Ok(all)
}

// Whether there is no row.
fn is_none(rows: &[Seq<SortId>]) -> bool
    ensures { IsTrue result → length rows.now ≡ 0 }
{
    rows.is_empty()
}

// The rows with more of them, one after another, but for those below another.
fn with_each(
    alloc: Global,
    sig: &Signature,
    rows: Vec<Seq<SortId>>,
    more: Vec<Seq<SortId>>,
) -> Result<Vec<Seq<SortId>>, NoMemory>
    ensures { IfOk result (λ all. all.items ≡ with_rows sig.now rows.items more.items) }
{
    let mut all = rows;
    for row in more {
        all = with_row(alloc, sig, all, row)?;
    }
    Ok(all)
}

// The rows with more of them, but for those below another; where there are none, the others as they are.
pub(crate) fn with_rows(
    alloc: Global,
    sig: &Signature,
    rows: Vec<Seq<SortId>>,
    more: Vec<Seq<SortId>>,
) -> Result<Vec<Seq<SortId>>, NoMemory>
    ensures { IfOk result (λ all. AreJoined sig.now rows.items more.items all.items) }
{
    if is_none(rows.as_slice()) {
        return Ok(more);
    }
    let all = with_each(alloc, sig, rows, more)?;
    Ok(all)
}

// The row, in memory of its own.
pub(crate) fn copied(alloc: Global, row: &[SortId]) -> Result<Vec<SortId>, NoMemory>
    ensures { IfOk result (λ copy. copy.items ≡ row.now) }
{
    let mut copy = Vec::with_capacity(alloc, row.len())?;
    for s in row {
        copy.push(*s)?;
    }
    Ok(copy)
}

// The row alone, in memory of its own.
pub(crate) fn alone(alloc: Global, row: &[SortId]) -> Result<Vec<Seq<SortId>>, NoMemory>
    ensures { IfOk result (λ rows. rows.items ≡ row.now ∷ []) }
{
    let copy = copied(alloc, row)?;
    let mut rows = Vec::new(alloc);
    rows.push(Seq::from_vec(copy))?;
    Ok(rows)
}
