//! Rows in the order of the numbers of their sorts.
ghost use Rattle.std.specs.Prelude.{◌≡◌, IfOk};
ghost use Rattle.fvn_refine.specs.inner.Ordering.{is_before, place, with_in_place, all_in_place};

use fvn_base::Seq;
use fvn_terms::{NoMemory, SortId};
use std::alloc::Global;

// Whether the row stands before the other, by the first place in which their sorts have different numbers.
fn is_before(row: &[SortId], other: &[SortId]) -> bool
    ensures { result ≡ is_before row.now other.now }
{
    for (v, w) in row.iter().zip(other.iter()) {
        if v.0 < w.0 {
            return true;
        }
        if w.0 < v.0 {
            return false;
        }
    }
    row.len() < other.len()
}

// How many rows at the front stand before this one.
fn place(rows: &[Seq<SortId>], row: &[SortId]) -> usize
    ensures { result ≡ place rows.now row.now }
{
    for (i, r) in rows.iter().enumerate() {
        if !is_before(r.as_slice(), row) {
            return i;
        }
    }
    rows.len()
}

// The rows with one more in its place, if it is not there yet.
fn with_in_place(mut rows: Vec<Seq<SortId>>, row: Seq<SortId>) -> Result<Vec<Seq<SortId>>, NoMemory>
    ensures { IfOk result (λ all. all.items ≡ with_in_place rows.items row) }
{
    let i = place(rows.as_slice(), row.as_slice());
    if i == rows.len() {
        rows.push(row)?;
        return Ok(rows);
    }
    if !is_before(row.as_slice(), rows[i].as_slice()) {
        return Ok(rows);
    }
    rows.insert(i, row)?;
    Ok(rows)
}

// The rows in their places, each once.
pub(crate) fn all_in_place(
    alloc: Global,
    rows: Vec<Seq<SortId>>,
) -> Result<Vec<Seq<SortId>>, NoMemory>
    ensures { IfOk result (λ all. all.items ≡ all_in_place rows.items) }
{
    let mut all = Vec::new(alloc);
    for row in rows {
        all = with_in_place(all, row)?;
    }
    Ok(all)
}
