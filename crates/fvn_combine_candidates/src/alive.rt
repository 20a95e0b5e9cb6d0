//! Minimal solutions that may stand for a summand: all but those that have two single summands which are told to differ.
//!
//! A row more has 1 in the columns of classes that differ from a class, and asks so of solutions that they are zero there:
//! those that have the class are found with it, if they are alive, and those that have no such class with a row for all of
//! these. The row comes first, so that no more solutions come up on the way than at the columns that are left.
ghost use Rattle.std.specs.Prelude.{◌≡◌, ◌↔◌, ◌<◌, length, All, AllPairs, Contains, IfOk, IfSome, IsTrue, OnOk};
ghost use Rattle.fvn_lindio.specs.Systems.{IsSystem, vectors_of};
ghost use Rattle.fvn_combine_candidates.specs.inner.Placed.{IsOrderedOf, IsPlace, StandsAt, GrowsBy};
ghost use Rattle.fvn_base.specs.Order.{IsBefore};
ghost use Rattle.fvn_combine_nodes.specs.States.{IsNaming};
ghost use Rattle.fvn_combine_candidates.specs.inner.Alive.{
  IsOtherHead,
  AreKnownApart,
  IsMarking,
  IsMarked,
  AreZeroAt,
  AreGathered,
  IsApartFrom,
  AreCovering,
  IsBasisBy,
};

use crate::last_first::{copied_row, turned_rows};
use crate::solving::{copied_solution, is_same_row};
use fvn_acunify::limits::LISTED_SOLUTIONS;
use fvn_base::Seq;
use fvn_combine_leaves::Sums;
use fvn_combine_nodes::State;
use fvn_lindio::{LinFault, Row, Solution, System, basis};
use fvn_terms::{NoMemory, OpId};
use std::alloc::Global;

// The operator other than f that is read as the head of class k.
fn other_head(heads: &[Option<OpId>], f: OpId, k: usize) -> Option<OpId>
    ensures { IfSome result (IsOtherHead heads.now f k) }
{
    if k >= heads.len() {
        return None;
    }
    match heads[k] {
        None => None,
        Some(g) => {
            if g == f {
                return None;
            }
            Some(g)
        }
    }
}

// Whether it is known of classes k and l that they are single summands in the sums of f, and differ.
fn are_known_apart(state: &State, heads: &[Option<OpId>], f: OpId, k: usize, l: usize) -> bool
    requires naming { IsNaming state.now }
    requires left { k < length state.now.names }
    requires right { l < length state.now.names }
    ensures { IsTrue result → AreKnownApart state.now heads.now f k l }
{
    if k == l {
        return false;
    }
    match other_head(heads, f, k) {
        None => false,
        Some(g) => match other_head(heads, f, l) {
            None => false,
            Some(h) => {
                if g != h {
                    return true;
                }
                !state.is_open(k, l)
            }
        },
    }
}

// A row that marks the columns of classes that are known to differ from class k.
fn row_beside(
    alloc: Global,
    state: &State,
    heads: &[Option<OpId>],
    sums: &Sums,
    k: usize,
) -> Result<Row, NoMemory>
    requires naming { IsNaming state.now }
    requires within { All (λ c. c < length state.now.names) sums.now.columns }
    requires class { k < length state.now.names }
    ensures marking { IfOk result (λ r. IsMarking (length sums.now.columns) r.coefficients) }
    ensures apart { IfOk result (λ r.
        IsApartFrom state.now heads.now sums.now k r.coefficients) }
{
    let columns = sums.columns.as_slice();
    let mut marks: Vec<i32> = Vec::new(alloc);
    for j in 0..columns.len() {
        if are_known_apart(state, heads, sums.operator, k, columns[j]) {
            marks.push(1)?;
            continue;
        }
        marks.push(0)?;
    }
    Ok(Row {
        coefficients: Seq::from_vec(marks),
    })
}

// Whether some column's class is known to differ from class k.
fn has_apart(state: &State, heads: &[Option<OpId>], sums: &Sums, k: usize) -> bool
    requires naming { IsNaming state.now }
    requires within { All (λ c. c < length state.now.names) sums.now.columns }
    requires class { k < length state.now.names }
{
    for c in sums.columns.as_slice() {
        if are_known_apart(state, heads, sums.operator, k, *c) {
            return true;
        }
    }
    false
}

// A row that marks the columns of classes that are known to differ from some other.
fn row_of_all(
    alloc: Global,
    state: &State,
    heads: &[Option<OpId>],
    sums: &Sums,
) -> Result<Row, NoMemory>
    requires naming { IsNaming state.now }
    requires within { All (λ c. c < length state.now.names) sums.now.columns }
    ensures { IfOk result (λ r. IsMarking (length sums.now.columns) r.coefficients) }
{
    let columns = sums.columns.as_slice();
    let mut marks: Vec<i32> = Vec::new(alloc);
    for j in 0..columns.len() {
        if has_apart(state, heads, sums, columns[j]) {
            marks.push(1)?;
            continue;
        }
        marks.push(0)?;
    }
    Ok(Row {
        coefficients: Seq::from_vec(marks),
    })
}

// Whether the row is one of these.
fn is_among(rows: &[Row], row: &Row) -> bool
    ensures { IsTrue result → Contains rows.now row.now }
{
    for other in rows {
        if is_same_row(other, row) {
            return true;
        }
    }
    false
}

// Rows of which each solution that is alive is zero at one, each once; none where no classes are known to differ.
fn marked_rows(
    alloc: Global,
    state: &State,
    heads: &[Option<OpId>],
    sums: &Sums,
) -> Result<Vec<Row>, NoMemory>
    requires naming { IsNaming state.now }
    requires within { All (λ c. c < length state.now.names) sums.now.columns }
    ensures { IfOk result (λ v. AreCovering state.now heads.now sums.now v.items) }
{
    let columns = sums.columns.as_slice();
    let first = row_of_all(alloc, state, heads, sums)?;
    let copy = copied_row(alloc, &first)?;
    let mut rows = Vec::new(alloc);
    rows.push(copy)?;
    for i in 0..columns.len() {
        if first.coefficients.as_slice()[i] == 0 {
            continue;
        }
        let row = row_beside(alloc, state, heads, sums, columns[i])?;
        if is_among(rows.as_slice(), &row) {
            continue;
        }
        rows.push(row)?;
    }
    Ok(rows)
}

// The system with this row first.
fn marked_system(alloc: Global, system: &System, row: &Row) -> Result<System, NoMemory>
    ensures { IfOk result (IsMarked system.now row.now) }
{
    let copy = copied_row(alloc, row)?;
    let mut first = Vec::new(alloc);
    first.push(copy)?;
    let rows = turned_rows(alloc, first, system.rows.as_slice())?;
    Ok(System {
        columns: system.columns,
        rows: Seq::from_vec(rows),
    })
}

// The minimal solutions that are zero at the row, where there are at most so many.
fn basis_at(
    alloc: Global,
    system: &System,
    row: &Row,
    most: usize,
) -> Result<Option<Seq<Solution>>, NoMemory>
    requires system { IsSystem system.now }
    requires row { IsMarking system.now.columns row.now.coefficients }
    ensures { IfOk result (λ o. IfSome o (AreZeroAt system.now row.now.coefficients)) }
{
    let marked = marked_system(alloc, system, row)?;
    match basis(alloc, &marked, most) {
        Ok(solutions) => Ok(Some(solutions)),
        Err(LinFault::TooMany(_)) => Ok(None),
        Err(LinFault::TooWide(_)) => Ok(None),
        Err(LinFault::NoMemory) => Err(NoMemory),
    }
}

// Whether x stands before y in lexicographic order.
fn is_before(x: &[u32], y: &[u32]) -> bool
    requires { length x.now ≡ length y.now }
    ensures { IsTrue result ↔ IsBefore x.now y.now }
{
    for (i, a) in x.iter().enumerate() {
        if *a != y[i] {
            return *a < y[i];
        }
    }
    false
}

// The number of solutions in the list that stand before this one.
fn place_of(list: &[Solution], parts: &[u32]) -> usize
    requires sized { All (λ v. length v ≡ length parts.now) (vectors_of list.now) }
    requires ordered { AllPairs IsBefore (vectors_of list.now) }
    ensures { IsPlace (vectors_of list.now) parts.now result }
{
    for i in 0..list.len() {
        let last = list.len() - 1 - i;
        if is_before(list[last].parts.as_slice(), parts) {
            return last + 1;
        }
    }
    0
}

// Whether both have the same parts.
fn is_same(x: &[u32], y: &[u32]) -> bool
    ensures { IsTrue result ↔ (x.now ≡ y.now) }
{
    x == y
}

// Whether the solution stands at this place of the list.
fn stands_at(list: &[Solution], place: usize, parts: &[u32]) -> bool
    ensures { IsTrue result ↔ StandsAt (vectors_of list.now) place parts.now }
{
    place < list.len() && is_same(list[place].parts.as_slice(), parts)
}

// Puts a solution into the list at its place, unless it is there already.
fn put_in(alloc: Global, list: &mut Vec<Solution>, more: &Solution) -> Result<(), NoMemory>
    requires { IsOrderedOf (length more.now.parts) (vectors_of list.old.items) }
    ensures ordered { OnOk result (IsOrderedOf (length more.now.parts) (vectors_of list.new.items)) }
    ensures exact { OnOk result (GrowsBy (λ w. more.now.parts ≡ w)
        (vectors_of list.old.items) (vectors_of list.new.items)) }
{
    let parts = more.parts.as_slice();
    let place = place_of(list.as_slice(), parts);
    if stands_at(list.as_slice(), place, parts) {
        return Ok(());
    }
    let copy = copied_solution(alloc, more)?;
    list.insert(place, copy)?;
    Ok(())
}

// Puts these solutions of so many columns into the list.
fn put_all(
    alloc: Global,
    columns: usize,
    list: &mut Vec<Solution>,
    more: &[Solution],
) -> Result<(), NoMemory>
    requires sized { All (λ v. length v ≡ columns) (vectors_of more.now) }
    requires ordered { IsOrderedOf columns (vectors_of list.old.items) }
    ensures ordered { OnOk result (IsOrderedOf columns (vectors_of list.new.items)) }
    ensures exact { OnOk result (GrowsBy (Contains (vectors_of more.now))
        (vectors_of list.old.items) (vectors_of list.new.items)) }
{
    let _columns = columns;
    for solution in more {
        put_in(alloc, list, solution)?;
    }
    Ok(())
}

// The minimal solutions that are zero at one of the rows, in order, where at most so many are so at each.
fn gathered(
    alloc: Global,
    system: &System,
    rows: &[Row],
    most: usize,
) -> Result<Option<Vec<Solution>>, NoMemory>
    requires system { IsSystem system.now }
    requires rows { All (λ row. IsMarking system.now.columns row.coefficients) rows.now }
    ensures { IfOk result (λ o. IfSome o (λ v.
        AreGathered system.now rows.now (length rows.now) v.items)) }
{
    let mut list = Vec::new(alloc);
    for i in 0..rows.len() {
        match basis_at(alloc, system, &rows[i], most)? {
            None => return Ok(None),
            Some(more) => put_all(alloc, system.columns, &mut list, more.as_slice())?,
        }
    }
    Ok(Some(list))
}

/// The minimal solutions of a sum operator's system that are alive by the heads that are read, and others, where there are
/// classes that are known to differ, and not too many solutions.
pub(crate) fn alive_basis(
    alloc: Global,
    state: &State,
    heads: &[Option<OpId>],
    sums: &Sums,
) -> Result<Option<Seq<Solution>>, NoMemory>
    requires naming { IsNaming state.now }
    requires within { All (λ c. c < length state.now.names) sums.now.columns }
    requires wide { sums.now.system.columns ≡ length sums.now.columns }
    requires system { IsSystem sums.now.system }
    ensures { IfOk result (λ o. IfSome o (IsBasisBy state.now heads.now sums.now)) }
{
    let rows = marked_rows(alloc, state, heads, sums)?;
    if rows.len() < 2 {
        return Ok(None);
    }
    match gathered(alloc, &sums.system, rows.as_slice(), LISTED_SOLUTIONS)? {
        None => Ok(None),
        Some(list) => {
            if list.len() > LISTED_SOLUTIONS {
                return Ok(None);
            }
            Ok(Some(Seq::from_vec(list)))
        }
    }
}
