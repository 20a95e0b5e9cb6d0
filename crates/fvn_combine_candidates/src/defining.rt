//! Rows of a system that define a column.
//!
//! A row of a sum is below zero in the column of the sum's class alone. Where no other row uses this column, but for rows
//! that define another one, the row asks nothing of the rest: it says what the sum is. With it a system has as many minimal
//! solutions as without, and one more for each other column that is new in it. So sums within one another, and sums that
//! stand for a variable, come to no more solutions than they have summands. What is asked stands in the rows that are left.
ghost use Rattle.std.specs.Prelude.{Contains, All, IfOk};

use crate::last_first::copied_row;
use fvn_lindio::Row;
use fvn_terms::NoMemory;
use std::alloc::Global;

// The coefficient in column j; where there is no such column, 0.
fn coefficient(row: &Row, j: usize) -> i32 {
    let coefficients = row.coefficients.as_slice();
    if j >= coefficients.len() {
        return 0;
    }
    coefficients[j]
}

// The first column in which the row is below zero.
fn own_column(row: &Row) -> Option<usize> {
    for (j, c) in row.coefficients.as_slice().iter().enumerate() {
        if *c < 0 {
            return Some(j);
        }
    }
    None
}

// Counts a row more for each column that it uses.
fn add_uses(uses: &mut [usize], row: &Row) {
    for j in 0..uses.len() {
        if coefficient(row, j) == 0 {
            continue;
        }
        uses[j] = uses[j].saturating_add(1);
    }
}

// Counts a row less for each column that it uses.
fn take_uses(uses: &mut [usize], row: &Row) {
    for j in 0..uses.len() {
        if coefficient(row, j) == 0 {
            continue;
        }
        uses[j] = uses[j].saturating_sub(1);
    }
}

// For each column how many rows use it.
fn uses_of(alloc: Global, rows: &[Row], columns: usize) -> Result<Vec<usize>, NoMemory> {
    let mut uses = vec![in alloc; 0usize; columns]?;
    for row in rows {
        add_uses(uses.as_mut_slice(), row);
    }
    Ok(uses)
}

// Whether one row alone uses column j.
fn is_used_once(uses: &[usize], j: usize) -> bool {
    if j >= uses.len() {
        return false;
    }
    uses[j] == 1
}

// Whether no other row that is left uses the column that the row is below zero in.
fn is_defining(uses: &[usize], row: &Row) -> bool {
    match own_column(row) {
        None => false,
        Some(j) => is_used_once(uses, j),
    }
}

// Whether row i is left.
fn is_left(left: &[bool], i: usize) -> bool {
    if i >= left.len() {
        return false;
    }
    left[i]
}

// Row i is left no longer.
fn take(left: &mut [bool], i: usize) {
    if i >= left.len() {
        return;
    }
    left[i] = false;
}

// Takes away each row that is left and defines a column, and answers whether there was one.
fn take_defining(rows: &[Row], left: &mut [bool], uses: &mut [usize]) -> bool {
    let mut found = false;
    for i in 0..rows.len() {
        if !is_left(left, i) {
            continue;
        }
        if !is_defining(uses, &rows[i]) {
            continue;
        }
        take(left, i);
        take_uses(uses, &rows[i]);
        found = true;
    }
    found
}

/// For each row whether it is left when those that define a column are taken away, one after another.
pub(crate) fn rows_left(
    alloc: Global,
    rows: &[Row],
    columns: usize,
) -> Result<Vec<bool>, NoMemory> {
    let mut uses = uses_of(alloc, rows, columns)?;
    let mut left = vec![in alloc; true; rows.len()]?;
    for _ in 0..rows.len() {
        if !take_defining(rows, left.as_mut_slice(), uses.as_mut_slice()) {
            break;
        }
    }
    Ok(left)
}

/// The rows that are left, from the last to the first, in memory of their own.
pub(crate) fn copied_left(alloc: Global, rows: &[Row], left: &[bool]) -> Result<Vec<Row>, NoMemory>
    ensures { IfOk result (λ v. All (Contains rows.now) v.items) }
{
    let mut list = Vec::new(alloc);
    for i in 0..rows.len() {
        let place = rows.len() - 1 - i;
        if !is_left(left, place) {
            continue;
        }
        let row = copied_row(alloc, &rows[place])?;
        list.push(row)?;
    }
    Ok(list)
}
