//! What a row is searched with: the minimal solutions of the rows before, and the units of its new columns.
ghost use Rattle.std.specs.Prelude.{◌≡◌, ◌↔◌, ◌*◌, ◌<◌, ◌≤◌, ℕ, List, IfOk, OnOk, IsTrue, All, Contains, length, unsigned_abs};

use crate::level::Point;
use crate::system::Row;
use crate::vector::{unit, value_at};
use fvn_base::limits::{COLUMNS, COMPONENT};
use smallvec::SmallVec;
use std::alloc::{AllocError, Global};

/// The greatest distances of values from zero.
#[derive(Clone, Copy)]
pub(crate) struct Reach {
    pub low: u64,
    pub high: u64,
}

ghost use Rattle.fvn_lindio.specs.inner.Generators.{Adds, IsNewUnit, IsNewUnitBelow, IsValued, IsRow, Values, vectors_in};
ghost use Rattle.fvn_lindio.specs.Systems.{IsUnused, IsMinimal, above, below, coefficients_of};
ghost use Rattle.fvn_lindio.specs.inner.Levels.{Generates};

/// Whether no row has a coefficient other than zero in the column.
fn is_unused(rows: &[Row], column: usize) -> bool
    requires { All (λ row. column < length row.coefficients) rows.now }
    ensures { IsTrue result ↔ IsUnused (coefficients_of rows.now) column }
{
    for row in rows {
        if row.coefficients.as_slice()[column] != 0 {
            return false;
        }
    }
    true
}

/// The vector with the value of the row at it.
fn point_at(alloc: Global, row: &[i32], parts: &[u64]) -> Result<Point, AllocError>
    requires row { IsRow (length parts.now) row.now }
    requires narrow { All (λ a. a ≤ COMPONENT) parts.now }
    ensures { IfOk result (λ p. (p.parts.items ≡ parts.now) × IsValued row.now p) }
{
    let value = value_at(row, parts);
    let parts = SmallVec::from_slice(alloc, parts)?;
    Ok(Point { parts, value })
}

/// The known vectors as points.
fn known_points(
    alloc: Global,
    row: &[i32],
    known: &[SmallVec<u64, 8>],
) -> Result<Vec<Point>, AllocError>
    requires row { All (λ v. IsRow (length v) row.now) (vectors_in known.now) }
    requires narrow { All (All (λ a. a ≤ COMPONENT)) (vectors_in known.now) }
    ensures { IfOk result (λ points.
        Values row.now (Contains (vectors_in known.now)) points.items) }
{
    let mut points = Vec::new(alloc);
    for v in known {
        let point = point_at(alloc, row, v.as_slice())?;
        points.push(point)?;
    }
    Ok(points)
}

/// Adds the unit vector of the column, where the row uses it and none before does.
fn add_unit(
    alloc: Global,
    before: &[Row],
    row: &[i32],
    column: usize,
    points: &mut Vec<Point>,
) -> Result<(), AllocError>
    requires row { IsRow (length row.now) row.now }
    requires before { All (λ r. length r.coefficients ≡ length row.now) before.now }
    requires column { column < length row.now }
    ensures { OnOk result (Adds row.now (IsNewUnit (length row.now)
        (coefficients_of before.now) row.now column) points.old.items points.new.items) }
{
    if row[column] == 0 {
        return Ok(());
    }
    if !is_unused(before, column) {
        return Ok(());
    }
    let vector = unit(alloc, row.len(), column)?;
    let point = point_at(alloc, row, vector.as_slice())?;
    points.push(point)?;
    Ok(())
}

/// Adds the unit vector of each column that the row uses and none before does.
fn add_units(
    alloc: Global,
    before: &[Row],
    row: &[i32],
    points: &mut Vec<Point>,
) -> Result<(), AllocError>
    requires row { IsRow (length row.now) row.now }
    requires before { All (λ r. length r.coefficients ≡ length row.now) before.now }
    ensures { OnOk result (Adds row.now (IsNewUnitBelow (length row.now)
        (coefficients_of before.now) row.now (length row.now)) points.old.items points.new.items) }
{
    for column in 0..row.len() {
        add_unit(alloc, before, row, column, points)?;
    }
    Ok(())
}

/// The points with which the row is searched.
pub(crate) fn generators(
    alloc: Global,
    before: &[Row],
    row: &[i32],
    known: &[SmallVec<u64, 8>],
) -> Result<Vec<Point>, AllocError>
    requires row { IsRow (length row.now) row.now }
    requires before { All (λ r. length r.coefficients ≡ length row.now) before.now }
    requires known { (v : List ℕ) → Contains (vectors_in known.now) v ↔ IsMinimal (length row.now)
        (coefficients_of before.now) v }
    requires narrow { All (All (λ a. a ≤ COMPONENT)) (vectors_in known.now) }
    ensures generates { IfOk result (λ points. Generates (length row.now)
        (coefficients_of before.now) row.now points.items) }
    ensures bounded { IfOk result (λ points. All
        (λ p. unsigned_abs p.value ≤ COLUMNS * COMPONENT * COMPONENT) points.items) }
{
    let mut points = known_points(alloc, row, known)?;
    add_units(alloc, before, row, &mut points)?;
    Ok(points)
}

/// How far the value is above zero.
fn rise(value: i64) -> u64
    ensures { result ≡ above value }
{
    if value > 0 { value as u64 } else { 0 }
}

/// How far the value is below zero.
fn fall(value: i64) -> u64
    ensures { result ≡ below value }
{
    if value < 0 { value.unsigned_abs() } else { 0 }
}

/// The greatest distances of the points' values from zero.
pub(crate) fn reach_of(points: &[Point]) -> Reach
    requires { All (λ p. unsigned_abs p.value ≤ COLUMNS * COMPONENT * COMPONENT) points.now }
    ensures low { All (λ p. below p.value ≤ result.low) points.now }
    ensures high { All (λ p. above p.value ≤ result.high) points.now }
    ensures low_bounded { result.low ≤ COLUMNS * COMPONENT * COMPONENT }
    ensures high_bounded { result.high ≤ COLUMNS * COMPONENT * COMPONENT }
{
    let mut low: u64 = 0;
    let mut high: u64 = 0;
    for p in points {
        low = low.max(fall(p.value));
        high = high.max(rise(p.value));
    }
    Reach { low, high }
}
