//! The minimal solutions of one row more.
ghost use Rattle.std.specs.Prelude.{◌≡◌, ◌↔◌, ◌≤◌, ◌++◌, ◌∷◌, [], ℕ, List, IfOk, All, AllPairs, Contains, length};
ghost use Rattle.fvn_base.specs.Order.{IsBefore};
ghost use Rattle.fvn_lindio.specs.Systems.{IsMinimal, coefficients_of};
ghost use Rattle.fvn_lindio.specs.inner.Generators.{IsRow, vectors_in};

use crate::generators::{generators, reach_of};
use crate::least::least_of;
use crate::level::Level;
use crate::paired::{are_paired, sums_of};
use crate::system::Row;
use fvn_base::limits::COMPONENT;
use smallvec::SmallVec;
use std::alloc::{AllocError, Global};

/// All minimal solutions of the rows before and this one, in order, from those of the rows before.
///
/// The search goes level by level: to a vector one of `known`, or a unit of a new column, is added
/// only where the row's values at the two have opposite signs, and only where no solution found is
/// at or below the sum. A path to a minimal solution meets no value twice, so it is no longer than
/// the greatest value above zero and the greatest below it together. Where the values are at most one
/// from zero and all vectors on one side are units, the solutions are told without a search.
pub(crate) fn extended(
    alloc: Global,
    before: &[Row],
    row: &[i32],
    known: &[SmallVec<u64, 8>],
) -> Result<Vec<SmallVec<u64, 8>>, AllocError>
    requires row { IsRow (length row.now) row.now }
    requires before { All (λ r. length r.coefficients ≡ length row.now) before.now }
    requires known { (v : List ℕ) → Contains (vectors_in known.now) v
        ↔ IsMinimal (length row.now) (coefficients_of before.now) v }
    requires narrow { All (All (λ a. a ≤ COMPONENT)) (vectors_in known.now) }
    ensures ordered { IfOk result (λ list. AllPairs IsBefore (vectors_in list.items)) }
    ensures exact { IfOk result (λ list. (v : List ℕ) → Contains (vectors_in list.items) v
        ↔ IsMinimal (length row.now) (coefficients_of before.now ++ row.now ∷ []) v) }
{
    let points = generators(alloc, before, row, known)?;
    if are_paired(points.as_slice()) {
        let sums = sums_of(alloc, points.as_slice())?;
        return Ok(sums);
    }
    let reach = reach_of(points.as_slice());
    let mut level = Level::first(alloc, points.as_slice())?;
    for _ in 0..reach.low + reach.high + 1 {
        if level.ahead.is_empty() {
            break;
        }
        level = level.next(alloc, points.as_slice())?;
    }
    let least = least_of(alloc, level.found.as_slice())?;
    Ok(least)
}
