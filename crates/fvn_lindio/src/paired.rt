//! Rows whose minimal solutions are points at zero and sums of two points, so that nothing is searched.
//!
//! Such a row has values of at most one at its points, and all points on one side of zero are units: a row that says what a
//! new column is, or that what was known is a sum of new columns.
ghost use Rattle.std.specs.Prelude.{◌≡◌, ◌↔◌, ◌<◌, ◌≤◌, ℕ, List, IfOk, OnOk, IsTrue, All, AllPairs, Contains, length, sum};
ghost use Rattle.fvn_base.specs.Order.{IsBefore};
ghost use Rattle.fvn_lindio.specs.Systems.{above, below};
ghost use Rattle.fvn_lindio.specs.inner.Generators.{vectors_in};
ghost use Rattle.fvn_lindio.specs.inner.Least.{GrowsBy, IsOrderedOf, IsUniform};
ghost use Rattle.fvn_lindio.specs.inner.Levels.{CanAdd};
ghost use Rattle.fvn_lindio.specs.inner.Paired.{AnyOf, ArePaired, HasSign, IsFrom, IsPlain, IsSum};

use crate::least::insert;
use crate::level::Point;
use crate::vector::sum_of;
use smallvec::SmallVec;
use std::alloc::{AllocError, Global};

/// The sign of a value that is not zero.
#[derive(Clone, Copy)]
pub(crate) enum Sign {
    Positive,
    Negative,
}

/// Whether one component is 1 and all others are 0.
fn is_unit(parts: &[u64]) -> bool
    ensures { IsTrue result → (sum parts.now ≡ 1) }
{
    let mut total: u64 = 0;
    for a in parts {
        if *a > 1 {
            return false;
        }
        total += *a;
        if total > 1 {
            return false;
        }
    }
    if total == 1 {
        return true;
    }
    false
}

/// Whether the value is 0, 1 or -1.
fn is_small(value: i64) -> bool
    ensures above { IsTrue result → above value ≤ 1 }
    ensures below { IsTrue result → below value ≤ 1 }
{
    value <= 1 && value >= -1
}

/// Whether the value has the sign.
fn has_sign(value: i64, sign: Sign) -> bool
    ensures { IsTrue result ↔ HasSign sign value }
{
    match sign {
        Sign::Positive => value > 0,
        Sign::Negative => value < 0,
    }
}

/// Whether the value is at most one from zero, and the point is a unit where the value has the sign.
fn is_plain(p: &Point, sign: Sign) -> bool
    ensures { IsTrue result → IsPlain sign p.now }
{
    if !is_small(p.value) {
        return false;
    }
    if !has_sign(p.value, sign) {
        return true;
    }
    is_unit(p.parts.as_slice())
}

/// Whether all points are so.
fn are_plain(points: &[Point], sign: Sign) -> bool
    ensures { IsTrue result → All (IsPlain sign) points.now }
{
    for p in points {
        if !is_plain(p, sign) {
            return false;
        }
    }
    true
}

/// Whether all points are so for one of the two signs.
pub(crate) fn are_paired(points: &[Point]) -> bool
    ensures { IsTrue result → ArePaired points.now }
{
    if are_plain(points, Sign::Positive) {
        return true;
    }
    are_plain(points, Sign::Negative)
}

/// Whether the first is below zero and the second above.
fn falls_and_rises(a: i64, b: i64) -> bool
    ensures { IsTrue result ↔ (0 < below a) × (0 < above b) }
{
    a < 0 && b > 0
}

/// Puts the sum of both into the list, where the value of `x` is below zero and that of `u` above.
fn add_sum(
    alloc: Global,
    x: &Point,
    u: &Point,
    list: &mut Vec<SmallVec<u64, 8>>,
) -> Result<(), AllocError>
    requires can_add { CanAdd x.now u.now }
    requires ordered { IsOrderedOf (length x.now.parts.items) (vectors_in list.old.items) }
    ensures ordered { OnOk result
        (IsOrderedOf (length x.now.parts.items) (vectors_in list.new.items)) }
    ensures exact { OnOk result (GrowsBy (IsSum x.now u.now)
        (vectors_in list.old.items) (vectors_in list.new.items)) }
{
    if !falls_and_rises(x.value, u.value) {
        return Ok(());
    }
    let sum = sum_of(alloc, x.parts.as_slice(), u.parts.as_slice())?;
    insert(list, sum)?;
    Ok(())
}

/// Puts the sums of `x` and points above zero into the list, where the value of `x` is below.
fn add_sums(
    alloc: Global,
    x: &Point,
    points: &[Point],
    list: &mut Vec<SmallVec<u64, 8>>,
) -> Result<(), AllocError>
    requires can_add { All (CanAdd x.now) points.now }
    requires ordered { IsOrderedOf (length x.now.parts.items) (vectors_in list.old.items) }
    ensures ordered { OnOk result
        (IsOrderedOf (length x.now.parts.items) (vectors_in list.new.items)) }
    ensures exact { OnOk result (GrowsBy (AnyOf (IsSum x.now) points.now)
        (vectors_in list.old.items) (vectors_in list.new.items)) }
{
    for u in points {
        add_sum(alloc, x, u, list)?;
    }
    Ok(())
}

/// Puts `x` into the list where its value is zero, and else its sums with points above zero.
fn add_from(
    alloc: Global,
    x: &Point,
    points: &[Point],
    list: &mut Vec<SmallVec<u64, 8>>,
) -> Result<(), AllocError>
    requires can_add { All (CanAdd x.now) points.now }
    requires ordered { IsOrderedOf (length x.now.parts.items) (vectors_in list.old.items) }
    ensures ordered { OnOk result
        (IsOrderedOf (length x.now.parts.items) (vectors_in list.new.items)) }
    ensures exact { OnOk result (GrowsBy (IsFrom points.now x.now)
        (vectors_in list.old.items) (vectors_in list.new.items)) }
{
    if x.value == 0 {
        let v = SmallVec::from_slice(alloc, x.parts.as_slice())?;
        insert(list, v)?;
        return Ok(());
    }
    add_sums(alloc, x, points, list)?;
    Ok(())
}

/// The points at zero, and the sums of one below zero and one above, in order.
pub(crate) fn sums_of(alloc: Global, points: &[Point]) -> Result<Vec<SmallVec<u64, 8>>, AllocError>
    requires can_add { All (λ x. All (CanAdd x) points.now) points.now }
    requires uniform { IsUniform points.now }
    ensures ordered { IfOk result (λ list. AllPairs IsBefore (vectors_in list.items)) }
    ensures exact { IfOk result (λ list. (w : List ℕ) →
        Contains (vectors_in list.items) w ↔ AnyOf (IsFrom points.now) points.now w) }
{
    let mut list = Vec::new(alloc);
    for x in points {
        add_from(alloc, x, points, &mut list)?;
    }
    Ok(list)
}
