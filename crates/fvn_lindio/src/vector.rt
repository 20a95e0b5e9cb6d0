//! Vectors of the search: their order, sums and the value of a row at them.
ghost use Rattle.std.specs.Prelude.{◌≡◌, ◌↔◌, ◌+◌, ◌*◌, ◌<◌, ◌≤◌, ◌^◌, IfOk, IsTrue, All, length, slice_set, replicate, unsigned_abs};
ghost use Rattle.fvn_lindio.specs.Vectors.{IsAtOrBelow, add};
ghost use Rattle.fvn_base.specs.Order.{IsBefore};
ghost use Rattle.fvn_lindio.specs.inner.Search.{IsValue, IsOpposite};

use fvn_base::limits::{COLUMNS, COMPONENT};
use smallvec::SmallVec;
use std::alloc::{AllocError, Global};

/// Whether both have equally many components and none of `x` is above that of `y`.
pub(crate) fn is_at_or_below(x: &[u64], y: &[u64]) -> bool
    ensures { IsTrue result ↔ IsAtOrBelow x.now y.now }
{
    if x.len() != y.len() {
        return false;
    }
    for (i, a) in x.iter().enumerate() {
        if *a > y[i] {
            return false;
        }
    }
    true
}

/// Whether they are the same vector.
pub(crate) fn is_same(x: &[u64], y: &[u64]) -> bool
    ensures { IsTrue result ↔ (x.now ≡ y.now) }
{
    x == y
}

/// Whether `x` stands before `y` in lexicographic order.
pub(crate) fn is_before(x: &[u64], y: &[u64]) -> bool
    requires { length x.now ≡ length y.now }
    ensures { IsTrue result ↔ IsBefore x.now y.now }
{
    for (i, a) in x.iter().enumerate() {
        if *a != y[i] {
            return *a < y[i];
        }
    }
    false
}

/// The sum, component by component.
pub(crate) fn sum_of(alloc: Global, x: &[u64], y: &[u64]) -> Result<SmallVec<u64, 8>, AllocError>
    requires same { length x.now ≡ length y.now }
    requires room { All (λ a. a < 2 ^ 62) x.now }
    requires other_room { All (λ a. a < 2 ^ 62) y.now }
    ensures { IfOk result (λ v. v.items ≡ add x.now y.now) }
{
    let mut sum = SmallVec::with_capacity(alloc, x.len())?;
    for (i, a) in x.iter().enumerate() {
        sum.push(*a + y[i])?;
    }
    Ok(sum)
}

/// The vector with 1 at `place` and 0 elsewhere.
pub(crate) fn unit(
    alloc: Global,
    columns: usize,
    place: usize,
) -> Result<SmallVec<u64, 8>, AllocError>
    requires { place < columns }
    ensures { IfOk result (λ v. v.items ≡ slice_set (replicate columns 0) place 1) }
{
    let mut vector = SmallVec::with_capacity(alloc, columns)?;
    for i in 0..columns {
        vector.push(u64::from(i == place))?;
    }
    Ok(vector)
}

/// The sum of coefficient times component.
pub(crate) fn value_at(row: &[i32], x: &[u64]) -> i64
    requires same { length row.now ≡ length x.now }
    requires few { length row.now ≤ COLUMNS }
    requires bounded { All (λ c. unsigned_abs c ≤ COMPONENT) row.now }
    requires narrow { All (λ a. a ≤ COMPONENT) x.now }
    ensures exact { IsValue row.now x.now result }
    ensures bounded { unsigned_abs result ≤ COLUMNS * COMPONENT * COMPONENT }
{
    let mut value: i64 = 0;
    for (i, c) in row.iter().enumerate() {
        value += i64::from(*c) * x[i] as i64;
    }
    value
}

/// Whether one of them is above zero and the other below.
pub(crate) fn is_opposite(a: i64, b: i64) -> bool
    ensures { IsTrue result ↔ IsOpposite a b }
{
    (a > 0 && b < 0) || (a < 0 && b > 0)
}
