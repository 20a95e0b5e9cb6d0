//! The least of some vectors, in lexicographic order.
ghost use Rattle.std.specs.Prelude.{◌≡◌, ◌↔◌, ◌<◌, ℕ, List, IfOk, OnOk, IsTrue, All, AllPairs, Contains, length};
ghost use Rattle.fvn_base.specs.Order.{IsBefore};
ghost use Rattle.fvn_lindio.specs.inner.Generators.{vectors_in};
ghost use Rattle.fvn_lindio.specs.inner.Least.{GrowsBy, HasOther, IsLeast, IsOrderedOf, IsPlace, IsUniform, StandsAt};

use crate::level::Point;
use crate::vector::{is_at_or_below, is_before, is_same};
use smallvec::SmallVec;
use std::alloc::{AllocError, Global};

/// Whether one of the points is at or below the vector and not the vector itself.
fn has_other_below(points: &[Point], parts: &[u64]) -> bool
    ensures { IsTrue result ↔ HasOther points.now parts.now }
{
    for p in points {
        if is_at_or_below(p.parts.as_slice(), parts) && !is_same(p.parts.as_slice(), parts) {
            return true;
        }
    }
    false
}

/// The number of vectors in the list that stand before this one; most stand before, so that the last are looked at first.
fn place_of(list: &[SmallVec<u64, 8>], parts: &[u64]) -> usize
    requires sized { All (λ v. length v ≡ length parts.now) (vectors_in list.now) }
    requires ordered { AllPairs IsBefore (vectors_in list.now) }
    ensures { IsPlace (vectors_in list.now) parts.now result }
{
    for i in 0..list.len() {
        let last = list.len() - 1 - i;
        if is_before(list[last].as_slice(), parts) {
            return last + 1;
        }
    }
    0
}

/// Whether the vector stands at this place of the list.
fn stands_at(list: &[SmallVec<u64, 8>], place: usize, parts: &[u64]) -> bool
    ensures { IsTrue result ↔ StandsAt (vectors_in list.now) place parts.now }
{
    place < list.len() && is_same(list[place].as_slice(), parts)
}

/// Puts the vector into the list at its place, unless it is there already.
pub(crate) fn insert(
    list: &mut Vec<SmallVec<u64, 8>>,
    v: SmallVec<u64, 8>,
) -> Result<(), AllocError>
    requires ordered { IsOrderedOf (length v.items) (vectors_in list.old.items) }
    ensures ordered { OnOk result (IsOrderedOf (length v.items) (vectors_in list.new.items)) }
    ensures exact { OnOk result (GrowsBy (λ w. v.items ≡ w)
        (vectors_in list.old.items) (vectors_in list.new.items)) }
{
    let place = place_of(list.as_slice(), v.as_slice());
    if stands_at(list.as_slice(), place, v.as_slice()) {
        return Ok(());
    }
    list.insert(place, v)?;
    Ok(())
}

/// Puts the point's vector into the list, unless another of the points is below it.
fn consider(
    alloc: Global,
    points: &[Point],
    p: &Point,
    list: &mut Vec<SmallVec<u64, 8>>,
) -> Result<(), AllocError>
    requires ordered { IsOrderedOf (length p.now.parts.items) (vectors_in list.old.items) }
    ensures ordered { OnOk result
        (IsOrderedOf (length p.now.parts.items) (vectors_in list.new.items)) }
    ensures exact { OnOk result
        (GrowsBy (λ w. (p.now.parts.items ≡ w) × (HasOther points.now w → ⊥))
        (vectors_in list.old.items) (vectors_in list.new.items)) }
{
    if has_other_below(points, p.parts.as_slice()) {
        return Ok(());
    }
    let v = SmallVec::from_slice(alloc, p.parts.as_slice())?;
    insert(list, v)?;
    Ok(())
}

/// Those of the points' vectors that have no other at or below them, in order.
pub(crate) fn least_of(alloc: Global, points: &[Point]) -> Result<Vec<SmallVec<u64, 8>>, AllocError>
    requires { IsUniform points.now }
    ensures ordered { IfOk result (λ list. AllPairs IsBefore (vectors_in list.items)) }
    ensures exact { IfOk result (λ list. (w : List ℕ) →
        Contains (vectors_in list.items) w ↔ IsLeast points.now w) }
{
    let mut list = Vec::new(alloc);
    for p in points {
        consider(alloc, points, p, &mut list)?;
    }
    Ok(list)
}
