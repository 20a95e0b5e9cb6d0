//! What a reading tells of classes.
ghost use Rattle.std.specs.Prelude.{◌≡◌, ◌↔◌, ◌<◌, length, All, IsTrue};
ghost use Rattle.fvn_terms.specs.Signature.{axioms};
ghost use Rattle.fvn_terms.specs.Equality.{identity};
ghost use Rattle.fvn_combine_leaves.specs.Users.{IsWholeSums, IsWhole, IsMarked, IsFirstUser, HasTwoUsers, IsTwin, HasTwinIn, IsSharedIn};

use crate::reading::{Reading, Sums};
use fvn_signature::Signature;
use fvn_terms::OpId;

/// Whether the operator uses class k.
pub fn is_user(sums: &Sums, k: usize) -> bool
    requires { length sums.now.used ≡ length sums.now.columns }
    ensures { IsTrue result ↔ IsMarked sums.now k }
{
    let columns = sums.columns.as_slice();
    let used = sums.used.as_slice();
    for j in 0..columns.len() {
        if columns[j] != k {
            continue;
        }
        if used[j] {
            return true;
        }
    }
    false
}

// The first of the sum operators, from a place on, that uses class k.
fn first_user(sums: &[Sums], n: usize, start: usize, k: usize) -> Option<usize>
    requires whole { All (IsWholeSums n) sums.now }
    ensures { IsFirstUser sums.now start k result }
{
    let _nodes = n;
    for i in start..sums.len() {
        if is_user(&sums[i], k) {
            return Some(i);
        }
    }
    None
}

/// Whether two sum operators use class k.
pub fn has_two_users(sums: &[Sums], n: usize, k: usize) -> bool
    requires whole { All (IsWholeSums n) sums.now }
    ensures { IsTrue result ↔ HasTwoUsers sums.now k }
{
    match first_user(sums, n, 0, k) {
        None => false,
        Some(i) => first_user(sums, n, i + 1, k).is_some(),
    }
}

// Whether the operators are one.
fn is_one(f: OpId, g: OpId) -> bool
    ensures { IsTrue result ↔ (f ≡ g) }
{
    f == g
}

// Whether both are the same operator, or none.
fn are_same(e: Option<OpId>, o: Option<OpId>) -> bool
    ensures { IsTrue result ↔ (e ≡ o) }
{
    match e {
        None => o.is_none(),
        Some(f) => match o {
            None => false,
            Some(g) => f == g,
        },
    }
}

// The identity of an operator, or none.
fn identity_of(sig: &Signature, f: OpId) -> Option<OpId>
    ensures { result ≡ identity (axioms sig.now f) }
{
    sig.axioms(f).identity()
}

// Whether the operators have the same identity, or both have none.
fn have_same_identity(sig: &Signature, f: OpId, g: OpId) -> bool
    ensures { IsTrue result ↔ (identity (axioms sig.now f) ≡ identity (axioms sig.now g)) }
{
    let e = identity_of(sig, f);
    let o = identity_of(sig, g);
    are_same(e, o)
}

// Whether the operator is another one than f, has the same identity, or none as f, and uses class k.
fn is_twin(sig: &Signature, sums: &Sums, f: OpId, k: usize) -> bool
    requires { length sums.now.used ≡ length sums.now.columns }
    ensures { IsTrue result ↔ IsTwin sig.now f k sums.now }
{
    if is_one(sums.operator, f) {
        return false;
    }
    if !have_same_identity(sig, sums.operator, f) {
        return false;
    }
    is_user(sums, k)
}

/// Whether another sum operator with the identity of f, or none where f has none, uses class k.
pub fn has_twin(sig: &Signature, sums: &[Sums], n: usize, f: OpId, k: usize) -> bool
    requires whole { All (IsWholeSums n) sums.now }
    ensures { IsTrue result ↔ HasTwinIn sig.now sums.now f k }
{
    let _nodes = n;
    for i in 0..sums.len() {
        if is_twin(sig, &sums[i], f, k) {
            return true;
        }
    }
    false
}

/// Whether class k is shared.
pub fn is_shared(reading: &Reading, n: usize, k: usize) -> bool
    requires whole { IsWhole n reading.now }
    requires within { k < n }
    ensures { IsTrue result ↔ IsSharedIn reading.now k }
{
    match reading.heads.as_slice()[k] {
        None => has_two_users(reading.sums.as_slice(), n, k),
        Some(_) => false,
    }
}
