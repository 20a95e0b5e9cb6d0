//! Whether the weight of an operator fits its axioms.
ghost use Rattle.std.specs.Prelude.{◌≡◌, ◌↔◌, ◌≤◌, ℕ, IsTrue, Some, nat_eq, slice_index_or, MatchOption};
ghost use Rattle.fvn_terms.specs.declared.plain.OpId.{OpId};
ghost use Rattle.fvn_terms.specs.Signature.{axioms};
ghost use Rattle.fvn_terms.specs.Equality.{identity, IsAssociative, IsCommutative};
ghost use Rattle.fvn_weights.specs.Values.{Fits, HasOnes, IsNeutral};
ghost use Rattle.fvn_weights.specs.Weighing.{linear, AreWeightsOf, AllFit};
ghost use Rattle.fvn_weights.specs.inner.Equations.{IsFirstUnfit};

use crate::forms::{coefficient_at, coefficients_of, constant_at};
use crate::weights::Weights;
use fvn_signature::Signature;
use fvn_terms::OpId;

// Whether a number is nothing.
fn is_nothing(n: u64) -> bool
    ensures { result ≡ nat_eq n 0 }
{
    n == 0
}

// Whether no number is nothing.
fn are_all_positive(numbers: &[u64]) -> bool
    ensures { IsTrue result ↔ ((i : ℕ) → 1 ≤ slice_index_or numbers.now i 1) }
{
    for i in 0..numbers.len() {
        let empty = is_nothing(numbers[i]);
        if empty {
            return false;
        }
    }
    true
}

// Whether the operator counts each argument.
fn is_positive(weights: &Weights, f: OpId) -> bool
    ensures { IsTrue result ↔ ((i : ℕ) → 1 ≤ (linear weights.now.list).coefficient f i) }
{
    let numbers = coefficients_of(weights, f);
    let positive = are_all_positive(numbers);
    positive
}

// Whether the operator counts its two arguments alike.
fn counts_alike(weights: &Weights, f: OpId) -> bool
    ensures { let w = linear weights.now.list in
        IsTrue result ↔ (w.coefficient f 0 ≡ w.coefficient f 1) }
{
    let first = coefficient_at(weights, f, 0);
    let second = coefficient_at(weights, f, 1);
    first == second
}

// Whether the operator counts its two arguments alike, where it may exchange them.
fn is_alike(sig: &Signature, weights: &Weights, f: OpId) -> bool
    ensures { let w = linear weights.now.list in
        IsTrue result ↔ (IsCommutative (axioms sig.now f) → w.coefficient f 0 ≡ w.coefficient f 1) }
{
    let declared = sig.axioms(f);
    let commutes = declared.is_commutative();
    if !commutes {
        return true;
    }
    let alike = counts_alike(weights, f);
    alike
}

// Whether the operator counts the argument at a place once.
fn counts_once(weights: &Weights, f: OpId, i: usize) -> bool
    ensures { IsTrue result ↔ ((linear weights.now.list).coefficient f i ≡ 1) }
{
    let number = coefficient_at(weights, f, i);
    number == 1
}

// Whether the operator counts its two arguments once.
fn has_ones(weights: &Weights, f: OpId) -> bool
    ensures { IsTrue result ↔ HasOnes (linear weights.now.list) f }
{
    let first = counts_once(weights, f, 0);
    if !first {
        return false;
    }
    let second = counts_once(weights, f, 1);
    second
}

// Whether the operator counts its two arguments once, where it may move its brackets.
fn is_plain_sum(sig: &Signature, weights: &Weights, f: OpId) -> bool
    ensures { IsTrue result
        ↔ (IsAssociative (axioms sig.now f) → HasOnes (linear weights.now.list) f) }
{
    let declared = sig.axioms(f);
    let sums = declared.is_sum();
    if !sums {
        return true;
    }
    let ones = has_ones(weights, f);
    ones
}

// Whether the operator adds nothing.
fn adds_nothing(weights: &Weights, f: OpId) -> bool
    ensures { IsTrue result ↔ ((linear weights.now.list).constant f ≡ 0) }
{
    let number = constant_at(weights, f);
    number == 0
}

// Whether the operator counts its two arguments once and adds nothing, and the constant adds nothing.
fn is_neutral_beside(weights: &Weights, f: OpId, e: OpId) -> bool
    ensures { IsTrue result ↔ IsNeutral (linear weights.now.list) f e }
{
    let ones = has_ones(weights, f);
    if !ones {
        return false;
    }
    let own = adds_nothing(weights, f);
    if !own {
        return false;
    }
    let other = adds_nothing(weights, e);
    other
}

// Whether the operator and its identity add nothing.
fn is_neutral(sig: &Signature, weights: &Weights, f: OpId) -> bool
    ensures { IsTrue result ↔ ((e : OpId) → identity (axioms sig.now f) ≡ Some e →
        IsNeutral (linear weights.now.list) f e) }
{
    match sig.identity(f) {
        Some(e) => {
            let neutral = is_neutral_beside(weights, f, e);
            neutral
        }
        None => true,
    }
}

/// Whether the weight of an operator fits its axioms.
pub(crate) fn fits(sig: &Signature, weights: &Weights, f: OpId) -> bool
    ensures { IsTrue result ↔ Fits sig.now (linear weights.now.list) f }
{
    let positive = is_positive(weights, f);
    if !positive {
        return false;
    }
    let alike = is_alike(sig, weights, f);
    if !alike {
        return false;
    }
    let ones = is_plain_sum(sig, weights, f);
    if !ones {
        return false;
    }
    let neutral = is_neutral(sig, weights, f);
    neutral
}

/// The first operator whose weight does not fit.
pub(crate) fn unfit(sig: &Signature, weights: &Weights) -> Option<OpId>
    requires { AreWeightsOf sig.now weights.now.list }
    ensures { let w = linear weights.now.list in
        MatchOption result (AllFit sig.now w) (IsFirstUnfit sig.now w) }
{
    sig.recall_good();
    for n in 0..sig.op_count() {
        let fit = fits(sig, weights, OpId(n as u16));
        if !fit {
            return Some(OpId(n as u16));
        }
    }
    None
}
