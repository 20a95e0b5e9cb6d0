//! Whether a sum has a sort exactly where each of its summands has it.
ghost use Rattle.std.specs.Prelude.{◌≡◌, ◌<◌, ◌∷◌, [], length, Some, All, IsTrue};
ghost use Rattle.fvn_terms.specs.declared.plain.OpId.{OpId};
ghost use Rattle.fvn_terms.specs.Signature.{axioms, AtOrBelow};
ghost use Rattle.fvn_terms.specs.Equality.{IsAssociative, identity};
ghost use Rattle.fvn_forms.specs.Ranks.{result as least_result};
ghost use Rattle.fvn_combine_loose.specs.Loose.{IsSumSort};
ghost use Rattle.fvn_combine_loose.specs.inner.NodeSorts.{IsWithin};

use fvn_signature::Signature;
use fvn_terms::{OpId, Rank, SortId};

// Whether all of these sorts are the sort q, or below it.
fn are_below(sig: &Signature, sorts: &[SortId], q: SortId) -> bool
    ensures { IsTrue result → All (λ s. AtOrBelow sig.now s q) sorts.now }
{
    for p in 0..sorts.len() {
        if !sig.leq(sorts[p], q) {
            return false;
        }
    }
    true
}

// Whether the rank gives the kind of q, and takes sorts at or below q alone where it gives one of these.
fn is_within(sig: &Signature, rank: &Rank, q: SortId) -> bool
    ensures { IsTrue result → IsWithin sig.now q rank.now }
{
    if sig.kind(rank.result) != sig.kind(q) {
        return false;
    }
    if !sig.leq(rank.result, q) {
        return true;
    }
    are_below(sig, rank.args.as_slice(), q)
}

// Whether there are ranks, and all of them are so.
fn are_within(sig: &Signature, ranks: &[Rank], q: SortId) -> bool
    ensures some { IsTrue result → 0 < length ranks.now }
    ensures all { IsTrue result → All (IsWithin sig.now q) ranks.now }
{
    for p in 0..ranks.len() {
        if !is_within(sig, &ranks[p], q) {
            return false;
        }
    }
    ranks.len() > 0
}

// Whether the operator has no identity but one of the sort q.
fn takes_identity(sig: &Signature, f: OpId, q: SortId) -> bool
    ensures { IsTrue result → (e : OpId) → identity (axioms sig.now f) ≡ Some e
        → AtOrBelow sig.now (least_result sig.now e []) q }
{
    match sig.identity(f) {
        None => true,
        Some(e) => {
            let least = sig.result(e, &[]);
            sig.leq(least, q)
        }
    }
}

// Whether the operator gives the sort q over two such terms.
fn takes_two(sig: &Signature, f: OpId, q: SortId) -> bool
    ensures { IsTrue result → AtOrBelow sig.now (least_result sig.now f (q ∷ q ∷ [])) q }
{
    let least = sig.result(f, &[q, q]);
    sig.leq(least, q)
}

// Whether a sum by f has the sort exactly where each of its summands has it. Of a kind nothing is told.
pub(crate) fn is_sum_sort(sig: &Signature, f: OpId, q: SortId) -> bool
    requires { IsAssociative (axioms sig.now f) }
    ensures { IsTrue result → IsSumSort sig.now f q }
{
    sig.recall_good();
    if sig.kind(q) == q {
        return false;
    }
    if !takes_identity(sig, f, q) {
        return false;
    }
    if !takes_two(sig, f, q) {
        return false;
    }
    match sig.declarations().declared(f) {
        None => false,
        Some(entry) => are_within(sig, entry.ranks.as_slice(), q),
    }
}
