//! Whether an operator's identity leaves sorts alone.
ghost use Rattle.std.specs.Prelude.{◌≡◌, ◌↔◌, IsTrue, MatchOption};
ghost use Rattle.fvn_terms.specs.declared.plain.SortId.{SortId};
ghost use Rattle.fvn_terms.specs.Signature.{kind};
ghost use Rattle.fvn_forms.specs.Good.{IsOfKind};
ghost use Rattle.fvn_combine_complete.specs.Neutral.{Absorbs, IsNeutral};

use fvn_signature::Signature;
use fvn_terms::{OpId, SortId};

// The kind of what the operator gives, where it is declared.
fn kind_given(sig: &Signature, f: OpId) -> Option<SortId>
    ensures { MatchOption result ((a : SortId) → IsOfKind sig.now f a → ⊥)
        (λ k. (a : SortId) → IsOfKind sig.now f a ↔ (kind sig.now a ≡ k)) }
{
    sig.recall_good();
    match sig.declarations().declared(f) {
        None => None,
        Some(entry) => match entry.ranks.as_slice().first() {
            None => None,
            Some(rank) => Some(sig.kind(rank.result)),
        },
    }
}

// Whether the sum by f of a term of this sort with the constant e has the sort, or one below it.
pub(crate) fn absorbs(sig: &Signature, f: OpId, e: OpId, s: SortId) -> bool
    ensures { IsTrue result ↔ Absorbs sig.now f e s }
{
    let least = sig.result(e, &[]);
    let sum = sig.result(f, &[s, least]);
    sig.leq(sum, s)
}

// The same, for a sort of the kind; others pass.
fn passes(sig: &Signature, f: OpId, e: OpId, of: SortId, s: SortId) -> bool
    ensures { IsTrue result ↔ (kind sig.now s ≡ of → Absorbs sig.now f e s) }
{
    if sig.kind(s) != of {
        return true;
    }
    absorbs(sig, f, e, s)
}

// The same, for all sorts of the kind, and for the kind itself.
fn all_pass(sig: &Signature, f: OpId, e: OpId, of: SortId) -> bool
    ensures { IsTrue result ↔ ((a : SortId) → kind sig.now a ≡ of → Absorbs sig.now f e a) }
{
    sig.recall_good();
    sig.recall_completed();
    if !passes(sig, f, e, of, of) {
        return false;
    }
    let sorts = sig.declarations().sorts;
    for s in 0..sorts {
        if !passes(sig, f, e, of, SortId(s)) {
            return false;
        }
    }
    true
}

/// Whether the operator has an identity, and a sum with it has no greater sort than without it.
///
/// It costs two least results for each sort of the operator's kind.
pub fn is_neutral(sig: &Signature, f: OpId) -> bool
    ensures { IsTrue result ↔ IsNeutral sig.now f }
{
    match sig.identity(f) {
        None => false,
        Some(e) => match kind_given(sig, f) {
            None => true,
            Some(of) => all_pass(sig, f, e, of),
        },
    }
}
