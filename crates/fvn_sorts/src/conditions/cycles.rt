//! Cycles of the order.
ghost use Rattle.std.specs.Prelude.{◌≡◌, ◌↔◌, ◌<◌, Any, IsTrue, MatchOption};
ghost use Rattle.fvn_terms.specs.Signature.{AtOrBelow};
ghost use Rattle.fvn_terms.specs.declared.plain.SortId.{SortId};
ghost use Rattle.fvn_signature_draft.specs.DraftOf.{IsDraftOf};
ghost use Rattle.fvn_sorts.specs.Faults.{IsOnCycle};

use fvn_signature::Draft;
use fvn_signature_draft::Collected;
use fvn_terms::SortId;

/// Whether the pair leads up from the sort, and the order back to it.
fn closes(draft: &Draft, pair: (SortId, SortId), s: SortId) -> bool
    ensures { IsTrue result ↔ ((pair.0 ≡ s) × AtOrBelow draft.now.declarations pair.1 s) }
{
    if pair.0 != s {
        return false;
    }
    draft.is_at_or_below(pair.1, s)
}

/// Whether the order leads from the sort up and back to it.
fn is_on_cycle(draft: &Draft, s: SortId) -> bool
    ensures { IsTrue result ↔ Any (λ p. (p.0 ≡ s)
        × AtOrBelow draft.now.declarations p.1 s) draft.now.declarations.below }
{
    for pair in draft.declarations.below.as_slice() {
        if closes(draft, *pair, s) {
            return true;
        }
    }
    false
}

/// The first sort on a cycle of the order.
pub fn first_cycle(draft: &Draft, collected: &Collected) -> Option<SortId>
    requires { IsDraftOf collected.now draft.now }
    ensures { MatchOption result ((s : SortId) → IsOnCycle collected.now s →
        ⊥) (λ s. IsOnCycle collected.now s × ((q : SortId) → q.0 < s.0 →
        IsOnCycle collected.now q → ⊥)) }
{
    for s in 0..collected.sorts {
        if is_on_cycle(draft, SortId(s)) {
            return Some(SortId(s));
        }
    }
    None
}
