//! Sorts that give the same results as first arguments: of those the first alone need be looked at.
ghost use Rattle.std.specs.Prelude.{IsTrue};
ghost use Rattle.fvn_terms.specs.Signature.{kind};
ghost use Rattle.fvn_sorts.specs.inner.Searches.{GivesListed, AreListed, AreTwins, HasTwin};

use fvn_signature::Draft;
use fvn_terms::{OpId, SortId};

/// Whether all results with this sort first are sorts or kinds of the signature.
fn gives_listed(draft: &Draft, op: OpId, q: SortId) -> bool
    ensures { IsTrue result → GivesListed draft.now.declarations op draft.now.total q }
{
    for r in 0..draft.total {
        if draft.result(op, &[q, SortId(r)]).0 >= draft.total {
            return false;
        }
    }
    true
}

/// Whether all results over two sorts and kinds are such.
pub fn are_listed(draft: &Draft, op: OpId) -> bool
    ensures { IsTrue result → AreListed draft.now.declarations op draft.now.total }
{
    for q in 0..draft.total {
        if !gives_listed(draft, op, SortId(q)) {
            return false;
        }
    }
    true
}

/// Whether the results over the one first sort are those over the other.
fn are_twins(draft: &Draft, op: OpId, q: SortId, s: SortId) -> bool
    ensures { IsTrue result → AreTwins draft.now.declarations op draft.now.total q s }
{
    for r in 0..draft.total {
        if draft.result(op, &[q, SortId(r)]) != draft.result(op, &[s, SortId(r)]) {
            return false;
        }
    }
    true
}

/// Whether an earlier sort of the kind gives the same results as first argument.
pub fn has_twin(draft: &Draft, op: OpId, of: SortId, s: SortId) -> bool
    ensures { IsTrue result → HasTwin draft.now.declarations op draft.now.total of s }
{
    for q in 0..s.0 {
        if draft.declarations.kind(SortId(q)) != of {
            continue;
        }
        if are_twins(draft, op, SortId(q), s) {
            return true;
        }
    }
    false
}
