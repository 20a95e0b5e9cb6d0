//! The conditions on the sorts of sums.
ghost use Rattle.std.specs.Prelude.{◌↔◌, ◌<◌, IsTrue};
ghost use Rattle.fvn_terms.specs.Signature.{kind};
ghost use Rattle.fvn_sorts.specs.inner.Searches.{
  IsFirstList,
  one_sort,
  two_sorts,
  three_sorts,
  IsBadThird,
  AreBadAfter,
  AreBad,
  DoesNotCollapse,
};

use crate::conditions::twins::{are_listed, has_twin};
use fvn_signature::Draft;
use fvn_terms::{OpId, SortId};

/// Three sorts.
#[derive(Clone, Copy)]
pub struct Triple {
    pub first: SortId,
    pub second: SortId,
    pub third: SortId,
}

/// Whether the sort is of the kind, and the sort of the sum of the three depends on its brackets.
fn is_bad_third(draft: &Draft, op: OpId, of: SortId, s: SortId, q: SortId, r: SortId) -> bool
    ensures { IsTrue result ↔ IsBadThird draft.now.declarations op of s q r }
{
    if draft.declarations.kind(r) != of {
        return false;
    }
    let left = draft.result(op, &[draft.result(op, &[s, q]), r]);
    let right = draft.result(op, &[s, draft.result(op, &[q, r])]);
    left != right
}

/// The first sort that is a bad third.
fn bad_third(draft: &Draft, op: OpId, of: SortId, s: SortId, q: SortId) -> Option<SortId>
    requires listed { of.0 < draft.now.total }
    ensures { IsFirstList one_sort (IsBadThird draft.now.declarations op of s q) result }
{
    for r in 0..draft.total {
        if is_bad_third(draft, op, of, s, q, SortId(r)) {
            return Some(SortId(r));
        }
    }
    None
}

/// A bad third sort, where the second is of the kind.
fn bad_third_of(draft: &Draft, op: OpId, of: SortId, s: SortId, q: SortId) -> Option<SortId>
    requires listed { of.0 < draft.now.total }
    ensures { IsFirstList one_sort (λ r. AreBadAfter draft.now.declarations op of s (q, r)) result }
{
    if draft.declarations.kind(q) != of {
        return None;
    }
    bad_third(draft, op, of, s, q)
}

/// The first two sorts whose sum behind this one depends on its brackets.
fn bad_pair(draft: &Draft, op: OpId, of: SortId, s: SortId) -> Option<(SortId, SortId)>
    requires listed { of.0 < draft.now.total }
    ensures { IsFirstList two_sorts (AreBadAfter draft.now.declarations op of s) result }
{
    for q in 0..draft.total {
        match bad_third_of(draft, op, of, s, SortId(q)) {
            Some(r) => return Some((SortId(q), r)),
            None => {}
        }
    }
    None
}

/// A bad pair, where the first sort is of the kind.
fn bad_pair_of(draft: &Draft, op: OpId, of: SortId, s: SortId) -> Option<(SortId, SortId)>
    requires listed { of.0 < draft.now.total }
    ensures { IsFirstList two_sorts (λ p. AreBad draft.now.declarations op of record {
      first = s;
      second = p.0;
      third = p.1;
    }) result }
{
    if draft.declarations.kind(s) != of {
        return None;
    }
    bad_pair(draft, op, of, s)
}

/// The first three sorts of the kind over which the sort of a sum depends on its brackets.
pub fn bad_triple(draft: &Draft, op: OpId, of: SortId) -> Option<Triple>
    requires listed { of.0 < draft.now.total }
    ensures { IsFirstList three_sorts (AreBad draft.now.declarations op of) result }
{
    let listed = are_listed(draft, op);
    for s in 0..draft.total {
        if listed {
            if has_twin(draft, op, of, SortId(s)) {
                continue;
            }
        }
        match bad_pair_of(draft, op, of, SortId(s)) {
            Some((second, third)) => {
                return Some(Triple {
                    first: SortId(s),
                    second,
                    third,
                });
            }
            None => {}
        }
    }
    None
}

/// Whether the sort is of the kind, and not at or below that of its sum with the identity.
fn does_not_collapse(draft: &Draft, op: OpId, identity: OpId, of: SortId, s: SortId) -> bool
    ensures { IsTrue result ↔ DoesNotCollapse draft.now.declarations op identity of s }
{
    if draft.declarations.kind(s) != of {
        return false;
    }
    !draft.is_at_or_below(s, draft.result(op, &[s, draft.result(identity, &[])]))
}

/// The first sort of the kind that is not at or below that of its sum with the identity.
pub fn first_not_collapsing(draft: &Draft, op: OpId, identity: OpId, of: SortId) -> Option<SortId>
    requires listed { of.0 < draft.now.total }
    ensures { IsFirstList one_sort (DoesNotCollapse draft.now.declarations op identity of) result }
{
    for s in 0..draft.total {
        if does_not_collapse(draft, op, identity, of, SortId(s)) {
            return Some(SortId(s));
        }
    }
    None
}
