//! Whether sorts that two ranks take are taken by a third with a result below theirs.
ghost use Rattle.std.specs.Prelude.{◌≡◌, ◌≤◌, [], ◌∷◌, All, Any, Contains, IsTrue, IfOk, MatchOption, length, true};
ghost use Rattle.fvn_terms.specs.declared.plain.SortId.{SortId};
ghost use Rattle.fvn_terms.specs.Signature.{IsSort};
ghost use Rattle.fvn_forms.specs.SortOrder.{at_or_below};
ghost use Rattle.fvn_sorts.specs.inner.Pairs.{
  rank_at,
  IsBelowOne,
  AreBounds,
  AreApart,
  BoundAll,
  TakesBounds,
  Cover,
  GivesBelow,
  HaveThird,
  TakesAt,
};

use fvn_base::Seq;
use fvn_signature::Draft;
use fvn_terms::{NoMemory, Rank, SortId};
use std::alloc::Global;

/// The sorts and kinds at or below both.
fn common(alloc: Global, draft: &Draft, x: SortId, y: SortId) -> Result<Vec<SortId>, NoMemory>
    ensures { IfOk result (λ v. (s : SortId) → IsSort draft.now.declarations s →
        at_or_below draft.now.declarations s x ≡ true →
        at_or_below draft.now.declarations s y ≡ true → Contains v.items s) }
{
    let mut list = Vec::new(alloc);
    for s in 0..draft.total {
        if draft.is_at_or_below(SortId(s), x) && draft.is_at_or_below(SortId(s), y) {
            list.push(SortId(s))?;
        }
    }
    Ok(list)
}

/// Whether the sort is at or below one of the list.
fn is_below_one(draft: &Draft, list: &[SortId], s: SortId) -> bool
    ensures { IsTrue result → IsBelowOne draft.now.declarations list.now s }
{
    for m in list {
        if draft.is_at_or_below(s, *m) {
            return true;
        }
    }
    false
}

/// From the last to the first those that are not below one that was kept.
fn thinned(alloc: Global, draft: &Draft, list: &[SortId]) -> Result<Vec<SortId>, NoMemory>
    ensures { IfOk result (λ v. (s : SortId) → Contains list.now s →
        IsBelowOne draft.now.declarations v.items s) }
{
    let mut kept = Vec::new(alloc);
    for k in 0..list.len() {
        let s = list[list.len() - 1 - k];
        if is_below_one(draft, kept.as_slice(), s) {
            continue;
        }
        kept.push(s)?;
    }
    Ok(kept)
}

/// The list of one sort.
fn one(alloc: Global, s: SortId) -> Result<Vec<SortId>, NoMemory>
    ensures { IfOk result (λ v. v.items ≡ s ∷ []) }
{
    let mut list = Vec::new(alloc);
    list.push(s)?;
    Ok(list)
}

/// The maximal sorts among those at or below both.
fn bounds(alloc: Global, draft: &Draft, x: SortId, y: SortId) -> Result<Vec<SortId>, NoMemory>
    ensures { IfOk result (λ v. AreBounds draft.now.declarations x y v.items) }
{
    if draft.is_at_or_below(x, y) {
        let list = one(alloc, x)?;
        return Ok(list);
    }
    if draft.is_at_or_below(y, x) {
        let list = one(alloc, y)?;
        return Ok(list);
    }
    let all = common(alloc, draft, x, y)?;
    let fewer = thinned(alloc, draft, all.as_slice())?;
    let list = thinned(alloc, draft, fewer.as_slice())?;
    Ok(list)
}

/// Place by place the bounds of two lists that are as long; nothing where there are none at a place.
fn all_bounds(
    alloc: Global,
    draft: &Draft,
    some: &[SortId],
    others: &[SortId],
) -> Result<Option<Vec<Seq<SortId>>>, NoMemory>
    ensures { IfOk result (λ r. MatchOption r (AreApart draft.now.declarations some.now others.now)
        (λ v. BoundAll draft.now.declarations some.now others.now v.items)) }
{
    if some.len() != others.len() {
        return Ok(None);
    }
    let mut list = Vec::new(alloc);
    for place in 0..some.len() {
        let here = bounds(alloc, draft, some[place], others[place])?;
        if here.as_slice().is_empty() {
            return Ok(None);
        }
        list.push(Seq::from_vec(here))?;
    }
    Ok(Some(list))
}

/// Whether each is at or below the sort.
fn are_below(draft: &Draft, list: &[SortId], s: SortId) -> bool
    ensures { IsTrue result → All (λ m. at_or_below draft.now.declarations m s ≡ true) list.now }
{
    for m in list {
        if !draft.is_at_or_below(*m, s) {
            return false;
        }
    }
    true
}

/// Whether the rank takes each of the bounds from the place on.
fn takes_bounds(
    draft: &Draft,
    ranks: &[Rank],
    bounds: &[Seq<SortId>],
    place: usize,
    number: usize,
) -> bool
    ensures { IsTrue result → TakesBounds draft.now.declarations ranks.now bounds.now place number }
{
    let args = match ranks.get(number) {
        Some(rank) => rank.args.as_slice(),
        None => return false,
    };
    if args.len() != bounds.len() {
        return false;
    }
    for p in place..args.len() {
        if !are_below(draft, bounds[p].as_slice(), args[p]) {
            return false;
        }
    }
    true
}

/// Whether one of the ranks of these numbers takes each of the bounds from the place on.
fn one_takes_bounds(
    draft: &Draft,
    ranks: &[Rank],
    bounds: &[Seq<SortId>],
    place: usize,
    left: &[usize],
) -> bool
    ensures { IsTrue result → Any (TakesBounds draft.now.declarations ranks.now bounds.now place)
        left.now }
{
    for number in left {
        if takes_bounds(draft, ranks, bounds, place, *number) {
            return true;
        }
    }
    false
}

/// Whether the rank of this number takes an argument of the sort at the place.
fn takes(draft: &Draft, ranks: &[Rank], number: usize, place: usize, s: SortId) -> bool
    ensures { IsTrue result → TakesAt draft.now.declarations ranks.now number place s }
{
    let args = match ranks.get(number) {
        Some(rank) => rank.args.as_slice(),
        None => return false,
    };
    match args.get(place) {
        Some(sort) => draft.is_at_or_below(s, *sort),
        None => false,
    }
}

/// Those of the ranks of these numbers that take an argument of the sort at the place.
fn still_left(
    alloc: Global,
    draft: &Draft,
    ranks: &[Rank],
    place: usize,
    s: SortId,
    left: &[usize],
) -> Result<Vec<usize>, NoMemory>
    ensures { IfOk result (λ v. All (λ i. Contains left.now i
        × TakesAt draft.now.declarations ranks.now i place s) v.items) }
{
    let mut list = Vec::with_capacity(alloc, left.len())?;
    for number in left {
        if takes(draft, ranks, *number, place, s) {
            list.push(*number)?;
        }
    }
    Ok(list)
}

/// Whether sorts at or below the bounds, from the place on, are taken by one of the ranks of these numbers.
fn are_covered(
    alloc: Global,
    draft: &Draft,
    ranks: &[Rank],
    bounds: &[Seq<SortId>],
    place: usize,
    left: &[usize],
) -> Result<bool, NoMemory>
    requires place { place ≤ length bounds.now }
    ensures { IfOk result (λ b. IsTrue b
        → Cover draft.now.declarations ranks.now bounds.now place left.now) }
{
    if one_takes_bounds(draft, ranks, bounds, place, left) {
        return Ok(true);
    }
    if left.is_empty() || place == bounds.len() {
        return Ok(false);
    }
    for bound in bounds[place].as_slice() {
        let rest = still_left(alloc, draft, ranks, place, *bound, left)?;
        if !are_covered(alloc, draft, ranks, bounds, place + 1, rest.as_slice())? {
            return Ok(false);
        }
    }
    Ok(true)
}

/// Whether the rank's result is at or below both.
fn gives_below(draft: &Draft, rank: &Rank, x: SortId, y: SortId) -> bool
    ensures { IsTrue result → GivesBelow draft.now.declarations x y rank.now }
{
    draft.is_at_or_below(rank.result, x) && draft.is_at_or_below(rank.result, y)
}

/// The numbers of the ranks with a result at or below both.
fn giving_below(
    alloc: Global,
    draft: &Draft,
    ranks: &[Rank],
    x: SortId,
    y: SortId,
) -> Result<Vec<usize>, NoMemory>
    ensures { IfOk result (λ v. All (λ i. Contains ranks.now (rank_at ranks.now i)
        × GivesBelow draft.now.declarations x y (rank_at ranks.now i)) v.items) }
{
    let mut list = Vec::new(alloc);
    for (number, rank) in ranks.iter().enumerate() {
        if gives_below(draft, rank, x, y) {
            list.push(number)?;
        }
    }
    Ok(list)
}

/// Whether sorts that both ranks take are taken by a third with a result at or below both.
pub fn have_third(
    alloc: Global,
    draft: &Draft,
    ranks: &[Rank],
    one: &Rank,
    other: &Rank,
) -> Result<bool, NoMemory>
    requires one { Contains ranks.now one.now }
    requires other { Contains ranks.now other.now }
    ensures { IfOk result (λ b. IsTrue b
        → HaveThird draft.now.declarations ranks.now one.now other.now) }
{
    if draft.is_at_or_below(one.result, other.result) {
        return Ok(true);
    }
    if draft.is_at_or_below(other.result, one.result) {
        return Ok(true);
    }
    let bounds = match all_bounds(alloc, draft, one.args.as_slice(), other.args.as_slice())? {
        Some(bounds) => bounds,
        None => return Ok(true),
    };
    let left = giving_below(alloc, draft, ranks, one.result, other.result)?;
    let covered = are_covered(alloc, draft, ranks, bounds.as_slice(), 0, left.as_slice())?;
    Ok(covered)
}
