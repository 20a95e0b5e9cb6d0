//! Whether arguments of all sorts have a least result, and the first without one.
ghost use Rattle.std.specs.Prelude.{◌≡◌, ◌<◌, [], ◌∷◌, ℕ, All, Any, IsTrue, IfOk, length};
ghost use Rattle.fvn_terms.specs.declared.declarations.Rank.{Rank};
ghost use Rattle.fvn_sorts.specs.inner.Searches.{IsFirstList, the_list, advanced_one, advanced, HasNoLowest};
ghost use Rattle.fvn_sorts.specs.inner.Pairs.{rank_at, Take, HaveThird, HaveLowest};

use crate::conditions::pairs::have_third;
use fvn_base::Seq;
use fvn_signature::Draft;
use fvn_signature_draft::appended;
use fvn_terms::{NoMemory, Rank, SortId};
use std::alloc::Global;

/// Whether the rank takes arguments of these kinds.
fn takes(draft: &Draft, rank: &Rank, kinds: &[SortId]) -> bool
    ensures { IsTrue result → Take draft.now.declarations rank.now.args kinds.now }
{
    draft.serves(kinds, rank.args.as_slice())
}

/// Whether one of the ranks takes arguments of these kinds.
fn one_takes(draft: &Draft, ranks: &[Rank], kinds: &[SortId]) -> bool
    ensures { IsTrue result → Any (λ r. Take draft.now.declarations r.args kinds.now) ranks.now }
{
    for rank in ranks {
        if takes(draft, rank, kinds) {
            return true;
        }
    }
    false
}

/// Whether the rank and each before it have a third.
fn have_thirds(
    alloc: Global,
    draft: &Draft,
    ranks: &[Rank],
    number: usize,
) -> Result<bool, NoMemory>
    requires number { number < length ranks.now }
    ensures { IfOk result (λ b. IsTrue b → (i : ℕ) → i < number →
        HaveThird draft.now.declarations ranks.now (rank_at ranks.now number)
        (rank_at ranks.now i)) }
{
    for earlier in 0..number {
        if !have_third(alloc, draft, ranks, &ranks[number], &ranks[earlier])? {
            return Ok(false);
        }
    }
    Ok(true)
}

/// Whether any two of the ranks have a third.
fn all_have_thirds(alloc: Global, draft: &Draft, ranks: &[Rank]) -> Result<bool, NoMemory>
    ensures { IfOk result (λ b. IsTrue b → (j : ℕ) → j < length ranks.now → (i : ℕ) → i < j →
        HaveThird draft.now.declarations ranks.now (rank_at ranks.now j) (rank_at ranks.now i)) }
{
    for number in 0..ranks.len() {
        if !have_thirds(alloc, draft, ranks, number)? {
            return Ok(false);
        }
    }
    Ok(true)
}

/// How many of the ranks have a result neither at or below that of the rank nor above it.
fn count_incomparable(draft: &Draft, ranks: &[Rank], rank: &Rank) -> u64 {
    let mut count = 0u64;
    for other in ranks {
        if draft.is_at_or_below(rank.result, other.result) {
            continue;
        }
        if !draft.is_at_or_below(other.result, rank.result) {
            count = count.saturating_add(1);
        }
    }
    count
}

/// How many lists of sorts and kinds are as long as this one.
fn count_lists(draft: &Draft, kinds: &[SortId]) -> u64 {
    let mut count = 1u64;
    for _ in kinds {
        count = count.saturating_mul(u64::from(draft.total));
    }
    count
}

/// Whether more pairs of ranks ask for a third than there are lists of sorts: then it takes less time to look at each list.
fn are_many(draft: &Draft, kinds: &[SortId], ranks: &[Rank]) -> bool {
    // Each pair is counted twice.
    let most = count_lists(draft, kinds).saturating_mul(2);
    let mut count = 0u64;
    for rank in ranks {
        count = count.saturating_add(count_incomparable(draft, ranks, rank));
        if count > most {
            return true;
        }
    }
    false
}

/// Whether sorts of the kinds all have a least result by the ranks; of many ranks this is not asked.
///
/// They have where one rank takes the kinds, and sorts that any two ranks take are taken by a third with a
/// result at or below both: of finitely many results one is then at or below all.
fn have_lowest(
    alloc: Global,
    draft: &Draft,
    kinds: &[SortId],
    ranks: &[Rank],
) -> Result<bool, NoMemory>
    requires listed { All (λ k. k.0 < draft.now.total) kinds.now }
    ensures { IfOk result (λ b. IsTrue b → HaveLowest draft.now.declarations kinds.now ranks.now) }
{
    if !one_takes(draft, ranks, kinds) {
        return Ok(false);
    }
    if are_many(draft, kinds, ranks) {
        return Ok(false);
    }
    let all = all_have_thirds(alloc, draft, ranks)?;
    Ok(all)
}

/// The rank one argument further, where it takes one of the sort first.
fn advanced_one(alloc: Global, draft: &Draft, s: SortId, rank: &Rank) -> Result<Vec<Rank>, NoMemory>
    ensures { IfOk result (λ v. v.items ≡ advanced_one draft.now.declarations s rank.now.args
        rank.now.result) }
{
    let mut list = Vec::new(alloc);
    let args = rank.args.as_slice();
    if args.is_empty() {
        return Ok(list);
    }
    if draft.is_at_or_below(s, args[0]) {
        let more = Vec::from_slice(alloc, &args[1..])?;
        list.push(Rank {
            args: Seq::from_vec(more),
            result: rank.result,
        })?;
    }
    Ok(list)
}

/// The ranks that take an argument of the sort first, without this argument.
fn advanced(alloc: Global, draft: &Draft, s: SortId, ranks: &[Rank]) -> Result<Vec<Rank>, NoMemory>
    ensures { IfOk result (λ v. v.items ≡ advanced draft.now.declarations s ranks.now) }
{
    let mut all = Vec::new(alloc);
    for rank in ranks {
        let more = advanced_one(alloc, draft, s, rank)?;
        all = appended(all, more)?;
    }
    Ok(all)
}

/// The list with the sort before it.
fn preceded(alloc: Global, s: SortId, list: Seq<SortId>) -> Result<Seq<SortId>, NoMemory>
    ensures { IfOk result (λ l. l ≡ s ∷ list) }
{
    let mut all = Vec::new(alloc);
    all.push(s)?;
    for q in list.as_slice() {
        all.push(*q)?;
    }
    Ok(Seq::from_vec(all))
}

/// The empty list, where the ranks have no least result without arguments.
fn at_the_end(alloc: Global, draft: &Draft, ranks: &[Rank]) -> Option<Seq<SortId>>
    ensures { IsFirstList the_list (HasNoLowest draft.now.declarations [] ranks.now) result }
{
    match draft.lowest(ranks, &[]) {
        Some(_) => None,
        None => Some(Seq::new(alloc)),
    }
}

/// The first sorts of the kinds that have no least result by the ranks.
///
/// Where some have none, the first sort with which such sorts begin is found by asking the same of the
/// ranks that take it.
pub fn first_without(
    alloc: Global,
    draft: &Draft,
    kinds: &[SortId],
    ranks: &[Rank],
) -> Result<Option<Seq<SortId>>, NoMemory>
    requires listed { All (λ k. k.0 < draft.now.total) kinds.now }
    ensures { IfOk result
        (IsFirstList the_list (HasNoLowest draft.now.declarations kinds.now ranks.now)) }
{
    if have_lowest(alloc, draft, kinds, ranks)? {
        return Ok(None);
    }
    if kinds.is_empty() {
        return Ok(at_the_end(alloc, draft, ranks));
    }
    for s in 0..draft.total {
        if draft.declarations.kind(SortId(s)) != kinds[0] {
            continue;
        }
        let rest = advanced(alloc, draft, SortId(s), ranks)?;
        match first_without(alloc, draft, &kinds[1..], rest.as_slice())? {
            Some(list) => return Ok(Some(preceded(alloc, SortId(s), list)?)),
            None => {}
        }
    }
    Ok(None)
}
