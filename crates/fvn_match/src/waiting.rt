//! Sums that wait until no pair is left, those with few choices first.
ghost use Rattle.std.specs.Prelude.{◌≡◌, ◌∷◌, ◌≤◌, length, drop, IfOk};
ghost use Rattle.fvn_match.specs.inner.Goals.{IsOneMore};

use crate::goals::SumGoal;
use fvn_terms::NoMemory;
use std::alloc::Global;

// How many of the numbers are not zero.
fn count_left(ns: &[usize]) -> usize {
    let mut count: usize = 0;
    for n in ns {
        if *n != 0 {
            count = count.saturating_add(1);
        }
    }
    count
}

// How many choices the first pattern of a sum has, about: the only one takes all that is left, a variable may take
// several pieces, and any other pattern mostly takes one.
fn ways(goal: &SumGoal<'_>) -> usize {
    if goal.patterns.len() < 2 {
        return 0;
    }
    let pieces = count_left(goal.left);
    match goal.patterns[0].as_var() {
        Some(_) => pieces.saturating_mul(pieces),
        None => pieces,
    }
}

// Where a sum with so many choices stands: before those that have as many, or more.
fn place(sums: &[SumGoal<'_>], many: usize) -> usize
    ensures { result ≤ length sums.now }
{
    for i in 0..sums.len() {
        let here = ways(&sums[i]);
        if many <= here {
            return i;
        }
    }
    sums.len()
}

// The sums and one more.
#[inline(never)]
pub(crate) fn with_sum<'a>(
    alloc: Global,
    goal: SumGoal<'a>,
    sums: &[SumGoal<'a>],
) -> Result<Vec<SumGoal<'a>>, NoMemory>
    ensures { IfOk result (λ all. IsOneMore goal.entry sums.now all.items) }
{
    let i = place(sums, ways(&goal));
    let mut all = Vec::with_capacity(alloc, sums.len().saturating_add(1))?;
    all.extend_from_slice(sums)?;
    all.insert(i, goal)?;
    Ok(all)
}

// The first of the sums.
pub(crate) fn first_sum<'a>(sums: &'a [SumGoal<'a>]) -> &'a SumGoal<'a>
    requires { 1 ≤ length sums.now }
    ensures { sums.now ≡ result.now ∷ drop 1 sums.now }
{
    &sums[0]
}

// The sums behind the first one.
pub(crate) fn other_sums<'a>(sums: &'a [SumGoal<'a>]) -> &'a [SumGoal<'a>]
    requires { 1 ≤ length sums.now }
    ensures { result.now ≡ drop 1 sums.now }
{
    &sums[1..]
}
