//! Sums without the patterns whose values are known.
ghost use Rattle.std.specs.Prelude.{◌≡◌, IfOk, IfSome};
ghost use Rattle.fvn_flat.specs.Bindings.{value};
ghost use Rattle.fvn_match.specs.inner.Variables.{IsClosed};
ghost use Rattle.fvn_match.specs.inner.Candidates.{IsCandidate};
ghost use Rattle.fvn_match.specs.inner.Goals.{SumFits, bindings_of};
ghost use Rattle.fvn_match.specs.inner.Known.{IsKnown, LeavesOpen};

use crate::goals::{Bound, SumGoal};
use crate::summands::take;
use crate::variables::is_closed;
use fvn_flat::Flat;
use fvn_signature::Signature;
use fvn_terms::NoMemory;
use std::alloc::Global;

// Patterns that are not known, and what is left of the pieces.
#[derive(Drop)]
pub(crate) struct Open<'a> {
    pub(crate) patterns: Vec<&'a Flat>,
    pub(crate) left: Vec<usize>,
}

// The pattern itself, where it has no variables.
fn own_value(p: &Flat) -> Option<&Flat>
    ensures { IfSome result (λ v. IsClosed p.now × (v.now ≡ p.now)) }
{
    if is_closed(p) {
        return Some(p);
    }
    None
}

// What the pattern stands for whatever is bound later: the value of a bound variable, or itself.
fn known_value<'a>(p: &'a Flat, bound: &'a Bound<'_>) -> Option<&'a Flat>
    ensures { IfSome result (λ v. IsKnown (bindings_of bound.now) p.now v.now) }
{
    match p.as_var() {
        Some(x) => bound.get(x),
        None => own_value(p),
    }
}

// Whether the pattern is one of so many variables that were bound last, or has none where that is asked for.
fn is_new(p: &Flat, bound: &Bound<'_>, newest: usize, first: bool) -> bool {
    if let Some(x) = p.as_var() {
        return bound.is_new(x, newest);
    }
    if first {
        return is_closed(p);
    }
    false
}

// Whether some pattern of a sum is known, which was not when it was looked at last.
#[inline(never)]
pub(crate) fn has_known(goal: &SumGoal<'_>, bound: &Bound<'_>, seen: usize) -> bool {
    let newest = seen.saturating_sub(goal.seen);
    let first = goal.seen == 0;
    for p in goal.patterns {
        if is_new(p, bound, newest, first) {
            return true;
        }
    }
    false
}

// The numbers, in memory of their own.
fn copied(alloc: Global, ns: &[usize]) -> Result<Vec<usize>, NoMemory>
    ensures { IfOk result (λ all. all.items ≡ ns.now) }
{
    let mut all = Vec::new(alloc);
    for n in ns {
        all.push(*n)?;
    }
    Ok(all)
}

// The patterns that are not known, and what the others leave of the pieces, if they are among these.
#[inline(never)]
pub(crate) fn without_known<'a>(
    alloc: Global,
    sig: &Signature,
    goal: &SumGoal<'a>,
    bound: &'a Bound<'a>,
) -> Result<Option<Open<'a>>, NoMemory>
    requires fits { SumFits sig.now goal.now }
    requires bound { IsCandidate sig.now (value (bindings_of bound.now)) }
    ensures { IfOk result (LeavesOpen sig.now (bindings_of bound.now) goal.now) }
{
    let mut patterns = Vec::new(alloc);
    let mut left = copied(alloc, goal.left)?;
    for p in goal.patterns {
        let v = match known_value(p, bound) {
            None => {
                patterns.push(*p)?;
                continue;
            }
            Some(v) => v,
        };
        if !take(sig, goal.op, v, goal.pieces, &mut left) {
            return Ok(None);
        }
    }
    Ok(Some(Open { patterns, left }))
}
