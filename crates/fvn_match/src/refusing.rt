//! Sums that no values make, as counting tells before anything is chosen.
ghost use Rattle.std.specs.Prelude.{◌≡◌, ◌↔◌, ◌*◌, ◌^◌, ◌≤◌, ◌<◌, length, sum, IsTrue, if◌then◌else◌};
ghost use Rattle.std.specs.List.{AllByRecursion};
ghost use Rattle.fvn_flat.specs.Fits.{Fits};
ghost use Rattle.fvn_match.specs.inner.Choices.{quotients};
ghost use Rattle.fvn_match.specs.inner.Summands.{references};
ghost use Rattle.fvn_match.specs.inner.Goals.{SumFits, patterns_of, pieces_of};
ghost use Rattle.fvn_match.specs.inner.Refusing.{
  IsMultiple,
  AreMultiples,
  IsUneven,
  HaveCopies,
  IsHopeless,
  is_low,
  low_in,
  low_left,
};

use crate::choices::total;
use crate::goals::SumGoal;
use crate::heads::has_no_identity;
use crate::summands::{after, alike};
use crate::wholes::{is_short, is_single, keeps_low};
use fvn_flat::Flat;
use fvn_signature::Signature;
use fvn_terms::SortId;

// Whether a number is so many times another.
fn is_multiple(n: usize, k: usize) -> bool
    requires { 1 ≤ k }
    ensures { IsTrue result ↔ IsMultiple k n }
{
    n % k == 0
}

// Whether some number is not so many times another.
fn has_remainder(ns: &[usize], k: usize) -> bool
    requires { 1 ≤ k }
    ensures { IsTrue result → AllByRecursion (IsMultiple k) ns.now → ⊥ }
{
    for i in 0..ns.len() {
        let is = is_multiple(ns[i], k);
        if !is {
            return true;
        }
    }
    false
}

// Whether equal patterns stand side by side so many times some number.
fn are_multiples<'a>(patterns: &'a [&'a Flat], k: usize) -> bool
    requires { 1 ≤ k }
    ensures { IsTrue result → AreMultiples k (references patterns.now) }
{
    let mut rest = patterns;
    loop {
        if rest.is_empty() {
            return true;
        }
        let n = alike(rest);
        let is = is_multiple(n, k);
        if !is {
            return false;
        }
        let others = after(rest, n);
        rest = others;
    }
}

// Whether each pattern stands there a multiple of the times of the first one, and what is left of some piece is none.
fn is_uneven(goal: &SumGoal<'_>) -> bool
    ensures { IsTrue result → IsUneven goal.now }
{
    if goal.patterns.is_empty() {
        return false;
    }
    let k = alike(goal.patterns);
    if k == 1 {
        return false;
    }
    let even = are_multiples(goal.patterns, k);
    if !even {
        return false;
    }
    has_remainder(goal.left, k)
}

// One where a number is another or above it, else none.
fn one_from(m: usize, k: usize) -> usize
    ensures { k * result ≤ m }
{
    if m < k { 0 } else { 1 }
}

// Whether more patterns than so many stand side by side k times, or more often.
fn have_copies<'a>(patterns: &'a [&'a Flat], k: usize, many: usize) -> bool
    ensures { IsTrue result → HaveCopies k many (references patterns.now) }
{
    let mut left = many;
    let mut rest = patterns;
    loop {
        if rest.is_empty() {
            return false;
        }
        let m = alike(rest);
        let one = one_from(m, k);
        if left < one {
            return true;
        }
        left -= one;
        let others = after(rest, m);
        rest = others;
    }
}

// How often all numbers hold another.
fn shares(ns: &[usize], k: usize) -> usize
    requires some { 1 ≤ k }
    requires small { sum ns.now < 2 ^ 64 }
    ensures { result ≡ sum (quotients k ns.now) }
{
    let mut n: usize = 0;
    for i in 0..ns.len() {
        let share = ns[i] / k;
        n += share;
    }
    n
}

// Whether more patterns stand there as often as the first one than there are pieces of which so many are left.
fn is_short_of_copies(sig: &Signature, goal: &SumGoal<'_>) -> bool
    requires { SumFits sig.now goal.now }
    ensures { IsTrue result → IsHopeless sig.now goal.now }
{
    if goal.patterns.is_empty() {
        return false;
    }
    let k = alike(goal.patterns);
    if k == 1 {
        return false;
    }
    let lasting = has_no_identity(sig, goal.op);
    if !lasting {
        return false;
    }
    let have = shares(goal.left, k);
    have_copies(goal.patterns, k, have)
}

// Whether there are more pieces than patterns, each of which takes one at most.
fn is_crowded(sig: &Signature, goal: &SumGoal<'_>) -> bool
    requires { SumFits sig.now goal.now }
    ensures { IsTrue result → IsHopeless sig.now goal.now }
{
    if total(goal.left) <= goal.patterns.len() {
        return false;
    }
    for i in 0..goal.patterns.len() {
        let single = is_single(sig, goal.op, goal.patterns[i]);
        if !single {
            return false;
        }
    }
    true
}

// The number where the form has the sort, or else none.
fn if_low(sig: &Signature, t: &Flat, s: SortId, n: usize) -> usize
    requires { Fits sig.now t.now }
    ensures { result ≡ (if is_low sig.now s t.now then n else 0) }
{
    let low = sig.leq(t.least_sort(sig), s);
    if low { n } else { 0 }
}

// How many patterns have the sort.
fn low_patterns(sig: &Signature, goal: &SumGoal<'_>, s: SortId) -> usize
    requires { SumFits sig.now goal.now }
    ensures { result ≡ low_in sig.now s (patterns_of goal.now) }
{
    let mut n: usize = 0;
    for i in 0..goal.patterns.len() {
        let one = if_low(sig, goal.patterns[i], s, 1);
        n += one;
    }
    n
}

// How many of the pieces that are left have the sort.
fn low_pieces(sig: &Signature, goal: &SumGoal<'_>, s: SortId) -> usize
    requires { SumFits sig.now goal.now }
    ensures { result ≡ low_left sig.now s (pieces_of goal.now) goal.now.left.now }
{
    let mut n: usize = 0;
    for i in 0..goal.pieces.len() {
        let more = if_low(sig, goal.pieces[i], s, goal.left[i]);
        n += more;
    }
    n
}

// Whether fewer pieces have the sort than patterns that take one of the sort each.
fn lacks(sig: &Signature, goal: &SumGoal<'_>, s: SortId) -> bool
    requires { SumFits sig.now goal.now }
    ensures { IsTrue result → IsHopeless sig.now goal.now }
{
    sig.recall_good();
    if sig.kind(s) == s {
        return false;
    }
    let lasting = has_no_identity(sig, goal.op);
    if !lasting {
        return false;
    }
    let keeps = keeps_low(sig, goal.op, s);
    if !keeps {
        return false;
    }
    let have = low_pieces(sig, goal, s);
    let need = low_patterns(sig, goal, s);
    have < need
}

// The sort of the pattern at a place, if it is a variable and the one before it is none of the same sort.
fn new_sort(patterns: &[&Flat], i: usize) -> Option<SortId>
    requires { i < length patterns.now }
{
    let x = match patterns[i].as_var() {
        None => return None,
        Some(x) => x,
    };
    if i == 0 {
        return Some(x.sort);
    }
    match patterns[i - 1].as_var() {
        Some(y) => if y.sort == x.sort { None } else { Some(x.sort) },
        None => Some(x.sort),
    }
}

// The same for the sort of the pattern at a place, where that is to be asked.
fn lacks_at(sig: &Signature, goal: &SumGoal<'_>, i: usize) -> bool
    requires fits { SumFits sig.now goal.now }
    requires within { i < length goal.now.patterns.now }
    ensures { IsTrue result → IsHopeless sig.now goal.now }
{
    match new_sort(goal.patterns, i) {
        None => false,
        Some(s) => lacks(sig, goal, s),
    }
}

// So many patterns have so many orders that sorts are counted first.
const MANY: usize = 6;

// Whether there are too few pieces of some variables' sort, which is asked where there are many patterns.
fn lacks_some(sig: &Signature, goal: &SumGoal<'_>) -> bool
    requires { SumFits sig.now goal.now }
    ensures { IsTrue result → IsHopeless sig.now goal.now }
{
    if goal.patterns.len() < MANY {
        return false;
    }
    for i in 0..goal.patterns.len() {
        let lacking = lacks_at(sig, goal, i);
        if lacking {
            return true;
        }
    }
    false
}

// Whether counting tells that the patterns make no sum of the pieces.
#[inline(never)]
pub(crate) fn is_hopeless(sig: &Signature, goal: &SumGoal<'_>) -> bool
    requires { SumFits sig.now goal.now }
    ensures { IsTrue result → IsHopeless sig.now goal.now }
{
    let short = is_short(sig, goal);
    if short {
        return true;
    }
    let uneven = is_uneven(goal);
    if uneven {
        return true;
    }
    let few = is_short_of_copies(sig, goal);
    if few {
        return true;
    }
    let crowded = is_crowded(sig, goal);
    if crowded {
        return true;
    }
    lacks_some(sig, goal)
}
