//! Sums of chosen pieces, and how many pieces a pattern may have.
ghost use Rattle.std.specs.Prelude.{◌≡◌, ◌↔◌, ◌++◌, ◌≤◌, length, replicate, sum, IsTrue, IfOk};
ghost use Rattle.fvn_terms.specs.Signature.{AtOrBelow};
ghost use Rattle.fvn_flat.specs.Fits.{Fits};
ghost use Rattle.fvn_match.specs.inner.Tallies.{repeated};
ghost use Rattle.fvn_match.specs.inner.Summands.{references};
ghost use Rattle.fvn_match.specs.inner.Goals.{SumFits};
ghost use Rattle.fvn_match.specs.inner.Searching.{IsGroup, IsOnePiece, IsRoom, IsEmptySum, IsWhole, IsShort};
ghost use Rattle.fvn_match.specs.inner.Refusing.{IsSummand, GivesNone, TakesLow, KeepsLow};

use crate::choices::total;
use crate::goals::SumGoal;
use crate::summands::is_headed;
use fvn_flat::Flat;
use fvn_signature::Signature;
use fvn_terms::{NoMemory, OpId, Rank, SortId};
use std::alloc::Global;

// Whether all numbers are zero.
pub(crate) fn are_zero(ns: &[usize]) -> bool
    ensures { IsTrue result ↔ (sum ns.now ≡ 0) }
{
    for n in ns {
        if *n != 0 {
            return false;
        }
    }
    true
}

// The terms with a number of copies of one more.
fn with_copies(alloc: Global, terms: Vec<Flat>, t: &Flat, n: usize) -> Result<Vec<Flat>, NoMemory>
    ensures { IfOk result (λ all. all.items ≡ terms.items ++ replicate n t.now) }
{
    let mut all = terms;
    for _ in 0..n {
        all.push(t.copy(alloc)?)?;
    }
    Ok(all)
}

// Copies of the pieces, each as often as its number says.
fn copies(alloc: Global, pieces: &[&Flat], chosen: &[usize]) -> Result<Vec<Flat>, NoMemory>
    requires { length chosen.now ≡ length pieces.now }
    ensures { IfOk result (λ all. all.items ≡ repeated (references pieces.now) chosen.now) }
{
    let mut all = Vec::new(alloc);
    for i in 0..chosen.len() {
        all = with_copies(alloc, all, pieces[i], chosen[i])?;
    }
    Ok(all)
}

// The sum without pieces: the identity, if there is one.
fn empty_sum(alloc: Global, sig: &Signature, goal: &SumGoal<'_>) -> Result<Option<Flat>, NoMemory>
    requires { SumFits sig.now goal.now }
    ensures { IfOk result (IsEmptySum sig.now goal.now.op) }
{
    sig.recall_good();
    match sig.identity(goal.op) {
        None => Ok(None),
        Some(e) => {
            let t = Flat::app(alloc, sig, e, Vec::new(alloc))?;
            Ok(Some(t))
        }
    }
}

// The sum of the chosen pieces; without pieces the identity, if there is one.
#[inline(never)]
pub(crate) fn whole(
    alloc: Global,
    sig: &Signature,
    goal: &SumGoal<'_>,
    chosen: &[usize],
) -> Result<Option<Flat>, NoMemory>
    requires fits { SumFits sig.now goal.now }
    requires long { length chosen.now ≡ length goal.now.left.now }
    ensures { IfOk result (IsWhole sig.now goal.now chosen.now) }
{
    sig.recall_good();
    let mut terms = copies(alloc, goal.pieces, chosen)?;
    let last = match terms.pop() {
        None => {
            let none = empty_sum(alloc, sig, goal)?;
            return Ok(none);
        }
        Some(last) => last,
    };
    if terms.is_empty() {
        return Ok(Some(last));
    }
    terms.push(last)?;
    let t = Flat::app(alloc, sig, goal.op, terms)?;
    Ok(Some(t))
}

// Whether there are too few pieces for the patterns.
pub(crate) fn is_short(sig: &Signature, goal: &SumGoal<'_>) -> bool
    requires { SumFits sig.now goal.now }
    ensures { IsTrue result → IsShort sig.now goal.now }
{
    match sig.identity(goal.op) {
        Some(_) => false,
        None => total(goal.left) < goal.patterns.len(),
    }
}

// Whether no instance of the pattern, which is no variable, has more than one summand.
fn is_one_piece(sig: &Signature, f: OpId, p: &Flat) -> bool
    requires { Fits sig.now p.now }
    ensures { IsTrue result → IsOnePiece sig.now f p.now }
{
    sig.recall_good();
    let g = match p.head() {
        None => return false,
        Some(g) => g,
    };
    let axioms = sig.axioms(g);
    if !axioms.is_sum() {
        return true;
    }
    if axioms.identity().is_some() {
        return false;
    }
    !is_headed(p, f)
}

// Whether what a rank gives has the sort.
fn gives(sig: &Signature, rank: &Rank, s: SortId) -> bool
    ensures { IsTrue result ↔ AtOrBelow sig.now rank.now.result s }
{
    sig.leq(rank.result, s)
}

// Whether no sum of the operator has the sort.
pub(crate) fn gives_none(sig: &Signature, f: OpId, s: SortId) -> bool
    ensures { IsTrue result → GivesNone sig.now f s }
{
    if sig.kind(s) == s {
        return false;
    }
    for i in 0..sig.rank_count(f) {
        let one = sig.rank(f, i);
        let may = gives(sig, one, s);
        if may {
            return false;
        }
    }
    true
}

// Whether the rank takes an argument of the sort.
fn takes_low(sig: &Signature, rank: &Rank, s: SortId) -> bool
    ensures { IsTrue result → TakesLow sig.now s rank.now }
{
    let args = rank.args.as_slice();
    for i in 0..args.len() {
        let low = sig.leq(args[i], s);
        if low {
            return true;
        }
    }
    false
}

// Whether the rank takes an argument of the sort, where it gives the sort.
fn rank_keeps_low(sig: &Signature, rank: &Rank, s: SortId) -> bool
    ensures { IsTrue result → AtOrBelow sig.now rank.now.result s → TakesLow sig.now s rank.now }
{
    let may = gives(sig, rank, s);
    if !may {
        return true;
    }
    takes_low(sig, rank, s)
}

// Whether each sum of the operator that has the sort has a summand of the sort.
pub(crate) fn keeps_low(sig: &Signature, f: OpId, s: SortId) -> bool
    ensures { IsTrue result → KeepsLow sig.now f s }
{
    for i in 0..sig.rank_count(f) {
        let one = sig.rank(f, i);
        let keeps = rank_keeps_low(sig, one, s);
        if !keeps {
            return false;
        }
    }
    true
}

// Whether no instance of a pattern of a sum has more than one summand.
pub(crate) fn is_single(sig: &Signature, f: OpId, p: &Flat) -> bool
    requires { IsSummand sig.now f p.now }
    ensures { IsTrue result → IsOnePiece sig.now f p.now }
{
    sig.recall_good();
    match p.as_var() {
        Some(x) => gives_none(sig, f, x.sort),
        None => is_one_piece(sig, f, p),
    }
}

// How many of the pieces the first pattern may have at most.
#[inline(never)]
pub(crate) fn room(sig: &Signature, goal: &SumGoal<'_>, p: &Flat, k: usize) -> usize
    requires fits { SumFits sig.now goal.now }
    requires group { IsGroup sig.now goal.now p.now k }
    requires some { 1 ≤ k }
    requires within { k ≤ length goal.now.patterns.now }
    ensures { IsRoom sig.now goal.now p.now result }
{
    if is_single(sig, goal.op, p) {
        return 1;
    }
    let all = total(goal.left);
    match sig.identity(goal.op) {
        Some(_) => all / k,
        None => all.saturating_sub(goal.patterns.len() - k) / k,
    }
}
