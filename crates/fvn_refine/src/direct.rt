//! One row lowered in place, where among an operator's ranks that give a sort that is asked one has its arguments above those of
//! all others: no other row is at or above what is found.
ghost use Rattle.std.specs.Prelude.{◌≡◌, ◌∷◌, [], map, length, false, IsTrue, IfSome, MatchOption};
ghost use Rattle.fvn_forms.specs.Flat.{fvar, fapp, fpack};
ghost use Rattle.fvn_forms.specs.Ranks.{ranks_of};
ghost use Rattle.fvn_terms.specs.Signature.{kind, IsSort, AtOrBelow};
ghost use Rattle.fvn_flat.specs.Bindings.{value, BindingsFit};
ghost use Rattle.fvn_flat.specs.Fits.{Fits, AllFit};
ghost use Rattle.fvn_refine.specs.Refinements.{AreBound};
ghost use Rattle.fvn_refine.specs.inner.Rows.{IsRow, IsRowBelow, placed};
ghost use Rattle.fvn_refine.specs.inner.Found.{AreSummands, Finds, IsUnder, AreUnder, IsResultUnder, IsSumUnder, HaveSorts};
ghost use Rattle.fvn_refine.specs.inner.Greatest.{IsGreatest, IsFirstLow, NoneLow, AreServed, IsTopLow};

use crate::lowering::{Search, is_sum, pair_of};
use crate::places::{beside, is_same};
use crate::rows::is_row_below;
use fvn_flat::{Flat, Subst, is_listed};
use fvn_signature::Signature;
use fvn_terms::{OpId, Rank, SortId, Var};

// The first of the operator's ranks, from this one on, that gives the sort or one below it.
fn first_low(sig: &Signature, f: OpId, s: SortId, from: usize) -> Option<usize>
    ensures { MatchOption result (NoneLow sig.now s (ranks_of sig.now f) from)
        (IsFirstLow sig.now s (ranks_of sig.now f) from) }
{
    for i in from..sig.rank_count(f) {
        if sig.leq(sig.rank(f, i).result, s) {
            return Some(i);
        }
    }
    None
}

// Whether the rank gives no sort at or below this one, or its arguments are at or below these.
fn is_served(sig: &Signature, rank: &Rank, s: SortId, args: &[SortId]) -> bool
    ensures { IsTrue result → AtOrBelow sig.now rank.now.result s
        → IsRowBelow sig.now rank.now.args args.now }
{
    if !sig.leq(rank.result, s) {
        return true;
    }
    is_row_below(sig, rank.args.as_slice(), args)
}

// Whether of the operator's ranks, from this one on, each that gives the sort or one below it has its arguments at or below
// these.
fn are_served(sig: &Signature, f: OpId, s: SortId, from: usize, args: &[SortId]) -> bool
    ensures { IsTrue result → AreServed sig.now s (ranks_of sig.now f) from args.now }
{
    for i in from..sig.rank_count(f) {
        if !is_served(sig, sig.rank(f, i), s, args) {
            return false;
        }
    }
    true
}

// That of the operator's ranks that give the sort or one below it whose arguments are above those of all others, where it is
// the first of them.
fn top_low(sig: &Signature, f: OpId, s: SortId) -> Option<usize>
    ensures { IfSome result (IsTopLow sig.now s (ranks_of sig.now f)) }
{
    let Some(i) = first_low(sig, f, s, 0) else {
        return None;
    };
    if i >= sig.rank_count(f) {
        return None;
    }
    let rank = sig.rank(f, i);
    if !are_served(sig, f, s, i + 1, rank.args.as_slice()) {
        return None;
    }
    Some(i)
}

// The row with another sort beside the first place of the variable, in its memory.
fn placed_in(vars: &[Var], row: Vec<SortId>, y: Var, s: SortId) -> Vec<SortId>
    requires { length vars.now ≡ length row.items }
    ensures { result.items ≡ placed vars.now row.items y s }
{
    let mut all = row;
    for (i, x) in vars.iter().enumerate() {
        if is_same(*x, y) {
            all[i] = s;
            return all;
        }
    }
    all
}

// The row lowered until the variable has the sort or one below it.
fn lower_place(search: &Search<'_>, row: Vec<SortId>, y: Var, s: SortId) -> Option<Vec<SortId>>
    requires { IsRow search.now.sig.now search.now.vars.now row.items }
    ensures { IfSome result (λ r. IsGreatest search.now.sig.now search.now.vars.now row.items
        (IsUnder search.now.sig.now search.now.vars.now (fvar y) s) r.items) }
{
    search.sig.recall_good();
    search.sig.recall_completed();
    let kind = search.sig.kind(y.sort);
    let here = beside(search.vars, row.as_slice(), y, kind);
    if search.sig.leq(here, s) {
        return Some(row);
    }
    if !search.sig.leq(s, here) {
        return None;
    }
    if !is_listed(search.vars, y) {
        return None;
    }
    Some(placed_in(search.vars, row, y, s))
}

// The row lowered until the term has the sort or one below it.
#[cycle(down)]
fn down(search: &Search<'_>, row: Vec<SortId>, t: &Flat, s: SortId) -> Option<Vec<SortId>>
    requires row { IsRow search.now.sig.now search.now.vars.now row.items }
    requires term { Fits search.now.sig.now t.now }
    ensures { IfSome result (λ r. IsGreatest search.now.sig.now search.now.vars.now row.items
        (IsUnder search.now.sig.now search.now.vars.now t.now s) r.items) }
{
    if let Some(y) = t.as_var() {
        let lower = lower_place(search, row, y, s);
        return lower;
    }
    let f = match t.head() {
        None => return None,
        Some(f) => f,
    };
    search.sig.recall_good();
    let ts = t.args();
    if is_sum(search.sig, f, ts) {
        let lower = down_sum(search, row, f, ts, s);
        return lower;
    }
    let lower = down_over(search, row, f, ts, s);
    lower
}

// The row lowered until each term has the sort in its place or one below it.
#[cycle(down)]
fn down_all(
    search: &Search<'_>,
    row: Vec<SortId>,
    ts: &[Flat],
    args: &[SortId],
) -> Option<Vec<SortId>>
    requires row { IsRow search.now.sig.now search.now.vars.now row.items }
    requires terms { AllFit search.now.sig.now ts.now }
    ensures { IfSome result (λ r. IsGreatest search.now.sig.now search.now.vars.now row.items
        (AreUnder search.now.sig.now search.now.vars.now ts.now args.now) r.items) }
{
    search.sig.recall_good();
    if ts.len() != args.len() {
        return None;
    }
    let mut lower = row;
    for (i, t) in ts.iter().enumerate() {
        let Some(next) = down(search, lower, t, args[i]) else {
            return None;
        };
        lower = next;
    }
    Some(lower)
}

// The row lowered until the operator over the terms has the sort or one below it.
#[cycle(down)]
fn down_over(
    search: &Search<'_>,
    row: Vec<SortId>,
    f: OpId,
    ts: &[Flat],
    s: SortId,
) -> Option<Vec<SortId>>
    requires row { IsRow search.now.sig.now search.now.vars.now row.items }
    requires term { Fits search.now.sig.now (fapp f false (fpack ts.now)) }
    ensures { IfSome result (λ r. IsGreatest search.now.sig.now search.now.vars.now row.items
        (IsResultUnder search.now.sig.now search.now.vars.now f ts.now s) r.items) }
{
    search.sig.recall_good();
    let Some(i) = top_low(search.sig, f, s) else {
        return None;
    };
    let rank = search.sig.rank(f, i);
    let lower = down_all(search, row, ts, rank.args.as_slice());
    lower
}

// The row lowered until the sum of the terms has the sort or one below it.
#[cycle(down)]
fn down_sum(
    search: &Search<'_>,
    row: Vec<SortId>,
    f: OpId,
    ts: &[Flat],
    s: SortId,
) -> Option<Vec<SortId>>
    requires row { IsRow search.now.sig.now search.now.vars.now row.items }
    requires sum { AreSummands search.now.sig.now f ts.now }
    ensures { IfSome result (λ r. IsGreatest search.now.sig.now search.now.vars.now row.items
        (IsSumUnder search.now.sig.now search.now.vars.now f ts.now s) r.items) }
{
    search.sig.recall_good();
    let last = ts.len() - 1;
    let end = &ts[last];
    if last == 0 {
        let lower = down(search, row, end, s);
        return lower;
    }
    let Some(i) = top_low(search.sig, f, s) else {
        return None;
    };
    let rank = search.sig.rank(f, i);
    let Some(pair) = pair_of(rank.args.as_slice()) else {
        return None;
    };
    let Some(middle) = down(search, row, end, pair.1) else {
        return None;
    };
    let front = &ts[..last];
    let lower = down_sum(search, middle, f, front, pair.0);
    lower
}

// Whether the sort is a kind.
fn is_kind(sig: &Signature, s: SortId) -> bool
    ensures { IsTrue result → kind sig.now s ≡ s }
{
    let k = sig.kind(s);
    k == s
}

// The row lowered until the value of the variable has its sort, which any row gives it where this is a kind.
fn down_value(search: &Search<'_>, row: Vec<SortId>, subst: &Subst, x: Var) -> Option<Vec<SortId>>
    requires row { IsRow search.now.sig.now search.now.vars.now row.items }
    requires fits { BindingsFit search.now.sig.now subst.now }
    requires sort { IsSort search.now.sig.now x.sort }
    ensures { IfSome result (λ r. IsGreatest search.now.sig.now search.now.vars.now row.items
        (IsUnder search.now.sig.now search.now.vars.now (value subst.now x) x.sort) r.items) }
{
    search.sig.recall_good();
    if is_kind(search.sig, x.sort) {
        return Some(row);
    }
    let Some(t) = subst.get(x) else {
        return None;
    };
    let lower = down(search, row, t, x.sort);
    lower
}

// The greatest row at which each of the variables has a value of its sort, from the row of kinds, where it is found so.
pub(crate) fn greatest(
    search: &Search<'_>,
    kinds: Vec<SortId>,
    subst: &Subst,
    vars: &[Var],
) -> Option<Vec<SortId>>
    requires kinds { kinds.items ≡ map (λ x. kind search.now.sig.now x.sort) search.now.vars.now }
    requires fits { BindingsFit search.now.sig.now subst.now }
    requires bound { AreBound search.now.sig.now vars.now subst.now }
    ensures { IfSome result (λ r. Finds search.now.sig.now search.now.vars.now
        (HaveSorts search.now.sig.now search.now.vars.now subst.now vars.now) (r.items ∷ [])) }
{
    search.sig.recall_good();
    let mut row = kinds;
    for x in vars {
        let Some(next) = down_value(search, row, subst, *x) else {
            return None;
        };
        row = next;
    }
    Some(row)
}
