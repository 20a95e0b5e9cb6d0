//! Classes whose values differ for sure.
ghost use Rattle.std.specs.Prelude.{◌<◌, length, All, IsTrue, MatchOption};
ghost use Rattle.fvn_combine_bounds.specs.CombineChoicesTables.{HasSums};
ghost use Rattle.fvn_combine_nodes.specs.States.{IsClosed};
ghost use Rattle.fvn_combine_inferring.specs.Inferred.{TellHeads, HaveTwoValues};
ghost use Rattle.fvn_combine_inferring.specs.inner.Bounds.{HaveTwoHeads, IsItOr};
ghost use Rattle.fvn_combine_inferring.specs.inner.Sizes.{AreInside, IsNoSummand};
ghost use Rattle.fvn_combine_inferring.specs.inner.Splits.{IsAddition};

use crate::bounds::{are_apart, has_few_summands};
use crate::expressions::Addition;
use crate::heads::Known;
use crate::possible::are_headed_apart;
use crate::sizes::{Inside, is_smaller};
use crate::summed::is_no_unit;
use fvn_combine_nodes::{State, Table};
use fvn_signature::Signature;
use fvn_terms::OpId;

// Whether different heads are noted of classes k and l.
fn have_two_heads(heads: &[Option<OpId>], k: usize, l: usize) -> bool
    requires left { k < length heads.now }
    requires right { l < length heads.now }
    ensures { IsTrue result → HaveTwoHeads heads.now k l }
{
    match heads[k] {
        None => false,
        Some(f) => match heads[l] {
            None => false,
            Some(g) => f != g,
        },
    }
}

/// Whether the classes of two nodes have different values for sure: they are kept apart, or have two heads, or the second
/// is that of the identity of an operator under which the first has a summand.
pub fn differ(
    sig: &Signature,
    table: &Table,
    state: &State,
    known: &Known,
    i: usize,
    j: usize,
) -> bool
    requires closed { IsClosed sig.now table.now state.now }
    requires sums { HasSums sig.now table.now }
    requires heads { TellHeads sig.now table.now state.now known.now.sorted known.now.heads.items }
    requires left { i < length table.now.nodes }
    requires right { j < length table.now.nodes }
    ensures { IsTrue result → HaveTwoValues sig.now table.now state.now known.now.sorted i j }
{
    if are_apart(state, i, j) {
        return true;
    }
    if have_two_heads(known.heads.as_slice(), state.class_of(i), state.class_of(j)) {
        return true;
    }
    if is_no_unit(sig, table, state, known, i, j) {
        return true;
    }
    are_headed_apart(sig, table, state, known, i, j)
}

// Whether the value of the class of node k is no summand of that of the class of node l for sure: it has more symbols, or
// the other one has one summand at most, and differs.
fn is_no_summand(
    sig: &Signature,
    table: &Table,
    state: &State,
    known: &Known,
    addition: &Addition,
    insides: &[Inside],
    k: usize,
    l: usize,
) -> bool
    requires closed { IsClosed sig.now table.now state.now }
    requires sums { HasSums sig.now table.now }
    requires heads { TellHeads sig.now table.now state.now known.now.sorted known.now.heads.items }
    requires addition { IsAddition sig.now table.now state.now addition.now }
    requires insides { AreInside sig.now table.now state.now known.now.sorted insides.now }
    requires within { k < length table.now.nodes }
    requires other { l < length table.now.nodes }
    ensures { IsTrue result → IsNoSummand sig.now table.now state.now known.now.sorted
        addition.now.operator k l }
{
    if is_smaller(insides, l, k) {
        return true;
    }
    if !has_few_summands(sig, table, state, known, addition, l) {
        return false;
    }
    differ(sig, table, state, known, k, l)
}

// A node of the list that is not known to have no summand that is the value of the class of node k.
pub(crate) fn candidate(
    sig: &Signature,
    table: &Table,
    state: &State,
    known: &Known,
    addition: &Addition,
    insides: &[Inside],
    k: usize,
    list: &[usize],
) -> Option<usize>
    requires closed { IsClosed sig.now table.now state.now }
    requires sums { HasSums sig.now table.now }
    requires heads { TellHeads sig.now table.now state.now known.now.sorted known.now.heads.items }
    requires addition { IsAddition sig.now table.now state.now addition.now }
    requires insides { AreInside sig.now table.now state.now known.now.sorted insides.now }
    requires within { k < length table.now.nodes }
    requires list { All (λ l. l < length table.now.nodes) list.now }
    ensures { MatchOption result (All
        (IsNoSummand sig.now table.now state.now known.now.sorted addition.now.operator k) list.now)
        (λ l. l < length table.now.nodes) }
{
    for l in list {
        if !is_no_summand(sig, table, state, known, addition, insides, k, *l) {
            return Some(*l);
        }
    }
    None
}

// Whether node x is l, or is known to have no summand that is the value of the class of node k.
fn is_passed(
    sig: &Signature,
    table: &Table,
    state: &State,
    known: &Known,
    addition: &Addition,
    insides: &[Inside],
    k: usize,
    l: usize,
    x: usize,
) -> bool
    requires closed { IsClosed sig.now table.now state.now }
    requires sums { HasSums sig.now table.now }
    requires heads { TellHeads sig.now table.now state.now known.now.sorted known.now.heads.items }
    requires addition { IsAddition sig.now table.now state.now addition.now }
    requires insides { AreInside sig.now table.now state.now known.now.sorted insides.now }
    requires within { k < length table.now.nodes }
    requires other { x < length table.now.nodes }
    ensures { IsTrue result → IsItOr
        (IsNoSummand sig.now table.now state.now known.now.sorted addition.now.operator k) l x }
{
    if x == l {
        return true;
    }
    is_no_summand(sig, table, state, known, addition, insides, k, x)
}

// Whether all nodes of the list but l are known to have no summand that is the value of the class of node k.
pub(crate) fn is_only(
    sig: &Signature,
    table: &Table,
    state: &State,
    known: &Known,
    addition: &Addition,
    insides: &[Inside],
    k: usize,
    l: usize,
    list: &[usize],
) -> bool
    requires closed { IsClosed sig.now table.now state.now }
    requires sums { HasSums sig.now table.now }
    requires heads { TellHeads sig.now table.now state.now known.now.sorted known.now.heads.items }
    requires addition { IsAddition sig.now table.now state.now addition.now }
    requires insides { AreInside sig.now table.now state.now known.now.sorted insides.now }
    requires within { k < length table.now.nodes }
    requires list { All (λ x. x < length table.now.nodes) list.now }
    ensures { IsTrue result
        → All (IsItOr (IsNoSummand sig.now table.now state.now known.now.sorted
        addition.now.operator k) l) list.now }
{
    for x in list {
        if !is_passed(sig, table, state, known, addition, insides, k, l, *x) {
            return false;
        }
    }
    true
}
