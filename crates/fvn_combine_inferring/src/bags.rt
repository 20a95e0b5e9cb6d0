//! Bags: each single summand of one side is among those of the other one.
ghost use Rattle.std.specs.Prelude.{◌<◌, length, All};
ghost use Rattle.fvn_combine_bounds.specs.CombineChoicesTables.{HasSums};
ghost use Rattle.fvn_combine_nodes.specs.States.{IsClosed};
ghost use Rattle.fvn_combine_inferring.specs.Inferred.{TellHeads, IsInferred};
ghost use Rattle.fvn_combine_inferring.specs.inner.Sizes.{AreInside};
ghost use Rattle.fvn_combine_inferring.specs.inner.Splits.{IsAddition};
ghost use Rattle.fvn_combine_inferring.specs.Rows.{AreSides, IsSummand, IsAmong};

use crate::bounds::{has_few_summands, have_few_summands, is_summand};
use crate::differing::{candidate, is_only};
use crate::expressions::Addition;
use crate::heads::Known;
use crate::inferring::Inferred;
use crate::meeting::met;
use crate::sizes::Inside;
use fvn_combine_nodes::{State, Table};
use fvn_signature::Signature;

// What is said of a class that is one summand, and is among those of the list.
fn matched(
    sig: &Signature,
    table: &Table,
    state: &State,
    known: &Known,
    addition: &Addition,
    insides: &[Inside],
    k: usize,
    list: &[usize],
) -> Inferred
    requires closed { IsClosed sig.now table.now state.now }
    requires sums { HasSums sig.now table.now }
    requires heads { TellHeads sig.now table.now state.now known.now.sorted known.now.heads.items }
    requires addition { IsAddition sig.now table.now state.now addition.now }
    requires insides { AreInside sig.now table.now state.now known.now.sorted insides.now }
    requires within { k < length table.now.nodes }
    requires list { All (λ l. l < length table.now.nodes) list.now }
    requires one { IsSummand sig.now table.now state.now known.now.sorted addition.now.operator k }
    requires among { IsAmong sig.now table.now state.now addition.now.operator k list.now }
    ensures { IsInferred sig.now table.now state.now known.now.sorted result }
{
    match candidate(sig, table, state, known, addition, insides, k, list) {
        None => Inferred::Impossible,
        Some(l) => {
            if !has_few_summands(sig, table, state, known, addition, l) {
                return Inferred::Nothing;
            }
            if is_only(sig, table, state, known, addition, insides, k, l, list) {
                return met(sig, table, state, known.sorted, k, l);
            }
            if !have_few_summands(sig, table, state, known, addition, list) {
                return Inferred::Nothing;
            }
            if state.is_open(k, l) {
                Inferred::Question(k, l)
            } else {
                Inferred::Nothing
            }
        }
    }
}

// What is said of single summands of the first list: each is among those of the second one.
pub(crate) fn bagged(
    sig: &Signature,
    table: &Table,
    state: &State,
    known: &Known,
    addition: &Addition,
    insides: &[Inside],
    first: &[usize],
    second: &[usize],
) -> Inferred
    requires closed { IsClosed sig.now table.now state.now }
    requires sums { HasSums sig.now table.now }
    requires heads { TellHeads sig.now table.now state.now known.now.sorted known.now.heads.items }
    requires addition { IsAddition sig.now table.now state.now addition.now }
    requires insides { AreInside sig.now table.now state.now known.now.sorted insides.now }
    requires left { All (λ k. k < length table.now.nodes) first.now }
    requires right { All (λ k. k < length table.now.nodes) second.now }
    requires sides { AreSides sig.now table.now state.now addition.now.operator first.now
        second.now }
    ensures { IsInferred sig.now table.now state.now known.now.sorted result }
{
    for k in first {
        if !is_summand(sig, table, state, known, addition, *k) {
            continue;
        }
        let told = matched(sig, table, state, known, addition, insides, *k, second);
        if told.is_something() {
            return told;
        }
    }
    Inferred::Nothing
}
