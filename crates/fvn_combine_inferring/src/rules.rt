//! What a reduced row says of its classes.
ghost use Rattle.std.specs.Prelude.{◌≡◌, ◌↔◌, ◌<◌, [], length, All, IfSome, IsTrue};
ghost use Rattle.fvn_combine_bounds.specs.CombineChoicesTables.{HasSums};
ghost use Rattle.fvn_combine_nodes.specs.States.{IsClosed};
ghost use Rattle.fvn_combine_inferring.specs.Inferred.{TellHeads, IsInferred};
ghost use Rattle.fvn_combine_inferring.specs.Rows.{AreSides};
ghost use Rattle.fvn_combine_inferring.specs.inner.Sizes.{AreInside};
ghost use Rattle.fvn_combine_inferring.specs.inner.Splits.{IsAddition};

use crate::bags::bagged;
use crate::bounds::{count_summands, have_few_summands};
use crate::expressions::{Addition, unit_of};
use crate::heads::Known;
use crate::inferring::Inferred;
use crate::meeting::{all_met, met};
use crate::sizes::Inside;
use fvn_combine_nodes::{State, Table, has_no_identity};
use fvn_signature::Signature;
use fvn_terms::OpId;

// Whether the list has no classes.
pub(crate) fn has_none(list: &[usize]) -> bool
    ensures { IsTrue result ↔ (length list.now ≡ 0) }
{
    list.len() == 0
}

// What is said of classes whose values have no summands.
fn emptied(
    sig: &Signature,
    table: &Table,
    state: &State,
    sorted: bool,
    f: OpId,
    list: &[usize],
) -> Inferred
    requires closed { IsClosed sig.now table.now state.now }
    requires sums { HasSums sig.now table.now }
    requires within { All (λ k. k < length table.now.nodes) list.now }
    requires sides { AreSides sig.now table.now state.now f list.now [] }
    ensures { IsInferred sig.now table.now state.now sorted result }
{
    if has_none(list) {
        return Inferred::Nothing;
    }
    if has_no_identity(sig.axioms(f)) {
        return Inferred::Impossible;
    }
    match unit_of(table, f) {
        None => Inferred::Nothing,
        Some(n) => all_met(sig, table, state, sorted, list, n),
    }
}

// Whether all numbers of the list are k.
fn are_all(list: &[usize], k: usize) -> bool
    ensures { IsTrue result → All (λ x. x ≡ k) list.now }
{
    for x in list {
        if *x != k {
            return false;
        }
    }
    true
}

// The number that all members of the list are, where it has any.
pub(crate) fn the_one(list: &[usize]) -> Option<usize>
    ensures some { IfSome result (λ k. 0 < length list.now) }
    ensures all { IfSome result (λ k. All (λ x. x ≡ k) list.now) }
{
    if list.len() == 0 {
        return None;
    }
    if are_all(list, list[0]) {
        return Some(list[0]);
    }
    None
}

// Whether both lists have as many.
fn are_as_many(xs: &[usize], ys: &[usize]) -> bool
    ensures { IsTrue result ↔ (length xs.now ≡ length ys.now) }
{
    xs.len() == ys.len()
}

// What is said where both sides are one class each, equally often.
fn cancelled(
    sig: &Signature,
    table: &Table,
    state: &State,
    sorted: bool,
    f: OpId,
    left: &[usize],
    right: &[usize],
) -> Inferred
    requires closed { IsClosed sig.now table.now state.now }
    requires left { All (λ k. k < length table.now.nodes) left.now }
    requires right { All (λ k. k < length table.now.nodes) right.now }
    requires sides { AreSides sig.now table.now state.now f left.now right.now }
    ensures { IsInferred sig.now table.now state.now sorted result }
{
    let _operator = f;
    match the_one(left) {
        None => Inferred::Nothing,
        Some(k) => match the_one(right) {
            None => Inferred::Nothing,
            Some(l) => {
                if !are_as_many(left, right) {
                    return Inferred::Nothing;
                }
                met(sig, table, state, sorted, k, l)
            }
        },
    }
}

// Whether the number is above that of the list's members.
fn is_more(count: usize, list: &[usize]) -> bool
    ensures { IsTrue result ↔ (length list.now < count) }
{
    count > list.len()
}

// What is said where the classes of the second list are one summand each at most: the first ones have no more.
fn counted(
    sig: &Signature,
    table: &Table,
    state: &State,
    known: &Known,
    addition: &Addition,
    first: &[usize],
    second: &[usize],
) -> Inferred
    requires closed { IsClosed sig.now table.now state.now }
    requires sums { HasSums sig.now table.now }
    requires heads { TellHeads sig.now table.now state.now known.now.sorted known.now.heads.items }
    requires addition { IsAddition sig.now table.now state.now addition.now }
    requires left { All (λ k. k < length table.now.nodes) first.now }
    requires right { All (λ k. k < length table.now.nodes) second.now }
    requires sides { AreSides sig.now table.now state.now addition.now.operator first.now
        second.now }
    ensures { IsInferred sig.now table.now state.now known.now.sorted result }
{
    if !have_few_summands(sig, table, state, known, addition, second) {
        return Inferred::Nothing;
    }
    let count = count_summands(sig, table, state, known, addition, first);
    if is_more(count, second) {
        return Inferred::Impossible;
    }
    Inferred::Nothing
}

// What is said where one side is empty.
fn one_sided(
    sig: &Signature,
    table: &Table,
    state: &State,
    sorted: bool,
    f: OpId,
    left: &[usize],
    right: &[usize],
) -> Inferred
    requires closed { IsClosed sig.now table.now state.now }
    requires sums { HasSums sig.now table.now }
    requires left { All (λ k. k < length table.now.nodes) left.now }
    requires right { All (λ k. k < length table.now.nodes) right.now }
    requires sides { AreSides sig.now table.now state.now f left.now right.now }
    ensures { IsInferred sig.now table.now state.now sorted result }
{
    if has_none(right) {
        return emptied(sig, table, state, sorted, f, left);
    }
    if has_none(left) {
        return emptied(sig, table, state, sorted, f, right);
    }
    Inferred::Nothing
}

// What the row says of single summands, which are each one of the other side: a fact before a question.
fn both_bagged(
    sig: &Signature,
    table: &Table,
    state: &State,
    known: &Known,
    addition: &Addition,
    insides: &[Inside],
    left: &[usize],
    right: &[usize],
) -> Inferred
    requires closed { IsClosed sig.now table.now state.now }
    requires sums { HasSums sig.now table.now }
    requires heads { TellHeads sig.now table.now state.now known.now.sorted known.now.heads.items }
    requires addition { IsAddition sig.now table.now state.now addition.now }
    requires insides { AreInside sig.now table.now state.now known.now.sorted insides.now }
    requires left { All (λ k. k < length table.now.nodes) left.now }
    requires right { All (λ k. k < length table.now.nodes) right.now }
    requires sides { AreSides sig.now table.now state.now addition.now.operator left.now right.now }
    ensures { IsInferred sig.now table.now state.now known.now.sorted result }
{
    let told = bagged(sig, table, state, known, addition, insides, left, right);
    if told.is_something() {
        return told;
    }
    bagged(sig, table, state, known, addition, insides, right, left)
}

// What the row says.
pub(crate) fn rule(
    sig: &Signature,
    table: &Table,
    state: &State,
    known: &Known,
    addition: &Addition,
    insides: &[Inside],
    left: &[usize],
    right: &[usize],
) -> Inferred
    requires closed { IsClosed sig.now table.now state.now }
    requires sums { HasSums sig.now table.now }
    requires heads { TellHeads sig.now table.now state.now known.now.sorted known.now.heads.items }
    requires addition { IsAddition sig.now table.now state.now addition.now }
    requires insides { AreInside sig.now table.now state.now known.now.sorted insides.now }
    requires left { All (λ k. k < length table.now.nodes) left.now }
    requires right { All (λ k. k < length table.now.nodes) right.now }
    requires sides { AreSides sig.now table.now state.now addition.now.operator left.now right.now }
    ensures { IsInferred sig.now table.now state.now known.now.sorted result }
{
    let told_left = counted(sig, table, state, known, addition, left, right);
    if told_left.is_something() {
        return told_left;
    }
    let told_right = counted(sig, table, state, known, addition, right, left);
    if told_right.is_something() {
        return told_right;
    }
    let told_empty = one_sided(
        sig,
        table,
        state,
        known.sorted,
        addition.operator,
        left,
        right,
    );
    if told_empty.is_something() {
        return told_empty;
    }
    let told_same = cancelled(
        sig,
        table,
        state,
        known.sorted,
        addition.operator,
        left,
        right,
    );
    if told_same.is_something() {
        return told_same;
    }
    both_bagged(sig, table, state, known, addition, insides, left, right)
}
