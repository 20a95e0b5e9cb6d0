//! What is known of the values of classes: what heads them.
ghost use Rattle.std.specs.Prelude.{◌≡◌, ◌<◌, ◌≤◌, ◌∷◌, [], length, slice_set, All, Some, IfOk, OnOk, IsTrue};
ghost use Rattle.fvn_terms.specs.Signature.{axioms};
ghost use Rattle.fvn_terms.specs.Equality.{IsAssociative};
ghost use Rattle.fvn_combine_bounds.specs.CombineChoicesTables.{HasSums};
ghost use Rattle.fvn_combine_leaves.specs.Readings.{IsReading};
ghost use Rattle.fvn_combine_nodes.specs.States.{IsClosed, class_of};
ghost use Rattle.fvn_combine_inferring.specs.inner.Bounds.{HasTwoSummands, IsPart};
ghost use Rattle.fvn_combine_inferring.specs.inner.Splits.{IsAddition};
ghost use Rattle.fvn_combine_inferring.specs.Inferred.{TellHeads};
ghost use Rattle.fvn_combine_inferring.specs.Rows.{AreSides};

use crate::bounds::{count_summands, has_summand};
use crate::differing::differ;
use crate::expressions::{Addition, addition_of, split_at};
use crate::rows::added;
use fvn_combine_leaves::Reading;
use fvn_combine_nodes::{State, Table};
use fvn_signature::Signature;
use fvn_terms::{NoMemory, OpId};
use std::alloc::Global;

/// What is known of the values of the classes of a state.
#[derive(Drop)]
pub struct Known {
    /// Whether the sorts of variables are heeded.
    pub sorted: bool,
    /// For each class an operator that heads its value, where one is known.
    pub heads: Vec<Option<OpId>>,
}

// Whether the number is two or more.
fn is_two(count: usize) -> bool
    ensures { IsTrue result → 2 ≤ count }
{
    count >= 2
}

// Whether the class of node k has a summand for sure, and another value than that of node i.
fn is_part(
    sig: &Signature,
    table: &Table,
    state: &State,
    known: &Known,
    addition: &Addition,
    k: usize,
    i: usize,
) -> bool
    requires closed { IsClosed sig.now table.now state.now }
    requires sums { HasSums sig.now table.now }
    requires heads { TellHeads sig.now table.now state.now known.now.sorted known.now.heads.items }
    requires addition { IsAddition sig.now table.now state.now addition.now }
    requires part { k < length table.now.nodes }
    requires within { i < length table.now.nodes }
    ensures { IsTrue result → IsPart sig.now table.now state.now known.now.sorted
        addition.now.operator k i }
{
    if !has_summand(sig, table, state, known, addition, k) {
        return false;
    }
    differ(sig, table, state, known, k, i)
}

// Whether node i adds a class that has a summand for sure, and not all that the sum has.
fn has_part(
    sig: &Signature,
    table: &Table,
    state: &State,
    known: &Known,
    addition: &Addition,
    i: usize,
) -> bool
    requires closed { IsClosed sig.now table.now state.now }
    requires sums { HasSums sig.now table.now }
    requires heads { TellHeads sig.now table.now state.now known.now.sorted known.now.heads.items }
    requires addition { IsAddition sig.now table.now state.now addition.now }
    requires within { i < length table.now.nodes }
    ensures { IsTrue result → HasTwoSummands sig.now table.now state.now known.now.sorted
        addition.now.operator i }
{
    table.recall_well_made();
    match split_at(table, state, addition.operator, i) {
        None => false,
        Some(p) => {
            if is_part(sig, table, state, known, addition, p.0, i) {
                return true;
            }
            is_part(sig, table, state, known, addition, p.1, i)
        }
    }
}

// Whether one of these classes, all that node i adds, has a summand for sure, and not all that the sum has.
fn has_part_in(
    sig: &Signature,
    table: &Table,
    state: &State,
    known: &Known,
    addition: &Addition,
    list: &[usize],
    i: usize,
) -> bool
    requires closed { IsClosed sig.now table.now state.now }
    requires sums { HasSums sig.now table.now }
    requires heads { TellHeads sig.now table.now state.now known.now.sorted known.now.heads.items }
    requires addition { IsAddition sig.now table.now state.now addition.now }
    requires parts { All (λ k. k < length table.now.nodes) list.now }
    requires within { i < length table.now.nodes }
    requires sides { AreSides sig.now table.now state.now addition.now.operator (i ∷ []) list.now }
    ensures { IsTrue result → HasTwoSummands sig.now table.now state.now known.now.sorted
        addition.now.operator i }
{
    for k in list {
        if is_part(sig, table, state, known, addition, *k, i) {
            return true;
        }
    }
    false
}

// Whether two of all the classes that node i adds have a summand for sure, or one of them is a part of the sum.
fn adds_two(
    alloc: Global,
    sig: &Signature,
    table: &Table,
    state: &State,
    known: &Known,
    addition: &Addition,
    i: usize,
) -> Result<bool, NoMemory>
    requires closed { IsClosed sig.now table.now state.now }
    requires sums { HasSums sig.now table.now }
    requires heads { TellHeads sig.now table.now state.now known.now.sorted known.now.heads.items }
    requires addition { IsAddition sig.now table.now state.now addition.now }
    requires within { i < length table.now.nodes }
    ensures { IfOk result (λ r. IsTrue r
        → HasTwoSummands sig.now table.now state.now known.now.sorted addition.now.operator i) }
{
    match added(alloc, sig, table, state, addition, i)? {
        None => Ok(false),
        Some(list) => {
            let classes = list.as_slice();
            if is_two(count_summands(sig, table, state, known, addition, classes)) {
                return Ok(true);
            }
            let large = has_part_in(sig, table, state, known, addition, classes, i);
            Ok(large)
        }
    }
}

// Whether node i is a sum of two summands for sure.
fn is_large(
    alloc: Global,
    sig: &Signature,
    table: &Table,
    state: &State,
    known: &Known,
    addition: &Addition,
    i: usize,
) -> Result<bool, NoMemory>
    requires closed { IsClosed sig.now table.now state.now }
    requires sums { HasSums sig.now table.now }
    requires heads { TellHeads sig.now table.now state.now known.now.sorted known.now.heads.items }
    requires addition { IsAddition sig.now table.now state.now addition.now }
    requires within { i < length table.now.nodes }
    ensures { IfOk result (λ r. IsTrue r
        → HasTwoSummands sig.now table.now state.now known.now.sorted addition.now.operator i) }
{
    if has_part(sig, table, state, known, addition, i) {
        return Ok(true);
    }
    let large = adds_two(alloc, sig, table, state, known, addition, i)?;
    Ok(large)
}

// Notes a head.
fn note_head(heads: &mut Vec<Option<OpId>>, k: usize, f: OpId)
    requires { k < length heads.old.items }
    ensures { heads.new.items ≡ slice_set heads.old.items k (Some f) }
{
    heads[k] = Some(f);
}

// Whether a head is noted of class k.
fn has_head(heads: &[Option<OpId>], k: usize) -> bool {
    if k >= heads.len() {
        return false;
    }
    heads[k].is_some()
}

// Notes f of the classes of its sums that have two summands for sure; a class of which a head is noted keeps it.
fn note_large(
    alloc: Global,
    sig: &Signature,
    table: &Table,
    state: &State,
    known: &mut Known,
    f: OpId,
) -> Result<(), NoMemory>
    requires associative { IsAssociative (axioms sig.now f) }
    requires closed { IsClosed sig.now table.now state.now }
    requires sums { HasSums sig.now table.now }
    requires heads { TellHeads sig.now table.now state.now known.old.sorted known.old.heads.items }
    ensures heads { OnOk result
        (TellHeads sig.now table.now state.now known.new.sorted known.new.heads.items) }
    ensures sorted { OnOk result (known.new.sorted ≡ known.old.sorted) }
{
    let addition = addition_of(alloc, sig, table, state, known, f)?;
    for i in 0..table.nodes().len() {
        if has_head(known.heads.as_slice(), state.class_of(i)) {
            continue;
        }
        if !is_large(alloc, sig, table, state, known, &addition, i)? {
            continue;
        }
        note_head(&mut known.heads, state.class_of(i), f);
    }
    Ok(())
}

// The heads that a reading notes, in memory of their own.
fn copied(alloc: Global, heads: &[Option<OpId>]) -> Result<Vec<Option<OpId>>, NoMemory>
    ensures { IfOk result (λ v. v.items ≡ heads.now) }
{
    match Vec::from_slice(alloc, heads) {
        Ok(copy) => Ok(copy),
        Err(_) => Err(NoMemory),
    }
}

/// What is known of the values of the classes of a state: for each an operator that heads its value, one without an
/// identity that heads a member, or one whose sum has two summands for sure.
pub fn known_of(
    alloc: Global,
    sig: &Signature,
    table: &Table,
    state: &State,
    reading: &Reading,
    sorted: bool,
) -> Result<Known, NoMemory>
    requires closed { IsClosed sig.now table.now state.now }
    requires sums { HasSums sig.now table.now }
    requires reading { IsReading sig.now table.now (class_of state.now) reading.now }
    ensures heads { IfOk result (λ k.
        TellHeads sig.now table.now state.now k.sorted k.heads.items) }
    ensures sorted { IfOk result (λ k. k.sorted ≡ sorted) }
{
    table.recall_well_made();
    let heads = copied(alloc, reading.heads.as_slice())?;
    let mut known = Known { sorted, heads };
    for sums in reading.sums.as_slice() {
        note_large(alloc, sig, table, state, &mut known, sums.operator)?;
    }
    Ok(known)
}
