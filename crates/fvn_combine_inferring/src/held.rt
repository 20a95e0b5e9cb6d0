//! Classes that hold all summands of other classes, as reduced rows say.
ghost use Rattle.std.specs.Prelude.{◌≡◌, ◌<◌, ◌∷◌, [], length, All, IfOk, IfSome, OnOk};
ghost use Rattle.fvn_terms.specs.Signature.{axioms};
ghost use Rattle.fvn_terms.specs.Equality.{IsAssociative};
ghost use Rattle.fvn_combine_bounds.specs.CombineChoicesTables.{HasSums};
ghost use Rattle.fvn_combine_leaves.specs.Readings.{IsReading};
ghost use Rattle.fvn_combine_nodes.specs.States.{IsClosed, class_of};
ghost use Rattle.fvn_combine_inferring.specs.Inferred.{TellHeads};
ghost use Rattle.fvn_combine_inferring.specs.Rows.{AreSides, IsAmong, HoldsSummands, IsHeld};
ghost use Rattle.fvn_combine_inferring.specs.inner.Splits.{IsAddition};

use crate::bounds::is_summand;
use crate::differing::{candidate, is_only};
use crate::expressions::{Addition, addition_of};
use crate::heads::Known;
use crate::rows::{Row, row_at};
use fvn_combine_leaves::Reading;
use fvn_combine_nodes::{State, Table};
use fvn_signature::Signature;
use fvn_terms::{NoMemory, OpId};
use std::alloc::Global;

// Whether no operator is noted as what heads class k.
fn is_headless(known: &Known, k: usize) -> bool {
    match known.heads.as_slice().get(k) {
        None => false,
        Some(head) => head.is_none(),
    }
}

// Whether this is so of a class of the list: nobody asks what the others hold.
fn has_headless(known: &Known, list: &[usize]) -> bool {
    for k in list {
        if is_headless(known, *k) {
            return true;
        }
    }
    false
}

// The class that is the whole list.
fn alone_in(list: &[usize]) -> Option<usize>
    ensures { IfSome result (λ l. list.now ≡ l ∷ []) }
{
    if list.len() == 1 { Some(list[0]) } else { None }
}

// The one class of the list that may have a single summand which is among those of all.
fn only_holder(
    sig: &Signature,
    table: &Table,
    state: &State,
    known: &Known,
    addition: &Addition,
    k: usize,
    list: &[usize],
) -> Option<usize>
    requires closed { IsClosed sig.now table.now state.now }
    requires sums { HasSums sig.now table.now }
    requires heads { TellHeads sig.now table.now state.now known.now.sorted known.now.heads.items }
    requires addition { IsAddition sig.now table.now state.now addition.now }
    requires within { k < length table.now.nodes }
    requires list { All (λ l. l < length table.now.nodes) list.now }
    requires among { IsAmong sig.now table.now state.now addition.now.operator k list.now }
    ensures within { IfSome result (λ l. l < length table.now.nodes) }
    ensures holds { IfSome result
        (HoldsSummands sig.now table.now state.now known.now.sorted addition.now.operator k) }
{
    if !is_summand(sig, table, state, known, addition, k) {
        return None;
    }
    match candidate(sig, table, state, known, addition, &[], k, list) {
        None => None,
        Some(l) => {
            if !is_only(sig, table, state, known, addition, &[], k, l, list) {
                return None;
            }
            Some(l)
        }
    }
}

// The class of the list that holds all summands of the class of node k, which are among those of all, where that is known.
fn whole_of(
    sig: &Signature,
    table: &Table,
    state: &State,
    known: &Known,
    addition: &Addition,
    k: usize,
    list: &[usize],
) -> Option<usize>
    requires closed { IsClosed sig.now table.now state.now }
    requires sums { HasSums sig.now table.now }
    requires heads { TellHeads sig.now table.now state.now known.now.sorted known.now.heads.items }
    requires addition { IsAddition sig.now table.now state.now addition.now }
    requires within { k < length table.now.nodes }
    requires list { All (λ l. l < length table.now.nodes) list.now }
    requires among { IsAmong sig.now table.now state.now addition.now.operator k list.now }
    ensures within { IfSome result (λ l. l < length table.now.nodes) }
    ensures holds { IfSome result
        (HoldsSummands sig.now table.now state.now known.now.sorted addition.now.operator k) }
{
    match alone_in(list) {
        Some(l) => Some(l),
        None => only_holder(sig, table, state, known, addition, k, list),
    }
}

// Notes the classes of the second list that hold all summands of classes of the first one: these are among those of it.
fn note_wholes(
    held: &mut Vec<(OpId, usize, usize)>,
    sig: &Signature,
    table: &Table,
    state: &State,
    known: &Known,
    addition: &Addition,
    first: &[usize],
    second: &[usize],
) -> Result<(), NoMemory>
    requires closed { IsClosed sig.now table.now state.now }
    requires sums { HasSums sig.now table.now }
    requires heads { TellHeads sig.now table.now state.now known.now.sorted known.now.heads.items }
    requires addition { IsAddition sig.now table.now state.now addition.now }
    requires held { All (IsHeld sig.now table.now state.now known.now.sorted) held.old.items }
    requires left { All (λ k. k < length table.now.nodes) first.now }
    requires right { All (λ k. k < length table.now.nodes) second.now }
    requires sides { AreSides sig.now table.now state.now addition.now.operator first.now
        second.now }
    ensures { OnOk result (All (IsHeld sig.now table.now state.now known.now.sorted)
        held.new.items) }
{
    if !has_headless(known, second) {
        return Ok(());
    }
    for k in first {
        let Some(l) = whole_of(sig, table, state, known, addition, *k, second) else {
            continue;
        };
        held.push((addition.operator, *k, l))?;
    }
    Ok(())
}

// Notes what both sides of a row say.
fn note_row(
    held: &mut Vec<(OpId, usize, usize)>,
    sig: &Signature,
    table: &Table,
    state: &State,
    known: &Known,
    addition: &Addition,
    row: &Row,
) -> Result<(), NoMemory>
    requires closed { IsClosed sig.now table.now state.now }
    requires sums { HasSums sig.now table.now }
    requires heads { TellHeads sig.now table.now state.now known.now.sorted known.now.heads.items }
    requires addition { IsAddition sig.now table.now state.now addition.now }
    requires held { All (IsHeld sig.now table.now state.now known.now.sorted) held.old.items }
    requires left { All (λ k. k < length table.now.nodes) row.now.left.items }
    requires right { All (λ k. k < length table.now.nodes) row.now.right.items }
    requires sides { AreSides sig.now table.now state.now addition.now.operator row.now.left.items
        row.now.right.items }
    ensures { OnOk result (All (IsHeld sig.now table.now state.now known.now.sorted)
        held.new.items) }
{
    let left = row.left.as_slice();
    let right = row.right.as_slice();
    note_wholes(held, sig, table, state, known, addition, left, right)?;
    note_wholes(held, sig, table, state, known, addition, right, left)?;
    Ok(())
}

// Notes what the row of node i says, where it is a sum.
fn note_at(
    held: &mut Vec<(OpId, usize, usize)>,
    alloc: Global,
    sig: &Signature,
    table: &Table,
    state: &State,
    known: &Known,
    addition: &Addition,
    i: usize,
) -> Result<(), NoMemory>
    requires closed { IsClosed sig.now table.now state.now }
    requires sums { HasSums sig.now table.now }
    requires heads { TellHeads sig.now table.now state.now known.now.sorted known.now.heads.items }
    requires addition { IsAddition sig.now table.now state.now addition.now }
    requires held { All (IsHeld sig.now table.now state.now known.now.sorted) held.old.items }
    requires within { i < length table.now.nodes }
    ensures { OnOk result (All (IsHeld sig.now table.now state.now known.now.sorted)
        held.new.items) }
{
    match row_at(alloc, sig, table, state, addition, i)? {
        None => Ok(()),
        Some(row) => {
            note_row(held, sig, table, state, known, addition, &row)?;
            Ok(())
        }
    }
}

// Notes what the sums by f say.
fn note_sums(
    held: &mut Vec<(OpId, usize, usize)>,
    alloc: Global,
    sig: &Signature,
    table: &Table,
    state: &State,
    known: &Known,
    f: OpId,
) -> Result<(), NoMemory>
    requires associative { IsAssociative (axioms sig.now f) }
    requires closed { IsClosed sig.now table.now state.now }
    requires sums { HasSums sig.now table.now }
    requires heads { TellHeads sig.now table.now state.now known.now.sorted known.now.heads.items }
    requires held { All (IsHeld sig.now table.now state.now known.now.sorted) held.old.items }
    ensures { OnOk result (All (IsHeld sig.now table.now state.now known.now.sorted)
        held.new.items) }
{
    let addition = addition_of(alloc, sig, table, state, known, f)?;
    for i in 0..table.nodes().len() {
        note_at(held, alloc, sig, table, state, known, &addition, i)?;
    }
    Ok(())
}

/// Classes that hold all summands of other classes, whatever values go with the state, as its sums say: an operator, a class and
/// one that holds all its summands under this operator. Others may do so, too.
pub fn held_parts(
    alloc: Global,
    sig: &Signature,
    table: &Table,
    state: &State,
    reading: &Reading,
    known: &Known,
) -> Result<Vec<(OpId, usize, usize)>, NoMemory>
    requires closed { IsClosed sig.now table.now state.now }
    requires sums { HasSums sig.now table.now }
    requires reading { IsReading sig.now table.now (class_of state.now) reading.now }
    requires heads { TellHeads sig.now table.now state.now known.now.sorted known.now.heads.items }
    ensures { IfOk result (λ v.
        All (IsHeld sig.now table.now state.now known.now.sorted) v.items) }
{
    table.recall_well_made();
    let mut held = Vec::new(alloc);
    for sums in reading.sums.as_slice() {
        if !has_headless(known, sums.columns.as_slice()) {
            continue;
        }
        note_sums(&mut held, alloc, sig, table, state, known, sums.operator)?;
    }
    Ok(held)
}
