//! What is inferred of a state.
ghost use Rattle.std.specs.Prelude.{◌≡◌, ◌≢◌, ◌↔◌, ◌⊎◌, ◌<◌, length, All, IfOk, OnOk, IsTrue};
ghost use Rattle.fvn_terms.specs.Signature.{axioms};
ghost use Rattle.fvn_terms.specs.Equality.{IsAssociative};
ghost use Rattle.fvn_combine_bounds.specs.CombineChoicesTables.{HasSums};
ghost use Rattle.fvn_combine_leaves.specs.Readings.{IsReading};
ghost use Rattle.fvn_combine_nodes.specs.States.{IsClosed, class_of};
ghost use Rattle.fvn_combine_inferring.specs.Inferred.{TellHeads, AreEqualPairs, IsInferred};
ghost use Rattle.fvn_combine_inferring.specs.Rows.{AreSides};
ghost use Rattle.fvn_combine_inferring.specs.inner.Holding.{ArePairs};
ghost use Rattle.fvn_combine_inferring.specs.inner.Splits.{IsAddition};

use crate::clashing::clashing;
use crate::emptying::note_one_sided;
use crate::expressions::{Addition, addition_of};
use crate::heads::Known;
use crate::holding::{Pairs, is_held_within, note_row};
use crate::idle::idle_sums;
use crate::rows::{Row, row_at};
use crate::rules::rule;
use crate::sizes::{insides, is_circular};
use crate::standing_sums::stood_for;
use fvn_combine_leaves::Reading;
use fvn_combine_nodes::{State, Table};
use fvn_signature::Signature;
use fvn_terms::{NoMemory, OpId};
use std::alloc::Global;

/// What all values that go with a state have in common.
#[derive(Clone, Copy)]
pub enum Inferred {
    /// Nothing is said.
    Nothing,
    /// No values go with the state.
    Impossible,
    /// Two nodes have one value, and are not yet in one class.
    Together(usize, usize),
    /// Nothing is said; whether two nodes are in one class is worth asking first.
    Question(usize, usize),
}

impl Inferred {
    // Whether anything is said.
    pub(crate) fn is_something(self) -> bool
        ensures { IsTrue result ↔ (self ≢ Inferred.Nothing) }
    {
        match self {
            Inferred::Nothing => false,
            Inferred::Impossible => true,
            Inferred::Together(_, _) => true,
            Inferred::Question(_, _) => true,
        }
    }

    // Whether it is said of all values.
    pub(crate) fn is_fact(self) -> bool
        ensures { IsTrue result → (self ≢ Inferred.Nothing) }
    {
        match self {
            Inferred::Nothing => false,
            Inferred::Impossible => true,
            Inferred::Together(_, _) => true,
            Inferred::Question(_, _) => false,
        }
    }

    // Whether it is said that no values go with the state.
    pub(crate) fn is_impossible(self) -> bool
        ensures { IsTrue result ↔ (self ≡ Inferred.Impossible) }
    {
        match self {
            Inferred::Nothing => false,
            Inferred::Impossible => true,
            Inferred::Together(_, _) => false,
            Inferred::Question(_, _) => false,
        }
    }

    // This, where anything is said, else the other.
    pub(crate) fn or_told(self, other: Inferred) -> Inferred
        ensures { (result ≡ self) ⊎ (result ≡ other) }
    {
        if self.is_something() { self } else { other }
    }
}

// What a row says, beside what its single summands say of sizes, which is noted.
fn infer_row(
    alloc: Global,
    sig: &Signature,
    table: &Table,
    state: &State,
    known: &Known,
    addition: &Addition,
    pairs: &mut Pairs,
    row: &Row,
) -> Result<Inferred, NoMemory>
    requires closed { IsClosed sig.now table.now state.now }
    requires sums { HasSums sig.now table.now }
    requires heads { TellHeads sig.now table.now state.now known.now.sorted known.now.heads.items }
    requires addition { IsAddition sig.now table.now state.now addition.now }
    requires pairs { ArePairs sig.now table.now state.now known.now.sorted pairs.old }
    requires left { All (λ k. k < length table.now.nodes) row.now.left.items }
    requires right { All (λ k. k < length table.now.nodes) row.now.right.items }
    requires sides { AreSides sig.now table.now state.now addition.now.operator row.now.left.items
        row.now.right.items }
    ensures is { IfOk result (IsInferred sig.now table.now state.now known.now.sorted) }
    ensures pairs { OnOk result (ArePairs sig.now table.now state.now known.now.sorted pairs.new) }
{
    let left = row.left.as_slice();
    let right = row.right.as_slice();
    let insides = pairs.insides.as_slice();
    let told = rule(sig, table, state, known, addition, insides, left, right);
    if told.is_fact() {
        note_one_sided(
            pairs,
            sig,
            table,
            state,
            known.sorted,
            addition.operator,
            row,
        )?;
        return Ok(told);
    }
    note_row(pairs, sig, table, state, known, addition, row)?;
    if told.is_something() {
        return Ok(told);
    }
    let stood = stood_for(alloc, sig, table, state, known.sorted, addition, row)?;
    Ok(stood)
}

// What the row of node i says, where it is a sum.
fn infer_at(
    alloc: Global,
    sig: &Signature,
    table: &Table,
    state: &State,
    known: &Known,
    addition: &Addition,
    pairs: &mut Pairs,
    i: usize,
) -> Result<Inferred, NoMemory>
    requires closed { IsClosed sig.now table.now state.now }
    requires sums { HasSums sig.now table.now }
    requires heads { TellHeads sig.now table.now state.now known.now.sorted known.now.heads.items }
    requires addition { IsAddition sig.now table.now state.now addition.now }
    requires pairs { ArePairs sig.now table.now state.now known.now.sorted pairs.old }
    requires within { i < length table.now.nodes }
    ensures is { IfOk result (IsInferred sig.now table.now state.now known.now.sorted) }
    ensures pairs { OnOk result (ArePairs sig.now table.now state.now known.now.sorted pairs.new) }
{
    match row_at(alloc, sig, table, state, addition, i)? {
        None => Ok(Inferred::Nothing),
        Some(row) => {
            let told = infer_row(alloc, sig, table, state, known, addition, pairs, &row)?;
            Ok(told)
        }
    }
}

// What the sums by f say.
fn infer_of(
    alloc: Global,
    sig: &Signature,
    table: &Table,
    state: &State,
    known: &Known,
    pairs: &mut Pairs,
    f: OpId,
) -> Result<Inferred, NoMemory>
    requires associative { IsAssociative (axioms sig.now f) }
    requires closed { IsClosed sig.now table.now state.now }
    requires sums { HasSums sig.now table.now }
    requires heads { TellHeads sig.now table.now state.now known.now.sorted known.now.heads.items }
    requires pairs { ArePairs sig.now table.now state.now known.now.sorted pairs.old }
    ensures is { IfOk result (IsInferred sig.now table.now state.now known.now.sorted) }
    ensures pairs { OnOk result (ArePairs sig.now table.now state.now known.now.sorted pairs.new) }
{
    let idle = idle_sums(pairs, sig, table, state, known.sorted, f)?;
    if idle.is_fact() {
        return Ok(idle);
    }
    let addition = addition_of(alloc, sig, table, state, known, f)?;
    let mut asked = Inferred::Nothing;
    for i in 0..table.nodes().len() {
        let told = infer_at(alloc, sig, table, state, known, &addition, pairs, i)?;
        if told.is_fact() {
            return Ok(told);
        }
        asked = asked.or_told(told);
    }
    Ok(asked)
}

// What the sums of all operators say, each for itself.
fn infer_each(
    alloc: Global,
    sig: &Signature,
    table: &Table,
    state: &State,
    reading: &Reading,
    known: &Known,
    pairs: &mut Pairs,
) -> Result<Inferred, NoMemory>
    requires closed { IsClosed sig.now table.now state.now }
    requires sums { HasSums sig.now table.now }
    requires reading { IsReading sig.now table.now (class_of state.now) reading.now }
    requires heads { TellHeads sig.now table.now state.now known.now.sorted known.now.heads.items }
    requires pairs { ArePairs sig.now table.now state.now known.now.sorted pairs.old }
    ensures is { IfOk result (IsInferred sig.now table.now state.now known.now.sorted) }
    ensures pairs { OnOk result (ArePairs sig.now table.now state.now known.now.sorted pairs.new) }
{
    table.recall_well_made();
    let mut asked = Inferred::Nothing;
    for sums in reading.sums.as_slice() {
        let told = infer_of(alloc, sig, table, state, known, pairs, sums.operator)?;
        if told.is_fact() {
            return Ok(told);
        }
        asked = asked.or_told(told);
    }
    Ok(asked)
}

/// Something that holds of all values that go with the state, as its sums say, or a question; nothing may
/// always be said. Further pairs of nodes have one value.
pub fn infer(
    alloc: Global,
    sig: &Signature,
    table: &Table,
    state: &State,
    reading: &Reading,
    known: &Known,
) -> Result<(Inferred, Vec<(usize, usize)>), NoMemory>
    requires closed { IsClosed sig.now table.now state.now }
    requires sums { HasSums sig.now table.now }
    requires reading { IsReading sig.now table.now (class_of state.now) reading.now }
    requires heads { TellHeads sig.now table.now state.now known.now.sorted known.now.heads.items }
    ensures is { IfOk result (λ r. IsInferred sig.now table.now state.now known.now.sorted r.0) }
    ensures others { IfOk result (λ r.
        AreEqualPairs sig.now table.now state.now known.now.sorted r.1.items) }
{
    let list = insides(alloc, sig, table, state, reading, known)?;
    if is_circular(list.as_slice()) {
        return Ok((Inferred::Impossible, Vec::new(alloc)));
    }
    let held = Vec::new(alloc);
    let equal = Vec::new(alloc);
    let mut pairs = Pairs {
        insides: list,
        held,
        equal,
    };
    let told = infer_each(alloc, sig, table, state, reading, known, &mut pairs)?;
    if told.is_fact() {
        let others = Vec::from_slice(alloc, pairs.equal.as_slice())?;
        return Ok((told, others));
    }
    if is_held_within(&mut pairs.held, pairs.insides.as_slice())? {
        return Ok((Inferred::Impossible, Vec::new(alloc)));
    }
    let clash = clashing(sig, table, state, known);
    if clash.is_fact() {
        return Ok((clash, Vec::new(alloc)));
    }
    Ok((clash.or_told(told), Vec::new(alloc)))
}
