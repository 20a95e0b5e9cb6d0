//! The bindings that a choice at a leaf makes.
ghost use Rattle.std.specs.Prelude.{◌≡◌, ◌<◌, ℕ, map, length, slice_get, slice_index_or, All, IfOk, OnOk, IfSome, IfNone};
ghost use Rattle.fvn_combine_nodes.specs.States.{IsClosed, class_of};
ghost use Rattle.fvn_combine_leaves.specs.Readings.{IsReading};
ghost use Rattle.fvn_combine_choices.specs.Choosing.{AreSystems, IsPossible, Falls};
ghost use Rattle.fvn_combine_admissible.specs.Listed.{systems_of, choice_of};
ghost use Rattle.fvn_combine_triangular.specs.Ready.{IsReady, AreListed, ArePlanned};
ghost use Rattle.fvn_combine_triangular.specs.inner.Planning.{
  AreKinded,
  AreApart,
  over_names,
  sum_at,
  bound_by,
  IsMakingSum,
  IsMaking,
  HasAdded,
  AreClassesBelow,
  AreVariablesBelow,
};

use crate::binders::{Binder, binders_of};
use crate::names::names_of;
use crate::order::in_order;
use crate::shares::{Share, all_shares};
use crate::terms::{members_of, names_over, sum_over};
use fvn_base::Seq;
use fvn_combine_leaves::Reading;
use fvn_combine_nodes::{Node, State, Table, node_partitions_are_partitions};
use fvn_flat::{Flat, Pairs, SolvedList};
use fvn_lindio::Solution;
use fvn_signature::Signature;
use fvn_terms::{NoMemory, OpId, Var};
use std::alloc::Global;

// The operator of a node over the names of the classes of its arguments.
fn member_term(
    alloc: Global,
    sig: &Signature,
    table: &Table,
    state: &State,
    names: &[Var],
    i: usize,
) -> Result<Flat, NoMemory>
    requires closed { IsClosed sig.now table.now state.now }
    requires kinded { AreKinded sig.now table.now (class_of state.now) names.now }
    requires within { i < length table.now.nodes }
    ensures exact { IfOk result (λ t. t ≡ over_names sig.now table.now (class_of state.now)
        names.now (slice_get table.now.nodes i)) }
{
    sig.recall_good();
    table.recall_well_made();
    match table.node(i) {
        Node::Var(x) => Ok(Flat::var(*x)),
        Node::App(f, ks) => {
            let args = names_over(alloc, state, names, ks.as_slice())?;
            let t = Flat::app(alloc, sig, *f, args)?;
            Ok(t)
        }
    }
}

// The sum of an operator for class k.
fn sum_term(
    alloc: Global,
    sig: &Signature,
    reading: &Reading,
    shares: &[Vec<Share>],
    i: usize,
    k: usize,
) -> Result<Flat, NoMemory>
    requires { IsMakingSum sig.now reading.now.sums (map (λ w. w.items) shares.now) i k }
    ensures { IfOk result (λ t. t ≡ sum_at sig.now reading.now.sums
        (map (λ w. w.items) shares.now) i k) }
{
    let sums = &reading.sums.as_slice()[i];
    let terms = members_of(alloc, sums.columns.as_slice(), shares[i].as_slice(), k)?;
    let t = sum_over(alloc, sig, sums.operator, terms)?;
    Ok(t)
}

// What class k is bound to, if it is bound.
fn class_term(
    alloc: Global,
    sig: &Signature,
    table: &Table,
    state: &State,
    reading: &Reading,
    names: &[Var],
    shares: &[Vec<Share>],
    binder: Binder,
    k: usize,
) -> Result<Option<Flat>, NoMemory>
    requires closed { IsClosed sig.now table.now state.now }
    requires kinded { AreKinded sig.now table.now (class_of state.now) names.now }
    requires making { IsMaking sig.now table.now (class_of state.now) names.now
        reading.now.sums (map (λ w. w.items) shares.now) binder k }
    ensures { IfOk result (λ o. o ≡ bound_by sig.now table.now (class_of state.now) names.now
        reading.now.sums (map (λ w. w.items) shares.now) binder k) }
{
    match binder {
        Binder::Nothing => Ok(None),
        Binder::Member(i) => {
            let t = member_term(alloc, sig, table, state, names, i)?;
            Ok(Some(t))
        }
        Binder::Sum(i) => {
            let t = sum_term(alloc, sig, reading, shares, i, k)?;
            Ok(Some(t))
        }
    }
}

// Adds the binding of a class, where it is bound.
fn add_class(bindings: &mut Vec<(Var, Flat)>, name: Var, term: Option<Flat>) -> Result<(), NoMemory>
    ensures { OnOk result (HasAdded bindings.old.items bindings.new.items name term) }
{
    match term {
        None => Ok(()),
        Some(t) => {
            bindings.push((name, t))?;
            Ok(())
        }
    }
}

// The bindings of the classes, from the first node that names one to the last.
fn class_bindings(
    alloc: Global,
    sig: &Signature,
    table: &Table,
    state: &State,
    reading: &Reading,
    names: &[Var],
    shares: &[Vec<Share>],
    binders: &[Binder],
) -> Result<Vec<(Var, Flat)>, NoMemory>
    requires closed { IsClosed sig.now table.now state.now }
    requires kinded { AreKinded sig.now table.now (class_of state.now) names.now }
    requires apart { AreApart names.now }
    requires binders { length binders.now ≡ length table.now.nodes }
    requires making { (k : ℕ) → k < length table.now.nodes → class_of state.now k ≡ k
        → IsMaking sig.now table.now (class_of state.now) names.now reading.now.sums
        (map (λ w. w.items) shares.now) (slice_index_or binders.now k Binder.Nothing) k }
    ensures { IfOk result (λ v. AreClassesBelow sig.now table.now (class_of state.now) names.now
        reading.now.sums (map (λ w. w.items) shares.now) binders.now
        (length table.now.nodes) v.items) }
{
    let mut bindings = Vec::with_capacity(alloc, table.nodes().len())?;
    for k in 0..table.nodes().len() {
        if state.class_of(k) != k {
            continue;
        }
        let term = class_term(
            alloc, sig, table, state, reading, names, shares, binders[k], k,
        )?;
        add_class(&mut bindings, names[k], term)?;
    }
    Ok(bindings)
}

// The bindings of the problem's variables to the names of their classes.
fn variable_bindings(
    alloc: Global,
    table: &Table,
    state: &State,
    names: &[Var],
) -> Result<Vec<(Var, Flat)>, NoMemory>
    requires whole { length state.now.names ≡ length table.now.nodes }
    requires named { All (λ k. k < length names.now) state.now.names }
    ensures { IfOk result (λ v. AreVariablesBelow table.now (class_of state.now) names.now
        (length table.now.nodes) v.items) }
{
    table.recall_well_made();
    // There is room for the bindings of the classes behind them.
    let mut bindings = Vec::with_capacity(alloc, table.nodes().len().saturating_mul(2))?;
    for i in 0..table.nodes().len() {
        match table.node(i) {
            Node::Var(x) => bindings.push((*x, Flat::var(names[state.class_of(i)])))?,
            Node::App(_, _) => {}
        }
    }
    Ok(bindings)
}

/// The bindings that the choice of these tags and numbers makes: of the problem's variables to the
/// names of their classes, and of the classes, in an order in which each comes before those that it
/// needs.
///
/// None where there is no such order: some class reaches itself.
pub fn bindings(
    alloc: Global,
    sig: &Signature,
    problem: &Pairs,
    table: &Table,
    state: &State,
    reading: &Reading,
    bases: &[Seq<Solution>],
    tags: &[Option<OpId>],
    numbers: &[u128],
    first: u32,
) -> Result<Option<SolvedList>, NoMemory>
    requires ready { IsReady sig.now problem.now first table.now state.now }
    requires reading { IsReading sig.now table.now (class_of state.now) reading.now }
    requires listed { AreListed table.now reading.now bases.now numbers.now }
    requires systems { AreSystems sig.now table.now (class_of state.now)
        (systems_of reading.now bases.now) }
    requires possible { IsPossible sig.now table.now (class_of state.now)
        (systems_of reading.now bases.now) (choice_of reading.now tags.now numbers.now) }
    ensures planned { IfOk result (λ o. IfSome o (λ list. ArePlanned sig.now problem.now first
        table.now state.now (systems_of reading.now bases.now)
        (choice_of reading.now tags.now numbers.now) list.bindings)) }
    ensures none { IfOk result (λ o. IfNone o ((rank : ℕ → ℕ) → Falls sig.now table.now
        (class_of state.now) (systems_of reading.now bases.now)
        (choice_of reading.now tags.now numbers.now) rank → ⊥)) }
{
    let _problem = problem;
    sig.recall_good();
    table.recall_well_made();
    node_partitions_are_partitions();
    let names = names_of(alloc, sig, table, first)?;
    let binders = binders_of(alloc, sig, table, state, reading, tags)?;
    let start = first + table.nodes().len() as u32;
    let shares = all_shares(
        alloc,
        sig,
        table,
        state,
        reading,
        tags,
        bases,
        numbers,
        names.as_slice(),
        start,
    )?;
    let classes = class_bindings(
        alloc,
        sig,
        table,
        state,
        reading,
        names.as_slice(),
        shares.as_slice(),
        binders.as_slice(),
    )?;
    match in_order(alloc, classes)? {
        None => Ok(None),
        Some(ordered) => {
            let mut ordered = ordered;
            let mut all = variable_bindings(alloc, table, state, names.as_slice())?;
            all.append(&mut ordered)?;
            Ok(Some(SolvedList {
                bindings: Seq::from_vec(all),
            }))
        }
    }
}
