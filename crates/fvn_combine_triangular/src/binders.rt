//! How each class is bound.
ghost use Rattle.std.specs.Prelude.{◌≡◌, ◌↔◌, ℕ, ◌<◌, length, IsTrue, IfOk, MatchOption};
ghost use Rattle.fvn_flat.specs.SolvedLists.{IsSimple};
ghost use Rattle.fvn_combine_nodes.specs.States.{IsClosed, class_of};
ghost use Rattle.fvn_combine_leaves.specs.Readings.{IsReading};
ghost use Rattle.fvn_combine_admissible.specs.Listed.{tag_in};
ghost use Rattle.fvn_combine_triangular.specs.inner.Planning.{
  IsBoundAt,
  IsSimpleNode,
  IsBinderOf,
  AreBinders,
};

use fvn_combine_admissible::is_bound;
use fvn_combine_leaves::Reading;
use fvn_combine_nodes::{Node, State, Table};
use fvn_signature::Signature;
use fvn_terms::{Axioms, NoMemory, OpId};
use std::alloc::Global;

/// How a class is bound.
#[derive(Clone, Copy, Drop)]
pub(crate) enum Binder {
    /// Not at all.
    Nothing,
    /// To the operator of a node over the classes of its arguments.
    Member(usize),
    /// To a sum of the operator at this place.
    Sum(usize),
}

// The first place of an operator to whose sum class k is bound.
fn sum_binder(
    sig: &Signature,
    table: &Table,
    state: &State,
    reading: &Reading,
    tags: &[Option<OpId>],
    k: usize,
) -> Option<usize>
    requires closed { IsClosed sig.now table.now state.now }
    requires reading { IsReading sig.now table.now (class_of state.now) reading.now }
    requires within { k < length table.now.nodes }
    ensures { MatchOption result
        ((i : ℕ) → IsBoundAt sig.now table.now (class_of state.now) (tag_in tags.now)
        reading.now.sums i k → ⊥)
        (λ i. IsBoundAt sig.now table.now (class_of state.now) (tag_in tags.now)
        reading.now.sums i k) }
{
    for i in 0..reading.sums.len() {
        if is_bound(
            sig,
            table,
            state,
            reading,
            tags,
            &reading.sums.as_slice()[i],
            k,
        ) {
            return Some(i);
        }
    }
    None
}

// Whether operators with these axioms are free or commutative, and make no sums.
fn has_simple_axioms(axioms: Axioms) -> bool
    ensures { IsTrue result ↔ IsSimple axioms }
{
    !axioms.is_sum()
}

// Whether a free or commutative operator heads the node.
fn is_simple(sig: &Signature, table: &Table, i: usize) -> bool
    requires { i < length table.now.nodes }
    ensures { IsTrue result ↔ IsSimpleNode sig.now table.now i }
{
    match table.node(i) {
        Node::Var(_) => false,
        Node::App(f, _) => has_simple_axioms(sig.axioms(*f)),
    }
}

// The first node of class k that a free or commutative operator heads. No node before the one that names a class is in
// it, and what names no class has none.
fn member_of(sig: &Signature, table: &Table, state: &State, k: usize) -> Option<usize>
    requires closed { IsClosed sig.now table.now state.now }
    requires within { k < length table.now.nodes }
    ensures { MatchOption result
        ((i : ℕ) → i < length table.now.nodes → class_of state.now i ≡ k
        → IsSimpleNode sig.now table.now i → ⊥)
        (λ i. (i < length table.now.nodes) × (class_of state.now i ≡ k)
        × IsSimpleNode sig.now table.now i) }
{
    if state.class_of(k) != k {
        return None;
    }
    for i in k..table.nodes().len() {
        if state.class_of(i) != k {
            continue;
        }
        if is_simple(sig, table, i) {
            return Some(i);
        }
    }
    None
}

// How class k is bound.
fn binder_of(
    sig: &Signature,
    table: &Table,
    state: &State,
    reading: &Reading,
    tags: &[Option<OpId>],
    k: usize,
) -> Binder
    requires closed { IsClosed sig.now table.now state.now }
    requires reading { IsReading sig.now table.now (class_of state.now) reading.now }
    requires within { k < length table.now.nodes }
    ensures { IsBinderOf sig.now table.now (class_of state.now) (tag_in tags.now)
        reading.now.sums k result }
{
    match sum_binder(sig, table, state, reading, tags, k) {
        Some(i) => Binder::Sum(i),
        None => match member_of(sig, table, state, k) {
            Some(i) => Binder::Member(i),
            None => Binder::Nothing,
        },
    }
}

// How each class is bound, at the node that names it.
pub(crate) fn binders_of(
    alloc: Global,
    sig: &Signature,
    table: &Table,
    state: &State,
    reading: &Reading,
    tags: &[Option<OpId>],
) -> Result<Vec<Binder>, NoMemory>
    requires closed { IsClosed sig.now table.now state.now }
    requires reading { IsReading sig.now table.now (class_of state.now) reading.now }
    ensures { IfOk result (λ v. AreBinders sig.now table.now (class_of state.now) (tag_in tags.now)
        reading.now.sums v.items) }
{
    let mut binders = Vec::with_capacity(alloc, table.nodes().len())?;
    for k in 0..table.nodes().len() {
        binders.push(binder_of(sig, table, state, reading, tags, k))?;
    }
    Ok(binders)
}
