//! The bounds that sorts put on the columns of a sum operator.
ghost use Rattle.std.specs.Prelude.{◌≡◌, ◌↔◌, ◌<◌, length, IsTrue, IfOk};
ghost use Rattle.fvn_terms.specs.Signature.{axioms};
ghost use Rattle.fvn_terms.specs.Equality.{IsAssociative};
ghost use Rattle.fvn_combine_nodes.specs.States.{IsClosed, class_of};
ghost use Rattle.fvn_combine_leaves.specs.Readings.{AreSums};
ghost use Rattle.fvn_combine_complete.specs.Neutral.{IsNeutral};
ghost use Rattle.fvn_combine_bounds.specs.Narrow.{IsNarrow, IsNeverIdentity};
ghost use Rattle.fvn_combine_bounds.specs.Bounding.{AreBounds, AreColumnsBelow};
ghost use Rattle.fvn_combine_bounds.specs.inner.Nodes.{IsNarrowNode, IsOtherNode, IsNarrowColumn, IsCappedColumn, IsOtherColumn};

use fvn_acunify::ColumnBounds;
use fvn_base::Seq;
use fvn_combine_leaves::Sums;
use fvn_combine_nodes::{Node, State, Table};
use fvn_signature::Signature;
use fvn_sort_bounds::{admits_identity, admits_sum};
use fvn_terms::{NoMemory, OpId};
use std::alloc::Global;

// Whether node i is in class k.
fn is_in(state: &State, i: usize, k: usize) -> bool
    requires { i < length state.now.names }
    ensures { IsTrue result ↔ (class_of state.now i ≡ k) }
{
    state.class_of(i) == k
}

// Whether node i is a variable in class k, of a sort that admits no sum.
fn is_narrow_node(
    sig: &Signature,
    table: &Table,
    state: &State,
    f: OpId,
    k: usize,
    i: usize,
) -> bool
    requires associative { IsAssociative (axioms sig.now f) }
    requires closed { IsClosed sig.now table.now state.now }
    requires within { i < length table.now.nodes }
    ensures { IsTrue result ↔ IsNarrowNode sig.now table.now (class_of state.now) f k i }
{
    if !is_in(state, i, k) {
        return false;
    }
    match table.node(i) {
        Node::App(_, _) => false,
        Node::Var(x) => !admits_sum(sig, f, x.sort),
    }
}

/// Whether some variable in class k is so: it has a sort that admits no sum by the operator.
pub fn is_narrow(sig: &Signature, table: &Table, state: &State, f: OpId, k: usize) -> bool
    requires associative { IsAssociative (axioms sig.now f) }
    requires closed { IsClosed sig.now table.now state.now }
    ensures { IsTrue result ↔ IsNarrow sig.now table.now (class_of state.now) f k }
{
    for i in 0..table.nodes().len() {
        if is_narrow_node(sig, table, state, f, k, i) {
            return true;
        }
    }
    false
}

// Whether node i is a variable in class k, of a sort that does not admit the identity.
fn is_other_node(sig: &Signature, table: &Table, state: &State, f: OpId, k: usize, i: usize) -> bool
    requires closed { IsClosed sig.now table.now state.now }
    requires within { i < length table.now.nodes }
    ensures { IsTrue result ↔ IsOtherNode sig.now table.now (class_of state.now) f k i }
{
    if !is_in(state, i, k) {
        return false;
    }
    match table.node(i) {
        Node::App(_, _) => false,
        Node::Var(x) => !admits_identity(sig, f, x.sort),
    }
}

/// Whether some variable in class k is so: it has a sort that does not admit the identity of the operator.
pub fn is_never_identity(sig: &Signature, table: &Table, state: &State, f: OpId, k: usize) -> bool
    requires { IsClosed sig.now table.now state.now }
    ensures { IsTrue result ↔ IsNeverIdentity sig.now table.now (class_of state.now) f k }
{
    for i in 0..table.nodes().len() {
        if is_other_node(sig, table, state, f, k, i) {
            return true;
        }
    }
    false
}

// Whether column j is used, and its class is narrow.
fn is_narrow_at(sig: &Signature, table: &Table, state: &State, sums: &Sums, j: usize) -> bool
    requires associative { IsAssociative (axioms sig.now sums.now.operator) }
    requires closed { IsClosed sig.now table.now state.now }
    requires sums { AreSums sig.now table.now (class_of state.now) sums.now }
    requires within { j < length sums.now.columns }
    ensures { IsTrue result ↔ IsNarrowColumn sig.now table.now (class_of state.now) sums.now j }
{
    if !sums.used.as_slice()[j] {
        return false;
    }
    is_narrow(sig, table, state, sums.operator, sums.columns.as_slice()[j])
}

// The columns that are so.
fn narrow_columns(
    alloc: Global,
    sig: &Signature,
    table: &Table,
    state: &State,
    sums: &Sums,
) -> Result<Vec<usize>, NoMemory>
    requires associative { IsAssociative (axioms sig.now sums.now.operator) }
    requires closed { IsClosed sig.now table.now state.now }
    requires sums { AreSums sig.now table.now (class_of state.now) sums.now }
    ensures { IfOk result (λ v.
        AreColumnsBelow (IsNarrowColumn sig.now table.now (class_of state.now) sums.now)
        (length sums.now.columns) v.items) }
{
    let mut list = Vec::new(alloc);
    for j in 0..sums.columns.len() {
        if !is_narrow_at(sig, table, state, sums, j) {
            continue;
        }
        list.push(j)?;
    }
    Ok(list)
}

// The same where the operator is not neutral, and else none.
fn capped_columns(
    alloc: Global,
    sig: &Signature,
    table: &Table,
    state: &State,
    sums: &Sums,
    neutral: bool,
) -> Result<Vec<usize>, NoMemory>
    requires associative { IsAssociative (axioms sig.now sums.now.operator) }
    requires closed { IsClosed sig.now table.now state.now }
    requires sums { AreSums sig.now table.now (class_of state.now) sums.now }
    requires neutral { IsTrue neutral ↔ IsNeutral sig.now sums.now.operator }
    ensures { IfOk result (λ v.
        AreColumnsBelow (IsCappedColumn sig.now table.now (class_of state.now) sums.now)
        (length sums.now.columns) v.items) }
{
    if neutral {
        return Ok(Vec::new(alloc));
    }
    let list = narrow_columns(alloc, sig, table, state, sums)?;
    Ok(list)
}

// Whether column j is used, and its class is never the identity.
fn is_other_at(sig: &Signature, table: &Table, state: &State, sums: &Sums, j: usize) -> bool
    requires closed { IsClosed sig.now table.now state.now }
    requires sums { AreSums sig.now table.now (class_of state.now) sums.now }
    requires within { j < length sums.now.columns }
    ensures { IsTrue result ↔ IsOtherColumn sig.now table.now (class_of state.now) sums.now j }
{
    if !sums.used.as_slice()[j] {
        return false;
    }
    is_never_identity(sig, table, state, sums.operator, sums.columns.as_slice()[j])
}

// The columns that are so.
fn other_columns(
    alloc: Global,
    sig: &Signature,
    table: &Table,
    state: &State,
    sums: &Sums,
) -> Result<Vec<usize>, NoMemory>
    requires closed { IsClosed sig.now table.now state.now }
    requires sums { AreSums sig.now table.now (class_of state.now) sums.now }
    ensures { IfOk result (λ v.
        AreColumnsBelow (IsOtherColumn sig.now table.now (class_of state.now) sums.now)
        (length sums.now.columns) v.items) }
{
    let mut list = Vec::new(alloc);
    for j in 0..sums.columns.len() {
        if !is_other_at(sig, table, state, sums, j) {
            continue;
        }
        list.push(j)?;
    }
    Ok(list)
}

/// The columns whose classes are narrow, where the operator is not neutral, and those whose classes are never the
/// identity.
///
/// Each used column costs a walk through the nodes, and each variable in its class one comparison for each declared rank.
pub fn bounds_of(
    alloc: Global,
    sig: &Signature,
    table: &Table,
    state: &State,
    sums: &Sums,
    neutral: bool,
) -> Result<ColumnBounds, NoMemory>
    requires associative { IsAssociative (axioms sig.now sums.now.operator) }
    requires closed { IsClosed sig.now table.now state.now }
    requires sums { AreSums sig.now table.now (class_of state.now) sums.now }
    requires neutral { IsTrue neutral ↔ IsNeutral sig.now sums.now.operator }
    ensures { IfOk result (AreBounds sig.now table.now (class_of state.now) sums.now) }
{
    let most = capped_columns(alloc, sig, table, state, sums, neutral)?;
    let least = other_columns(alloc, sig, table, state, sums)?;
    Ok(ColumnBounds {
        at_most_one: Seq::from_vec(most),
        at_least_one: Seq::from_vec(least),
    })
}
