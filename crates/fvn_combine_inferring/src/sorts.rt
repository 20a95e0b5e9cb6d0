//! Classes whose values have few summands, or some, as the sorts of their variables have it.
ghost use Rattle.std.specs.Prelude.{◌≡◌, ◌<◌, length, IfOk, IsTrue};
ghost use Rattle.fvn_terms.specs.Signature.{axioms};
ghost use Rattle.fvn_terms.specs.Equality.{IsAssociative};
ghost use Rattle.fvn_combine_bounds.specs.Narrow.{IsNarrow, IsNeverIdentity};
ghost use Rattle.fvn_combine_nodes.specs.States.{IsClosed, class_of};
ghost use Rattle.fvn_combine_inferring.specs.inner.Bounds.{AreMarks, IsUnmarked, marked};

use fvn_combine_nodes::{Node, State, Table};
use fvn_signature::Signature;
use fvn_sort_bounds::{admits_identity, admits_sum};
use fvn_terms::{NoMemory, OpId};
use std::alloc::Global;

// Whether node i is a variable of a sort that admits no sum.
fn is_narrow_node(sig: &Signature, table: &Table, state: &State, f: OpId, i: usize) -> bool
    requires associative { IsAssociative (axioms sig.now f) }
    requires within { i < length table.now.nodes }
    ensures { IsTrue result → IsNarrow sig.now table.now (class_of state.now) f
        (class_of state.now i) }
{
    let _state = state;
    match table.node(i) {
        Node::App(_, _) => false,
        Node::Var(x) => !admits_sum(sig, f, x.sort),
    }
}

// Whether node i is a variable of a sort that does not admit the identity.
fn is_other_node(sig: &Signature, table: &Table, state: &State, f: OpId, i: usize) -> bool
    requires { i < length table.now.nodes }
    ensures { IsTrue result → IsNeverIdentity sig.now table.now (class_of state.now) f
        (class_of state.now i) }
{
    let _state = state;
    match table.node(i) {
        Node::App(_, _) => false,
        Node::Var(x) => !admits_identity(sig, f, x.sort),
    }
}

// Marks a place, where it is to be.
fn mark(marks: &mut Vec<bool>, k: usize, is: bool)
    requires { k < length marks.old.items }
    ensures { marks.new.items ≡ marked marks.old.items k is }
{
    if is {
        marks[k] = true;
    }
}

// No places marked.
fn unmarked(alloc: Global, count: usize) -> Result<Vec<bool>, NoMemory>
    ensures { IfOk result (λ v. IsUnmarked count v.items) }
{
    let mut marks = Vec::with_capacity(alloc, count)?;
    for _i in 0..count {
        marks.push(false)?;
    }
    Ok(marks)
}

// Marks of the classes with a variable whose sort admits no sum.
fn mark_narrow(sig: &Signature, table: &Table, state: &State, f: OpId, marks: &mut Vec<bool>)
    requires associative { IsAssociative (axioms sig.now f) }
    requires closed { IsClosed sig.now table.now state.now }
    requires marks { AreMarks (length table.now.nodes)
        (IsNarrow sig.now table.now (class_of state.now) f) marks.old.items }
    ensures { AreMarks (length table.now.nodes)
        (IsNarrow sig.now table.now (class_of state.now) f) marks.new.items }
{
    for i in 0..table.nodes().len() {
        let is = is_narrow_node(sig, table, state, f, i);
        mark(marks, state.class_of(i), is);
    }
}

// Marks of the classes with a variable whose sort does not admit the identity.
fn mark_other(sig: &Signature, table: &Table, state: &State, f: OpId, marks: &mut Vec<bool>)
    requires closed { IsClosed sig.now table.now state.now }
    requires marks { AreMarks (length table.now.nodes)
        (IsNeverIdentity sig.now table.now (class_of state.now) f) marks.old.items }
    ensures { AreMarks (length table.now.nodes)
        (IsNeverIdentity sig.now table.now (class_of state.now) f) marks.new.items }
{
    for i in 0..table.nodes().len() {
        let is = is_other_node(sig, table, state, f, i);
        mark(marks, state.class_of(i), is);
    }
}

// Where sorts are heeded, marks of the narrow classes.
pub(crate) fn narrow_marks(
    alloc: Global,
    sig: &Signature,
    table: &Table,
    state: &State,
    f: OpId,
    sorted: bool,
) -> Result<Vec<bool>, NoMemory>
    requires associative { IsAssociative (axioms sig.now f) }
    requires closed { IsClosed sig.now table.now state.now }
    ensures { IfOk result (λ v. AreMarks (length table.now.nodes)
        (IsNarrow sig.now table.now (class_of state.now) f) v.items) }
{
    let mut marks = unmarked(alloc, table.nodes().len())?;
    if !sorted {
        return Ok(marks);
    }
    mark_narrow(sig, table, state, f, &mut marks);
    Ok(marks)
}

// Where sorts are heeded, marks of the classes that are never the identity.
pub(crate) fn other_marks(
    alloc: Global,
    sig: &Signature,
    table: &Table,
    state: &State,
    f: OpId,
    sorted: bool,
) -> Result<Vec<bool>, NoMemory>
    requires { IsClosed sig.now table.now state.now }
    ensures { IfOk result (λ v. AreMarks (length table.now.nodes)
        (IsNeverIdentity sig.now table.now (class_of state.now) f) v.items) }
{
    let mut marks = unmarked(alloc, table.nodes().len())?;
    if !sorted {
        return Ok(marks);
    }
    mark_other(sig, table, state, f, &mut marks);
    Ok(marks)
}
