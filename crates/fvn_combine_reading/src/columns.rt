//! The columns of a sum system.
ghost use Rattle.std.specs.Prelude.{◌≡◌, ◌<◌, ◌++◌, ◌↔◌, length, IfOk, OnOk, IsTrue};
ghost use Rattle.fvn_combine_nodes.specs.States.{class_of};
ghost use Rattle.fvn_combine_systems.specs.NodeSystems.{IsIdentityClass};
ghost use Rattle.fvn_combine_reading.specs.inner.Collecting.{classes_at, classes_among, AreOnce};

use crate::sums::addends;
use fvn_combine_nodes::{State, Table};
use fvn_terms::{NoMemory, OpId};
use std::alloc::Global;

// Adds the classes of a sum by f and of its arguments.
fn add_classes(
    classes: &mut Vec<usize>,
    table: &Table,
    state: &State,
    f: OpId,
    i: usize,
) -> Result<(), NoMemory>
    requires whole { length state.now.names ≡ length table.now.nodes }
    requires within { i < length table.now.nodes }
    ensures { OnOk result
        (classes.new.items ≡ classes.old.items ++ classes_at (class_of state.now) table.now f i) }
{
    match addends(table, f, i) {
        None => Ok(()),
        Some((a, b)) => {
            let added = [state.class_of(i), state.class_of(a), state.class_of(b)];
            classes.extend_from_slice(&added)?;
            Ok(())
        }
    }
}

// The classes of all sums by f and of their arguments, one sum after another.
fn classes_among(
    alloc: Global,
    table: &Table,
    state: &State,
    f: OpId,
) -> Result<Vec<usize>, NoMemory>
    requires whole { length state.now.names ≡ length table.now.nodes }
    ensures { IfOk result (λ v.
        v.items ≡ classes_among (class_of state.now) table.now f table.now.subterms) }
{
    table.recall_well_made();
    let mut classes = Vec::new(alloc);
    for i in table.subterms() {
        add_classes(&mut classes, table, state, f, *i)?;
    }
    Ok(classes)
}

// Whether k is the class of f's identity.
fn is_identity_class(table: &Table, state: &State, f: OpId, k: usize) -> bool
    requires whole { length state.now.names ≡ length table.now.nodes }
    ensures { IsTrue result ↔ IsIdentityClass table.now (class_of state.now) f k }
{
    table.recall_well_made();
    for (g, n) in table.units() {
        if *g != f {
            continue;
        }
        if state.class_of(*n) == k {
            return true;
        }
    }
    false
}

// Each class once, but for that of f's identity.
fn once(
    alloc: Global,
    table: &Table,
    state: &State,
    f: OpId,
    classes: &[usize],
) -> Result<Vec<usize>, NoMemory>
    requires whole { length state.now.names ≡ length table.now.nodes }
    ensures { IfOk result (λ v. AreOnce (IsIdentityClass table.now
        (class_of state.now) f) classes.now v.items) }
{
    let mut once = Vec::new(alloc);
    for k in classes {
        if once.as_slice().contains(k) {
            continue;
        }
        if is_identity_class(table, state, f, *k) {
            continue;
        }
        once.push(*k)?;
    }
    Ok(once)
}

// The classes that sums by f and their arguments have, each once, but for that of f's identity.
pub(crate) fn columns_of(
    alloc: Global,
    table: &Table,
    state: &State,
    f: OpId,
) -> Result<Vec<usize>, NoMemory>
    requires whole { length state.now.names ≡ length table.now.nodes }
    ensures { IfOk result (λ v. AreOnce (IsIdentityClass table.now (class_of state.now) f)
        (classes_among (class_of state.now) table.now f table.now.subterms) v.items) }
{
    let classes = classes_among(alloc, table, state, f)?;
    let columns = once(alloc, table, state, f, classes.as_slice())?;
    Ok(columns)
}
