//! Which nodes a loose class parts.
ghost use Rattle.std.specs.Prelude.{◌≡◌, ◌<◌, length, All, IsTrue, IfOk, OnOk};
ghost use Rattle.fvn_combine_nodes.specs.States.{IsClosed};
ghost use Rattle.fvn_combine_loose.specs.Loose.{AreHeights, AreParted, ArePartedOpen};
ghost use Rattle.fvn_combine_loose.specs.inner.Checks.{StandInOne};

use crate::checking::height_at;
use fvn_base::Seq;
use fvn_combine_nodes::{State, Table};
use fvn_signature::Signature;
use fvn_terms::NoMemory;
use std::alloc::Global;

// Whether one of the classes of two nodes has a height, and the other one has not.
fn stand_in_one(state: &State, heights: &[usize], i: usize, j: usize) -> bool
    requires left { i < length state.now.names }
    requires right { j < length state.now.names }
    ensures { IsTrue result → StandInOne state.now heights.now i j }
{
    let left = height_at(state, heights, i);
    let right = height_at(state, heights, j);
    if left == 0 {
        return right > 0;
    }
    right == 0
}

/// Whether a loose class stands in the class of one of the nodes, and not in that of the other.
pub fn are_parted(
    sig: &Signature,
    table: &Table,
    state: &State,
    sorted: bool,
    all: &[Seq<usize>],
    i: usize,
    j: usize,
) -> bool
    requires closed { IsClosed sig.now table.now state.now }
    requires heights { All (λ h. AreHeights sig.now table.now state.now sorted h) all.now }
    requires left { i < length table.now.nodes }
    requires right { j < length table.now.nodes }
    ensures { IsTrue result → AreParted sig.now table.now state.now sorted i j }
{
    let _sig = sig;
    let _table = table;
    let _sorted = sorted;
    for heights in all {
        if stand_in_one(state, heights.as_slice(), i, j) {
            return true;
        }
    }
    false
}

// Whether two nodes are parted, and it is open whether they are in one class.
fn are_parted_open(
    sig: &Signature,
    table: &Table,
    state: &State,
    sorted: bool,
    all: &[Seq<usize>],
    i: usize,
    j: usize,
) -> bool
    requires closed { IsClosed sig.now table.now state.now }
    requires heights { All (λ h. AreHeights sig.now table.now state.now sorted h) all.now }
    requires left { i < length table.now.nodes }
    requires right { j < length table.now.nodes }
    ensures { IsTrue result → ArePartedOpen sig.now table.now state.now sorted (i, j) }
{
    if !are_parted(sig, table, state, sorted, all, i, j) {
        return false;
    }
    state.is_open(i, j)
}

// Notes a node and an identity, where a loose class parts them and it is open whether they are in one class.
fn note_parted(
    pairs: &mut Vec<(usize, usize)>,
    sig: &Signature,
    table: &Table,
    state: &State,
    sorted: bool,
    all: &[Seq<usize>],
    pair: (usize, usize),
) -> Result<(), NoMemory>
    requires closed { IsClosed sig.now table.now state.now }
    requires heights { All (λ h. AreHeights sig.now table.now state.now sorted h) all.now }
    requires left { pair.0 < length table.now.nodes }
    requires right { pair.1 < length table.now.nodes }
    requires noted { All (ArePartedOpen sig.now table.now state.now sorted) pairs.old.items }
    ensures { OnOk result (All (ArePartedOpen sig.now table.now state.now sorted) pairs.new.items) }
{
    if are_parted_open(sig, table, state, sorted, all, pair.0, pair.1) {
        pairs.push((pair.0, pair.1))?;
        return Ok(());
    }
    Ok(())
}

// Notes each identity that a loose class parts from the class which node i names, where that is open.
fn note_identities(
    pairs: &mut Vec<(usize, usize)>,
    sig: &Signature,
    table: &Table,
    state: &State,
    sorted: bool,
    all: &[Seq<usize>],
    i: usize,
) -> Result<(), NoMemory>
    requires closed { IsClosed sig.now table.now state.now }
    requires heights { All (λ h. AreHeights sig.now table.now state.now sorted h) all.now }
    requires within { i < length table.now.nodes }
    requires noted { All (ArePartedOpen sig.now table.now state.now sorted) pairs.old.items }
    ensures { OnOk result (All (ArePartedOpen sig.now table.now state.now sorted) pairs.new.items) }
{
    table.recall_well_made();
    if state.class_of(i) != i {
        return Ok(());
    }
    for (_, u) in table.units() {
        note_parted(pairs, sig, table, state, sorted, all, (i, *u))?;
    }
    Ok(())
}

/// Classes and identities that loose classes part, of which it is open whether they are one: each class beside each identity.
pub fn open_identities(
    alloc: Global,
    sig: &Signature,
    table: &Table,
    state: &State,
    sorted: bool,
    all: &[Seq<usize>],
) -> Result<Vec<(usize, usize)>, NoMemory>
    requires closed { IsClosed sig.now table.now state.now }
    requires heights { All (λ h. AreHeights sig.now table.now state.now sorted h) all.now }
    ensures { IfOk result (λ pairs. All (ArePartedOpen sig.now table.now state.now sorted) pairs.items) }
{
    let mut pairs = Vec::new(alloc);
    if all.is_empty() {
        return Ok(pairs);
    }
    for i in 0..table.nodes().len() {
        note_identities(&mut pairs, sig, table, state, sorted, all, i)?;
    }
    Ok(pairs)
}
