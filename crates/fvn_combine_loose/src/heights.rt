//! The heights of the classes in which a loose class stands.
ghost use Rattle.std.specs.Prelude.{◌≡◌, ◌<◌, length, All, IfOk, IfSome};
ghost use Rattle.fvn_combine_nodes.specs.States.{IsClosed};
ghost use Rattle.fvn_combine_inferring.specs.Rows.{IsHeld};
ghost use Rattle.fvn_combine_loose.specs.Loose.{IsLooseClass, AreHeights};
ghost use Rattle.fvn_combine_loose.specs.inner.Checks.{AreFine, IsLooseBy, AreFacts};
ghost use Rattle.fvn_combine_loose.specs.inner.NodeSorts.{HaveSorts};

use crate::checking::{fine_nodes, head_at, is_loose, kept_nodes};
use crate::drafting::draft_above;
use crate::guessing::{Ways, has_candidate, has_sum, heights_above, may_be_loose, ways_of};
use crate::sorts::node_sorts;
use crate::summing::{Facts, is_loose_by_sums};
use fvn_base::Seq;
use fvn_combine_nodes::{State, Table};
use fvn_signature::Signature;
use fvn_terms::{NoMemory, OpId};
use std::alloc::Global;

// The most nodes of a table whose loose classes are looked for: what that costs grows with their square.
const NODES: usize = 1000;

// The heights of the classes in which that of node z stands, where it is loose without sums.
fn heights_from(
    alloc: Global,
    sig: &Signature,
    table: &Table,
    state: &State,
    ways: &Ways,
    marks: &[bool],
    z: usize,
) -> Result<Option<Seq<usize>>, NoMemory>
    requires closed { IsClosed sig.now table.now state.now }
    requires fine { AreFine sig.now table.now state.now marks.now }
    requires bottom { z < length table.now.nodes }
    ensures { IfOk result (λ o. IfSome o (λ h. IsLooseBy sig.now table.now state.now z h)) }
{
    if !may_be_loose(state, ways, z) {
        return Ok(None);
    }
    let heights = heights_above(alloc, table, state, z)?;
    if is_loose(sig, table, state, marks, heights.as_slice(), z) {
        return Ok(Some(Seq::from_vec(heights)));
    }
    Ok(None)
}

// The heights of the classes in which that of node z stands, where it is loose by some sums.
fn heights_by_sums(
    alloc: Global,
    sig: &Signature,
    table: &Table,
    state: &State,
    facts: &Facts<'_>,
    z: usize,
) -> Result<Option<Seq<usize>>, NoMemory>
    requires closed { IsClosed sig.now table.now state.now }
    requires sorts { HaveSorts sig.now table.now.nodes facts.now.sorts.now }
    requires facts { AreFacts sig.now table.now state.now facts.now.sorted
        facts.now.fine.now facts.now.kept.now facts.now.held.now }
    requires within { z < length table.now.nodes }
    ensures { IfOk result (λ o. IfSome o (λ h.
        AreHeights sig.now table.now state.now facts.now.sorted h)) }
{
    if facts.held.is_empty() {
        return Ok(None);
    }
    if state.class_of(z) != z {
        return Ok(None);
    }
    if head_at(state, facts.heads, z).is_some() {
        return Ok(None);
    }
    let Some(draft) = draft_above(alloc, sig, table, state, facts, z)? else {
        return Ok(None);
    };
    if draft.bottom >= table.nodes().len() {
        return Ok(None);
    }
    if draft.heights.len() != table.nodes().len() {
        return Ok(None);
    }
    if is_loose_by_sums(sig, table, state, facts, &draft) {
        return Ok(Some(Seq::from_vec(draft.heights)));
    }
    Ok(None)
}

// The same in one of the two ways.
fn heights_at(
    alloc: Global,
    sig: &Signature,
    table: &Table,
    state: &State,
    ways: &Ways,
    facts: &Facts<'_>,
    z: usize,
) -> Result<Option<Seq<usize>>, NoMemory>
    requires closed { IsClosed sig.now table.now state.now }
    requires sorts { HaveSorts sig.now table.now.nodes facts.now.sorts.now }
    requires facts { AreFacts sig.now table.now state.now facts.now.sorted
        facts.now.fine.now facts.now.kept.now facts.now.held.now }
    requires within { z < length table.now.nodes }
    ensures { IfOk result (λ o. IfSome o (λ h.
        AreHeights sig.now table.now state.now facts.now.sorted h)) }
{
    let found = heights_from(alloc, sig, table, state, ways, facts.fine, z)?;
    match found {
        Some(heights) => Ok(Some(heights)),
        None => heights_by_sums(alloc, sig, table, state, facts, z),
    }
}

// The heights above each loose class that is found.
fn all_heights(
    alloc: Global,
    sig: &Signature,
    table: &Table,
    state: &State,
    ways: &Ways,
    facts: &Facts<'_>,
) -> Result<Vec<Seq<usize>>, NoMemory>
    requires closed { IsClosed sig.now table.now state.now }
    requires sorts { HaveSorts sig.now table.now.nodes facts.now.sorts.now }
    requires facts { AreFacts sig.now table.now state.now facts.now.sorted
        facts.now.fine.now facts.now.kept.now facts.now.held.now }
    ensures { IfOk result (λ all.
        All (λ h. AreHeights sig.now table.now state.now facts.now.sorted h) all.items) }
{
    let mut all = Vec::new(alloc);
    for z in 0..table.nodes().len() {
        let found = heights_at(alloc, sig, table, state, ways, facts, z)?;
        match found {
            None => {}
            Some(heights) => {
                all.push(heights)?;
            }
        }
    }
    Ok(all)
}

// The same, from what is known of the nodes.
fn find_heights(
    alloc: Global,
    sig: &Signature,
    table: &Table,
    state: &State,
    sorted: bool,
    held: &[(OpId, usize, usize)],
    ways: &Ways,
) -> Result<Vec<Seq<usize>>, NoMemory>
    requires closed { IsClosed sig.now table.now state.now }
    requires held { All (IsHeld sig.now table.now state.now sorted) held.now }
    ensures { IfOk result (λ all.
        All (λ h. AreHeights sig.now table.now state.now sorted h) all.items) }
{
    let sorts = node_sorts(alloc, sig, table)?;
    let heads = ways.heads.as_slice();
    let fine = fine_nodes(alloc, sig, table, state, sorts.as_slice(), heads)?;
    let kept = kept_nodes(alloc, sig, table, state, sorts.as_slice())?;
    let facts = Facts {
        sorted,
        sorts: sorts.as_slice(),
        heads,
        fine: fine.as_slice(),
        kept: kept.as_slice(),
        held,
    };
    let all = all_heights(alloc, sig, table, state, ways, &facts)?;
    Ok(all)
}

/// For each loose class of a state the heights of the classes in which it stands.
///
/// Classes may be left out: which there are is left open. It is told what classes hold whatever values go with the state.
pub fn loose_heights(
    alloc: Global,
    sig: &Signature,
    table: &Table,
    state: &State,
    sorted: bool,
    held: &[(OpId, usize, usize)],
) -> Result<Vec<Seq<usize>>, NoMemory>
    requires closed { IsClosed sig.now table.now state.now }
    requires held { All (IsHeld sig.now table.now state.now sorted) held.now }
    ensures { IfOk result (λ all.
        All (λ h. AreHeights sig.now table.now state.now sorted h) all.items) }
{
    if table.nodes().len() > NODES {
        return Ok(Vec::new(alloc));
    }
    let ways = ways_of(alloc, sig, table, state)?;
    if !has_candidate(table, state, &ways) && !has_sum(sig, table) {
        return Ok(Vec::new(alloc));
    }
    let all = find_heights(alloc, sig, table, state, sorted, held, &ways)?;
    Ok(all)
}

// Nodes that name the loose classes that are found without sums.
fn find_classes(
    alloc: Global,
    sig: &Signature,
    table: &Table,
    state: &State,
    ways: &Ways,
) -> Result<Vec<usize>, NoMemory>
    requires closed { IsClosed sig.now table.now state.now }
    ensures { IfOk result (λ all. All (IsLooseClass sig.now table.now state.now) all.items) }
{
    let sorts = node_sorts(alloc, sig, table)?;
    let heads = ways.heads.as_slice();
    let marks = fine_nodes(alloc, sig, table, state, sorts.as_slice(), heads)?;
    let mut all = Vec::new(alloc);
    for z in 0..table.nodes().len() {
        let found = heights_from(alloc, sig, table, state, ways, marks.as_slice(), z)?;
        match found {
            None => {}
            Some(_) => {
                all.push(z)?;
            }
        }
    }
    Ok(all)
}

/// Nodes that name the loose classes of a state, by what is made in one way alone.
///
/// Classes may be left out: which there are is left open.
pub fn loose_classes(
    alloc: Global,
    sig: &Signature,
    table: &Table,
    state: &State,
) -> Result<Vec<usize>, NoMemory>
    requires closed { IsClosed sig.now table.now state.now }
    ensures { IfOk result (λ all. All (IsLooseClass sig.now table.now state.now) all.items) }
{
    if table.nodes().len() > NODES {
        return Ok(Vec::new(alloc));
    }
    let ways = ways_of(alloc, sig, table, state)?;
    if !has_candidate(table, state, &ways) {
        return Ok(Vec::new(alloc));
    }
    let all = find_classes(alloc, sig, table, state, &ways)?;
    Ok(all)
}
