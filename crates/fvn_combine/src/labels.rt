//! Operators that are noted of classes: those that are known to head their values, and labels.
//!
//! A class with a member of an operator, which no other operator that uses it can make a sum, is taken as a sum by that
//! one wherever it has room for another summand: its value may be one summand, but then some choice that takes it as a sum
//! is more general. So it is never asked for as a constant.
ghost use Rattle.std.specs.Prelude.{◌≡◌, ◌<◌, length, IfOk, IfSome};
ghost use Rattle.fvn_combine_nodes.specs.States.{IsClosed, class_of};
ghost use Rattle.fvn_combine_leaves.specs.Bases.{AreBases, HaveAlive};
ghost use Rattle.fvn_combine_leaves.specs.Leaves.{IsNearLeaf};
ghost use Rattle.fvn_combine_leaves.specs.Readings.{IsReading};
ghost use Rattle.fvn_combine_inferring.specs.Inferred.{TellHeads, TellLabels};
ghost use Rattle.fvn_combine.specs.inner.Labels.{IsCandidate, IsHeadOrCandidate, AreCandidates};

use crate::task::Task;
use fvn_base::Seq;
use fvn_combine_drawing::{is_neutral, tables_have_sums};
use fvn_combine_inferring::{Known, label_at};
use fvn_combine_leaves::Reading;
use fvn_combine_nodes::State;
use fvn_combine_questions::sieve_labels;
use fvn_lindio::Solution;
use fvn_terms::{NoMemory, OpId};

// An operator that heads a member of class k, which no other one that uses it makes a sum, and whose identity leaves sorts
// alone.
fn neutral_label(
    task: &Task,
    state: &State,
    reading: &Reading,
    known: &Known,
    k: usize,
) -> Option<OpId>
    requires closed { IsClosed task.now.declarations task.now.table state.now }
    requires reading { IsReading task.now.declarations task.now.table (class_of state.now)
        reading.now }
    requires heads { TellHeads task.now.declarations task.now.table state.now known.now.sorted
        known.now.heads.items }
    requires sorted { known.now.sorted ≡ task.now.sorted }
    requires within { k < length task.now.table.nodes }
    requires named { class_of state.now k ≡ k }
    ensures { IfSome result (IsCandidate task.now state.now k) }
{
    task.recall();
    tables_have_sums();
    match label_at(task.sig, &task.table, state, reading, known, k) {
        None => None,
        Some(f) => {
            if is_neutral(task.sig, f) {
                Some(f)
            } else {
                None
            }
        }
    }
}

// The operator that is known to head the value of node k's class, or one that may be its label, where the node names it.
fn candidate_at(
    task: &Task,
    state: &State,
    reading: &Reading,
    known: &Known,
    k: usize,
) -> Option<OpId>
    requires closed { IsClosed task.now.declarations task.now.table state.now }
    requires reading { IsReading task.now.declarations task.now.table (class_of state.now)
        reading.now }
    requires heads { TellHeads task.now.declarations task.now.table state.now known.now.sorted
        known.now.heads.items }
    requires sorted { known.now.sorted ≡ task.now.sorted }
    requires within { k < length task.now.table.nodes }
    ensures { IfSome result
        (IsHeadOrCandidate task.now state.now known.now.heads.items k) }
{
    if state.class_of(k) != k {
        return None;
    }
    match known.heads.as_slice()[k] {
        Some(g) => Some(g),
        None => neutral_label(task, state, reading, known, k),
    }
}

// So it is for each node.
fn candidates_of(
    task: &Task,
    state: &State,
    reading: &Reading,
    known: &Known,
) -> Result<Vec<Option<OpId>>, NoMemory>
    requires closed { IsClosed task.now.declarations task.now.table state.now }
    requires reading { IsReading task.now.declarations task.now.table (class_of state.now)
        reading.now }
    requires heads { TellHeads task.now.declarations task.now.table state.now known.now.sorted
        known.now.heads.items }
    requires sorted { known.now.sorted ≡ task.now.sorted }
    ensures candidates { IfOk result
        (λ v. AreCandidates task.now state.now known.now.heads.items v.items) }
    ensures as_many { IfOk result (λ v. length v.items ≡ length task.now.table.nodes) }
{
    let mut candidates = Vec::new(task.alloc);
    for k in 0..task.table.nodes().len() {
        candidates.push(candidate_at(task, state, reading, known, k))?;
    }
    Ok(candidates)
}

/// The operators that are noted of the classes of a state that is nearly a leaf, where minimal solutions are known.
pub(crate) fn labels_of(
    task: &Task,
    state: &State,
    reading: &Reading,
    known: &Known,
    bases: &[Seq<Solution>],
) -> Result<Vec<Option<OpId>>, NoMemory>
    requires near { IsNearLeaf task.now.declarations task.now.table state.now }
    requires reading { IsReading task.now.declarations task.now.table (class_of state.now)
        reading.now }
    requires heads { TellHeads task.now.declarations task.now.table state.now known.now.sorted
        known.now.heads.items }
    requires sorted { known.now.sorted ≡ task.now.sorted }
    requires bases { AreBases reading.now.sums bases.now }
    requires alive { HaveAlive task.now.declarations task.now.table state.now reading.now.sums
        bases.now }
    ensures labels { IfOk result (λ v. TellLabels task.now.declarations task.now.table state.now
        task.now.sorted v.items) }
    ensures as_many { IfOk result (λ v. length v.items ≡ length task.now.table.nodes) }
{
    let mut labels = candidates_of(task, state, reading, known)?;
    sieve_labels(
        task.sig,
        &task.table,
        state,
        reading,
        known.heads.as_slice(),
        &mut labels,
        bases,
    );
    Ok(labels)
}
