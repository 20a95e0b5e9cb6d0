//! The loose classes of a state, by what holds of the summands of all values that go with it.
ghost use Rattle.std.specs.Prelude.{All, IfOk};
ghost use Rattle.fvn_combine_leaves.specs.Readings.{IsReading};
ghost use Rattle.fvn_combine_nodes.specs.States.{IsClosed, class_of};
ghost use Rattle.fvn_combine_inferring.specs.Inferred.{TellHeads};
ghost use Rattle.fvn_combine_loose.specs.Loose.{AreHeights};

use crate::task::Task;
use fvn_base::Seq;
use fvn_combine_drawing::tables_have_sums;
use fvn_combine_inferring::{Known, held_parts};
use fvn_combine_leaves::Reading;
use fvn_combine_loose::loose_heights;
use fvn_combine_nodes::State;
use fvn_terms::NoMemory;

// For each loose class of a state the heights of the classes in which it stands.
pub(crate) fn heights_of(
    task: &Task,
    state: &State,
    reading: &Reading,
    known: &Known,
) -> Result<Vec<Seq<usize>>, NoMemory>
    requires closed { IsClosed task.now.declarations task.now.table state.now }
    requires reading { IsReading task.now.declarations task.now.table (class_of state.now)
        reading.now }
    requires heads { TellHeads task.now.declarations task.now.table state.now known.now.sorted
        known.now.heads.items }
    ensures { IfOk result (λ all. All
        (AreHeights task.now.declarations task.now.table state.now known.now.sorted) all.items) }
{
    tables_have_sums();
    let held = held_parts(task.alloc, task.sig, &task.table, state, reading, known)?;
    let heights = loose_heights(
        task.alloc,
        task.sig,
        &task.table,
        state,
        known.sorted,
        held.as_slice(),
    )?;
    Ok(heights)
}
