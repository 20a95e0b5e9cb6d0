//! Whether numbers leave no class an alias.
ghost use Rattle.std.specs.Prelude.{◌≡◌, ◌↔◌, length, IfOk, IsTrue};
ghost use Rattle.fvn_combine_nodes.specs.States.{IsClosed, class_of};
ghost use Rattle.fvn_combine_leaves.specs.Readings.{IsReading};
ghost use Rattle.fvn_combine_admissible.specs.Listed.{tag_in};
ghost use Rattle.fvn_combine_leaves.specs.Bases.{AreBases};
ghost use Rattle.fvn_combine_candidates.specs.Turning.{LeaveNoAlias};

use fvn_base::Seq;
use fvn_combine_admissible::has_no_alias;
use fvn_combine_leaves::Reading;
use fvn_combine_nodes::{State, Table};
use fvn_lindio::Solution;
use fvn_signature::Signature;
use fvn_terms::{NoMemory, OpId};
use std::alloc::Global;

/// Whether the solutions that these numbers take, one for each sum operator, make no shared class a sum
/// of a constant alone.
pub fn leave_no_alias(
    alloc: Global,
    sig: &Signature,
    table: &Table,
    state: &State,
    reading: &Reading,
    bases: &[Seq<Solution>],
    tags: &[Option<OpId>],
    numbers: &[u128],
) -> Result<bool, NoMemory>
    requires closed { IsClosed sig.now table.now state.now }
    requires reading { IsReading sig.now table.now (class_of state.now) reading.now }
    requires bases { AreBases reading.now.sums bases.now }
    requires numbered { length numbers.now ≡ length reading.now.sums }
    ensures { IfOk result (λ b. IsTrue b
        ↔ LeaveNoAlias sig.now table.now (class_of state.now) (tag_in tags.now)
        reading.now.sums bases.now numbers.now) }
{
    let sums = reading.sums.as_slice();
    for i in 0..sums.len() {
        let basis = bases[i].as_slice();
        let number = numbers[i];
        if !has_no_alias(
            alloc, sig, table, state, reading, tags, &sums[i], basis, number,
        )? {
            return Ok(false);
        }
    }
    Ok(true)
}
