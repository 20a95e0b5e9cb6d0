//! Which operators use a class, and which classes are shared.
ghost use Rattle.std.specs.Prelude.{◌↔◌, ◌<◌, length, Contains, IsTrue};
ghost use Rattle.fvn_combine_nodes.specs.States.{IsClosed, class_of};
ghost use Rattle.fvn_combine_leaves.specs.Leaves.{IsShared, Uses};
ghost use Rattle.fvn_combine_leaves.specs.Readings.{IsReading};

use fvn_combine_leaves::{Reading, Sums, is_shared, is_user};
use fvn_combine_nodes::{State, Table};
use fvn_signature::Signature;

/// Whether the operator uses class k.
pub fn uses(
    sig: &Signature,
    table: &Table,
    state: &State,
    reading: &Reading,
    sums: &Sums,
    k: usize,
) -> bool
    requires closed { IsClosed sig.now table.now state.now }
    requires reading { IsReading sig.now table.now (class_of state.now) reading.now }
    requires listed { Contains reading.now.sums sums.now }
    ensures { IsTrue result ↔ Uses sig.now table.now (class_of state.now) sums.now.operator k }
{
    let _sig = sig;
    let _state = state;
    let _reading = reading;
    table.recall_well_made();
    is_user(sums, k)
}

/// Whether class k is shared.
pub fn is_shared_class(
    sig: &Signature,
    table: &Table,
    state: &State,
    reading: &Reading,
    k: usize,
) -> bool
    requires closed { IsClosed sig.now table.now state.now }
    requires reading { IsReading sig.now table.now (class_of state.now) reading.now }
    requires within { k < length table.now.nodes }
    ensures { IsTrue result ↔ IsShared sig.now table.now (class_of state.now) k }
{
    let _sig = sig;
    let _state = state;
    table.recall_well_made();
    let n = table.nodes().len();
    is_shared(reading, n, k)
}
