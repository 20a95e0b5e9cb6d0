//! What is said of nodes whose classes have one value.
ghost use Rattle.std.specs.Prelude.{◌<◌, length, All};
ghost use Rattle.fvn_combine_nodes.specs.States.{IsClosed};
ghost use Rattle.fvn_combine_inferring.specs.Inferred.{HaveOneValue, IsInferred};

use crate::inferring::Inferred;
use fvn_combine_nodes::{State, Table};
use fvn_signature::Signature;

// What is said of two nodes whose classes have one value.
pub(crate) fn met(
    sig: &Signature,
    table: &Table,
    state: &State,
    sorted: bool,
    i: usize,
    j: usize,
) -> Inferred
    requires closed { IsClosed sig.now table.now state.now }
    requires left { i < length table.now.nodes }
    requires right { j < length table.now.nodes }
    requires equal { HaveOneValue sig.now table.now state.now sorted i j }
    ensures { IsInferred sig.now table.now state.now sorted result }
{
    let _sig = sig;
    let _table = table;
    let _sorted = sorted;
    if state.is_same(i, j) {
        return Inferred::Nothing;
    }
    if state.is_open(i, j) {
        return Inferred::Together(i, j);
    }
    Inferred::Impossible
}

// What is said of nodes whose classes all have the value of that of node n.
pub(crate) fn all_met(
    sig: &Signature,
    table: &Table,
    state: &State,
    sorted: bool,
    list: &[usize],
    n: usize,
) -> Inferred
    requires closed { IsClosed sig.now table.now state.now }
    requires within { All (λ k. k < length table.now.nodes) list.now }
    requires right { n < length table.now.nodes }
    requires equal { All (λ k. HaveOneValue sig.now table.now state.now sorted k n) list.now }
    ensures { IsInferred sig.now table.now state.now sorted result }
{
    for k in list {
        let told = met(sig, table, state, sorted, *k, n);
        if told.is_something() {
            return told;
        }
    }
    Inferred::Nothing
}
