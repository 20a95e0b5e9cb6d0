//! Classes that have one way alone to give sorts to what they are sums of.
ghost use Rattle.std.specs.Prelude.{◌<◌, length};
ghost use Rattle.fvn_combine_nodes.specs.States.{IsClosed};

use fvn_combine_nodes::{Node, State, Table};
use fvn_signature::Signature;
use fvn_terms::{OpId, SortId};

// Whether the sort has the constant e, and each sum by f of two of its terms: then all that a term of it is a sum of may be of
// the sort itself.
fn is_whole_sort(sig: &Signature, f: OpId, e: OpId, s: SortId) -> bool {
    let least = sig.result(e, &[]);
    if !sig.leq(least, s) {
        return false;
    }
    let sum = sig.result(f, &[s, s]);
    sig.leq(sum, s)
}

// Whether node i is no variable of class k, or one of such a sort.
fn is_whole_node(
    sig: &Signature,
    table: &Table,
    state: &State,
    f: OpId,
    e: OpId,
    k: usize,
    i: usize,
) -> bool
    requires closed { IsClosed sig.now table.now state.now }
    requires within { i < length table.now.nodes }
{
    if state.class_of(i) != k {
        return true;
    }
    match table.node(i) {
        Node::App(_, _) => true,
        Node::Var(x) => is_whole_sort(sig, f, e, x.sort),
    }
}

/// Whether all variables of class k are of such sorts.
pub(crate) fn is_whole(
    sig: &Signature,
    table: &Table,
    state: &State,
    f: OpId,
    e: OpId,
    k: usize,
) -> bool
    requires { IsClosed sig.now table.now state.now }
{
    for i in 0..table.nodes().len() {
        if !is_whole_node(sig, table, state, f, e, k, i) {
            return false;
        }
    }
    true
}
