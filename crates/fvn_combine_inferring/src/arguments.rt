//! Arguments of operators that are no sums: they have fewer symbols.
ghost use Rattle.std.specs.Prelude.{◌<◌, length, All, OnOk};
ghost use Rattle.fvn_combine_nodes.specs.States.{IsClosed};
ghost use Rattle.fvn_combine_inferring.specs.inner.Sizes.{AreInside, HasFewer};

use crate::sizes::{Inside, note_pair};
use fvn_combine_nodes::{Node, State, Table};
use fvn_signature::Signature;
use fvn_terms::NoMemory;

// Notes nodes that have fewer symbols than node i.
fn note_each(
    list: &mut Vec<Inside>,
    sig: &Signature,
    table: &Table,
    state: &State,
    sorted: bool,
    i: usize,
    ks: &[usize],
) -> Result<(), NoMemory>
    requires closed { IsClosed sig.now table.now state.now }
    requires fewer { All (HasFewer sig.now table.now state.now sorted i) ks.now }
    requires list { AreInside sig.now table.now state.now sorted list.old.items }
    ensures { OnOk result (AreInside sig.now table.now state.now sorted list.new.items) }
{
    for k in ks {
        let pair = Inside {
            small: *k,
            large: i,
            proper: true,
        };
        note_pair(list, sig, table, state, sorted, pair)?;
    }
    Ok(())
}

// Notes the arguments of node i, where an operator heads it that makes no sums.
pub(crate) fn note_arguments(
    list: &mut Vec<Inside>,
    sig: &Signature,
    table: &Table,
    state: &State,
    sorted: bool,
    i: usize,
) -> Result<(), NoMemory>
    requires closed { IsClosed sig.now table.now state.now }
    requires within { i < length table.now.nodes }
    requires list { AreInside sig.now table.now state.now sorted list.old.items }
    ensures { OnOk result (AreInside sig.now table.now state.now sorted list.new.items) }
{
    table.recall_well_made();
    match table.node(i) {
        Node::Var(_) => Ok(()),
        Node::App(g, ks) => {
            if sig.axioms(*g).is_sum() {
                return Ok(());
            }
            note_each(list, sig, table, state, sorted, i, ks.as_slice())
        }
    }
}
