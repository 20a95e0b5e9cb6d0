//! Classes of rows with an empty side: each has the value of the identity.
ghost use Rattle.std.specs.Prelude.{◌<◌, [], length, All, OnOk};
ghost use Rattle.fvn_combine_bounds.specs.CombineChoicesTables.{HasSums};
ghost use Rattle.fvn_combine_nodes.specs.States.{IsClosed};
ghost use Rattle.fvn_combine_inferring.specs.Inferred.{HaveOneValue, AreEqualPairs};
ghost use Rattle.fvn_combine_inferring.specs.Rows.{AreSides};
ghost use Rattle.fvn_combine_inferring.specs.inner.Holding.{ArePairs};

use crate::expressions::unit_of;
use crate::holding::Pairs;
use crate::rows::Row;
use crate::rules::has_none;
use fvn_combine_nodes::{State, Table};
use fvn_signature::Signature;
use fvn_terms::{NoMemory, OpId};

// Notes that the nodes of the list have the value of node n.
fn note_equal(
    equal: &mut Vec<(usize, usize)>,
    sig: &Signature,
    table: &Table,
    state: &State,
    sorted: bool,
    list: &[usize],
    n: usize,
) -> Result<(), NoMemory>
    requires equal { AreEqualPairs sig.now table.now state.now sorted equal.old.items }
    requires within { All (λ k. k < length table.now.nodes) list.now }
    requires right { n < length table.now.nodes }
    requires values { All (λ k. HaveOneValue sig.now table.now state.now sorted k n) list.now }
    ensures { OnOk result (AreEqualPairs sig.now table.now state.now sorted equal.new.items) }
{
    let _sig = sig;
    let _table = table;
    let _state = state;
    let _sorted = sorted;
    for k in list {
        equal.push((*k, n))?;
    }
    Ok(())
}

// Notes that the classes of the list, which have no summands together, have the value of f's identity.
fn note_emptied(
    pairs: &mut Pairs,
    sig: &Signature,
    table: &Table,
    state: &State,
    sorted: bool,
    f: OpId,
    list: &[usize],
) -> Result<(), NoMemory>
    requires closed { IsClosed sig.now table.now state.now }
    requires sums { HasSums sig.now table.now }
    requires pairs { ArePairs sig.now table.now state.now sorted pairs.old }
    requires within { All (λ k. k < length table.now.nodes) list.now }
    requires sides { AreSides sig.now table.now state.now f list.now [] }
    ensures { OnOk result (ArePairs sig.now table.now state.now sorted pairs.new) }
{
    match unit_of(table, f) {
        None => Ok(()),
        Some(n) => {
            note_equal(&mut pairs.equal, sig, table, state, sorted, list, n)?;
            Ok(())
        }
    }
}

// Notes what a row says of which one side is empty.
pub(crate) fn note_one_sided(
    pairs: &mut Pairs,
    sig: &Signature,
    table: &Table,
    state: &State,
    sorted: bool,
    f: OpId,
    row: &Row,
) -> Result<(), NoMemory>
    requires closed { IsClosed sig.now table.now state.now }
    requires sums { HasSums sig.now table.now }
    requires pairs { ArePairs sig.now table.now state.now sorted pairs.old }
    requires left { All (λ k. k < length table.now.nodes) row.now.left.items }
    requires right { All (λ k. k < length table.now.nodes) row.now.right.items }
    requires sides { AreSides sig.now table.now state.now f row.now.left.items row.now.right.items }
    ensures { OnOk result (ArePairs sig.now table.now state.now sorted pairs.new) }
{
    let left = row.left.as_slice();
    let right = row.right.as_slice();
    if has_none(right) {
        note_emptied(pairs, sig, table, state, sorted, f, left)?;
        return Ok(());
    }
    if has_none(left) {
        note_emptied(pairs, sig, table, state, sorted, f, right)?;
        return Ok(());
    }
    Ok(())
}
