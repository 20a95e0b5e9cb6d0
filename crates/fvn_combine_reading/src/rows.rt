//! The rows of a sum system.
ghost use Rattle.std.specs.Prelude.{◌≡◌, ◌<◌, pos, map, length, IfOk, IfSome};
ghost use Rattle.fvn_lindio.specs.Systems.{coefficients_of};
ghost use Rattle.fvn_combine_nodes.specs.States.{class_of};
ghost use Rattle.fvn_combine_systems.specs.NodeSystems.{stands_in, coefficient, row_at, sums};

use crate::sums::{addends, is_headed};
use fvn_base::Seq;
use fvn_combine_nodes::{State, Table};
use fvn_lindio::Row;
use fvn_terms::{NoMemory, OpId};
use std::alloc::Global;

// 1 where k is the class of node i, else 0.
fn stands_in(state: &State, k: usize, i: usize) -> i32
    requires { i < length state.now.names }
    ensures { result ≡ pos (stands_in (class_of state.now) k i) }
{
    if state.class_of(i) == k { 1 } else { 0 }
}

// In the column of k: the arguments of a sum, less the sum itself.
fn coefficient(state: &State, i: usize, pair: Option<(usize, usize)>, k: usize) -> i32
    requires sum { i < length state.now.names }
    requires pair { IfSome pair (λ p. (p.0 < length state.now.names)
        × (p.1 < length state.now.names)) }
    ensures { result ≡ coefficient (class_of state.now) i pair k }
{
    match pair {
        None => 0,
        Some((a, b)) => stands_in(state, k, a) + stands_in(state, k, b) - stands_in(state, k, i),
    }
}

// The row of a sum.
fn row_at(
    alloc: Global,
    table: &Table,
    state: &State,
    f: OpId,
    columns: &[usize],
    i: usize,
) -> Result<Row, NoMemory>
    requires whole { length state.now.names ≡ length table.now.nodes }
    requires within { i < length table.now.nodes }
    ensures { IfOk result (λ r.
        r.coefficients ≡ row_at table.now (class_of state.now) f columns.now i) }
{
    let pair = addends(table, f, i);
    let mut coefficients = Vec::new(alloc);
    for k in columns {
        coefficients.push(coefficient(state, i, pair, *k))?;
    }
    Ok(Row {
        coefficients: Seq::from_vec(coefficients),
    })
}

// The rows of all sums by f, in the order in which these begin.
pub(crate) fn rows_of(
    alloc: Global,
    table: &Table,
    state: &State,
    f: OpId,
    columns: &[usize],
) -> Result<Vec<Row>, NoMemory>
    requires whole { length state.now.names ≡ length table.now.nodes }
    ensures { IfOk result (λ rows. coefficients_of rows.items
        ≡ map (row_at table.now (class_of state.now) f columns.now) (sums table.now f)) }
{
    table.recall_well_made();
    let mut rows = Vec::new(alloc);
    for i in table.subterms() {
        if !is_headed(table, f, *i) {
            continue;
        }
        let row = row_at(alloc, table, state, f, columns, *i)?;
        rows.push(row)?;
    }
    Ok(rows)
}
