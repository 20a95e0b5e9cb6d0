//! The sum system of an operator over the classes of a state.
ghost use Rattle.std.specs.Prelude.{◌≡◌, ◌≤◌, length, IfOk};
ghost use Rattle.fvn_base.specs.declared.limits.TheConstants.{COLUMNS};
ghost use Rattle.fvn_lindio.specs.Systems.{IsSystem};
ghost use Rattle.fvn_combine_nodes.specs.States.{class_of};
ghost use Rattle.fvn_combine_systems.specs.NodeSystems.{HoldsArguments, IsNodeSystem};

use crate::columns::columns_of;
use crate::rows::rows_of;
use fvn_base::Seq;
use fvn_combine_nodes::{State, Table};
use fvn_lindio::System;
use fvn_terms::{NoMemory, OpId};
use std::alloc::Global;

/// What the sums by an operator ask of the classes that they add.
#[derive(Drop)]
pub struct SumSystem {
    /// For each column the node that names its class.
    pub columns: Seq<usize>,
    /// The rows, one for each sum, in the order in which the sums begin.
    pub system: System,
}

/// The sum system of f over the classes of the state.
pub fn sum_system(
    alloc: Global,
    table: &Table,
    state: &State,
    f: OpId,
) -> Result<SumSystem, NoMemory>
    requires whole { length state.now.names ≡ length table.now.nodes }
    requires arguments { HoldsArguments table.now }
    requires few { length table.now.subterms ≤ COLUMNS }

    // The columns and rows are those of the operator's sums, and a solver of systems takes them.
    ensures exact { IfOk result (λ r.
        IsNodeSystem table.now (class_of state.now) f r.columns r.system) }
    ensures system { IfOk result (λ r. IsSystem r.system) }
{
    let columns = columns_of(alloc, table, state, f)?;
    let rows = rows_of(alloc, table, state, f, columns.as_slice())?;
    let system = System {
        columns: columns.len(),
        rows: Seq::from_vec(rows),
    };
    Ok(SumSystem {
        columns: Seq::from_vec(columns),
        system,
    })
}
