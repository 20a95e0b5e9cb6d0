//! What the solver of choices is given for a sum operator.
ghost use Rattle.std.specs.Prelude.{◌≡◌, Contains, IfOk};
ghost use Rattle.fvn_acunify.specs.Theory.{IsOneTheory};
ghost use Rattle.fvn_combine_nodes.specs.States.{IsClosed, class_of};
ghost use Rattle.fvn_combine_leaves.specs.Readings.{IsReading};
ghost use Rattle.fvn_combine_choices.specs.Binding.{AreAsked};
ghost use Rattle.fvn_combine_admissible.specs.Listed.{tag_in};

use crate::asking::{constants_of, marks_of};
use fvn_acunify::OneTheory;
use fvn_base::Seq;
use fvn_combine_leaves::{Reading, Sums};
use fvn_combine_nodes::{State, Table};
use fvn_lindio::{Row, System};
use fvn_signature::Signature;
use fvn_terms::{NoMemory, OpId};
use std::alloc::Global;

// The same row, in memory of its own.
fn copied_row(alloc: Global, row: &Row) -> Result<Row, NoMemory>
    ensures { IfOk result (λ r. r ≡ row.now) }
{
    let coefficients = Vec::from_slice(alloc, row.coefficients.as_slice())?;
    Ok(Row {
        coefficients: Seq::from_vec(coefficients),
    })
}

// The same rows, in memory of their own.
fn copied_rows(alloc: Global, rows: &[Row]) -> Result<Vec<Row>, NoMemory>
    ensures { IfOk result (λ v. v.items ≡ rows.now) }
{
    let mut all = Vec::new(alloc);
    for row in rows {
        all.push(copied_row(alloc, row)?)?;
    }
    Ok(all)
}

/// The same system, in memory of its own.
pub fn copied_system(alloc: Global, system: &System) -> Result<System, NoMemory>
    ensures { IfOk result (λ s. s ≡ system.now) }
{
    let rows = copied_rows(alloc, system.rows.as_slice())?;
    Ok(System {
        columns: system.columns,
        rows: Seq::from_vec(rows),
    })
}

/// The operator's system, with what is asked of the minimal solutions that are taken for it.
pub fn theory(
    alloc: Global,
    sig: &Signature,
    table: &Table,
    state: &State,
    reading: &Reading,
    tags: &[Option<OpId>],
    sums: &Sums,
) -> Result<OneTheory, NoMemory>
    requires closed { IsClosed sig.now table.now state.now }
    requires reading { IsReading sig.now table.now (class_of state.now) reading.now }
    requires listed { Contains reading.now.sums sums.now }
    ensures system { IfOk result (λ y. y.system ≡ sums.now.system) }
    ensures asked { IfOk result (λ y.
        AreAsked sig.now table.now (class_of state.now) (tag_in tags.now)
        sums.now.operator sums.now.columns y.constants y.may_be_zero) }
    ensures whole { IfOk result IsOneTheory }
{
    let _state = state;
    table.recall_well_made();
    let n = table.nodes().len();
    let system = copied_system(alloc, &sums.system)?;
    let constants = constants_of(alloc, reading, n, tags, sums)?;
    let marks = marks_of(alloc, sig, reading, n, tags, sums)?;
    Ok(OneTheory {
        system,
        constants: Seq::from_vec(constants),
        may_be_zero: Seq::from_vec(marks),
    })
}
