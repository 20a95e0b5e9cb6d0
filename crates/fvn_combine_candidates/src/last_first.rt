//! Minimal solutions of systems that are refused row by row from the first, found in another order of the rows.
//!
//! They do not depend on it. A row of a nested sum says what the sum is, and those inside come later: from the last row on
//! each row but the outermost of a class says what one column more is, so that no more solutions come up on the way than
//! summands. The rows that do not define a column come first, and again in their turn, where they ask nothing new: as long
//! as few solutions solve these, no more come up at the others.
ghost use Rattle.std.specs.Prelude.{◌≡◌, ◌≤◌, ◌++◌, reverse, All, Contains, IfOk, IfSome};
ghost use Rattle.fvn_terms.specs.Signature.{axioms};
ghost use Rattle.fvn_terms.specs.Equality.{IsAssociative};
ghost use Rattle.fvn_lindio.specs.Systems.{IsSystem};
ghost use Rattle.fvn_combine_nodes.specs.States.{IsClosed, class_of};
ghost use Rattle.fvn_combine_leaves.specs.Bases.{AreBases, HaveAlive};
ghost use Rattle.fvn_combine_leaves.specs.Readings.{AreSums, AreHeads, IsReading};
ghost use Rattle.fvn_combine_candidates.specs.inner.Alive.{IsWholeBasis, IsAliveBasis};
ghost use Rattle.fvn_combine_candidates.specs.inner.Turned.{IsTurned};

use crate::alive::alive_basis;
use crate::defining::{copied_left, rows_left};
use crate::once::{HeadedSums, are_choices_few, are_uses_few, heeded_bounds, open_columns};
use fvn_acunify::limits::LISTED_SOLUTIONS;
use fvn_base::Seq;
use fvn_base::limits::MINIMAL_SOLUTIONS;
use fvn_combine_leaves::{Reading, Sums};
use fvn_combine_nodes::{State, Table};
use fvn_lindio::{LinFault, Row, Solution, System, basis};
use fvn_signature::Signature;
use fvn_terms::{NoMemory, OpId};
use std::alloc::Global;

/// The most minimal solutions on the way, where it is not tried hard: of all rows from the last on, and of those that define
/// no column.
const SOLUTIONS_LEFT: usize = 31;

// The same row, in memory of its own.
pub(crate) fn copied_row(alloc: Global, row: &Row) -> Result<Row, NoMemory>
    ensures { IfOk result (λ r. r ≡ row.now) }
{
    let coefficients = Vec::from_slice(alloc, row.coefficients.as_slice())?;
    Ok(Row {
        coefficients: Seq::from_vec(coefficients),
    })
}

// These rows, and after them the others from the last to the first, in memory of their own.
pub(crate) fn turned_rows(
    alloc: Global,
    first: Vec<Row>,
    rows: &[Row],
) -> Result<Vec<Row>, NoMemory>
    ensures { IfOk result (λ v. v.items ≡ first.items ++ reverse rows.now) }
{
    let mut turned = first;
    for i in 0..rows.len() {
        let row = copied_row(alloc, &rows[rows.len() - 1 - i])?;
        turned.push(row)?;
    }
    Ok(turned)
}

// The rows of the system that are left.
fn system_left(alloc: Global, system: &System, left: &[bool]) -> Result<System, NoMemory>
    ensures columns { IfOk result (λ s. s.columns ≡ system.now.columns) }
    ensures rows { IfOk result (λ s. All (Contains system.now.rows) s.rows) }
{
    let rows = copied_left(alloc, system.rows.as_slice(), left)?;
    Ok(System {
        columns: system.columns,
        rows: Seq::from_vec(rows),
    })
}

// Whether few minimal solutions solve the rows that are left.
fn are_few_left(
    alloc: Global,
    system: &System,
    left: &[bool],
    most: usize,
) -> Result<bool, NoMemory>
    requires { IsSystem system.now }
{
    let rest = system_left(alloc, system, left)?;
    match basis(alloc, &rest, most) {
        Ok(_) => Ok(true),
        Err(LinFault::TooMany(_)) => Ok(false),
        Err(LinFault::TooWide(_)) => Ok(false),
        Err(LinFault::NoMemory) => Err(NoMemory),
    }
}

// The same system: first the rows that are left, and then all from the last to the first.
fn turned_system(alloc: Global, system: &System, left: &[bool]) -> Result<System, NoMemory>
    ensures { IfOk result (IsTurned system.now) }
{
    let first = copied_left(alloc, system.rows.as_slice(), left)?;
    let rows = turned_rows(alloc, first, system.rows.as_slice())?;
    Ok(System {
        columns: system.columns,
        rows: Seq::from_vec(rows),
    })
}

// The minimal solutions of a sum operator's system, found in that order, where there are at most so many.
fn basis_in_order(
    alloc: Global,
    sums: &Sums,
    left: &[bool],
    most: usize,
) -> Result<Option<Seq<Solution>>, NoMemory>
    requires system { IsSystem sums.now.system }
    requires most { most ≤ LISTED_SOLUTIONS }
    ensures { IfOk result (λ o. IfSome o (IsWholeBasis sums.now.system)) }
{
    let turned = turned_system(alloc, &sums.system, left)?;
    match basis(alloc, &turned, most) {
        Ok(solutions) => Ok(Some(solutions)),
        Err(LinFault::TooMany(_)) => Ok(None),
        Err(LinFault::TooWide(_)) => Ok(None),
        Err(LinFault::NoMemory) => Err(NoMemory),
    }
}

// The minimal solutions of a sum operator's system: first from the last row on, and where these are too many on the way,
// with the rows that are left first.
fn basis_from_last(
    alloc: Global,
    sums: &Sums,
    wide: bool,
) -> Result<Option<Seq<Solution>>, NoMemory>
    requires { IsSystem sums.now.system }
    ensures { IfOk result (λ o. IfSome o (IsWholeBasis sums.now.system)) }
{
    let most = if wide {
        LISTED_SOLUTIONS
    } else {
        SOLUTIONS_LEFT
    };
    if let Some(solutions) = basis_in_order(alloc, sums, &[], most)? {
        return Ok(Some(solutions));
    }
    let left = rows_left(alloc, sums.system.rows.as_slice(), sums.system.columns)?;
    if !are_few_left(alloc, &sums.system, left.as_slice(), most)? {
        return Ok(None);
    }
    let found = basis_in_order(alloc, sums, left.as_slice(), LISTED_SOLUTIONS)?;
    Ok(found)
}

// All of them, where few come up from the last row on; else those that are alive, where some classes are known to differ; else
// all in the other orders.
fn found_basis(
    alloc: Global,
    sig: &Signature,
    table: &Table,
    state: &State,
    reading: &Reading,
    sums: &Sums,
    wide: bool,
) -> Result<Option<Seq<Solution>>, NoMemory>
    requires associative { IsAssociative (axioms sig.now sums.now.operator) }
    requires closed { IsClosed sig.now table.now state.now }
    requires sums { AreSums sig.now table.now (class_of state.now) sums.now }
    requires heads { AreHeads sig.now table.now (class_of state.now) reading.now.heads }
    ensures { IfOk result (λ o. IfSome o
        (IsAliveBasis sig.now table.now state.now sums.now)) }
{
    let _sig = sig;
    table.recall_well_made();
    if let Some(whole) = basis_in_order(alloc, sums, &[], SOLUTIONS_LEFT)? {
        return Ok(Some(whole));
    }
    if let Some(basis) = alive_basis(alloc, state, reading.heads.as_slice(), sums)? {
        return Ok(Some(basis));
    }
    let found = basis_from_last(alloc, sums, wide)?;
    Ok(found)
}

// Whether choices among these solutions are not too many.
fn are_listed(
    alloc: Global,
    sig: &Signature,
    table: &Table,
    state: &State,
    headed: HeadedSums,
    sums: &Sums,
    sorted: bool,
    basis: &[Solution],
) -> Result<bool, NoMemory>
    requires associative { IsAssociative (axioms sig.now sums.now.operator) }
    requires closed { IsClosed sig.now table.now state.now }
    requires sums { AreSums sig.now table.now (class_of state.now) sums.now }
    requires reading { IsReading sig.now table.now (class_of state.now) headed.reading.now }
    requires listed { Contains headed.reading.now.sums sums.now }
{
    if basis.len() <= MINIMAL_SOLUTIONS {
        return Ok(true);
    }
    let bounds = heeded_bounds(alloc, sig, table, state, sums, sorted)?;
    let open = open_columns(alloc, sig, table, state, headed, sums, &bounds)?;
    let few = are_choices_few(alloc, sig, headed, sums, &bounds, &open, basis)?;
    Ok(few)
}

/// Minimal solutions of each sum operator of a reading, all that may stand for a summand among them, in the reading's order,
/// for a state at which a system is refused; nothing where they are not found in that order, or are so many that choices
/// among them are not listed.
///
/// How many choices there are is estimated by sorts, where these are heeded, and by heads: for each class an operator that
/// is known to head its value, where one is known. What is said of heads is not relied on for more. With `wide` up to 127
/// solutions may come up on the way, where no variable stands in more than four sums; else 31. That takes some hundredths of a
/// second where there are too many.
pub fn bases_from_last(
    alloc: Global,
    sig: &Signature,
    table: &Table,
    state: &State,
    reading: &Reading,
    heads: &[Option<OpId>],
    sorted: bool,
    wide: bool,
) -> Result<Option<Vec<Seq<Solution>>>, NoMemory>
    requires closed { IsClosed sig.now table.now state.now }
    requires reading { IsReading sig.now table.now (class_of state.now) reading.now }
    ensures bases { IfOk result (λ o. IfSome o (λ v. AreBases reading.now.sums v.items)) }
    ensures alive { IfOk result (λ o. IfSome o (λ v.
        HaveAlive sig.now table.now state.now reading.now.sums v.items)) }
{
    let sums = reading.sums.as_slice();
    let headed = HeadedSums { reading, heads };
    let mut bases = Vec::new(alloc);
    for i in 0..sums.len() {
        let entry = &sums[i];
        let hard = wide && are_uses_few(headed, entry);
        match found_basis(alloc, sig, table, state, reading, entry, hard)? {
            None => return Ok(None),
            Some(basis) => {
                let solutions = basis.as_slice();
                if !are_listed(alloc, sig, table, state, headed, entry, sorted, solutions)? {
                    return Ok(None);
                }
                bases.push(basis)?;
            }
        }
    }
    Ok(Some(bases))
}
