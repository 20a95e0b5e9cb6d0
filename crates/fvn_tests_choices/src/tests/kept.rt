//! Theories of one row, and whether a theory keeps to what is asked of it.
ghost use Rattle.std.specs.Prelude.{◌≡◌, ◌≢◌, ◌<◌, ◌≤◌, length, All, AllPairs, IsTrue, unsigned_abs};
ghost use Rattle.fvn_acunify.specs.Theory.{IsOneTheory};

use fvn_acunify::OneTheory;
use fvn_base::Seq;
use fvn_lindio::{Row, System};
use std::alloc::{AllocError, Global};

/// A theory of one row: these columns are constants, and all may be zero or none.
pub fn one_row(
    alloc: Global,
    row: &[i32],
    constants: &[usize],
    may_be_zero: bool,
) -> Result<OneTheory, AllocError> {
    let coefficients = Seq::from_vec(Vec::from_slice(alloc, row)?);
    let mut rows = Vec::new(alloc);
    rows.push(Row { coefficients })?;
    Ok(OneTheory {
        system: System {
            columns: row.len(),
            rows: Seq::from_vec(rows),
        },
        constants: Seq::from_vec(Vec::from_slice(alloc, constants)?),
        may_be_zero: Seq::from_vec(vec![in alloc; may_be_zero; row.len()]?),
    })
}

/// Whether the theory keeps to what `solve_one` asks.
pub fn keeps(theory: &OneTheory) -> bool
    ensures { IsTrue result → IsOneTheory theory.now }
{
    let columns = theory.system.columns;
    if columns > 1000 || theory.may_be_zero.len() != columns {
        return false;
    }
    let constants = theory.constants.as_slice();
    if !is_below(constants, columns) || !is_distinct(constants) {
        return false;
    }
    are_rows(theory.system.rows.as_slice(), columns)
}

fn is_below(list: &[usize], columns: usize) -> bool
    ensures { IsTrue result → All (λ c. c < columns) list.now }
{
    list.iter().all(|c| *c < columns)
}

fn is_distinct(list: &[usize]) -> bool
    ensures { IsTrue result → AllPairs ◌≢◌ list.now }
{
    for (k, c) in list.iter().enumerate() {
        if list[..k].contains(c) {
            return false;
        }
    }
    true
}

fn are_rows(rows: &[Row], columns: usize) -> bool
    ensures { IsTrue result → All (λ row. (length row.coefficients ≡ columns)
        × All (λ c. unsigned_abs c ≤ 65535) row.coefficients) rows.now }
{
    rows.iter().all(|row| is_row(row, columns))
}

fn is_row(row: &Row, columns: usize) -> bool
    ensures { IsTrue result → (length row.now.coefficients ≡ columns)
        × All (λ c. unsigned_abs c ≤ 65535) row.now.coefficients }
{
    row.coefficients.len() == columns
        && row
            .coefficients
            .as_slice()
            .iter()
            .all(|c| c.unsigned_abs() <= 65_535)
}
