//! Which columns of a system its rows use.
ghost use Rattle.std.specs.Prelude.{◌≢◌, ◌↔◌, ◌<◌, pos, true, false, length, slice_index_or, All, Any, IfOk, IsTrue};
ghost use Rattle.fvn_lindio.specs.Systems.{IsSystem, coefficients_of};
ghost use Rattle.fvn_combine_reading.specs.inner.Reading.{AreUsed};

use fvn_lindio::{Row, System};
use fvn_terms::NoMemory;
use std::alloc::Global;

// Whether the row has a coefficient other than zero in column j.
fn is_other(row: &Row, j: usize) -> bool
    requires { j < length row.now.coefficients }
    ensures { IsTrue result ↔ (slice_index_or row.now.coefficients j (pos 0) ≢ pos 0) }
{
    row.coefficients.as_slice()[j] != 0
}

// Whether some row has a coefficient other than zero in column j.
fn is_used(rows: &[Row], j: usize) -> bool
    requires { All (λ row. j < length row) (coefficients_of rows.now) }
    ensures { IsTrue result ↔ Any (λ row. slice_index_or row j (pos 0) ≢ pos 0)
        (coefficients_of rows.now) }
{
    for row in rows {
        if is_other(row, j) {
            return true;
        }
    }
    false
}

// For each column whether some row uses it.
pub(crate) fn used_of(alloc: Global, system: &System) -> Result<Vec<bool>, NoMemory>
    requires { IsSystem system.now }
    ensures { IfOk result (λ v. AreUsed system.now v.items) }
{
    let mut used = Vec::new(alloc);
    for j in 0..system.columns {
        used.push(is_used(system.rows.as_slice(), j))?;
    }
    Ok(used)
}
