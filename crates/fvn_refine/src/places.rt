//! The sorts of rows beside variables.
ghost use Rattle.std.specs.Prelude.{◌≡◌, ◌↔◌, IsTrue, IfOk, length};
ghost use Rattle.fvn_refine.specs.inner.Rows.{beside, placed};

use crate::rows::copied;
use fvn_terms::{NoMemory, SortId, Var};
use std::alloc::Global;

// The sort beside the first place of the variable, or else this one.
pub(crate) fn beside(vars: &[Var], row: &[SortId], y: Var, s: SortId) -> SortId
    requires { length vars.now ≡ length row.now }
    ensures { result ≡ beside vars.now row.now y s }
{
    for (x, w) in vars.iter().zip(row.iter()) {
        if *x == y {
            return *w;
        }
    }
    s
}

// Whether the variables are one.
pub(crate) fn is_same(x: Var, y: Var) -> bool
    ensures { IsTrue result ↔ (x ≡ y) }
{
    x == y
}

// The row with another sort beside the first place of the variable.
pub(crate) fn placed(
    alloc: Global,
    vars: &[Var],
    row: &[SortId],
    y: Var,
    s: SortId,
) -> Result<Vec<SortId>, NoMemory>
    requires { length vars.now ≡ length row.now }
    ensures { IfOk result (λ all. all.items ≡ placed vars.now row.now y s) }
{
    let mut all = copied(alloc, row)?;
    for (i, x) in vars.iter().enumerate() {
        if is_same(*x, y) {
            all[i] = s;
            return Ok(all);
        }
    }
    Ok(all)
}
