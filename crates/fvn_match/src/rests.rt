//! The order in which the patterns of a sum take their summands.
ghost use Rattle.std.specs.Prelude.{◌<◌, length, IfOk};
ghost use Rattle.fvn_forms.specs.InOrder.{SameCounts};
ghost use Rattle.fvn_match.specs.inner.Summands.{references};

use crate::wholes::gives_none;
use fvn_flat::Flat;
use fvn_signature::Signature;
use fvn_terms::{NoMemory, OpId};
use std::alloc::Global;

// Whether a term of a list in order is there more than once.
fn is_repeated(ts: &[Flat], i: usize) -> bool
    requires { i < length ts.now }
{
    if i != 0 && ts[i - 1].same(&ts[i]) {
        return true;
    }
    i < ts.len() - 1 && ts[i + 1].same(&ts[i])
}

// Whether a summand of a list in order may take many: a variable that is there once, of a sort that sums have.
fn is_rest(sig: &Signature, f: OpId, ts: &[Flat], i: usize) -> bool
    requires { i < length ts.now }
{
    let x = match ts[i].as_var() {
        None => return false,
        Some(x) => x,
    };
    if is_repeated(ts, i) {
        return false;
    }
    !gives_none(sig, f, x.sort)
}

// References to the summands of a list in order, the last first, and rests behind the others.
#[inline(never)]
pub(crate) fn rests_last<'a>(
    alloc: Global,
    sig: &Signature,
    f: OpId,
    ts: &'a [Flat],
) -> Result<Vec<&'a Flat>, NoMemory>
    ensures { IfOk result (λ all. SameCounts (references all.items) ts.now) }
{
    let mut all = Vec::new(alloc);
    let mut first = 0;
    let mut i = ts.len();
    while i != 0 {
        i -= 1;
        if is_rest(sig, f, ts, i) {
            all.push(&ts[i])?;
        } else {
            all.insert(first, &ts[i])?;
            first += 1;
        }
    }
    Ok(all)
}
