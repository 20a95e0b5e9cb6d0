//! Sums with more arguments than a form: of these it is no instance, since each argument stays a summand.
ghost use Rattle.std.specs.Prelude.{IsTrue};
ghost use Rattle.fvn_rewrite.specs.inner.Short.{LacksArguments};

use crate::twins::{is_lasting, makes_sums};
use fvn_flat::Flat;
use fvn_signature::Signature;

// Whether the pattern is a sum, and the target has fewer arguments.
pub(crate) fn lacks_arguments(sig: &Signature, p: &Flat, t: &Flat) -> bool
    ensures { IsTrue result → LacksArguments sig.now p.now t.now }
{
    let Some(f) = p.head() else {
        return false;
    };
    let ps = p.args();
    let ts = t.args();
    if ps.len() < 2 {
        return false;
    }
    if ps.len() <= ts.len() {
        return false;
    }
    let sums = makes_sums(sig, f);
    if !sums {
        return false;
    }
    is_lasting(sig, f)
}
