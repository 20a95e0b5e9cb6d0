//! Numbers of variables, each beside its variable; sums and products that stop at the greatest number.
ghost use Rattle.std.specs.Prelude.{◌≡◌, ◌<◌, ◌+◌, ◌*◌, length, slice_set, Some};
ghost use Rattle.fvn_terms.specs.Substitution.{same_var};
ghost use Rattle.fvn_weights.specs.inner.Numbers.{capped, found, place};

use fvn_terms::Var;

/// The sum, or the greatest number.
pub(crate) fn plus(a: u64, b: u64) -> u64
    ensures { result ≡ capped (a + b) }
{
    a.saturating_add(b)
}

/// The product, or the greatest number.
pub(crate) fn times(a: u64, b: u64) -> u64
    ensures { result ≡ capped (a * b) }
{
    a.saturating_mul(b)
}

/// Whether two variables are one.
pub(crate) fn is_same(a: Var, b: Var) -> bool
    ensures { result ≡ same_var a b }
{
    a == b
}

/// Where the variable stands first.
pub(crate) fn place_of(factors: &[(Var, u64)], x: Var) -> Option<usize>
    ensures { result ≡ place factors.now x }
{
    for i in 0..factors.len() {
        let here = is_same(factors[i].0, x);
        if here {
            return Some(i);
        }
    }
    None
}

// Writes a number into its place.
fn put(factors: &mut Vec<(Var, u64)>, i: usize, x: Var, number: u64)
    requires { i < length factors.old.items }
    ensures { factors.new.items ≡ slice_set factors.old.items i (x, number) }
{
    factors[i] = (x, number);
}

/// Raises the number of the variable that stands at a place.
pub(crate) fn raise_at(factors: &mut Vec<(Var, u64)>, i: usize, x: Var, more: u64)
    requires { place factors.old.items x ≡ Some i }
    ensures { factors.new.items ≡ slice_set factors.old.items i
        (x, capped (found factors.old.items x + more)) }
{
    let list = factors.as_slice();
    let sum = plus(list[i].1, more);
    put(factors, i, x, sum);
}
