//! Patterns and targets, pair by pair.
ghost use Rattle.std.specs.Prelude.{◌≡◌, ◌↔◌, length, IsTrue};
ghost use Rattle.std.specs.List.{AllZip};
ghost use Rattle.fvn_terms.specs.Signature.{AtOrBelow};
ghost use Rattle.fvn_forms.specs.Flat.{fvar};
ghost use Rattle.fvn_forms.specs.LeastSort.{least_sort};
ghost use Rattle.fvn_flat.specs.Fits.{Fits, AllFit};
ghost use Rattle.fvn_match.specs.inner.Goals.{IsPair};
ghost use Rattle.fvn_match.specs.inner.Pairing.{HaveOneKind, LacksSort};

use fvn_flat::Flat;
use fvn_signature::Signature;
use fvn_terms::Var;

// Whether two terms are of one kind.
fn have_one_kind(sig: &Signature, p: &Flat, t: &Flat) -> bool
    requires pattern { Fits sig.now p.now }
    requires target { Fits sig.now t.now }
    ensures { IsTrue result ↔ HaveOneKind sig.now p.now t.now }
{
    p.kind(sig) == t.kind(sig)
}

// Whether each pattern is of the kind of its target.
pub(crate) fn all_have_one_kind(sig: &Signature, patterns: &[Flat], targets: &[Flat]) -> bool
    requires patterns { AllFit sig.now patterns.now }
    requires targets { AllFit sig.now targets.now }
    requires lengths { length patterns.now ≡ length targets.now }
    ensures { IsTrue result ↔ AllZip (HaveOneKind sig.now) patterns.now targets.now }
{
    for i in 0..patterns.len() {
        if !have_one_kind(sig, &patterns[i], &targets[i]) {
            return false;
        }
    }
    true
}

// Whether a term of a variable's kind has the variable's sort, or one below it.
//
// Where that sort is the kind, the term is not looked at.
pub(crate) fn has_sort_of(sig: &Signature, x: Var, t: &Flat) -> bool
    requires { IsPair sig.now (fvar x) t.now }
    ensures { IsTrue result ↔ AtOrBelow sig.now (least_sort sig.now t.now) x.sort }
{
    sig.recall_good();
    if sig.kind(x.sort) == x.sort {
        return true;
    }
    sig.leq(t.least_sort(sig), x.sort)
}

// So many summands of a pattern have so many orders that sorts are asked first.
const MANY: usize = 6;

// Whether the target's sort is none of an instance of the pattern, which is asked where the pattern is a sum of many.
#[inline(never)]
pub(crate) fn lacks_sort(sig: &Signature, p: &Flat, t: &Flat) -> bool
    requires { IsPair sig.now p.now t.now }
    ensures { IsTrue result → LacksSort sig.now p.now t.now }
{
    if p.args().len() < MANY {
        return false;
    }
    sig.recall_good();
    let low = sig.leq(t.least_sort(sig), p.least_sort(sig));
    !low
}
