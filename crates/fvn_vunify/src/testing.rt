//! Tests of irreducibility.
ghost use Rattle.std.specs.Prelude.{◌≡◌, map, All, IfOk};
ghost use Rattle.fvn_terms.specs.Signature.{IsSort};
ghost use Rattle.fvn_forms.specs.Flat.{plain};
ghost use Rattle.fvn_flat.specs.Bindings.{value, BindingsFit};
ghost use Rattle.fvn_flat.specs.Fits.{Fits, AllFit};
ghost use Rattle.fvn_vunify.specs.inner.Tests.{IsTestOf, AreTestsOf};
ghost use Rattle.fvn_vunify.specs.inner.Tests.{IsTestUnder, AreTestsUnder, AreTestsOfAll};

use fvn_exploring::{ExpandEnd, Expander};
use fvn_flat::{Flat, Normal, SizeCause, Subst};
use fvn_rewrite_laws::sequences_are_lawful;
use fvn_signature::Signature;
use fvn_terms::{NoMemory, Var, rewriting_is_lawful};
use std::alloc::Global;

// What a test of irreducibility comes to.
#[derive(Drop)]
pub(crate) enum Test {
    // What was tested is irreducible, and not too large.
    Irreducible,
    // It is reducible.
    Reducible,
    // The test stopped.
    Stopped(ExpandEnd),
}

// Whether a term is irreducible: whether it is its own normal form.
fn test_term<E: Expander>(alloc: Global, expander: &E, t: &Flat) -> Result<Test, NoMemory>
    requires term { Fits (E.setting expander.now).declarations t.now }
    ensures { IfOk result (IsTestOf (E.setting expander.now) t.now) }
{
    rewriting_is_lawful();
    match expander.rest(alloc, t)? {
        Normal::Form(form) => {
            if form.same(t) {
                Ok(Test::Irreducible)
            } else {
                Ok(Test::Reducible)
            }
        }
        Normal::Steps(start, end) => Ok(Test::Stopped(ExpandEnd::Steps(start, end))),
        Normal::Size(form) => Ok(Test::Stopped(ExpandEnd::Size(SizeCause::Term(form)))),
    }
}

// Whether what a substitution makes of a variable is irreducible.
fn test_value<E: Expander>(alloc: Global, expander: &E, s: &Subst, x: Var) -> Result<Test, NoMemory>
    requires values { BindingsFit (E.setting expander.now).declarations s.now }
    requires sort { IsSort (E.setting expander.now).declarations x.sort }
    ensures { IfOk result (IsTestOf (E.setting expander.now) (value s.now x)) }
{
    match s.get(x) {
        Some(t) => {
            let test = test_term(alloc, expander, t)?;
            Ok(test)
        }
        None => {
            let t = Flat::var(x);
            let test = test_term(alloc, expander, &t)?;
            Ok(test)
        }
    }
}

// Whether what a substitution makes of these variables is irreducible.
fn test_values<E: Expander>(
    alloc: Global,
    expander: &E,
    s: &Subst,
    vars: &[Var],
) -> Result<Test, NoMemory>
    requires values { BindingsFit (E.setting expander.now).declarations s.now }
    requires sorts { All (λ x. IsSort (E.setting expander.now).declarations x.sort) vars.now }
    ensures { IfOk result (AreTestsOf (E.setting expander.now) vars.now s.now) }
{
    for x in vars {
        match test_value(alloc, expander, s, *x)? {
            Test::Irreducible => {}
            Test::Reducible => return Ok(Test::Reducible),
            Test::Stopped(end) => return Ok(Test::Stopped(end)),
        }
    }
    Ok(Test::Irreducible)
}

// Whether a term is irreducible under a substitution.
fn test_under<E: Expander>(
    alloc: Global,
    sig: &Signature,
    expander: &E,
    s: &Subst,
    t: &Flat,
) -> Result<Test, NoMemory>
    requires sig { sig.now ≡ (E.setting expander.now).declarations }
    requires values { BindingsFit sig.now s.now }
    requires term { Fits sig.now t.now }
    ensures { IfOk result (IsTestUnder (E.setting expander.now) s.now (plain t.now)) }
{
    sequences_are_lawful();
    sig.recall_good();
    let u = s.apply(alloc, sig, t)?;
    let test = test_term(alloc, expander, &u)?;
    Ok(test)
}

// Whether terms are irreducible under a substitution.
fn test_terms<E: Expander>(
    alloc: Global,
    sig: &Signature,
    expander: &E,
    s: &Subst,
    terms: &[Flat],
) -> Result<Test, NoMemory>
    requires sig { sig.now ≡ (E.setting expander.now).declarations }
    requires values { BindingsFit sig.now s.now }
    requires terms { AllFit sig.now terms.now }
    ensures { IfOk result (AreTestsUnder (E.setting expander.now) s.now (map plain terms.now)) }
{
    for t in terms {
        match test_under(alloc, sig, expander, s, t)? {
            Test::Irreducible => {}
            Test::Reducible => return Ok(Test::Reducible),
            Test::Stopped(end) => return Ok(Test::Stopped(end)),
        }
    }
    Ok(Test::Irreducible)
}

// Whether what a substitution makes of these variables is irreducible, and the fixed terms stay so under it.
pub(crate) fn test_kept<E: Expander>(
    alloc: Global,
    sig: &Signature,
    expander: &E,
    s: &Subst,
    vars: &[Var],
) -> Result<Test, NoMemory>
    requires sig { sig.now ≡ (E.setting expander.now).declarations }
    requires values { BindingsFit sig.now s.now }
    requires sorts { All (λ x. IsSort sig.now x.sort) vars.now }
    ensures { IfOk result (AreTestsOfAll (E.setting expander.now) vars.now s.now) }
{
    match test_values(alloc, expander, s, vars)? {
        Test::Irreducible => {
            let fixed = expander.fixed();
            let test = test_terms(alloc, sig, expander, s, fixed)?;
            Ok(test)
        }
        Test::Reducible => Ok(Test::Reducible),
        Test::Stopped(end) => Ok(Test::Stopped(end)),
    }
}
