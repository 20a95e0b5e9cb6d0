//! Forms of which no instances are equal modulo the axioms.
ghost use Rattle.std.specs.Prelude.{◌≡◌, None, IsTrue, All};
ghost use Rattle.fvn_terms.specs.Signature.{axioms};
ghost use Rattle.fvn_terms.specs.Equality.{identity};
ghost use Rattle.fvn_flat.specs.Fits.{Fits, AllFit};
ghost use Rattle.fvn_places.specs.Clashes.{NeverMeet, SomeNeverMeet};
ghost use Rattle.fvn_places.specs.inner.Sums.{IsFirm, HasUnmet, Exceeds, AreTwice, SumsClash};

use fvn_flat::Flat;
use fvn_signature::Signature;
use fvn_terms::OpId;

// Whether the operator has no identity, so that it heads each instance of what it heads.
fn keeps_heads(sig: &Signature, f: OpId) -> bool
    ensures { IsTrue result → identity (axioms sig.now f) ≡ None }
{
    sig.identity(f).is_none()
}

// Whether another operator than f heads the form, one without an identity: each instance is one summand under f.
fn is_firm(sig: &Signature, f: OpId, t: &Flat) -> bool
    ensures { IsTrue result → IsFirm sig.now f t.now }
{
    let Some(g) = t.head() else {
        return false;
    };
    if g == f {
        return false;
    }
    keeps_heads(sig, g)
}

// Whether all forms are so.
fn are_firm(sig: &Signature, f: OpId, us: &[Flat]) -> bool
    ensures { IsTrue result → All (IsFirm sig.now f) us.now }
{
    for u in us {
        if !is_firm(sig, f, u) {
            return false;
        }
    }
    true
}

/// Whether the two forms have, at a place that is reached through operators without axioms, two different operators
/// without identities, or two sums of which one has summands that the other's cannot be. Then no instance of the first
/// is equal to one of the second.
#[cycle(clash)]
pub fn clash(sig: &Signature, t: &Flat, u: &Flat) -> bool
    requires first { Fits sig.now t.now }
    requires second { Fits sig.now u.now }
    ensures { IsTrue result → NeverMeet sig.now t.now u.now }
{
    let Some(f) = t.head() else {
        return false;
    };
    let Some(g) = u.head() else {
        return false;
    };
    if f != g {
        if !keeps_heads(sig, f) {
            return false;
        }
        return keeps_heads(sig, g);
    }
    sig.recall_good();
    let ts = t.args();
    let us = u.args();
    if !sig.axioms(f).is_free() {
        return sums_clash(sig, f, ts, us);
    }
    some_clash(sig, ts, us)
}

// Whether two forms clash that stand side by side.
#[cycle(clash)]
fn some_clash(sig: &Signature, ts: &[Flat], us: &[Flat]) -> bool
    requires first { AllFit sig.now ts.now }
    requires second { AllFit sig.now us.now }
    ensures { IsTrue result → SomeNeverMeet sig.now ts.now us.now }
{
    let count = ts.len();
    if us.len() != count {
        return false;
    }
    for i in 0..count {
        if clash(sig, &ts[i], &us[i]) {
            return true;
        }
    }
    false
}

// Whether the form clashes with each of these.
#[cycle(clash)]
fn is_unmet(sig: &Signature, t: &Flat, us: &[Flat]) -> bool
    requires first { Fits sig.now t.now }
    requires second { AllFit sig.now us.now }
    ensures { IsTrue result → All (NeverMeet sig.now t.now) us.now }
{
    for u in us {
        if !clash(sig, t, u) {
            return false;
        }
    }
    true
}

// Whether one of the summands, of which each instance is one summand, clashes with each of the others.
#[cycle(clash)]
fn some_unmet(sig: &Signature, f: OpId, ts: &[Flat], us: &[Flat]) -> bool
    requires first { AllFit sig.now ts.now }
    requires second { AllFit sig.now us.now }
    ensures { IsTrue result → HasUnmet sig.now f ts.now us.now }
{
    for t in ts {
        if !is_firm(sig, f, t) {
            continue;
        }
        if is_unmet(sig, t, us) {
            return true;
        }
    }
    false
}

// Whether the second summands, of which each instance is one summand, are fewer than the first, or one of these clashes
// with all of them.
#[cycle(clash)]
fn exceeds(sig: &Signature, f: OpId, ts: &[Flat], us: &[Flat]) -> bool
    requires first { AllFit sig.now ts.now }
    requires second { AllFit sig.now us.now }
    ensures { IsTrue result → Exceeds sig.now f ts.now us.now }
{
    if !are_firm(sig, f, us) {
        return false;
    }
    if us.len() < ts.len() {
        return true;
    }
    some_unmet(sig, f, ts, us)
}

// Whether the second summands are one form twice, and the first are two that clash, of which each instance is one summand.
#[cycle(clash)]
fn are_twice(sig: &Signature, f: OpId, ts: &[Flat], us: &[Flat]) -> bool
    requires first { AllFit sig.now ts.now }
    ensures { IsTrue result → AreTwice sig.now f ts.now us.now }
{
    if ts.len() != 2 {
        return false;
    }
    if us.len() != 2 {
        return false;
    }
    if !us[0].same(&us[1]) {
        return false;
    }
    if !are_firm(sig, f, ts) {
        return false;
    }
    clash(sig, &ts[0], &ts[1])
}

// Whether f makes sums and has no identity, and no instances of sums of these summands are equal.
#[cycle(clash)]
fn sums_clash(sig: &Signature, f: OpId, ts: &[Flat], us: &[Flat]) -> bool
    requires first { AllFit sig.now ts.now }
    requires second { AllFit sig.now us.now }
    ensures { IsTrue result → SumsClash sig.now f ts.now us.now }
{
    if !sig.axioms(f).is_sum() {
        return false;
    }
    if !keeps_heads(sig, f) {
        return false;
    }
    if ts.len() < 2 {
        return false;
    }
    if us.len() < 2 {
        return false;
    }
    if exceeds(sig, f, ts, us) {
        return true;
    }
    if exceeds(sig, f, us, ts) {
        return true;
    }
    are_twice(sig, f, ts, us)
}
