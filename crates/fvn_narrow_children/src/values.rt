//! What becomes of a variant's terms and values under a substitution, and whether a value is reducible.
ghost use Rattle.std.specs.Prelude.{◌≡◌, map, All, IsTrue, IfOk, MatchOption};
ghost use Rattle.fvn_terms.specs.Signature.{IsSort};
ghost use Rattle.fvn_forms.specs.Flat.{plain};
ghost use Rattle.fvn_forms.specs.Canon.{inst};
ghost use Rattle.fvn_flat.specs.Bindings.{value, BindingsFit};
ghost use Rattle.fvn_flat.specs.Fits.{Fits, AllFit};
ghost use Rattle.fvn_flat.specs.Solving.{substitution};
ghost use Rattle.fvn_rewrite.specs.Usable.{equations_by};
ghost use Rattle.fvn_narrow_children.specs.inner.Binding.{bound_variables};
ghost use Rattle.fvn_narrow_children.specs.Values.{AreValuesUnder, IsLargeValue, IsLargeAt, IsSmallAt, AreSmallValues};
ghost use Rattle.fvn_narrow_children.specs.Values.{ReducibleAs, AreIrreducible, HaveReducible, AreReducibleAs};

use fvn_cover::Variant;
use fvn_flat::{Flat, Subst};
use fvn_rewrite::Rewriter;
use fvn_rewrite_coherence::rules_are_coherent;
use fvn_signature::Signature;
use fvn_terms::{NoMemory, Var};
use std::alloc::Global;

// The instances of the forms.
pub(crate) fn instances(
    alloc: Global,
    sig: &Signature,
    s: &Subst,
    ts: &[Flat],
) -> Result<Vec<Flat>, NoMemory>
    requires subst { BindingsFit sig.now s.now }
    requires terms { AllFit sig.now ts.now }
    ensures { IfOk result (λ us. us.items ≡ map (inst sig.now (value s.now)) ts.now) }
{
    let mut us = Vec::new(alloc);
    for t in ts {
        let u = s.apply(alloc, sig, t)?;
        us.push(u)?;
    }
    Ok(us)
}

// Whether the pairs are of just these variables, in their order.
fn binds_just(s: &Subst, vars: &[Var]) -> bool
    ensures { IsTrue result → bound_variables s.now ≡ vars.now }
{
    let count = vars.len();
    if s.len() != count {
        return false;
    }
    for i in 0..count {
        let (x, _) = s.pair(i);
        if x != vars[i] {
            return false;
        }
    }
    true
}

// The values of the variant's variables under the substitution. Where the variant binds just these, no pair is left out.
pub(crate) fn values_under(
    alloc: Global,
    sig: &Signature,
    v: &Variant,
    s: &Subst,
) -> Result<Subst, NoMemory>
    requires values { BindingsFit sig.now v.now.subst }
    requires subst { BindingsFit sig.now s.now }
    ensures { IfOk result (AreValuesUnder sig.now v.now s.now) }
{
    let just = binds_just(&v.subst, v.vars.as_slice());
    if just {
        let changed = v.subst.changed_by(alloc, sig, s)?;
        return Ok(changed);
    }
    let all = v.subst.compose(alloc, sig, s)?;
    let own = all.restrict(alloc, v.vars.as_slice())?;
    Ok(own)
}

// The value of the variable, where it has too many symbols.
fn large_at(alloc: Global, s: &Subst, x: Var, size: u64) -> Result<Option<Flat>, NoMemory>
    ensures { IfOk result (λ o. MatchOption o (IsSmallAt s.now size x) (IsLargeAt s.now size x)) }
{
    match s.get(x) {
        Some(t) => {
            if t.size() > size {
                let copy = t.copy(alloc)?;
                return Ok(Some(copy));
            }
            Ok(None)
        }
        None => Ok(None),
    }
}

// A value with too many symbols.
pub(crate) fn large_value(
    alloc: Global,
    vars: &[Var],
    s: &Subst,
    size: u64,
) -> Result<Option<Flat>, NoMemory>
    ensures { IfOk result (λ o. MatchOption o
        (AreSmallValues vars.now s.now size) (IsLargeValue vars.now s.now size)) }
{
    for x in vars {
        let found = large_at(alloc, s, *x, size)?;
        if let Some(t) = found {
            return Ok(Some(t));
        }
    }
    Ok(None)
}

// Whether a step leads on from the form.
fn steps_on(rewriter: &Rewriter<'_>, t: &Flat) -> Result<bool, NoMemory>
    requires { Fits rewriter.now.signature t.now }
    ensures { IfOk result
        (ReducibleAs rewriter.now.signature (equations_by rewriter.now) (plain t.now)) }
{
    let is = rewriter.is_reducible(t)?;
    Ok(is)
}

// Whether the value of the variable is reducible.
fn is_reducible(rewriter: &Rewriter<'_>, s: &Subst, x: Var) -> Result<bool, NoMemory>
    requires sort { IsSort rewriter.now.signature x.sort }
    requires values { BindingsFit rewriter.now.signature s.now }
    ensures { IfOk result
        (ReducibleAs rewriter.now.signature (equations_by rewriter.now) (substitution s.now x)) }
{
    rewriter.recall();
    rules_are_coherent();
    match s.get(x) {
        Some(t) => {
            let is = steps_on(rewriter, t)?;
            Ok(is)
        }
        None => Ok(false),
    }
}

// Whether the substitution gives one of these variables something reducible.
pub(crate) fn some_moved(
    rewriter: &Rewriter<'_>,
    names: &[Var],
    s: &Subst,
) -> Result<bool, NoMemory>
    requires sorts { All (λ x. IsSort rewriter.now.signature x.sort) names.now }
    requires values { BindingsFit rewriter.now.signature s.now }
    ensures { IfOk result (λ found. IsTrue found
        → HaveReducible rewriter.now.signature (equations_by rewriter.now) names.now s.now) }
{
    for y in names {
        let found = is_reducible(rewriter, s, *y)?;
        if found {
            return Ok(true);
        }
    }
    Ok(false)
}

// Whether the variable has, with a form of its own, the value that it had.
fn is_as_before(old: &Subst, new: &Subst, x: Var) -> bool
    ensures { IsTrue result → value old.now x ≡ value new.now x }
{
    let Some(t) = old.get(x) else {
        return false;
    };
    let Some(u) = new.get(x) else {
        return false;
    };
    t.same(u)
}

/// Whether some new value is reducible, where the old ones are not. Those that are as before are not looked at.
pub fn some_reducible(
    rewriter: &Rewriter<'_>,
    vars: &[Var],
    old: &Subst,
    new: &Subst,
) -> Result<bool, NoMemory>
    requires sorts { All (λ x. IsSort rewriter.now.signature x.sort) vars.now }
    requires values { BindingsFit rewriter.now.signature new.now }
    requires old { AreIrreducible rewriter.now.signature
        (equations_by rewriter.now) vars.now old.now }
    ensures { IfOk result
        (AreReducibleAs rewriter.now.signature (equations_by rewriter.now) vars.now new.now) }
{
    for x in vars {
        if is_as_before(old, new, *x) {
            continue;
        }
        let found = is_reducible(rewriter, new, *x)?;
        if found {
            return Ok(true);
        }
    }
    Ok(false)
}
