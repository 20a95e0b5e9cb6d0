//! The substitution that bindings unfold to.
ghost use Rattle.std.specs.Prelude.{◌≡◌, ◌↔◌, Some, is_some, All, Contains, IfOk, IsTrue};
ghost use Rattle.fvn_terms.specs.declared.plain.Var.{Var as Variable};
ghost use Rattle.fvn_terms.specs.Signature.{IsSort};
ghost use Rattle.fvn_terms.specs.Substitution.{Occurs};
ghost use Rattle.fvn_forms.specs.Flat.{FlatTerm, fvar, plain};
ghost use Rattle.fvn_flat.specs.Fits.{Fits};
ghost use Rattle.fvn_flat.specs.Bindings.{bound, value, BindingsFit};
ghost use Rattle.fvn_combine_choices.specs.Plans.{unfolds_to};
ghost use Rattle.fvn_combine_unfolding.specs.Sizes.{IsFitting};
ghost use Rattle.fvn_combine_unfolding.specs.inner.Replaced.{step, IsWithValue};

use fvn_flat::{Flat, SolvedList, Subst};
use fvn_signature::Signature;
use fvn_terms::{NoMemory, Var};
use std::alloc::Global;

// Whether the two variables are one.
fn are_one(x: Var, y: Var) -> bool
    ensures { IsTrue result → x ≡ y }
{
    x == y
}

// Whether the term is the variable.
fn is_variable(t: &Flat, x: Var) -> bool
    ensures { IsTrue result → t.now ≡ fvar x }
{
    match t.as_var() {
        Some(y) => are_one(y, x),
        None => false,
    }
}

// Whether the term is a constant, so that nothing of it is replaced.
fn is_constant(t: &Flat) -> bool
    ensures { IsTrue result → (y : Variable) → Occurs y (plain t.now) → ⊥ }
{
    match t.head() {
        None => false,
        Some(_) => t.args().is_empty(),
    }
}

// The term with one variable replaced; where it is that variable, nothing is built.
fn replaced_one(alloc: Global, sig: &Signature, x: Var, u: &Flat, t: Flat) -> Result<Flat, NoMemory>
    requires binding { IsFitting sig.now (x, u.now) }
    requires term { Fits sig.now t }
    ensures exact { IfOk result (λ r. r ≡ step sig.now (x, u.now) t) }
    ensures fits { IfOk result (Fits sig.now) }
{
    sig.recall_good();
    if is_variable(&t, x) {
        let whole = u.copy(alloc)?;
        return Ok(whole);
    }
    if !t.has_var(x) {
        return Ok(t);
    }
    let one = Subst::empty(alloc).bind(alloc, x, u)?;
    let r = one.apply(alloc, sig, &t)?;
    Ok(r)
}

// What a variable becomes where the bindings replace their variables, one after another.
fn unfolded(
    alloc: Global,
    sig: &Signature,
    bindings: &[(Var, Flat)],
    x: Var,
) -> Result<Flat, NoMemory>
    requires bindings { All (IsFitting sig.now) bindings.now }
    requires sort { IsSort sig.now x.sort }
    ensures exact { IfOk result (λ t. t ≡ unfolds_to sig.now bindings.now x) }
    ensures fits { IfOk result (λ t. IsFitting sig.now (x, t)) }
{
    sig.recall_good();
    let mut t = Flat::var(x);
    for (y, u) in bindings {
        if !t.has_var(*y) {
            continue;
        }
        t = replaced_one(alloc, sig, *y, u, t)?;
        if is_constant(&t) {
            return Ok(t);
        }
    }
    Ok(t)
}

// Whether the variable is bound.
fn is_bound(s: &Subst, x: Var) -> bool
    ensures { result ≡ is_some (bound s.now x) }
{
    s.get(x).is_some()
}

// A substitution with one more variable bound to what it unfolds to, where it is not bound yet.
fn with_value(
    alloc: Global,
    sig: &Signature,
    bindings: &[(Var, Flat)],
    s: Subst,
    x: Var,
) -> Result<Subst, NoMemory>
    requires bindings { All (IsFitting sig.now) bindings.now }
    requires sort { IsSort sig.now x.sort }
    ensures { IfOk result (IsWithValue sig.now bindings.now s x) }
{
    if is_bound(&s, x) {
        return Ok(s);
    }
    let t = unfolded(alloc, sig, bindings, x)?;
    let more = s.with_pair(x, t)?;
    Ok(more)
}

/// The substitution that gives each of the variables what it unfolds to.
pub fn unfold(
    alloc: Global,
    sig: &Signature,
    list: &SolvedList,
    vars: &[Var],
) -> Result<Subst, NoMemory>
    requires bindings { All (IsFitting sig.now) list.now.bindings }
    requires sorts { All (λ x. IsSort sig.now x.sort) vars.now }
    ensures values { IfOk result (λ g. (x : Variable) → Contains vars.now x
        → value g x ≡ unfolds_to sig.now list.now.bindings x) }
    // Just these variables are bound, each to a flat form of its kind.
    ensures binds { IfOk result (λ g. (x : Variable) → Contains vars.now x
        ↔ ((t : FlatTerm) × (bound g x ≡ Some t))) }
    ensures fits { IfOk result (BindingsFit sig.now) }
{
    sig.recall_good();
    let bindings = list.bindings.as_slice();
    let mut s = Subst::empty(alloc);
    for x in vars {
        s = with_value(alloc, sig, bindings, s, *x)?;
    }
    Ok(s)
}
