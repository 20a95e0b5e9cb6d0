//! Refines the substitutions of tests.
ghost use Rattle.std.specs.Prelude.{IfOk, IfSome, IsTrue, IsSome};
ghost use Rattle.fvn_terms.specs.Signature.{IsSort};
ghost use Rattle.fvn_flat.specs.Bindings.{bound, BindingsFit};
ghost use Rattle.fvn_refine.specs.Refinements.{AreBound};

use fvn_flat::Subst;
use fvn_refine::refine;
use fvn_signature::Signature;
use fvn_terms::{NoMemory, Var};
use fvn_tests_samples::{is_sort, push_flat, subst_of, var_of};
use std::alloc::Global;

/// Whether the variable is bound, and its sort is known.
fn is_bound(sig: &Signature, s: &Subst, x: Var) -> bool
    ensures { IsTrue result → (IsSort sig.now x.sort × IsSome (bound s.now x)) }
{
    if !is_sort(sig, x.sort) {
        return false;
    }
    match s.get(x) {
        Some(_) => true,
        None => false,
    }
}

/// The variables that are written with commas between them, where the substitution binds each; none where nothing is
/// written.
fn vars_of(
    alloc: Global,
    sig: &Signature,
    s: &Subst,
    text: &str,
) -> Result<Option<Vec<Var>>, NoMemory>
    ensures { IfOk result (λ o. IfSome o (λ xs. AreBound sig.now xs.items s.now)) }
{
    let mut all = Vec::new(alloc);
    if text.is_empty() {
        return Ok(Some(all));
    }
    for word in text.split(", ") {
        let x = var_of(word);
        if !is_bound(sig, s, x) {
            return Ok(None);
        }
        all.push(x)?;
    }
    Ok(Some(all))
}

// The pairs of a substitution, behind those before it.
fn push_subst(out: &mut String, sig: &Signature, s: &Subst) -> Result<(), NoMemory> {
    let mut before = if out.is_empty() { "" } else { " & " };
    for i in 0..s.len() {
        out.push_str(before)?;
        before = "; ";
        push_flat(out, sig, s.pair(i).1)?;
    }
    Ok(())
}

// The substitutions with ampersands between them, or `no`.
fn shown_list(alloc: Global, sig: &Signature, list: &[Subst]) -> Result<String, NoMemory> {
    let mut out = String::new(alloc);
    if list.is_empty() {
        out.push_str("no")?;
    }
    for s in list {
        push_subst(&mut out, sig, s)?;
    }
    Ok(out)
}

// The refinements of a substitution for the variables that a text names.
fn refined(alloc: Global, sig: &Signature, s: &Subst, text: &str) -> Result<String, NoMemory>
    requires { BindingsFit sig.now s.now }
{
    match vars_of(alloc, sig, s, text)? {
        Some(xs) => {
            let found = refine(alloc, sig, s, xs.as_slice())?;
            shown_list(alloc, sig, found.as_slice())
        }
        None => Ok(String::new(alloc)),
    }
}

/// The refinements of a substitution, with ampersands between them; `no` where there are none.
pub fn shown_refined(alloc: Global, sig: &Signature, text: &str) -> Result<String, NoMemory> {
    let (left, right) = text.split_once(" | ").unwrap_or(("", text));
    match subst_of(alloc, sig, right)? {
        Some(s) => refined(alloc, sig, &s, left),
        None => Ok(String::new(alloc)),
    }
}
