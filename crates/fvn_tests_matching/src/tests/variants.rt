//! Reads the variants of tests, and sees whether they may be compared.
ghost use Rattle.std.specs.Prelude.{◌≡◌, IfOk, IfSome, IsTrue, All};
ghost use Rattle.fvn_terms.specs.Signature.{IsSort};
ghost use Rattle.fvn_cover.specs.Covering.{AreAlike, IsFlatVariant};

use fvn_base::Seq;
use fvn_cover::Variant;
use fvn_signature::Signature;
use fvn_terms::{NoMemory, Var};
use fvn_tests_samples::{flats_of, is_sort, subst_of, var_of};
use std::alloc::Global;

/// The variables that are bound, where their sorts are known.
fn vars_of(alloc: Global, sig: &Signature, text: &str) -> Result<Option<Vec<Var>>, NoMemory>
    ensures { IfOk result (λ o. IfSome o (λ xs. All (λ x. IsSort sig.now x.sort) xs.items)) }
{
    let mut all = Vec::new(alloc);
    for pair in text.split("; ") {
        let (word, _) = pair.split_once(' ').unwrap_or((pair, ""));
        let x = var_of(word);
        if !is_sort(sig, x.sort) {
            return Ok(None);
        }
        all.push(x)?;
    }
    Ok(Some(all))
}

/// A variant is its terms, a bar, and the values of its variables.
pub fn variant_of(alloc: Global, sig: &Signature, text: &str) -> Result<Option<Variant>, NoMemory>
    ensures { IfOk result (λ o. IfSome o (IsFlatVariant sig.now)) }
{
    let (left, right) = text.split_once(" | ").unwrap_or(("", text));
    let terms = flats_of(alloc, sig, left)?;
    let subst = subst_of(alloc, sig, right)?;
    let vars = vars_of(alloc, sig, right)?;
    match (terms, subst, vars) {
        (Some(terms), Some(subst), Some(vars)) => Ok(Some(Variant {
            terms: Seq::from_vec(terms),
            subst,
            vars: Seq::from_vec(vars),
        })),
        _ => Ok(None),
    }
}

/// Variants with ampersands between them.
pub fn variants_of(
    alloc: Global,
    sig: &Signature,
    text: &str,
) -> Result<Option<Vec<Variant>>, NoMemory>
    ensures { IfOk result (λ o. IfSome o (λ vs. All (IsFlatVariant sig.now) vs.items)) }
{
    let mut all = Vec::new(alloc);
    for part in text.split(" & ") {
        let v = match variant_of(alloc, sig, part)? {
            Some(v) => v,
            None => return Ok(None),
        };
        all.push(v)?;
    }
    Ok(Some(all))
}

/// Whether the two lists have the same variables.
fn are_same(xs: &[Var], ys: &[Var]) -> bool
    ensures { IsTrue result → xs.now ≡ ys.now }
{
    if xs.len() != ys.len() {
        return false;
    }
    for (x, y) in xs.iter().zip(ys.iter()) {
        if *x != *y {
            return false;
        }
    }
    true
}

/// Whether the variants may be of one list of terms.
pub fn is_alike(a: &Variant, b: &Variant) -> bool
    ensures { IsTrue result → AreAlike a.now b.now }
{
    if a.terms.len() != b.terms.len() {
        return false;
    }
    are_same(a.vars.as_slice(), b.vars.as_slice())
}

/// Whether the variant is alike each of the list.
fn is_alike_all(a: &Variant, list: &[Variant]) -> bool
    ensures { IsTrue result → All (AreAlike a.now) list.now }
{
    for b in list {
        if !is_alike(a, b) {
            return false;
        }
    }
    true
}

/// Whether each of the first list is alike each of the second.
pub fn are_all_alike(list: &[Variant], others: &[Variant]) -> bool
    ensures { IsTrue result → All (λ a. All (AreAlike a) others.now) list.now }
{
    for a in list {
        if !is_alike_all(a, others) {
            return false;
        }
    }
    true
}
