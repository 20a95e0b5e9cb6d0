//! Flat forms of terms, also of renamed ones and of those under substitutions.
ghost use Rattle.fvn_flat.specs.Bindings.{BindingsFit};
ghost use Rattle.fvn_flat.specs.Fits.{Fits};

use fvn_flat::{Flat, Subst, flatten, rename_apart};
use fvn_signature::Signature;
use fvn_sort_bounds::sort_of;
use fvn_terms::{NoMemory, Plain};
use fvn_tests_samples::{flat_of, is_term, push_flat, push_sort, subst_of, term_of};
use std::alloc::Global;

// The flat form, its size and its least sort, and whether the term has another one.
fn form_of(alloc: Global, sig: &Signature, t: &Plain) -> Result<String, NoMemory> {
    let mut out = String::new(alloc);
    if !is_term(sig, t) {
        return Ok(out);
    }
    let u = flatten(alloc, sig, t)?;
    push_flat(&mut out, sig, &u)?;
    let size = u.size();
    out.push_str(&format!(in alloc; " {size} ")?)?;
    push_sort(&mut out, u.least_sort(sig))?;
    if sort_of(sig, t) != u.least_sort(sig) {
        out.push_str(" other")?;
    }
    Ok(out)
}

/// The flat form of the term, its size and its least sort.
pub fn shown_form(alloc: Global, sig: &Signature, text: &str) -> Result<String, NoMemory> {
    match term_of(alloc, sig, text)? {
        Some(t) => form_of(alloc, sig, &t),
        None => Ok(String::new(alloc)),
    }
}

// The term with new variables, and the next free number.
fn renamed(alloc: Global, sig: &Signature, u: &Flat) -> Result<String, NoMemory>
    requires { Fits sig.now u.now }
{
    let mut out = String::new(alloc);
    if u.size() < 1000 {
        let (v, next) = rename_apart(alloc, sig, u, 3)?;
        push_flat(&mut out, sig, &v)?;
        out.push_str(&format!(in alloc; " {next}")?)?;
    }
    Ok(out)
}

/// The term renamed, and the next free number.
pub fn shown_renamed(alloc: Global, sig: &Signature, text: &str) -> Result<String, NoMemory> {
    match flat_of(alloc, sig, text)? {
        Some(u) => renamed(alloc, sig, &u),
        None => Ok(String::new(alloc)),
    }
}

// A copy of the term under the substitution.
fn applied(alloc: Global, sig: &Signature, s: &Subst, word: &str) -> Result<String, NoMemory>
    requires { BindingsFit sig.now s.now }
{
    let mut out = String::new(alloc);
    if let Some(t) = flat_of(alloc, sig, word)? {
        let u = s.apply(alloc, sig, &t)?;
        push_flat(&mut out, sig, &u)?;
    }
    Ok(out)
}

// The term under a substitution, and then another, where there is one.
fn composed(
    alloc: Global,
    sig: &Signature,
    s: &Subst,
    second: &str,
    word: &str,
) -> Result<String, NoMemory>
    requires { BindingsFit sig.now s.now }
{
    if second.is_empty() {
        return applied(alloc, sig, s, word);
    }
    match subst_of(alloc, sig, second)? {
        Some(c) => {
            let both = s.compose(alloc, sig, &c)?;
            applied(alloc, sig, &both, word)
        }
        None => Ok(String::new(alloc)),
    }
}

/// The term under a substitution, or under two one after the other.
pub fn shown_instance(alloc: Global, sig: &Signature, text: &str) -> Result<String, NoMemory> {
    let (substs, word) = text.split_once(" | ").unwrap_or((text, ""));
    let (first, second) = substs.split_once(" then ").unwrap_or((substs, ""));
    match subst_of(alloc, sig, first)? {
        Some(s) => composed(alloc, sig, &s, second, word),
        None => Ok(String::new(alloc)),
    }
}
