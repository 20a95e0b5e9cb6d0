//! Matches the patterns and targets of tests.
ghost use Rattle.fvn_flat.specs.Fits.{AllFit};

use fvn_flat::{Flat, Subst};
use fvn_match::matches;
use fvn_signature::Signature;
use fvn_terms::NoMemory;
use fvn_tests_samples::{flats_of, push_flat, var_of};
use std::alloc::Global;

// What the variable is bound to that a pair names.
fn push_bound(out: &mut String, sig: &Signature, s: &Subst, pair: &str) -> Result<(), NoMemory> {
    let (x, _) = pair.split_once(' ').unwrap_or((pair, ""));
    if !out.is_empty() {
        out.push_str("; ")?;
    }
    out.push_str(x)?;
    out.push_str(" ")?;
    if let Some(t) = s.get(var_of(x)) {
        push_flat(out, sig, t)?;
    }
    Ok(())
}

// What the variables are bound to that the pairs of the text name; `yes` where any will do.
fn shown_bindings(
    alloc: Global,
    sig: &Signature,
    s: &Subst,
    want: &str,
) -> Result<String, NoMemory> {
    let mut out = String::new(alloc);
    if want == "yes" {
        out.push_str(want)?;
        return Ok(out);
    }
    for pair in want.split("; ") {
        push_bound(&mut out, sig, s, pair)?;
    }
    Ok(out)
}

// What a matcher binds, or `no`.
fn matched(
    alloc: Global,
    sig: &Signature,
    patterns: &[Flat],
    targets: &[Flat],
    want: &str,
) -> Result<String, NoMemory>
    requires patterns { AllFit sig.now patterns.now }
    requires targets { AllFit sig.now targets.now }
{
    if patterns.len() != targets.len() {
        return Ok(String::new(alloc));
    }
    match matches(alloc, sig, patterns, targets)? {
        Some(s) => shown_bindings(alloc, sig, &s, want),
        None => Ok(String::from_str(alloc, "no")?),
    }
}

/// What is found for patterns and targets: `no`, or the pairs that are wanted; `yes` where any will do.
pub fn shown_match(
    alloc: Global,
    sig: &Signature,
    text: &str,
    want: &str,
) -> Result<String, NoMemory> {
    let (left, right) = text.split_once(" | ").unwrap_or((text, ""));
    let Some(patterns) = flats_of(alloc, sig, left)? else {
        return Ok(String::new(alloc));
    };
    match flats_of(alloc, sig, right)? {
        Some(targets) => matched(alloc, sig, patterns.as_slice(), targets.as_slice(), want),
        None => Ok(String::new(alloc)),
    }
}
