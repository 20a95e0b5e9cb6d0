//! Shows what is explored of a text.
ghost use Rattle.std.specs.Prelude.{◌≤◌};
ghost use Rattle.fvn_cover.specs.declared.marking.TheConstants.{WORKERS};
ghost use Rattle.fvn_fold.specs.Starts.{IsSettingIn};
ghost use Rattle.fvn_tests_folding.specs.Nothing.{FixesNothing};

use fvn_cover::{OpenGate, Variant};
use fvn_exploring::{Expander, ExploreEnd, Explored, Limits};
use fvn_flat::Flat;
use fvn_fold::explore;
use fvn_signature::Signature;
use fvn_terms::NoMemory;
use fvn_tests_samples::{flats_of, push_flat};
use std::alloc::Global;
use std::thread::Threads;

/// The name of an end.
pub fn end_name(end: &ExploreEnd) -> &'static str {
    match end {
        ExploreEnd::Complete => "complete",
        ExploreEnd::Levels(_) => "levels",
        ExploreEnd::Variants(_) => "variants",
        ExploreEnd::Steps(_, _) => "steps",
        ExploreEnd::Size(_) => "size",
        ExploreEnd::Basis(_, _) => "basis",
        ExploreEnd::Unifiers(_, _) => "unifiers",
    }
}

/// The terms, with commas between them.
fn push_terms(out: &mut String, sig: &Signature, terms: &[Flat]) -> Result<(), NoMemory> {
    let mut between = "";
    for t in terms {
        out.push_str(between)?;
        push_flat(out, sig, t)?;
        between = ", ";
    }
    Ok(())
}

/// The terms of each variant.
fn push_variants(out: &mut String, sig: &Signature, list: &[Variant]) -> Result<(), NoMemory> {
    for v in list {
        push_terms(out, sig, v.terms.as_slice())?;
        out.push_str("; ")?;
    }
    Ok(())
}

/// The terms of the variants that are given, and the end.
fn shown(alloc: Global, sig: &Signature, x: &Explored) -> Result<String, NoMemory> {
    let mut out = String::new(alloc);
    push_variants(&mut out, sig, x.variants.as_slice())?;
    out.push_str(end_name(&x.end))?;
    Ok(out)
}

/// What is explored of the terms that are written; nothing where they are no start.
pub fn shown_explored<R: Threads + Sync, E: Expander>(
    rt: &R,
    alloc: Global,
    sig: &Signature,
    expander: &E,
    text: &str,
    limits: Limits,
) -> Result<String, NoMemory>
    requires setting { IsSettingIn (E.setting expander.now) sig.now }
    requires fixed { FixesNothing (E.setting expander.now) }
    requires variants { 1 ≤ limits.variants }
    requires workers { (1 ≤ limits.workers) × (limits.workers ≤ WORKERS) }
{
    if let Some(start) = flats_of(alloc, sig, text)? {
        if !start.is_empty() {
            let x = explore(
                rt,
                alloc,
                sig,
                expander,
                start.as_slice(),
                limits,
                &OpenGate,
            )?;
            return shown(alloc, sig, &x);
        }
    }
    Ok(String::new(alloc))
}
