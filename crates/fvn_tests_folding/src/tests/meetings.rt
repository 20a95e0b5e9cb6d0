//! Expansions of several members at once.
ghost use Rattle.std.specs.Prelude.{◌≤◌, [], IfOk, All};
ghost use Rattle.fvn_cover.specs.declared.marking.TheConstants.{WORKERS};
ghost use Rattle.fvn_cover.specs.declared.variant.Variant.{Variant};
ghost use Rattle.fvn_tests_folding.specs.Nothing.{IsOfNothing, FixesNothing};

use super::rows::inert;
use crate::meeting::Meeting;
use fvn_base::Seq;
use fvn_cover::{OpenGate, Variant};
use fvn_exploring::Expander;
use fvn_flat::fresh_variables;
use fvn_fold::expand_level;
use fvn_signature::Signature;
use fvn_terms::NoMemory;
use fvn_tests_samples::signature_of;
use std::alloc::Global;
use std::process::Abort;
use std::thread::Threads;

/// The variant of no terms.
fn nothing(alloc: Global) -> Result<Variant, NoMemory>
    ensures { IfOk result IsOfNothing }
{
    let (subst, _) = fresh_variables(alloc, &[], 0)?;
    Ok(Variant {
        terms: Seq::new(alloc),
        subst,
        vars: Seq::new(alloc),
    })
}

/// So many variants of no terms.
fn members(alloc: Global, count: u32) -> Result<Vec<Variant>, NoMemory>
    ensures { IfOk result (λ vs. All IsOfNothing vs.items) }
{
    let mut all = Vec::new(alloc);
    for _ in 0..count {
        all.push(nothing(alloc)?)?;
    }
    Ok(all)
}

/// The expansions of so many variants of no terms.
fn expansions<R: Threads + Sync, E: Expander>(
    rt: &R,
    alloc: Global,
    expander: &E,
    count: u32,
    workers: u32,
) -> Result<usize, NoMemory>
    requires fixed { FixesNothing (E.setting expander.now) }
    requires workers { (1 ≤ workers) × (workers ≤ WORKERS) }
{
    let list = members(alloc, count)?;
    let es = expand_level(rt, alloc, expander, list.as_slice(), workers, &OpenGate)?;
    Ok(es.len())
}

/// Of two expansions by two workers, those that saw the other inside.
fn met<R: Threads + Sync>(rt: &R, alloc: Global, sig: &Signature) -> Result<u32, NoMemory> {
    let plain = inert(sig);
    let meeting = Meeting::new(&plain);
    let count = expansions(rt, alloc, &meeting, 2, 2)?;
    Ok(if count == 2 { meeting.met() } else { 0 })
}

// So many variants have as many expansions.
fn assert_counts<R: Threads + Abort + Sync>(
    rt: &R,
    alloc: Global,
    sig: &Signature,
) -> Result<(), NoMemory> {
    let plain = inert(sig);
    for count in [0, 1, 2, 5, 17, 40] {
        let found = expansions(rt, alloc, &plain, count, 16)?;
        assert_eq!(rt; found, count as usize, "of {count}");
    }
    Ok(())
}

#[test]
fn each_member_is_expanded(rt: HostRuntime) -> Result<(), NoMemory> {
    if let Some(sig) = signature_of(rt.alloc(), "A; f : -> A")? {
        return assert_counts(&rt, rt.alloc(), &sig);
    }
    assert_eq!(rt; "no signature", "");
    Ok(())
}

// Two expansions see each other.
fn assert_met<R: Threads + Abort + Sync>(
    rt: &R,
    alloc: Global,
    sig: &Signature,
) -> Result<(), NoMemory> {
    let found = met(rt, alloc, sig)?;
    assert_eq!(rt; found, 2);
    Ok(())
}

#[test]
fn expansions_meet(rt: HostRuntime) -> Result<(), NoMemory> {
    if let Some(sig) = signature_of(rt.alloc(), "A; f : -> A")? {
        return assert_met(&rt, rt.alloc(), &sig);
    }
    assert_eq!(rt; "no signature", "");
    Ok(())
}
