//! Explorations over expanders without equations.
ghost use Rattle.std.specs.Prelude.{◌≤◌, ◌≡◌};
ghost use Rattle.fvn_cover.specs.declared.marking.TheConstants.{WORKERS};
ghost use Rattle.fvn_fold.specs.Starts.{IsSettingIn};
ghost use Rattle.fvn_tests_folding.specs.Nothing.{FixesNothing};

use super::explored::shown_explored;
use crate::failing::Failing;
use crate::handing::Handing;
use fvn_exploring::{Expander, Limits};
use fvn_signature::Signature;
use fvn_terms::NoMemory;
use fvn_tests_exploring::Inert;
use fvn_tests_samples::signature_of;
use fvn_theory::Bounds;
use std::alloc::Global;
use std::process::Abort;
use std::thread::Threads;

/// Constants and a free operator.
const SIGNATURE: &str = "A; f : -> A; g : -> A; h : A A -> A";

/// Terms with commas between them, each operator after its arguments, and the terms of the variants that are given.
///
/// Nothing steps: the start with its variables renamed is the only variant. A term has at most five symbols.
const EXPLORED: &str = "f => f; complete
A5 => #A0; complete
f, A3 A2 h => f, h(#A0 #A1); complete
A3 A3 h, A3 => h(#A0 #A0), #A0; complete
A3, A2, A3 A2 h => #A0, #A1, h(#A0 #A1); complete
f f h f h => h(h(f f) f); complete
f f h f f h h => size
f, f f h f f h h => size";

/// Terms, and a letter for each number of questions that is not enough: one a term is asked, and one for the start.
const ASKED: &str = "f => xx
A5, f => xxx
f, A3 A2 h, g => xxxx
f, f f h f f h h => xx";

/// Limits that no row meets but for the symbols.
fn limits(workers: u32) -> Limits
    ensures { (1 ≤ result.variants) × (result.workers ≡ workers) }
{
    Limits {
        levels: 3,
        variants: 10,
        steps: 10,
        size: 5,
        workers,
    }
}

/// Shows each row, and that it is what is wanted.
fn assert_rows<R: Threads + Abort + Sync, E: Expander>(
    rt: &R,
    alloc: Global,
    sig: &Signature,
    expander: &E,
    workers: u32,
) -> Result<(), NoMemory>
    requires setting { IsSettingIn (E.setting expander.now) sig.now }
    requires fixed { FixesNothing (E.setting expander.now) }
    requires workers { (1 ≤ workers) × (workers ≤ WORKERS) }
{
    for line in EXPLORED.lines() {
        let (text, want) = line.split_once(" => ").unwrap_or((line, "no row"));
        let found = shown_explored(rt, alloc, sig, expander, text, limits(workers))?;
        assert_eq!(rt; found.as_str(), want, "at {text}");
    }
    Ok(())
}

/// An expander over the signature, in which nothing steps.
pub fn inert(sig: &Signature) -> Inert<'_>
    ensures { result.declarations.now ≡ sig.now }
{
    Inert::new(sig.declarations(), Bounds { steps: 10, size: 5 })
}

// Both expanders, with one worker and with 16.
fn assert_explored<R: Threads + Abort + Sync>(
    rt: &R,
    alloc: Global,
    sig: &Signature,
) -> Result<(), NoMemory> {
    let plain = inert(sig);
    assert_rows(rt, alloc, sig, &plain, 1)?;
    let handing = Handing::new(&plain);
    assert_rows(rt, alloc, sig, &handing, 16)
}

/// The explorations of so many questions at most that are told: none of a text that asks more.
fn is_explored<R: Threads + Sync>(
    rt: &R,
    alloc: Global,
    sig: &Signature,
    text: &str,
    most: u32,
) -> bool {
    let plain = inert(sig);
    let failing = Failing::new(&plain, most);
    shown_explored(rt, alloc, sig, &failing, text, limits(1)).is_ok()
}

/// A letter for each number of questions that is not enough, from none on.
fn shown_questions<R: Threads + Sync>(
    rt: &R,
    alloc: Global,
    sig: &Signature,
    text: &str,
) -> Result<String, NoMemory> {
    let mut out = String::new(alloc);
    for most in 0..9 {
        if is_explored(rt, alloc, sig, text, most) {
            return Ok(out);
        }
        out.push('x')?;
    }
    Ok(out)
}

// How many questions each text asks is what its row says.
fn assert_asked<R: Threads + Abort + Sync>(
    rt: &R,
    alloc: Global,
    sig: &Signature,
) -> Result<(), NoMemory> {
    for line in ASKED.lines() {
        let (text, want) = line.split_once(" => ").unwrap_or((line, "no row"));
        let found = shown_questions(rt, alloc, sig, text)?;
        assert_eq!(rt; found.as_str(), want, "at {text}");
    }
    Ok(())
}

#[test]
fn starts_are_explored(rt: HostRuntime) -> Result<(), NoMemory> {
    if let Some(sig) = signature_of(rt.alloc(), SIGNATURE)? {
        return assert_explored(&rt, rt.alloc(), &sig);
    }
    assert_eq!(rt; SIGNATURE, "", "no signature");
    Ok(())
}

#[test]
fn want_of_memory_is_told(rt: HostRuntime) -> Result<(), NoMemory> {
    if let Some(sig) = signature_of(rt.alloc(), SIGNATURE)? {
        return assert_asked(&rt, rt.alloc(), &sig);
    }
    assert_eq!(rt; SIGNATURE, "", "no signature");
    Ok(())
}
