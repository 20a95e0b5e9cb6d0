//! Compares, prunes and marks the variants of tests.
ghost use Rattle.std.specs.Prelude.{All};
ghost use Rattle.fvn_cover.specs.Covering.{IsFlatVariant};

use super::variants::{are_all_alike, is_alike, variant_of, variants_of};
use fvn_cover::{OpenGate, Variant, all_kept, covers, marks, prune};
use fvn_signature::Signature;
use fvn_terms::NoMemory;
use fvn_tests_samples::push_flat;
use std::alloc::Global;
use std::thread::Threads;

// Whether one variant covers the other; nothing where they cannot be compared.
fn word_of(
    alloc: Global,
    sig: &Signature,
    a: &Variant,
    b: &Variant,
) -> Result<&'static str, NoMemory>
    requires first { IsFlatVariant sig.now a.now }
    requires second { IsFlatVariant sig.now b.now }
{
    if !is_alike(a, b) {
        return Ok("");
    }
    let found = covers(alloc, sig, a, b)?;
    Ok(if found { "yes" } else { "no" })
}

// Whether the first covers the second, and the second the first.
fn both(alloc: Global, sig: &Signature, a: &Variant, b: &Variant) -> Result<String, NoMemory>
    requires first { IsFlatVariant sig.now a.now }
    requires second { IsFlatVariant sig.now b.now }
{
    let first = word_of(alloc, sig, a, b)?;
    let second = word_of(alloc, sig, b, a)?;
    Ok(format!(in alloc; "{first} {second}")?)
}

/// Whether each of the two variants covers the other.
pub fn shown_both(alloc: Global, sig: &Signature, text: &str) -> Result<String, NoMemory> {
    let (one, other) = text.split_once(" / ").unwrap_or((text, ""));
    let Some(a) = variant_of(alloc, sig, one)? else {
        return Ok(String::new(alloc));
    };
    match variant_of(alloc, sig, other)? {
        Some(b) => both(alloc, sig, &a, &b),
        None => Ok(String::new(alloc)),
    }
}

// The first value of each variant.
fn shown_values(alloc: Global, sig: &Signature, list: &[Variant]) -> Result<String, NoMemory> {
    let mut out = String::new(alloc);
    for v in list {
        if !out.is_empty() {
            out.push_str(", ")?;
        }
        if v.subst.len() > 0 {
            push_flat(&mut out, sig, v.subst.pair(0).1)?;
        }
    }
    Ok(out)
}

// The first values of those that are left; nothing where they cannot be compared.
fn pruned(alloc: Global, sig: &Signature, list: Vec<Variant>) -> Result<String, NoMemory>
    requires { All (IsFlatVariant sig.now) list.items }
{
    if !are_all_alike(list.as_slice(), list.as_slice()) {
        return Ok(String::new(alloc));
    }
    let kept = prune(alloc, sig, list)?;
    shown_values(alloc, sig, kept.as_slice())
}

/// The first values of the variants that are left.
pub fn shown_pruned(alloc: Global, sig: &Signature, text: &str) -> Result<String, NoMemory> {
    match variants_of(alloc, sig, text)? {
        Some(list) => pruned(alloc, sig, list),
        None => Ok(String::new(alloc)),
    }
}

// The number of workers that a word tells.
fn workers_of(word: &str) -> u32 {
    if word == "1" {
        return 1;
    }
    if word == "2" {
        return 2;
    }
    if word == "3" { 3 } else { 16 }
}

// Marks as words.
fn shown_marks(alloc: Global, found: &[bool]) -> Result<String, NoMemory> {
    let mut out = String::new(alloc);
    for mark in found {
        if !out.is_empty() {
            out.push_str(" ")?;
        }
        out.push_str(if *mark { "yes" } else { "no" })?;
    }
    Ok(out)
}

// The marks of the candidates, found by so many workers; nothing where they cannot be compared.
fn marked<R: Threads + Sync>(
    rt: &R,
    alloc: Global,
    sig: &Signature,
    kept: Vec<Variant>,
    candidates: Vec<Variant>,
    workers: u32,
) -> Result<String, NoMemory>
    requires kept { All (IsFlatVariant sig.now) kept.items }
    requires candidates { All (IsFlatVariant sig.now) candidates.items }
{
    let alike = are_all_alike(kept.as_slice(), candidates.as_slice());
    if alike && 1 <= workers && workers <= 16 {
        let kept = all_kept(alloc, sig, kept)?;
        let candidates = all_kept(alloc, sig, candidates)?;
        let found = marks(
            rt,
            alloc,
            sig,
            kept.as_slice(),
            candidates.as_slice(),
            workers,
            &OpenGate,
        )?;
        return shown_marks(alloc, found.as_slice());
    }
    Ok(String::new(alloc))
}

/// The marks of candidates, found by so many workers.
pub fn shown_marked<R: Threads + Sync>(
    rt: &R,
    alloc: Global,
    sig: &Signature,
    text: &str,
) -> Result<String, NoMemory> {
    let (workers, text) = text.split_once(" / ").unwrap_or((text, ""));
    let (left, right) = text.split_once(" / ").unwrap_or((text, ""));
    let Some(kept) = variants_of(alloc, sig, left)? else {
        return Ok(String::new(alloc));
    };
    match variants_of(alloc, sig, right)? {
        Some(candidates) => marked(rt, alloc, sig, kept, candidates, workers_of(workers)),
        None => Ok(String::new(alloc)),
    }
}
