//! Tables of tests: a signature, and then rows, each a text with what is shown of it.
//!
//! Of the parts of a row between tildes the second, fourth and so on stands 199 times.
use super::comparing::{shown_both, shown_marked, shown_pruned};
use super::matching::shown_match;
use super::refining::shown_refined;
use super::terms::{shown_form, shown_instance, shown_renamed};
use fvn_signature::Signature;
use fvn_terms::NoMemory;
use fvn_tests_samples::signature_of;
use std::alloc::Global;
use std::process::Abort;
use std::thread::Threads;

/// What is shown of the texts of a table.
#[derive(Clone, Copy)]
pub enum Asked {
    Form,
    Renamed,
    Instance,
    Match,
    Covers,
    Pruned,
    Marked,
    Refined,
}

const OFTEN: u32 = 199;

// The part 199 times.
fn push_often(out: &mut String, part: &str) -> Result<(), NoMemory> {
    for _ in 0..OFTEN {
        out.push_str(part)?;
    }
    Ok(())
}

// A part as it is, or 199 times, by its place.
fn push_part(out: &mut String, place: usize, part: &str) -> Result<(), NoMemory> {
    if place % 2 == 1 {
        return push_often(out, part);
    }
    out.push_str(part)?;
    Ok(())
}

// The row that a text stands for.
fn expanded(alloc: Global, text: &str) -> Result<String, NoMemory> {
    let mut out = String::new(alloc);
    for (place, part) in text.split('~').enumerate() {
        push_part(&mut out, place, part)?;
    }
    Ok(out)
}

// What is shown of the text.
fn shown<R: Threads + Sync>(
    rt: &R,
    alloc: Global,
    sig: &Signature,
    what: Asked,
    text: &str,
    want: &str,
) -> Result<String, NoMemory> {
    match what {
        Asked::Form => shown_form(alloc, sig, text),
        Asked::Renamed => shown_renamed(alloc, sig, text),
        Asked::Instance => shown_instance(alloc, sig, text),
        Asked::Match => shown_match(alloc, sig, text, want),
        Asked::Covers => shown_both(alloc, sig, text),
        Asked::Pruned => shown_pruned(alloc, sig, text),
        Asked::Marked => shown_marked(rt, alloc, sig, text),
        Asked::Refined => shown_refined(alloc, sig, text),
    }
}

// What is shown of the text of a row is what the row says.
fn assert_row<R: Threads + Abort + Sync>(
    rt: &R,
    alloc: Global,
    sig: &Signature,
    what: Asked,
    line: &str,
) -> Result<(), NoMemory> {
    let row = expanded(alloc, line)?;
    let (text, want) = row.split_once(" => ").unwrap_or(("", "no row"));
    let found = shown(rt, alloc, sig, what, text, want)?;
    assert_eq!(rt; found.as_str(), want, "at {line}");
    Ok(())
}

// The same of each row.
fn assert_rows<R: Threads + Abort + Sync>(
    rt: &R,
    alloc: Global,
    sig: &Signature,
    what: Asked,
    lines: &str,
) -> Result<(), NoMemory> {
    for line in lines.lines() {
        assert_row(rt, alloc, sig, what, line)?;
    }
    Ok(())
}

// The rows of a block, over the signature of its first line.
fn assert_block<R: Threads + Abort + Sync>(
    rt: &R,
    alloc: Global,
    what: Asked,
    block: &str,
) -> Result<(), NoMemory> {
    let (text, lines) = block.split_once('\n').unwrap_or((block, "no row"));
    match signature_of(alloc, text)? {
        Some(sig) => assert_rows(rt, alloc, &sig, what, lines),
        None => Err(NoMemory),
    }
}

/// Each row of each signature's block is shown as it is wanted.
pub fn assert_table<R: Threads + Abort + Sync>(
    rt: &R,
    alloc: Global,
    what: Asked,
    table: &str,
) -> Result<(), NoMemory> {
    for block in table.split("\n\n") {
        assert_block(rt, alloc, what, block)?;
    }
    Ok(())
}
