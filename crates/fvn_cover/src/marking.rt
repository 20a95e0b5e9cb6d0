//! Which candidates are covered, found by several workers.
ghost use Rattle.std.specs.Prelude.{◌<◌, ◌≤◌, ◌++◌, length, IfOk};
ghost use Rattle.std.specs.Thread.{IsSync};
ghost use Rattle.fvn_cover.specs.declared.marking.TheConstants.{WORKERS};
ghost use Rattle.fvn_cover.specs.Marks.{AreComparable, AreMarks};
ghost use Rattle.fvn_cover.specs.Pieces.{IsRange};

use crate::gate::Gate;
use crate::keeping::Kept;
use crate::pieces::{piece_count, piece_start};
use crate::pruning::is_covered;
use fvn_signature::Signature;
use fvn_terms::NoMemory;
use std::alloc::Global;
use std::thread::{Threads, join};

/// The most workers of one call.
pub const WORKERS: u32 = 16;

// What all pieces share: the kept variants, the gate, and how many pieces so many candidates are cut into.
#[derive(Drop)]
struct Work<'a, G: Gate> {
    alloc: Global,
    sig: &'a Signature,
    kept: &'a [Kept],
    gate: &'a G,
    count: usize,
    pieces: u32,
}

// The marks of candidates, one after another.
fn marked(
    alloc: Global,
    sig: &Signature,
    kept: &[Kept],
    candidates: &[Kept],
) -> Result<Vec<bool>, NoMemory>
    requires { AreComparable sig.now kept.now candidates.now }
    ensures { IfOk result (λ marks. AreMarks sig.now kept.now candidates.now marks.items) }
{
    let mut marks = Vec::new(alloc);
    for c in candidates {
        let mark = is_covered(alloc, sig, kept, c)?;
        marks.push(mark)?;
    }
    Ok(marks)
}

// The marks of the candidates in the pieces from `low` to below `high`.
#[cycle(pieces)]
fn run<R: Threads + Sync, G: Gate>(
    rt: &R,
    work: &Work<'_, G>,
    candidates: &[Kept],
    low: u32,
    high: u32,
) -> Result<Vec<bool>, NoMemory>
    requires range { IsRange work.now.count work.now.pieces low high (length candidates.now) }
    requires comparable { AreComparable work.now.sig.now work.now.kept.now candidates.now }
    ensures { IfOk result (λ marks.
        AreMarks work.now.sig.now work.now.kept.now candidates.now marks.items) }
{
    if high - low == 1 {
        work.gate.enter(low);
        let marks = marked(work.alloc, work.sig, work.kept, candidates)?;
        return Ok(marks);
    }
    let middle = low + (high - low) / 2;
    let begin = piece_start(work.count, work.pieces, low);
    let size = piece_start(work.count, work.pieces, middle) - begin;
    let (front, back) = candidates.split_at(size);
    let marks = halves(rt, work, front, low, middle, back, high)?;
    Ok(marks)
}

// The marks of two neighbouring ranges of pieces, each in a thread of its own where one can be had.
#[cycle(pieces)]
fn halves<R: Threads + Sync, G: Gate>(
    rt: &R,
    work: &Work<'_, G>,
    front: &[Kept],
    low: u32,
    middle: u32,
    back: &[Kept],
    high: u32,
) -> Result<Vec<bool>, NoMemory>
    requires front { IsRange work.now.count work.now.pieces low middle (length front.now)
        × AreComparable work.now.sig.now work.now.kept.now front.now }
    requires back { IsRange work.now.count work.now.pieces middle high (length back.now)
        × AreComparable work.now.sig.now work.now.kept.now back.now }
    ensures { IfOk result (λ marks. AreMarks work.now.sig.now work.now.kept.now
        (front.now ++ back.now) marks.items) }
{
    let left = move || -> Result<Vec<bool>, NoMemory>
        requires { IsSync R.row × IsSync G.row
            × IsRange work.now.count work.now.pieces low middle (length front.now)
            × AreComparable work.now.sig.now work.now.kept.now front.now }
        ensures { IfOk result (λ marks. AreMarks work.entry.now.sig.now work.entry.now.kept.now
            front.entry.now marks.items) }
    { run(rt, work, front, low, middle) };
    let right = move || -> Result<Vec<bool>, NoMemory>
        requires { IsSync R.row × IsSync G.row
            × IsRange work.now.count work.now.pieces middle high (length back.now)
            × AreComparable work.now.sig.now work.now.kept.now back.now }
        ensures { IfOk result (λ marks. AreMarks work.entry.now.sig.now work.entry.now.kept.now
            back.entry.now marks.items) }
    { run(rt, work, back, middle, high) };
    let (first, second) = join(rt, left, right);
    let mut marks = first?;
    let mut rest = second?;
    marks.append(&mut rest)?;
    Ok(marks)
}

/// For each candidate, whether some kept variant covers it.
///
/// The candidates are cut into as many pieces as there are workers, or candidates if these are fewer.
/// Each piece goes through the gate and is then marked in order.
/// Pieces run at once, where threads can be had.
pub fn marks<R: Threads + Sync, G: Gate>(
    rt: &R,
    alloc: Global,
    sig: &Signature,
    kept: &[Kept],
    candidates: &[Kept],
    workers: u32,
    gate: &G,
) -> Result<Vec<bool>, NoMemory>
    requires workers { (1 ≤ workers) × (workers ≤ WORKERS) }
    requires comparable { AreComparable sig.now kept.now candidates.now }
    ensures marks { IfOk result (λ m. AreMarks sig.now kept.now candidates.now m.items) }
{
    if candidates.is_empty() {
        return Ok(Vec::new(alloc));
    }
    let count = candidates.len();
    let pieces = piece_count(workers, count);
    let work = Work {
        alloc,
        sig,
        kept,
        gate,
        count,
        pieces,
    };
    let m = run(rt, &work, candidates, 0, pieces)?;
    Ok(m)
}
