//! Expansions of many variants, found by several workers.
ghost use Rattle.std.specs.Prelude.{◌≤◌, ◌<◌, ◌++◌, length, IfOk};
ghost use Rattle.std.specs.Thread.{IsSync};
ghost use Rattle.fvn_base.specs.declared.limits.TheConstants.{EXPANDED_FRESH};
ghost use Rattle.fvn_cover.specs.declared.marking.TheConstants.{WORKERS};
ghost use Rattle.fvn_cover.specs.Pieces.{IsRange};
ghost use Rattle.fvn_fold.specs.Levels.{AreExpandable, AreExpansions};

use fvn_base::limits::EXPANDED_FRESH;
use fvn_cover::{Gate, Variant, piece_count, piece_start};
use fvn_exploring::{Expander, Expansion};
use fvn_terms::NoMemory;
use std::alloc::Global;
use std::thread::{Threads, join};

// What all pieces share: the expander, the gate, and how many pieces so many members are cut into.
#[derive(Drop)]
struct Work<'a, G: Gate, E: Expander> {
    alloc: Global,
    expander: &'a E,
    gate: &'a G,
    count: usize,
    pieces: u32,
}

// The expansions of members, one after another.
fn expanded<E: Expander>(
    alloc: Global,
    expander: &E,
    members: &[Variant],
) -> Result<Vec<Expansion>, NoMemory>
    requires { AreExpandable (E.setting expander.now) members.now }
    ensures { IfOk result (λ es.
        AreExpansions (E.setting expander.now) (E.drawn expander.now) members.now es.items) }
{
    let mut es = Vec::new(alloc);
    for v in members {
        let e = expander.expand(alloc, v, EXPANDED_FRESH)?;
        es.push(e)?;
    }
    Ok(es)
}

// The expansions of the members in the pieces from `low` to below `high`.
#[cycle(pieces)]
fn run<R: Threads + Sync, G: Gate, E: Expander>(
    rt: &R,
    work: &Work<'_, G, E>,
    members: &[Variant],
    low: u32,
    high: u32,
) -> Result<Vec<Expansion>, NoMemory>
    requires range { IsRange work.now.count work.now.pieces low high (length members.now) }
    requires members { AreExpandable (E.setting work.now.expander.now) members.now }
    ensures { IfOk result (λ es.
        AreExpansions (E.setting work.now.expander.now) (E.drawn work.now.expander.now)
        members.now es.items) }
{
    if high - low == 1 {
        work.gate.enter(low);
        let es = expanded(work.alloc, work.expander, members)?;
        return Ok(es);
    }
    let middle = low + (high - low) / 2;
    let begin = piece_start(work.count, work.pieces, low);
    let size = piece_start(work.count, work.pieces, middle) - begin;
    let (front, back) = members.split_at(size);
    let es = halves(rt, work, front, low, middle, back, high)?;
    Ok(es)
}

// The expansions of two neighbouring ranges of pieces, each in a thread of its own where one can be had.
#[cycle(pieces)]
fn halves<R: Threads + Sync, G: Gate, E: Expander>(
    rt: &R,
    work: &Work<'_, G, E>,
    front: &[Variant],
    low: u32,
    middle: u32,
    back: &[Variant],
    high: u32,
) -> Result<Vec<Expansion>, NoMemory>
    requires front { IsRange work.now.count work.now.pieces low middle (length front.now)
        × AreExpandable (E.setting work.now.expander.now) front.now }
    requires back { IsRange work.now.count work.now.pieces middle high (length back.now)
        × AreExpandable (E.setting work.now.expander.now) back.now }
    ensures { IfOk result (λ es.
        AreExpansions (E.setting work.now.expander.now) (E.drawn work.now.expander.now)
        (front.now ++ back.now) es.items) }
{
    let left = move || -> Result<Vec<Expansion>, NoMemory>
        requires { IsSync R.row × IsSync G.row × IsSync E.row
            × IsRange work.now.count work.now.pieces low middle (length front.now)
            × AreExpandable (E.setting work.now.expander.now) front.now }
        ensures { IfOk result (λ es. AreExpansions (E.setting work.entry.now.expander.now)
            (E.drawn work.entry.now.expander.now) front.entry.now es.items) }
    { run(rt, work, front, low, middle) };
    let right = move || -> Result<Vec<Expansion>, NoMemory>
        requires { IsSync R.row × IsSync G.row × IsSync E.row
            × IsRange work.now.count work.now.pieces middle high (length back.now)
            × AreExpandable (E.setting work.now.expander.now) back.now }
        ensures { IfOk result (λ es. AreExpansions (E.setting work.entry.now.expander.now)
            (E.drawn work.entry.now.expander.now) back.entry.now es.items) }
    { run(rt, work, back, middle, high) };
    let (first, second) = join(rt, left, right);
    let mut es = first?;
    let mut rest = second?;
    es.append(&mut rest)?;
    Ok(es)
}

/// For each member, what it is expanded to.
///
/// The members are cut into as many pieces as there are workers, or members if these are fewer.
/// Each piece goes through the gate and is then expanded in order.
/// Pieces run at once, where threads can be had.
pub fn expand_level<R: Threads + Sync, G: Gate, E: Expander>(
    rt: &R,
    alloc: Global,
    expander: &E,
    members: &[Variant],
    workers: u32,
    gate: &G,
) -> Result<Vec<Expansion>, NoMemory>
    requires workers { (1 ≤ workers) × (workers ≤ WORKERS) }
    requires members { AreExpandable (E.setting expander.now) members.now }
    ensures expanded { IfOk result (λ es.
        AreExpansions (E.setting expander.now) (E.drawn expander.now) members.now es.items) }
{
    if members.is_empty() {
        return Ok(Vec::new(alloc));
    }
    let count = members.len();
    let pieces = piece_count(workers, count);
    let work = Work {
        alloc,
        expander,
        gate,
        count,
        pieces,
    };
    let es = run(rt, &work, members, 0, pieces)?;
    Ok(es)
}
