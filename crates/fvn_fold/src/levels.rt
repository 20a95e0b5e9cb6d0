//! The next level of a level: its members are expanded, and their children folded into those that are kept.
ghost use Rattle.std.specs.Prelude.{◌≡◌, ◌≤◌, true, ◌↔◌, IsTrue, IfOk, All, Contains};
ghost use Rattle.fvn_cover.specs.Covering.{CoversVariant, AreAlike, IsFlatVariant};
ghost use Rattle.fvn_terms.specs.CompleteSets.{IsApart};
ghost use Rattle.fvn_cover.specs.Marks.{AreComparable, AreMarks};
ghost use Rattle.fvn_cover.specs.declared.marking.TheConstants.{WORKERS};
ghost use Rattle.fvn_exploring.specs.declared.ends.ExpandEnd.TheVariants.{Whole};
ghost use Rattle.fvn_fold.specs.inner.Gathering.{IsTask, AreReady, IsGatheredFrom, IsMarkedOrAdded, AreTaken, AreNext, IsMoreOfLevel, IsNextLevel};

use crate::expanding::expand_level;
use crate::sharing::{COMPARISONS, MEMBERS, run_workers, sharers};
use fvn_cover::{
    Gate, Kept, Variant, all_kept, covering_of_variants_is_a_preorder, marks, with_member,
};
use fvn_exploring::{ExpandEnd, Expander, Expansion, Limits};
use fvn_signature::Signature;
use fvn_terms::NoMemory;
use std::alloc::Global;
use std::thread::Threads;

/// What an exploration goes on with: memory, the signature, the expander and the limits.
#[derive(Drop)]
pub(crate) struct Task<'a, E: Expander> {
    pub alloc: Global,
    pub sig: &'a Signature,
    pub expander: &'a E,
    pub limits: Limits,
}

// Members that are expanded at once, for each worker.
const CHUNK: u32 = 64;

// Children that were found, and the first end that is not Whole, if there is one.
#[derive(Drop)]
struct Gathered {
    candidates: Vec<Variant>,
    end: ExpandEnd,
}

/// The next level, the first end of a member that is not Whole, if there is one, and how many children the members had.
#[derive(Drop)]
pub(crate) struct Level {
    pub next: Vec<Kept>,
    pub end: ExpandEnd,
    pub children: usize,
}

/// Whether the end is Whole.
pub(crate) fn is_whole(end: &ExpandEnd) -> bool
    ensures { IsTrue result ↔ (end.now ≡ Whole) }
{
    match end {
        ExpandEnd::Whole => true,
        ExpandEnd::Steps(_, _) => false,
        ExpandEnd::Size(_) => false,
        ExpandEnd::Basis(_, _) => false,
        ExpandEnd::Unifiers(_, _) => false,
    }
}

// The children of all expansions, up to the first whose end is not Whole.
fn gather(alloc: Global, expansions: Vec<Expansion>) -> Result<Gathered, NoMemory>
    ensures { IfOk result (λ r. IsGatheredFrom expansions.items r.candidates.items r.end) }
{
    let mut candidates = Vec::new(alloc);
    for expansion in expansions {
        let (children, end) = expansion.into_parts();
        let mut more = children.into_vec();
        candidates.append(&mut more)?;
        if !is_whole(&end) {
            return Ok(Gathered { candidates, end });
        }
    }
    Ok(Gathered {
        candidates,
        end: ExpandEnd::Whole,
    })
}

// The list with the candidate, unless it is marked or a member covers it, without those that it then covers.
fn with_candidate(
    alloc: Global,
    sig: &Signature,
    before: Vec<Kept>,
    candidate: Kept,
    mark: bool,
) -> Result<Vec<Kept>, NoMemory>
    requires flat { IsFlatVariant sig.now candidate × All (IsFlatVariant sig.now) before.items }
    requires alike { All (λ k. AreAlike k candidate) before.items }
    ensures { IfOk result (λ after.
        IsMarkedOrAdded sig.now mark before.items candidate after.items) }
{
    if mark {
        return Ok(before);
    }
    let after = with_member(alloc, sig, before, candidate)?;
    Ok(after)
}

// The list with the candidates that are not marked, each if no member covers it, without those that it then covers.
fn taken(
    alloc: Global,
    sig: &Signature,
    kept: &[Kept],
    before: Vec<Kept>,
    candidates: Vec<Kept>,
    marks: &[bool],
) -> Result<Vec<Kept>, NoMemory>
    requires comparable { AreComparable sig.now kept.now candidates.items }
    requires marks { AreMarks sig.now kept.now candidates.items marks.now }
    requires flat { All (IsFlatVariant sig.now) before.items }
    requires apart { IsApart (CoversVariant sig.now) before.items }
    requires alike { All (λ a. All (AreAlike a) before.items) candidates.items }
    requires candidates { All (λ a. All (AreAlike a) candidates.items) candidates.items }
    ensures { IfOk result (λ after.
        AreTaken sig.now kept.now before.items candidates.items after.items) }
{
    covering_of_variants_is_a_preorder();
    let mut after = before;
    let mut i = 0;
    for candidate in candidates {
        let mark = marks[i];
        after = with_candidate(alloc, sig, after, candidate, mark)?;
        i += 1;
    }
    Ok(after)
}

// Some members of a level: what the next level is with what their children add, and their first end that is not Whole.
// Small work is not shared: a thread costs more than it would save.
fn chunk_level<R: Threads + Sync, G: Gate, E: Expander>(
    rt: &R,
    task: &Task<'_, E>,
    gate: &G,
    kept: &[Kept],
    members: &[Variant],
    before: Vec<Kept>,
    workers: u32,
) -> Result<Level, NoMemory>
    requires task { IsTask (E.setting task.now.expander.now) task.now.sig.now task.now.limits }
    requires ready { AreReady (E.setting task.now.expander.now) kept.now }
    requires members { All (Contains kept.now) members.now }
    requires before { AreNext (E.setting task.now.expander.now) (E.drawn task.now.expander.now)
        kept.now kept.now before.items }
    requires some_workers { 1 ≤ workers }
    requires few_workers { workers ≤ WORKERS }
    ensures { IfOk result (λ l.
        IsMoreOfLevel (E.setting task.now.expander.now) (E.drawn task.now.expander.now)
        kept.now members.now before.items l.next.items l.end) }
{
    let expanding = sharers(workers, members.len(), MEMBERS);
    let expansions = expand_level(rt, task.alloc, task.expander, members, expanding, gate)?;
    let found = gather(task.alloc, expansions)?;
    let Gathered { candidates, end } = found;
    let children = all_kept(task.alloc, task.sig, candidates)?;
    let count = children.len();
    let comparisons = count.saturating_mul(kept.len());
    let comparing = sharers(workers, comparisons, COMPARISONS);
    let covered = marks(
        rt,
        task.alloc,
        task.sig,
        kept,
        children.as_slice(),
        comparing,
        gate,
    )?;
    let next = taken(
        task.alloc,
        task.sig,
        kept,
        before,
        children,
        covered.as_slice(),
    )?;
    Ok(Level {
        next,
        end,
        children: count,
    })
}

/// The next level of a level, and the first end of a member that is not Whole, if there is one.
///
/// Several workers find it where as many children are expected, of this level or one before, as are worth threads.
pub(crate) fn next_level<R: Threads + Sync, G: Gate, E: Expander>(
    rt: &R,
    task: &Task<'_, E>,
    gate: &G,
    kept: &[Kept],
    members: &[Variant],
    expected: usize,
) -> Result<Level, NoMemory>
    requires task { IsTask (E.setting task.now.expander.now) task.now.sig.now task.now.limits }
    requires ready { AreReady (E.setting task.now.expander.now) kept.now }
    requires members { All (Contains kept.now) members.now }
    ensures { IfOk result (λ l.
        IsNextLevel (E.setting task.now.expander.now) (E.drawn task.now.expander.now)
        kept.now members.now l.next.items l.end) }
{
    let workers = run_workers(task.limits.workers, expected);
    let size = (CHUNK as usize) * (workers as usize);
    let mut next = Vec::new(task.alloc);
    let mut children: usize = 0;
    let mut begin = 0;
    while begin < members.len() {
        let after = members.len().min(begin + size);
        let chunk = &members[begin..after];
        let level = chunk_level(rt, task, gate, kept, chunk, next, workers)?;
        if !is_whole(&level.end) {
            return Ok(level);
        }
        children = children.saturating_add(level.children);
        next = level.next;
        begin = after;
    }
    Ok(Level {
        next,
        end: ExpandEnd::Whole,
        children,
    })
}
