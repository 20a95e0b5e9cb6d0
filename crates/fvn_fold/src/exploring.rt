//! Explorations, level by level.
ghost use Rattle.std.specs.Prelude.{◌≡◌, ◌≤◌, ◌<◌, ◌+◌, ◌++◌, length, IfOk};
ghost use Rattle.fvn_cover.specs.declared.marking.TheConstants.{WORKERS};
ghost use Rattle.fvn_exploring.specs.Explorations.{AreOverStart, IsExploration};
ghost use Rattle.fvn_exploring.specs.LevelRuns.{IsStart};
ghost use Rattle.fvn_exploring.specs.Setting.{AreLawfulIn};
ghost use Rattle.fvn_fold.specs.Starts.{IsStartable, IsSettingIn, AreFixedFor};
ghost use Rattle.fvn_fold.specs.inner.Gathering.{IsTask};
ghost use Rattle.fvn_fold.specs.inner.Running.{lists_of, AreKept, IsEndedAtLast, IsEndFull, IsOverOrWhole, IsTurned};

use crate::beginning::{Begun, begin};
use crate::levels::{Level, Task, is_whole, next_level};
use crate::runs::{Run, finish, first_run, with_level};
use crate::sharing::most_children;
use fvn_base::Seq;
use fvn_closure::{coverings_carry_liftings, level_runs_are_lawful};
use fvn_cover::{Gate, Kept, Variant};
use fvn_exploring::{Expander, ExploreEnd, Explored, Limits};
use fvn_flat::Flat;
use fvn_signature::Signature;
use fvn_terms::{NoMemory, covering_is_reflexive_and_transitive};
use std::alloc::Global;
use std::thread::Threads;

// What comes after a level: the run with one more, or what was explored.
#[derive(Drop)]
enum Turn {
    On(Run),
    Done(Explored),
}

// What was explored, where the last level of the run is the last that is allowed, and this would be the next one.
fn at_last(
    alloc: Global,
    sig: &Signature,
    limits: Limits,
    run: Run,
    level: Level,
) -> Result<Explored, NoMemory>
    requires kept { AreKept sig.now run.kept.items }
    ensures { IfOk result
        (IsEndedAtLast sig.now limits (lists_of run) limits.levels level.next.items level.end) }
{
    let depth = limits.levels;
    let Level {
        next,
        end,
        children: _,
    } = level;
    let mut left = next;
    if left.is_empty() {
        let x = finish(alloc, sig, run, depth, end.into_explore_end())?;
        return Ok(x);
    }
    let v = left.remove(0).into_variant();
    let x = finish(alloc, sig, run, depth, ExploreEnd::Levels(v))?;
    Ok(x)
}

// What was explored, where there are more variants for the next level than may be kept.
fn full(
    alloc: Global,
    sig: &Signature,
    limits: Limits,
    run: Run,
    depth: u32,
    next: Vec<Kept>,
) -> Result<Explored, NoMemory>
    requires kept { AreKept sig.now (run.kept.items ++ next.items) }
    requires more_levels { depth < limits.levels }
    requires few { length run.kept.items ≤ limits.variants }
    requires many { limits.variants < length run.kept.items + length next.items }
    ensures { IfOk result (IsEndFull sig.now limits (lists_of run) depth next.items) }
{
    let room = limits.variants as usize - run.kept.len();
    let mut front = next;
    let v = front.remove(room).into_variant();
    front.truncate(room);
    let more = with_level(alloc, sig, run, depth, front)?;
    let x = finish(alloc, sig, more, depth + 1, ExploreEnd::Variants(v))?;
    Ok(x)
}

// Whether nothing comes after the next level: an expansion was not whole, or nothing is new.
fn is_over(level: &Level) -> bool
    ensures { IsOverOrWhole result level.now.next.items level.now.end }
{
    if level.next.is_empty() {
        return true;
    }
    !is_whole(&level.end)
}

// What comes after a level that has all of this next one: the run with it, or what was explored where none follows.
fn next_turn(
    alloc: Global,
    sig: &Signature,
    limits: Limits,
    run: Run,
    depth: u32,
    level: Level,
) -> Result<Turn, NoMemory>
    requires kept { AreKept sig.now (run.kept.items ++ level.next.items) }
    requires more_levels { depth < limits.levels }
    requires few { length run.kept.items + length level.next.items ≤ limits.variants }
    ensures { IfOk result
        (IsTurned sig.now limits (lists_of run) depth level.next.items level.end) }
{
    let over = is_over(&level);
    let Level {
        next,
        end,
        children: _,
    } = level;
    let more = with_level(alloc, sig, run, depth, next)?;
    if !over {
        return Ok(Turn::On(more));
    }
    let x = finish(alloc, sig, more, depth + 1, end.into_explore_end())?;
    Ok(Turn::Done(x))
}

// The run with the next level, or what was explored where none follows.
fn after_level(
    alloc: Global,
    sig: &Signature,
    limits: Limits,
    run: Run,
    depth: u32,
    level: Level,
) -> Result<Turn, NoMemory>
    requires kept { AreKept sig.now (run.kept.items ++ level.next.items) }
    requires within { depth ≤ limits.levels }
    requires few { length run.kept.items ≤ limits.variants }
    ensures { IfOk result
        (IsTurned sig.now limits (lists_of run) depth level.next.items level.end) }
{
    if depth == limits.levels {
        let x = at_last(alloc, sig, limits, run, level)?;
        return Ok(Turn::Done(x));
    }
    let room = limits.variants as usize - run.kept.len();
    if level.next.len() > room {
        let Level {
            next,
            end: _,
            children: _,
        } = level;
        let x = full(alloc, sig, limits, run, depth, next)?;
        return Ok(Turn::Done(x));
    }
    let t = next_turn(alloc, sig, limits, run, depth, level)?;
    Ok(t)
}

// The level below this one, which is allowed.
fn level_below(depth: u32, limits: Limits) -> u32
    requires { depth < limits.levels }
    ensures { result ≡ depth + 1 }
{
    depth + 1
}

// The levels from the start on.
fn levels<R: Threads + Sync, G: Gate, E: Expander>(
    rt: &R,
    task: &Task<'_, E>,
    gate: &G,
    start: &[Flat],
    first: Variant,
) -> Result<Explored, NoMemory>
    requires task { IsTask (E.setting task.now.expander.now) task.now.sig.now task.now.limits }
    requires start { IsStartable task.now.sig.now start.now }
    requires fixed { AreOverStart (E.setting task.now.expander.now) start.now }
    requires variants { 1 ≤ task.now.limits.variants }
    requires lawful { AreLawfulIn (E.setting task.now.expander.now) }
    requires first { IsStart (E.setting task.now.expander.now) start.now first }
    ensures { IfOk result
        (IsExploration (E.setting task.now.expander.now) (E.drawn task.now.expander.now)
        start.now task.now.limits) }
{
    task.sig.recall_good();
    task.sig.recall_completed();
    coverings_carry_liftings();
    level_runs_are_lawful(task.expander);
    covering_is_reflexive_and_transitive();
    let mut run = first_run(task.alloc, task.sig, first)?;
    let mut depth = 0;
    let mut expected = 0;
    loop {
        let level = next_level(
            rt,
            task,
            gate,
            run.kept.as_slice(),
            run.members.as_slice(),
            expected,
        )?;
        let members = run.members.len();
        let children = most_children(expected, level.next.len(), level.children, members);
        match after_level(task.alloc, task.sig, task.limits, run, depth, level)? {
            Turn::Done(x) => return Ok(x),
            Turn::On(more) => {
                run = more;
                depth = level_below(depth, task.limits);
                expected = children;
            }
        }
    }
}

/// What is found of the variants of a list of terms, level by level, and why it ended.
///
/// The first level has the normal forms of the terms with all variables renamed. The next one has the children of the
/// members of the last that no kept variant covers, none covering another. Members are expanded and children compared
/// by as many workers as the limits say.
pub fn explore<R: Threads + Sync, G: Gate, E: Expander>(
    rt: &R,
    alloc: Global,
    sig: &Signature,
    expander: &E,
    start: &[Flat],
    limits: Limits,
    gate: &G,
) -> Result<Explored, NoMemory>
    requires setting { IsSettingIn (E.setting expander.now) sig.now }
    requires start { IsStartable sig.now start.now }

    // The fixed terms are over the start's variables, and irreducible as they are given.
    requires fixed { AreFixedFor (E.setting expander.now) start.now }
    requires variants { 1 ≤ limits.variants }
    requires workers { (1 ≤ limits.workers) × (limits.workers ≤ WORKERS) }
    ensures exploration { IfOk result
        (IsExploration (E.setting expander.now) (E.drawn expander.now) start.now limits) }
{
    match begin(alloc, sig, expander, start)? {
        Begun::Start(first) => {
            let task = Task {
                alloc,
                sig,
                expander,
                limits,
            };
            let x = levels(rt, &task, gate, start, first)?;
            Ok(x)
        }
        Begun::End(end) => Ok(Explored {
            kept: Seq::new(alloc),
            variants: Seq::new(alloc),
            end,
        }),
    }
}
