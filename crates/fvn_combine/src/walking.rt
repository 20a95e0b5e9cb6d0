//! The choices of an open leaf, one after another.
ghost use Rattle.std.specs.Prelude.{◌≡◌, List, Option, IfOk, OnErr};
ghost use Rattle.fvn_terms.specs.declared.plain.OpId.{OpId as InOp};
ghost use Rattle.fvn_terms.specs.Substitution.{Substitution};
ghost use Rattle.fvn_combine_nodes.specs.States.{class_of};
ghost use Rattle.fvn_combine_leaves.specs.Readings.{IsReading};
ghost use Rattle.fvn_combine_leaves.specs.Bases.{AreBases};
ghost use Rattle.fvn_combine_drawing.specs.CombineCandidatesSharing.{AreSharedClasses};
ghost use Rattle.fvn_combine_drawing.specs.CombineTriangularReady.{IsReady};
ghost use Rattle.fvn_combine.specs.Leaves.{IsTurning, IsOpened, IsCoveredUnder, IsCoveredNow, IsCoveredToCome};
ghost use Rattle.fvn_combine.specs.Search.{IsCoveredAt, IsOpenedAt};
ghost use Rattle.fvn_combine.specs.inner.Found.{AreDrawnFrom, IsSameButCurrent, IsTurned, LeavesLess};
ghost use Rattle.fvn_combine.specs.Work.{leaf_left, left_at};
ghost use Rattle.fvn_acunify_product.specs.Wheels.{choices_left};

use crate::against::first_against;
use crate::effort::Effort;
use crate::opened::{Leaf, Opened, Turning};
use crate::task::Task;
use fvn_base::Seq;
use fvn_combine_drawing::{
    Drawn, SharedClass, draw, listed_choices_are_possible, sorted_choices_are_within,
    sum_operators_are_few, tags_of, wheels,
};
use fvn_combine_leaves::Reading;
use fvn_combine_nodes::State;
use fvn_combine_systems::tables_are_small;
use fvn_lindio::Solution;
use fvn_terms::NoMemory;

// The next unifier under the current tags.
fn next_of_turning(
    task: &Task,
    state: &State,
    reading: &Reading,
    bases: &[Seq<Solution>],
    shared: &[SharedClass],
    turning: &mut Turning,
    effort: &mut Effort,
) -> Result<Drawn, NoMemory>
    requires ready { IsReady task.now.declarations task.now.given task.now.first task.now.table
        state.now }
    requires reading { IsReading task.now.declarations task.now.table (class_of state.now)
        reading.now }
    requires bases { AreBases reading.now.sums bases.now }
    requires shared { AreSharedClasses task.now.declarations task.now.table (class_of state.now)
        task.now.sorted shared.now }
    requires turning { IsTurning task.now state.now reading.now bases.now shared.now turning.old }
    ensures turning { IsTurning task.now state.now reading.now bases.now shared.now turning.new }
    ensures fewer { (labels : List (Option InOp)) (u : Substitution)
        → IsCoveredUnder task.now state.now reading.now bases.now labels turning.new u
        → IsCoveredUnder task.now state.now reading.now bases.now labels turning.old u }
    ensures drawn { (labels : List (Option InOp)) → AreDrawnFrom task.now
        (IsCoveredUnder task.now state.now reading.now bases.now labels turning.old)
        (IsCoveredUnder task.now state.now reading.now bases.now labels turning.new) result }
    ensures falls { IfOk result (LeavesLess (choices_left turning.old.wheels)
        (choices_left turning.new.wheels)) }
{
    let _shared = shared;
    task.recall();
    tables_are_small();
    'choices: loop {
        let numbers = match turning.wheels.current() {
            None => return Ok(Drawn::Nothing),
            Some(numbers) => numbers,
        };
        effort.count_choice();
        let drawn = draw(
            task.alloc,
            task.sig,
            task.problem,
            &task.table,
            state,
            reading,
            bases,
            turning.tags.as_slice(),
            numbers,
            task.variables.as_slice(),
            task.first,
            task.size,
        )?;
        match drawn {
            Drawn::Nothing => turning.wheels.advance(),
            Drawn::TooLarge(list) => return Ok(Drawn::TooLarge(list)),
            Drawn::Unifier(g) => {
                turning.wheels.advance();
                return Ok(Drawn::Unifier(g));
            }
        }
    }
}

// The next unifier under the current tags, if there are any.
fn next_of_current(
    task: &Task,
    state: &State,
    opened: &mut Opened,
    effort: &mut Effort,
) -> Result<Drawn, NoMemory>
    requires { IsOpened task.now state.now opened.old }
    ensures opened { IsOpened task.now state.now opened.new }
    ensures same { IsSameButCurrent opened.old opened.new }
    ensures fewer { (u : Substitution) → IsCoveredNow task.now state.now opened.new u
        → IsCoveredNow task.now state.now opened.old u }
    ensures drawn { AreDrawnFrom task.now (IsCoveredNow task.now state.now opened.old)
        (IsCoveredNow task.now state.now opened.new) result }
    ensures falls { IfOk result (LeavesLess (leaf_left task.now opened.old)
        (leaf_left task.now opened.new)) }
{
    match &mut opened.turning {
        None => Ok(Drawn::Nothing),
        Some(turning) => {
            let drawn = next_of_turning(
                task,
                state,
                &opened.reading,
                opened.bases.as_slice(),
                opened.shared.as_slice(),
                turning,
                effort,
            )?;
            Ok(drawn)
        }
    }
}

// Goes on to the next tags, and answers whether there are any; those that go against what is noted are passed over.
fn turn(task: &Task, state: &State, opened: &mut Opened) -> Result<bool, NoMemory>
    requires opened { IsOpened task.now state.now opened.old }
    ensures turned { IfOk result (IsTurned task.now state.now opened.old opened.new) }
    ensures no_memory { OnErr result (opened.new ≡ opened.old) }
{
    task.recall();
    listed_choices_are_possible();
    sorted_choices_are_within();
    sum_operators_are_few();
    let options = match opened.tags.current() {
        None => return Ok(false),
        Some(options) => options,
    };
    let tags = tags_of(
        task.alloc,
        task.table.nodes().len(),
        opened.shared.as_slice(),
        options,
    )?;
    match first_against(task.sig, opened, tags.as_slice()) {
        None => {}
        Some(place) => {
            opened.tags.skip(place);
            opened.turning = None;
            return Ok(true);
        }
    }
    let wheels = wheels(
        task.alloc,
        task.sig,
        &task.table,
        state,
        &opened.reading,
        opened.bases.as_slice(),
        tags.as_slice(),
        task.sorted,
    )?;
    opened.tags.advance();
    opened.turning = Some(Turning {
        tags: Seq::from_vec(tags),
        wheels,
    });
    Ok(true)
}

// The next unifier of an open leaf.
fn next_of_leaf(
    task: &Task,
    state: &State,
    opened: &mut Opened,
    effort: &mut Effort,
) -> Result<Drawn, NoMemory>
    requires opened { IsOpened task.now state.now opened.old }
    ensures opened { IsOpened task.now state.now opened.new }
    ensures fewer { (u : Substitution) → IsCoveredToCome task.now state.now opened.new u
        → IsCoveredToCome task.now state.now opened.old u }
    ensures drawn { AreDrawnFrom task.now (IsCoveredToCome task.now state.now opened.old)
        (IsCoveredToCome task.now state.now opened.new) result }
    ensures falls { IfOk result (LeavesLess (leaf_left task.now opened.old)
        (leaf_left task.now opened.new)) }
{
    'tags: loop {
        match next_of_current(task, state, opened, effort)? {
            Drawn::Nothing => {}
            Drawn::TooLarge(list) => return Ok(Drawn::TooLarge(list)),
            Drawn::Unifier(g) => return Ok(Drawn::Unifier(g)),
        }
        if !turn(task, state, opened)? {
            return Ok(Drawn::Nothing);
        }
    }
}

// The next unifier of the leaf that is open, if one is.
pub(crate) fn next_in(
    task: &Task,
    leaf: &mut Option<Leaf>,
    effort: &mut Effort,
) -> Result<Drawn, NoMemory>
    requires opened { IsOpenedAt task.now leaf.old }
    ensures opened { IsOpenedAt task.now leaf.new }
    ensures fewer { (u : Substitution)
        → IsCoveredAt task.now leaf.new u → IsCoveredAt task.now leaf.old u }
    ensures drawn { AreDrawnFrom task.now (IsCoveredAt task.now leaf.old)
        (IsCoveredAt task.now leaf.new) result }
    ensures falls { IfOk result
        (LeavesLess (left_at task.now leaf.old) (left_at task.now leaf.new)) }
{
    match leaf {
        None => Ok(Drawn::Nothing),
        Some(w) => {
            let drawn = next_of_leaf(task, &w.state, &mut w.opened, effort)?;
            Ok(drawn)
        }
    }
}
