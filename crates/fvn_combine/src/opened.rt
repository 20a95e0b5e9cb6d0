//! Leaves that are open.
ghost use Rattle.std.specs.Prelude.{◌≡◌, ◌*◌, ◌≤◌, false, [], length, All, IfOk};
ghost use Rattle.fvn_terms.specs.Substitution.{Substitution};
ghost use Rattle.fvn_combine_nodes.specs.States.{IsClosed, class_of};
ghost use Rattle.fvn_combine_leaves.specs.Leaves.{IsLeaf};
ghost use Rattle.fvn_combine_leaves.specs.Readings.{IsReading};
ghost use Rattle.fvn_combine_choices.specs.Choosing.{Choice as InChoice};
ghost use Rattle.fvn_combine_leaves.specs.Bases.{AreBases, HaveAlive};
ghost use Rattle.fvn_combine_inferring.specs.Inferred.{TellLabels};
ghost use Rattle.fvn_combine_loose.specs.Loose.{IsLooseClass};
ghost use Rattle.fvn_combine_loose.specs.Laws.{AreVariables};
ghost use Rattle.fvn_combine_drawing.specs.CombineTriangularReady.{IsReady};
ghost use Rattle.fvn_combine.specs.Leaves.{IsSortedCovering, IsOpened, IsCoveredToCome};
ghost use Rattle.fvn_combine.specs.Work.{most_tags, most_numbers, leaf_left};

use crate::task::Task;
use fvn_acunify_product::{Tags, Wheels};
use fvn_base::Seq;
use fvn_combine_drawing::{
    SharedClass, covering_choices_are_listed, option_counts, shared, sum_operators_are_few,
};
use fvn_combine_leaves::Reading;
use fvn_combine_loose::loose_classes;
use fvn_combine_nodes::State;
use fvn_combine_systems::tables_are_small;
use fvn_lindio::Solution;
use fvn_terms::{NoMemory, OpId};

/// Tags that are current, and the lists of numbers under them that are still to come.
pub(crate) struct Turning {
    pub(crate) tags: Seq<Option<OpId>>,
    pub(crate) wheels: Wheels,
}

impl Drop for Turning {
    fn drop(self) {
        let Turning { tags: _, wheels: _ } = self;
    }
}

/// What is read of a leaf and noted of its classes, and its choices that are still to come.
pub(crate) struct Opened {
    pub(crate) reading: Reading,
    pub(crate) labels: Seq<Option<OpId>>,
    pub(crate) bases: Seq<Seq<Solution>>,
    pub(crate) shared: Seq<SharedClass>,
    pub(crate) tags: Tags,
    pub(crate) loose: Seq<usize>,
    pub(crate) turning: Option<Turning>,
}

impl Drop for Opened {
    fn drop(self) {
        let Opened {
            reading: _,
            labels: _,
            bases: _,
            shared: _,
            tags: _,
            loose: _,
            turning: _,
        } = self;
    }
}

/// A state that is a leaf, with what is read of it.
pub(crate) struct Leaf {
    pub(crate) state: State,
    pub(crate) opened: Opened,
}

impl Drop for Leaf {
    fn drop(self) {
        let Leaf {
            state: _,
            opened: _,
        } = self;
    }
}

// Loose classes of a state, where more general unifiers are enough.
fn loose_of(task: &Task, state: &State) -> Result<Vec<usize>, NoMemory>
    requires closed { IsClosed task.now.declarations task.now.table state.now }
    ensures loose { IfOk result (λ all.
        All (IsLooseClass task.now.declarations task.now.table state.now) all.items) }
    ensures none { IfOk result (λ all. task.now.general ≡ false → all.items ≡ []) }
{
    if !task.general {
        return Ok(Vec::new(task.alloc));
    }
    let loose = loose_classes(task.alloc, task.sig, &task.table, state)?;
    Ok(loose)
}

// Opens a leaf, all of whose choices are to come.
pub(crate) fn open(
    task: &Task,
    state: &State,
    reading: Reading,
    labels: Vec<Option<OpId>>,
    bases: Vec<Seq<Solution>>,
) -> Result<Opened, NoMemory>
    requires ready { IsReady task.now.declarations task.now.given task.now.first task.now.table
        state.now }
    requires leaf { IsLeaf task.now.declarations task.now.table labels.items state.now }
    requires reading { IsReading task.now.declarations task.now.table (class_of state.now) reading }
    requires labels { TellLabels task.now.declarations task.now.table state.now task.now.sorted
        labels.items }
    requires as_many { length labels.items ≡ length task.now.table.nodes }
    requires bases { AreBases reading.sums bases.items }
    requires alive { HaveAlive task.now.declarations task.now.table state.now reading.sums
        bases.items }
    ensures opened { IfOk result (IsOpened task.now state.now) }
    ensures all { IfOk result (λ o. (u : Substitution) (c : InChoice)
        → AreVariables task.now.declarations task.now.table o.loose u
        → IsSortedCovering task.now state.now o.reading o.bases o.labels u c
        → IsCoveredToCome task.now state.now o u) }
    ensures few { IfOk result (λ o.
        leaf_left task.now o ≤ most_tags task.now * most_numbers task.now) }
{
    task.recall();
    sum_operators_are_few();
    covering_choices_are_listed();
    tables_are_small();
    let loose = loose_of(task, state)?;
    let classes = shared(
        task.alloc,
        task.sig,
        &task.table,
        state,
        &reading,
        task.sorted,
    )?;
    let counts = option_counts(task.alloc, classes.as_slice())?;
    let tags = Tags::new(task.alloc, counts)?;
    Ok(Opened {
        reading,
        labels: Seq::from_vec(labels),
        bases: Seq::from_vec(bases),
        shared: Seq::from_vec(classes),
        tags,
        loose: Seq::from_vec(loose),
        turning: None,
    })
}
