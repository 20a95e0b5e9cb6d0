//! What the top of a decision tree asks for.
ghost use Rattle.std.specs.Prelude.{◌≡◌, ◌<◌, length, All, IsTrue, IfOk, IfSome};
ghost use Rattle.fvn_combine_tree.specs.Trees.{AreClosed};
ghost use Rattle.fvn_combine_nodes.specs.States.{IsClosed, IsOpen, class_of};
ghost use Rattle.fvn_combine_leaves.specs.Bases.{AreBases, HaveAlive};
ghost use Rattle.fvn_combine_leaves.specs.Leaves.{IsNearLeaf, IsLeaf, IsQuestion};
ghost use Rattle.fvn_combine_leaves.specs.Readings.{IsReading};
ghost use Rattle.fvn_combine_choices.specs.Plans.{AreOfOneKind};
ghost use Rattle.fvn_combine_drawing.specs.CombineCandidatesRefusals.{IsFirstRefused};
ghost use Rattle.fvn_combine_inferring.specs.Inferred.{HasNoValues, TellHeads, TellLabels};
ghost use Rattle.fvn_combine.specs.inner.Found.{IsLooked, IsLookedAt, MayPart, MayPartOpen};

use crate::effort::Effort;
use crate::heights::heights_of;
use crate::kinds::are_of_one_kind;
use crate::labels::labels_of;
use crate::opened::{Opened, open};
use crate::ranks::class_ranks;
use crate::task::Task;
use fvn_base::Seq;
use fvn_combine_choices::classes_have_one_kind;
use fvn_combine_drawing::{
    OpenFault, alive_bases_make_alive, bases, bases_from_last, bases_make_systems, readings_tell,
    refusals_are_causes, sorted_leaves_cover, tables_have_sums, unfilled_has_no_values,
};
use fvn_combine_inferring::{Inferred, Known, differ, infer, known_of, sorted_unifiers_go_with};
use fvn_combine_leaves::Reading;
use fvn_combine_loose::{
    are_parted, loose_classes_are_variables, loose_classes_part, more_general_is_a_preorder,
    open_identities,
};
use fvn_combine_nodes::State;
use fvn_combine_questions::{first_question, is_unfilled, question_on_all, question_on_touched};
use fvn_combine_reading::read;
use fvn_combine_systems::{tables_are_small, tables_hold_arguments};
use fvn_combine_tree::Tree;
use fvn_lindio::{Solution, System};
use fvn_terms::{NoMemory, OpId};

/// What the last state of a tree asks for.
#[derive(Drop)]
pub(crate) enum Looked {
    /// There is none.
    Over,
    /// The question whether two nodes are in one class.
    Open(usize, usize),
    /// The nodes of each pair are in one class under all unifiers.
    Together(Vec<(usize, usize)>),
    /// Two nodes are in different classes under all unifiers.
    Apart(usize, usize),
    /// Each unifier of the state has a more general one, of the state too, under which two nodes are in different classes.
    Parted(usize, usize),
    /// The same of the nodes of each pair, under one more general unifier.
    PartedAll(Vec<(usize, usize)>),
    /// To be passed over: it admits no unifier.
    Passed,
    /// To end: the sum system of an operator is refused.
    Refused(OpId, System),
    /// To go through its choices.
    Leaf(Opened),
}

// What is asked for by a state in which no question is open: its choices are to be gone through.
fn look_at_leaf(
    task: &Task,
    state: &State,
    reading: Reading,
    labels: Vec<Option<OpId>>,
    bases: Vec<Seq<Solution>>,
) -> Result<Looked, NoMemory>
    requires leaf { IsLeaf task.now.declarations task.now.table labels.items state.now }
    requires kinds { AreOfOneKind task.now.declarations task.now.table (class_of state.now) }
    requires reading { IsReading task.now.declarations task.now.table (class_of state.now) reading }
    requires labels { TellLabels task.now.declarations task.now.table state.now task.now.sorted
        labels.items }
    requires as_many { length labels.items ≡ length task.now.table.nodes }
    requires bases { AreBases reading.sums bases.items }
    requires alive { HaveAlive task.now.declarations task.now.table state.now reading.sums
        bases.items }
    ensures { IfOk result (IsLookedAt task.now state.now) }
{
    task.recall();
    bases_make_systems();
    alive_bases_make_alive();
    sorted_leaves_cover();
    sorted_unifiers_go_with();
    readings_tell();
    more_general_is_a_preorder();
    loose_classes_are_variables();
    let leaf = open(task, state, reading, labels, bases)?;
    Ok(Looked::Leaf(leaf))
}

// Whether more general unifiers are enough, and a loose class of the state has two nodes apart.
fn may_part(
    task: &Task,
    state: &State,
    reading: &Reading,
    known: &Known,
    i: usize,
    j: usize,
) -> Result<bool, NoMemory>
    requires closed { IsClosed task.now.declarations task.now.table state.now }
    requires reading { IsReading task.now.declarations task.now.table (class_of state.now)
        reading.now }
    requires heads { TellHeads task.now.declarations task.now.table state.now known.now.sorted
        known.now.heads.items }
    requires sorted { known.now.sorted ≡ task.now.sorted }
    requires left { i < length task.now.table.nodes }
    requires right { j < length task.now.table.nodes }
    ensures { IfOk result (λ b. IsTrue b → MayPart task.now state.now i j) }
{
    if !task.general {
        return Ok(false);
    }
    let loose = heights_of(task, state, reading, known)?;
    let all = loose.as_slice();
    Ok(are_parted(task.sig, &task.table, state, known.sorted, all, i, j))
}

// An open question, or that all unifiers say no to it. Nothing is parted here: where a system is refused, a state that
// keeps all pairs apart is refused too, and each step solves it once more.
fn asked_at_refusal(task: &Task, state: &State, known: &Known, i: usize, j: usize) -> Looked
    requires closed { IsClosed task.now.declarations task.now.table state.now }
    requires heads { TellHeads task.now.declarations task.now.table state.now known.now.sorted
        known.now.heads.items }
    requires sorted { known.now.sorted ≡ task.now.sorted }
    requires left { i < length task.now.table.nodes }
    requires right { j < length task.now.table.nodes }
    requires open { IsOpen state.now i j }
    ensures { IsLookedAt task.now state.now result }
{
    task.recall();
    tables_have_sums();
    sorted_unifiers_go_with();
    if differ(task.sig, &task.table, state, known, i, j) {
        return Looked::Apart(i, j);
    }
    Looked::Open(i, j)
}

// An open question, or that unifiers say no to it: all, or those that are enough.
fn asked(
    task: &Task,
    state: &State,
    reading: &Reading,
    known: &Known,
    i: usize,
    j: usize,
) -> Result<Looked, NoMemory>
    requires closed { IsClosed task.now.declarations task.now.table state.now }
    requires reading { IsReading task.now.declarations task.now.table (class_of state.now)
        reading.now }
    requires heads { TellHeads task.now.declarations task.now.table state.now known.now.sorted
        known.now.heads.items }
    requires sorted { known.now.sorted ≡ task.now.sorted }
    requires left { i < length task.now.table.nodes }
    requires right { j < length task.now.table.nodes }
    requires open { IsOpen state.now i j }
    ensures { IfOk result (IsLookedAt task.now state.now) }
{
    task.recall();
    tables_have_sums();
    sorted_unifiers_go_with();
    loose_classes_part();
    if differ(task.sig, &task.table, state, known, i, j) {
        return Ok(Looked::Apart(i, j));
    }
    if may_part(task, state, reading, known, i, j)? {
        return Ok(Looked::Parted(i, j));
    }
    Ok(Looked::Open(i, j))
}

// A question on two classes that may be constants of one operator, and that a minimal solution has both of: what is largest
// is asked of first.
fn open_touched(
    task: &Task,
    state: &State,
    reading: &Reading,
    labels: &[Option<OpId>],
    bases: &[Seq<Solution>],
) -> Result<Option<(usize, usize)>, NoMemory>
    requires near { IsNearLeaf task.now.declarations task.now.table state.now }
    requires reading { IsReading task.now.declarations task.now.table (class_of state.now)
        reading.now }
    requires bases { AreBases reading.now.sums bases.now }
    requires alive { HaveAlive task.now.declarations task.now.table state.now reading.now.sums
        bases.now }
    ensures { IfOk result (IsQuestion task.now.declarations task.now.table labels.now state.now) }
{
    let ranks = class_ranks(task.alloc, state, task.sizes.as_slice())?;
    Ok(question_on_touched(
        task.sig,
        &task.table,
        state,
        reading,
        ranks.as_slice(),
        labels,
        bases,
    ))
}

// Whether a class is unfilled: then no values go with the state.
fn has_no_values(
    task: &Task,
    state: &State,
    reading: &Reading,
    labels: &[Option<OpId>],
    bases: &[Seq<Solution>],
) -> bool
    requires near { IsNearLeaf task.now.declarations task.now.table state.now }
    requires reading { IsReading task.now.declarations task.now.table (class_of state.now)
        reading.now }
    requires labels { TellLabels task.now.declarations task.now.table state.now task.now.sorted
        labels.now }
    requires bases { AreBases reading.now.sums bases.now }
    requires alive { HaveAlive task.now.declarations task.now.table state.now reading.now.sums
        bases.now }
    ensures { IsTrue result
        → HasNoValues task.now.declarations task.now.table state.now task.now.sorted }
{
    task.recall();
    tables_have_sums();
    unfilled_has_no_values();
    is_unfilled(task.sig, &task.table, state, reading, labels, bases)
}

// What is asked for by a state that is nearly a leaf, where minimal solutions are known.
fn look_at_bases(
    task: &Task,
    state: &State,
    reading: Reading,
    known: Known,
    bases: Vec<Seq<Solution>>,
) -> Result<Looked, NoMemory>
    requires near { IsNearLeaf task.now.declarations task.now.table state.now }
    requires kinds { AreOfOneKind task.now.declarations task.now.table (class_of state.now) }
    requires reading { IsReading task.now.declarations task.now.table (class_of state.now) reading }
    requires heads { TellHeads task.now.declarations task.now.table state.now known.sorted
        known.heads.items }
    requires sorted { known.sorted ≡ task.now.sorted }
    requires bases { AreBases reading.sums bases.items }
    requires alive { HaveAlive task.now.declarations task.now.table state.now reading.sums
        bases.items }
    ensures { IfOk result (IsLookedAt task.now state.now) }
{
    task.recall();
    sorted_unifiers_go_with();
    let labels = labels_of(task, state, &reading, &known, bases.as_slice())?;
    if has_no_values(task, state, &reading, labels.as_slice(), bases.as_slice()) {
        return Ok(Looked::Passed);
    }
    match open_touched(task, state, &reading, labels.as_slice(), bases.as_slice())? {
        Some(pair) => asked(task, state, &reading, &known, pair.0, pair.1),
        None => look_at_leaf(task, state, reading, labels, bases),
    }
}

// What is asked for by a state that is nearly a leaf, where f's system is refused: an open question, or an end.
fn asked_or_refused(
    task: &Task,
    state: &State,
    reading: &Reading,
    known: &Known,
    f: OpId,
    system: System,
) -> Looked
    requires near { IsNearLeaf task.now.declarations task.now.table state.now }
    requires reading { IsReading task.now.declarations task.now.table (class_of state.now)
        reading.now }
    requires heads { TellHeads task.now.declarations task.now.table state.now known.now.sorted
        known.now.heads.items }
    requires sorted { known.now.sorted ≡ task.now.sorted }
    requires refused { IsFirstRefused reading.now.sums f system }
    ensures { IsLookedAt task.now state.now result }
{
    task.recall();
    refusals_are_causes();
    match question_on_all(task.sig, &task.table, state, reading) {
        Some(pair) => asked_at_refusal(task, state, known, pair.0, pair.1),
        None => Looked::Refused(f, system),
    }
}

// The same, where its minimal solutions may still be known.
fn look_at_refused(
    task: &Task,
    state: &State,
    reading: Reading,
    known: Known,
    f: OpId,
    system: System,
) -> Result<Looked, NoMemory>
    requires near { IsNearLeaf task.now.declarations task.now.table state.now }
    requires kinds { AreOfOneKind task.now.declarations task.now.table (class_of state.now) }
    requires reading { IsReading task.now.declarations task.now.table (class_of state.now) reading }
    requires heads { TellHeads task.now.declarations task.now.table state.now known.sorted
        known.heads.items }
    requires sorted { known.sorted ≡ task.now.sorted }
    requires refused { IsFirstRefused reading.sums f system }
    ensures { IfOk result (IsLookedAt task.now state.now) }
{
    task.recall();
    match bases_from_last(
        task.alloc,
        task.sig,
        &task.table,
        state,
        &reading,
        known.heads.as_slice(),
        task.sorted,
        true,
    )? {
        Some(bases) => look_at_bases(task, state, reading, known, bases),
        None => Ok(asked_or_refused(task, state, &reading, &known, f, system)),
    }
}

// The same, where it was not tried whether its minimal solutions may still be known: a question comes first.
fn look_at_passed(
    task: &Task,
    state: &State,
    reading: Reading,
    known: Known,
    f: OpId,
    system: System,
) -> Result<Looked, NoMemory>
    requires near { IsNearLeaf task.now.declarations task.now.table state.now }
    requires kinds { AreOfOneKind task.now.declarations task.now.table (class_of state.now) }
    requires reading { IsReading task.now.declarations task.now.table (class_of state.now) reading }
    requires heads { TellHeads task.now.declarations task.now.table state.now known.sorted
        known.heads.items }
    requires sorted { known.sorted ≡ task.now.sorted }
    requires refused { IsFirstRefused reading.sums f system }
    ensures { IfOk result (IsLookedAt task.now state.now) }
{
    task.recall();
    match question_on_all(task.sig, &task.table, state, &reading) {
        Some(pair) => Ok(asked_at_refusal(task, state, &known, pair.0, pair.1)),
        None => look_at_refused(task, state, reading, known, f, system),
    }
}

// What is asked for by a state that is nearly a leaf, where systems are solved from their first rows on. Where a system was
// refused before, they were not solved from the last rows on either.
fn look_at_systems(
    task: &Task,
    state: &State,
    reading: Reading,
    known: Known,
    effort: &mut Effort,
) -> Result<Looked, NoMemory>
    requires near { IsNearLeaf task.now.declarations task.now.table state.now }
    requires kinds { AreOfOneKind task.now.declarations task.now.table (class_of state.now) }
    requires reading { IsReading task.now.declarations task.now.table (class_of state.now) reading }
    requires heads { TellHeads task.now.declarations task.now.table state.now known.sorted
        known.heads.items }
    requires sorted { known.sorted ≡ task.now.sorted }
    ensures { IfOk result (IsLookedAt task.now state.now) }
{
    task.recall();
    match bases(
        task.alloc,
        task.sig,
        &task.table,
        state,
        &reading,
        &mut effort.solved,
    ) {
        Err(OpenFault::NoMemory) => Err(NoMemory),
        Err(OpenFault::Basis(f, system)) => {
            if effort.refused {
                let passed = effort.is_passed_over();
                effort.count_failure();
                if passed {
                    return look_at_passed(task, state, reading, known, f, system);
                }
                return Ok(asked_or_refused(task, state, &reading, &known, f, system));
            }
            effort.refused = true;
            look_at_refused(task, state, reading, known, f, system)
        }
        Ok(bases) => look_at_bases(task, state, reading, known, bases),
    }
}

// The minimal solutions for a state that is nearly a leaf, found from the last rows on, where a system was refused
// before: then most systems of the problem are.
fn turned_bases(
    task: &Task,
    state: &State,
    reading: &Reading,
    known: &Known,
    effort: &Effort,
) -> Result<Option<Vec<Seq<Solution>>>, NoMemory>
    requires near { IsNearLeaf task.now.declarations task.now.table state.now }
    requires reading { IsReading task.now.declarations task.now.table (class_of state.now)
        reading.now }
    ensures bases { IfOk result (λ o. IfSome o (λ v. AreBases reading.now.sums v.items)) }
    ensures alive { IfOk result (λ o. IfSome o (λ v. HaveAlive task.now.declarations task.now.table
        state.now reading.now.sums v.items)) }
{
    task.recall();
    if !effort.refused {
        return Ok(None);
    }
    if effort.is_passed_over() {
        return Ok(None);
    }
    let found = bases_from_last(
        task.alloc,
        task.sig,
        &task.table,
        state,
        reading,
        known.heads.as_slice(),
        task.sorted,
        effort.is_wide(),
    )?;
    Ok(found)
}

// What is asked for by a state that is nearly a leaf.
fn look_at_near_leaf(
    task: &Task,
    state: &State,
    reading: Reading,
    known: Known,
    effort: &mut Effort,
) -> Result<Looked, NoMemory>
    requires near { IsNearLeaf task.now.declarations task.now.table state.now }
    requires reading { IsReading task.now.declarations task.now.table (class_of state.now) reading }
    requires heads { TellHeads task.now.declarations task.now.table state.now known.sorted
        known.heads.items }
    requires sorted { known.sorted ≡ task.now.sorted }
    ensures { IfOk result (IsLookedAt task.now state.now) }
{
    task.recall();
    classes_have_one_kind();
    if !are_of_one_kind(task, state) {
        return Ok(Looked::Passed);
    }
    match turned_bases(task, state, &reading, &known, effort)? {
        Some(bases) => look_at_bases(task, state, reading, known, bases),
        None => look_at_systems(task, state, reading, known, effort),
    }
}

// What is asked for by a state of which nothing is inferred.
fn look_further(
    task: &Task,
    state: &State,
    reading: Reading,
    known: Known,
    effort: &mut Effort,
) -> Result<Looked, NoMemory>
    requires closed { IsClosed task.now.declarations task.now.table state.now }
    requires reading { IsReading task.now.declarations task.now.table (class_of state.now) reading }
    requires heads { TellHeads task.now.declarations task.now.table state.now known.sorted
        known.heads.items }
    requires sorted { known.sorted ≡ task.now.sorted }
    ensures { IfOk result (IsLookedAt task.now state.now) }
{
    match first_question(task.sig, &task.table, state, &reading, effort.is_long()) {
        Some((i, j)) => asked(task, state, &reading, &known, i, j),
        None => look_at_near_leaf(task, state, reading, known, effort),
    }
}

// A question that is worth asking, or that the unifiers that are enough say no to it.
fn worth_asking(
    task: &Task,
    state: &State,
    reading: &Reading,
    known: &Known,
    i: usize,
    j: usize,
) -> Result<Looked, NoMemory>
    requires closed { IsClosed task.now.declarations task.now.table state.now }
    requires reading { IsReading task.now.declarations task.now.table (class_of state.now)
        reading.now }
    requires heads { TellHeads task.now.declarations task.now.table state.now known.now.sorted
        known.now.heads.items }
    requires sorted { known.now.sorted ≡ task.now.sorted }
    requires left { i < length task.now.table.nodes }
    requires right { j < length task.now.table.nodes }
    requires open { IsOpen state.now i j }
    ensures { IfOk result (IsLookedAt task.now state.now) }
{
    task.recall();
    loose_classes_part();
    if may_part(task, state, reading, known, i, j)? {
        return Ok(Looked::Parted(i, j));
    }
    Ok(Looked::Open(i, j))
}

// What is inferred of a state, if anything is.
fn look_inferred(
    task: &Task,
    state: &State,
    reading: &Reading,
    known: &Known,
) -> Result<Option<Looked>, NoMemory>
    requires closed { IsClosed task.now.declarations task.now.table state.now }
    requires reading { IsReading task.now.declarations task.now.table (class_of state.now)
        reading.now }
    requires heads { TellHeads task.now.declarations task.now.table state.now known.now.sorted
        known.now.heads.items }
    requires sorted { known.now.sorted ≡ task.now.sorted }
    ensures { IfOk result (λ o. IfSome o (IsLookedAt task.now state.now)) }
{
    task.recall();
    tables_have_sums();
    sorted_unifiers_go_with();
    let found = infer(task.alloc, task.sig, &task.table, state, reading, known)?;
    let (told, others) = found;
    match told {
        Inferred::Impossible => Ok(Some(Looked::Passed)),
        Inferred::Together(i, j) => {
            let mut pairs = others;
            pairs.push((i, j))?;
            Ok(Some(Looked::Together(pairs)))
        }
        Inferred::Question(i, j) => {
            let looked = worth_asking(task, state, reading, known, i, j)?;
            Ok(Some(looked))
        }
        Inferred::Nothing => Ok(None),
    }
}

// What is asked for by a state whose loose classes part nothing: first what all unifiers say of it.
fn look_within(
    task: &Task,
    state: &State,
    reading: Reading,
    known: Known,
    effort: &mut Effort,
) -> Result<Looked, NoMemory>
    requires closed { IsClosed task.now.declarations task.now.table state.now }
    requires reading { IsReading task.now.declarations task.now.table (class_of state.now) reading }
    requires heads { TellHeads task.now.declarations task.now.table state.now known.sorted
        known.heads.items }
    requires sorted { known.sorted ≡ task.now.sorted }
    ensures { IfOk result (IsLookedAt task.now state.now) }
{
    match look_inferred(task, state, &reading, &known)? {
        Some(looked) => Ok(looked),
        None => look_further(task, state, reading, known, effort),
    }
}

// Classes and identities that the more general unifiers of a state have apart, where these are enough.
fn parted_identities(
    task: &Task,
    state: &State,
    reading: &Reading,
    known: &Known,
) -> Result<Vec<(usize, usize)>, NoMemory>
    requires closed { IsClosed task.now.declarations task.now.table state.now }
    requires reading { IsReading task.now.declarations task.now.table (class_of state.now)
        reading.now }
    requires heads { TellHeads task.now.declarations task.now.table state.now known.now.sorted
        known.now.heads.items }
    requires sorted { known.now.sorted ≡ task.now.sorted }
    ensures { IfOk result (λ pairs. All (MayPartOpen task.now state.now) pairs.items) }
{
    if !task.general {
        return Ok(Vec::new(task.alloc));
    }
    if task.table.units().is_empty() {
        return Ok(Vec::new(task.alloc));
    }
    let loose = heights_of(task, state, reading, known)?;
    let all = loose.as_slice();
    let pairs = open_identities(task.alloc, task.sig, &task.table, state, known.sorted, all)?;
    Ok(pairs)
}

// Which identities the more general unifiers of a state leave out, where these are enough, if any.
fn look_parted(
    task: &Task,
    state: &State,
    reading: &Reading,
    known: &Known,
) -> Result<Option<Looked>, NoMemory>
    requires closed { IsClosed task.now.declarations task.now.table state.now }
    requires reading { IsReading task.now.declarations task.now.table (class_of state.now)
        reading.now }
    requires heads { TellHeads task.now.declarations task.now.table state.now known.now.sorted
        known.now.heads.items }
    requires sorted { known.now.sorted ≡ task.now.sorted }
    ensures { IfOk result (λ o. IfSome o (IsLookedAt task.now state.now)) }
{
    task.recall();
    loose_classes_part();
    let pairs = parted_identities(task, state, reading, known)?;
    if pairs.is_empty() {
        return Ok(None);
    }
    Ok(Some(Looked::PartedAll(pairs)))
}

// What is asked for by a state: first which identities its more general unifiers leave out, where these are enough.
fn look_at(task: &Task, state: &State, effort: &mut Effort) -> Result<Looked, NoMemory>
    requires { IsClosed task.now.declarations task.now.table state.now }
    ensures { IfOk result (IsLookedAt task.now state.now) }
{
    tables_hold_arguments();
    tables_are_small();
    tables_have_sums();
    let reading = read(task.alloc, task.sig, &task.table, state)?;
    let known = known_of(
        task.alloc,
        task.sig,
        &task.table,
        state,
        &reading,
        task.sorted,
    )?;
    match look_parted(task, state, &reading, &known)? {
        Some(looked) => Ok(looked),
        None => look_within(task, state, reading, known, effort),
    }
}

// Whether nothing is asked: nodes are put together or apart, and the same state is looked at again.
fn is_fact(looked: &Looked) -> bool {
    matches!(
        looked,
        Looked::Together(_) | Looked::Apart(_, _) | Looked::Parted(_, _) | Looked::PartedAll(_)
    )
}

// What the last state asks for. It is counted where that is no fact: with a fact the same state is looked at again.
pub(crate) fn look(task: &Task, tree: &Tree, effort: &mut Effort) -> Result<Looked, NoMemory>
    requires { AreClosed task.now.declarations task.now.table tree.now }
    ensures { IfOk result (IsLooked task.now tree.now) }
{
    match tree.top() {
        None => Ok(Looked::Over),
        Some(state) => {
            let looked = look_at(task, state, effort)?;
            if !is_fact(&looked) {
                effort.count_state();
            }
            Ok(looked)
        }
    }
}
