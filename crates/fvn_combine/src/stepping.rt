//! One step of the search after another.
ghost use Rattle.std.specs.Prelude.{◌≡◌, Some, None, IfOk, OnErr};
ghost use Rattle.fvn_combine_tree.specs.Trees.{AreClosed, AreInOrder};
ghost use Rattle.fvn_combine.specs.Search.{IsOpenedAt};
ghost use Rattle.fvn_combine.specs.inner.Found.{IsStep, IsLookedAtLast, AreFound, IsLessLeft};
ghost use Rattle.fvn_combine.specs.declared.looking.Looked.TheVariants.{Open, Together, Apart, Parted, PartedAll, Passed, Leaf as OnLeaf};
ghost use Rattle.fvn_combine.specs.Work.{left_by};

use crate::effort::Effort;
use crate::ending::Ended;
use crate::looking::{Looked, look};
use crate::opened::{Leaf, Opened};
use crate::task::Task;
use crate::walking::next_in;
use fvn_combine_drawing::Drawn;
use fvn_combine_loose::more_general_is_a_preorder;
use fvn_combine_nodes::{State, unifiers_partition};
use fvn_combine_tree::Tree;
use fvn_flat::Subst;
use fvn_terms::NoMemory;

/// What comes of one look at the last state.
#[derive(Drop)]
pub(crate) enum Step {
    /// There is no state.
    Over,
    /// There may be more.
    More,
    /// The search ends here.
    End(Ended),
}

/// What comes of a search for the next unifier.
#[derive(Drop)]
pub(crate) enum Found {
    /// There is none.
    Nothing,
    /// The search ends here.
    Ends(Ended),
    /// The next unifier.
    Given(Subst),
}

// No leaf is open any more.
fn close_leaf(leaf: &mut Option<Leaf>)
    ensures { leaf.new ≡ None }
{
    *leaf = None;
}

// The leaf is open.
fn open_leaf(leaf: &mut Option<Leaf>, state: State, opened: Opened)
    ensures { leaf.new ≡ Some (record { state = state; opened = opened }) }
{
    *leaf = Some(Leaf { state, opened });
}

// Asks the question that is open in the last state.
fn ask_last(
    task: &Task,
    tree: &mut Tree,
    leaf: &mut Option<Leaf>,
    i: usize,
    j: usize,
) -> Result<Step, NoMemory>
    requires closed { AreClosed task.now.declarations task.now.table tree.old }
    requires ordered { AreInOrder tree.old }
    requires looked { IsLookedAtLast task.now tree.old (Open i j) }
    ensures closed { AreClosed task.now.declarations task.now.table tree.new }
    ensures ordered { AreInOrder tree.new }
    ensures stepped { IfOk result (IsStep task.now tree.old leaf.old tree.new leaf.new) }
    ensures no_memory { OnErr result ((tree.new ≡ tree.old) × (leaf.new ≡ leaf.old)) }
{
    task.recall();
    unifiers_partition();
    tree.ask(task.alloc, task.sig, &task.table, i, j)?;
    close_leaf(leaf);
    Ok(Step::More)
}

// Takes on that the nodes of each pair are in one class.
fn meet_last(
    task: &Task,
    tree: &mut Tree,
    leaf: &mut Option<Leaf>,
    pairs: Vec<(usize, usize)>,
) -> Result<Step, NoMemory>
    requires closed { AreClosed task.now.declarations task.now.table tree.old }
    requires ordered { AreInOrder tree.old }
    requires looked { IsLookedAtLast task.now tree.old (Together pairs) }
    ensures closed { AreClosed task.now.declarations task.now.table tree.new }
    ensures ordered { AreInOrder tree.new }
    ensures stepped { IfOk result (IsStep task.now tree.old leaf.old tree.new leaf.new) }
    ensures no_memory { OnErr result ((tree.new ≡ tree.old) × (leaf.new ≡ leaf.old)) }
{
    task.recall();
    unifiers_partition();
    tree.meet(task.alloc, task.sig, &task.table, pairs.as_slice())?;
    close_leaf(leaf);
    Ok(Step::More)
}

// Takes on that two nodes are in different classes.
fn part_last(
    task: &Task,
    tree: &mut Tree,
    leaf: &mut Option<Leaf>,
    i: usize,
    j: usize,
) -> Result<Step, NoMemory>
    requires closed { AreClosed task.now.declarations task.now.table tree.old }
    requires ordered { AreInOrder tree.old }
    requires looked { IsLookedAtLast task.now tree.old (Apart i j) }
    ensures closed { AreClosed task.now.declarations task.now.table tree.new }
    ensures ordered { AreInOrder tree.new }
    ensures stepped { IfOk result (IsStep task.now tree.old leaf.old tree.new leaf.new) }
    ensures no_memory { OnErr result ((tree.new ≡ tree.old) × (leaf.new ≡ leaf.old)) }
{
    task.recall();
    unifiers_partition();
    tree.part(task.alloc, task.sig, &task.table, i, j)?;
    close_leaf(leaf);
    Ok(Step::More)
}

// Takes on the same, where more general unifiers have them so.
fn part_last_general(
    task: &Task,
    tree: &mut Tree,
    leaf: &mut Option<Leaf>,
    i: usize,
    j: usize,
) -> Result<Step, NoMemory>
    requires closed { AreClosed task.now.declarations task.now.table tree.old }
    requires ordered { AreInOrder tree.old }
    requires looked { IsLookedAtLast task.now tree.old (Parted i j) }
    ensures closed { AreClosed task.now.declarations task.now.table tree.new }
    ensures ordered { AreInOrder tree.new }
    ensures stepped { IfOk result (IsStep task.now tree.old leaf.old tree.new leaf.new) }
    ensures no_memory { OnErr result ((tree.new ≡ tree.old) × (leaf.new ≡ leaf.old)) }
{
    task.recall();
    unifiers_partition();
    more_general_is_a_preorder();
    tree.part(task.alloc, task.sig, &task.table, i, j)?;
    close_leaf(leaf);
    Ok(Step::More)
}

// Takes on that the nodes of each pair are in different classes, where more general unifiers have them so.
fn part_last_all(
    task: &Task,
    tree: &mut Tree,
    leaf: &mut Option<Leaf>,
    pairs: Vec<(usize, usize)>,
) -> Result<Step, NoMemory>
    requires closed { AreClosed task.now.declarations task.now.table tree.old }
    requires ordered { AreInOrder tree.old }
    requires looked { IsLookedAtLast task.now tree.old (PartedAll pairs) }
    ensures closed { AreClosed task.now.declarations task.now.table tree.new }
    ensures ordered { AreInOrder tree.new }
    ensures stepped { IfOk result (IsStep task.now tree.old leaf.old tree.new leaf.new) }
    ensures no_memory { OnErr result ((tree.new ≡ tree.old) × (leaf.new ≡ leaf.old)) }
{
    task.recall();
    unifiers_partition();
    more_general_is_a_preorder();
    tree.part_all(task.alloc, task.sig, &task.table, pairs.as_slice())?;
    close_leaf(leaf);
    Ok(Step::More)
}

// Passes over the last state.
fn pass_last(task: &Task, tree: &mut Tree, leaf: &mut Option<Leaf>) -> Step
    requires closed { AreClosed task.now.declarations task.now.table tree.old }
    requires ordered { AreInOrder tree.old }
    requires looked { IsLookedAtLast task.now tree.old Passed }
    ensures closed { AreClosed task.now.declarations task.now.table tree.new }
    ensures ordered { AreInOrder tree.new }
    ensures stepped { IsStep task.now tree.old leaf.old tree.new leaf.new result }
{
    let _task = task;
    let _last = tree.take_top();
    close_leaf(leaf);
    Step::More
}

// Opens the last state, which is a leaf.
fn open_last(task: &Task, tree: &mut Tree, leaf: &mut Option<Leaf>, opened: Opened) -> Step
    requires closed { AreClosed task.now.declarations task.now.table tree.old }
    requires ordered { AreInOrder tree.old }
    requires looked { IsLookedAtLast task.now tree.old (OnLeaf opened) }
    ensures closed { AreClosed task.now.declarations task.now.table tree.new }
    ensures ordered { AreInOrder tree.new }
    ensures stepped { IsStep task.now tree.old leaf.old tree.new leaf.new result }
{
    task.recall();
    more_general_is_a_preorder();
    match tree.take_top() {
        None => Step::Over,
        Some(state) => {
            open_leaf(leaf, state, opened);
            Step::More
        }
    }
}

// Looks at the last state: asks its question, takes on a fact, passes it over, opens it, or says why the search ends.
fn take_step(
    task: &Task,
    tree: &mut Tree,
    leaf: &mut Option<Leaf>,
    effort: &mut Effort,
) -> Result<Step, NoMemory>
    requires closed { AreClosed task.now.declarations task.now.table tree.old }
    requires ordered { AreInOrder tree.old }
    ensures closed { AreClosed task.now.declarations task.now.table tree.new }
    ensures ordered { AreInOrder tree.new }
    ensures stepped { IfOk result (IsStep task.now tree.old leaf.old tree.new leaf.new) }
    ensures no_memory { OnErr result ((tree.new ≡ tree.old) × (leaf.new ≡ leaf.old)) }
{
    match look(task, tree, effort)? {
        Looked::Over => Ok(Step::Over),
        Looked::Open(i, j) => ask_last(task, tree, leaf, i, j),
        Looked::Together(pairs) => meet_last(task, tree, leaf, pairs),
        Looked::Apart(i, j) => part_last(task, tree, leaf, i, j),
        Looked::Parted(i, j) => part_last_general(task, tree, leaf, i, j),
        Looked::PartedAll(pairs) => part_last_all(task, tree, leaf, pairs),
        Looked::Passed => Ok(pass_last(task, tree, leaf)),
        Looked::Refused(f, system) => Ok(Step::End(Ended::Basis(f, system))),
        Looked::Leaf(opened) => Ok(open_last(task, tree, leaf, opened)),
    }
}

// The next unifier, why the search ends, or nothing where nothing is to come.
pub(crate) fn next_unifier(
    task: &Task,
    tree: &mut Tree,
    leaf: &mut Option<Leaf>,
    effort: &mut Effort,
) -> Result<Found, NoMemory>
    requires closed { AreClosed task.now.declarations task.now.table tree.old }
    requires ordered { AreInOrder tree.old }
    requires opened { IsOpenedAt task.now leaf.old }
    ensures closed { AreClosed task.now.declarations task.now.table tree.new }
    ensures ordered { AreInOrder tree.new }
    ensures opened { IsOpenedAt task.now leaf.new }
    ensures found { AreFound task.now tree.old leaf.old tree.new leaf.new result }
    ensures falls { IfOk result (IsLessLeft (left_by task.now tree.old leaf.old)
        (left_by task.now tree.new leaf.new)) }
{
    'steps: loop {
        match next_in(task, leaf, effort)? {
            Drawn::Nothing => {}
            Drawn::TooLarge(list) => return Ok(Found::Ends(Ended::Size(list))),
            Drawn::Unifier(g) => return Ok(Found::Given(g)),
        }
        match take_step(task, tree, leaf, effort)? {
            Step::Over => return Ok(Found::Nothing),
            Step::More => {}
            Step::End(ended) => return Ok(Found::Ends(ended)),
        }
    }
}
