//! Whether the classes of a state are of one kind each.
ghost use Rattle.std.specs.Prelude.{◌↔◌, ◌<◌, ℕ, length, IsTrue};
ghost use Rattle.fvn_combine_nodes.specs.States.{IsClosed, class_of};
ghost use Rattle.fvn_combine_choices.specs.Plans.{AreOfOneKind};
ghost use Rattle.fvn_combine.specs.inner.Alike.{IsOfItsKind};

use crate::task::Task;
use fvn_combine_drawing::node_kind;
use fvn_combine_nodes::State;

// Whether the node that names the class of node i is of its kind.
fn is_of_its_kind(task: &Task, state: &State, i: usize) -> bool
    requires closed { IsClosed task.now.declarations task.now.table state.now }
    requires within { i < length task.now.table.nodes }
    ensures { IsTrue result ↔ IsOfItsKind task.now.declarations task.now.table
        (class_of state.now) i }
{
    task.recall();
    let own = node_kind(task.sig, &task.table, i);
    let named = node_kind(task.sig, &task.table, state.class_of(i));
    own.0 == named.0
}

// Whether all nodes that name classes are of the kinds of their members.
fn are_of_their_kinds(task: &Task, state: &State) -> bool
    requires { IsClosed task.now.declarations task.now.table state.now }
    ensures { IsTrue result ↔ ((i : ℕ) → i < length task.now.table.nodes
        → IsOfItsKind task.now.declarations task.now.table (class_of state.now) i) }
{
    for i in 0..task.table.nodes().len() {
        if !is_of_its_kind(task, state, i) {
            return false;
        }
    }
    true
}

// Whether nodes of one class are of one kind.
pub(crate) fn are_of_one_kind(task: &Task, state: &State) -> bool
    requires { IsClosed task.now.declarations task.now.table state.now }
    ensures { IsTrue result ↔ AreOfOneKind task.now.declarations task.now.table
        (class_of state.now) }
{
    task.recall();
    are_of_their_kinds(task, state)
}
