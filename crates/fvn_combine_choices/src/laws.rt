//! Laws of choices and their plans, each the contract of a function that does nothing.
ghost use Rattle.fvn_combine_choices.specs.Laws.{
  ValidChoicesAreAcceptable,
  ClassesHaveOneKind,
  PlannedBindingsAreSolved,
  PlannedBindingsUnfoldToNew,
  SizesAddUp,
};

use fvn_combine_nodes::unifiers_partition;
use fvn_combine_supports::combinations_solve;
use fvn_combine_systems::{counts_solve, node_systems_are_sum_systems, values_unify};

/// A choice is acceptable where it is valid for what is asked.
pub fn valid_choices_are_acceptable()
    ensures { ValidChoicesAreAcceptable }
{}

/// A unifier is admitted by states alone whose classes have one kind each.
pub fn classes_have_one_kind()
    ensures { ClassesHaveOneKind }
{
    unifiers_partition();
}

/// The bindings of a plan are a solved list.
pub fn planned_bindings_are_solved()
    ensures { PlannedBindingsAreSolved }
{
    node_systems_are_sum_systems();
    counts_solve();
    combinations_solve();
    values_unify();
}

/// What they unfold to has new variables alone.
pub fn planned_bindings_unfold_to_new()
    ensures { PlannedBindingsUnfoldToNew }
{}

/// The sizes of what they unfold to add up.
pub fn sizes_add_up()
    ensures { SizesAddUp }
{
    counts_solve();
    combinations_solve();
}
