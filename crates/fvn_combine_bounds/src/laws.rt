//! Laws of sorts and choices, each the contract of a function that does nothing.
ghost use Rattle.fvn_combine_bounds.specs.Laws.{
  TakenSolutionsStandForSummands,
  NarrowClassesTakeNoIdentity,
  NarrowClassesHaveOneSummand,
  OtherClassesHaveSomeSummand,
  ObeyedChoicesKeepBounds,
  NarrowClassesHaveNoTag,
  NeutralOperatorsAdmitSums,
  SortedLeavesCover,
};

use fvn_combine_complete::{
    classes_have_one_kind, obeyed_choices_cover, obeyed_choices_fall, tables_have_sums,
    unifiers_go_with, values_obey_choices,
};
use fvn_combine_nodes::unifiers_partition;
use fvn_sort_bounds::{
    narrow_sorts_have_no_sum, narrow_sorts_have_one_summand, other_sorts_have_some_summand,
};

/// Solutions that an obeyed choice takes stand for summands: for one each, and all summands are stood for.
pub fn taken_solutions_stand_for_summands()
    ensures { TakenSolutionsStandForSummands }
{}

/// A narrow class does not take the operator's identity: with it the sort of its variable would admit a sum.
pub fn narrow_classes_take_no_identity()
    ensures { NarrowClassesTakeNoIdentity }
{
    unifiers_partition();
    classes_have_one_kind();
}

/// The value of a narrow class has at most one summand.
pub fn narrow_classes_have_one_summand()
    ensures { NarrowClassesHaveOneSummand }
{
    unifiers_partition();
    narrow_sorts_have_one_summand();
}

/// The value of a class that is never the identity has some summand.
pub fn other_classes_have_some_summand()
    ensures { OtherClassesHaveSomeSummand }
{
    unifiers_partition();
    other_sorts_have_some_summand();
}

/// A choice that values obey keeps to what sorts ask.
pub fn obeyed_choices_keep_bounds()
    ensures { ObeyedChoicesKeepBounds }
{
    taken_solutions_stand_for_summands();
    narrow_classes_have_one_summand();
    narrow_classes_take_no_identity();
    other_classes_have_some_summand();
    narrow_classes_have_no_tag();
}

/// No operator under which it is narrow, and whose identity it never is, is the tag of a class.
pub fn narrow_classes_have_no_tag()
    ensures { NarrowClassesHaveNoTag }
{
    unifiers_partition();
    classes_have_one_kind();
    narrow_sorts_have_no_sum();
    other_classes_have_some_summand();
    neutral_operators_admit_sums();
}

/// An operator whose identity leaves sorts alone admits sums of each sort of its kind.
pub fn neutral_operators_admit_sums()
    ensures { NeutralOperatorsAdmitSums }
{}

/// At a leaf each unifier is covered by a choice, which keeps to what sorts ask where the unifier does.
pub fn sorted_leaves_cover()
    ensures { SortedLeavesCover }
{
    unifiers_go_with();
    tables_have_sums();
    values_obey_choices();
    obeyed_choices_fall();
    obeyed_choices_cover();
    obeyed_choices_keep_bounds();
}
