//! Laws of values that go with a state, each the contract of a function that does nothing.
ghost use Rattle.fvn_combine_inferring.specs.Laws.{SortedUnifiersGoWith};

use fvn_combine_bounds::{
    narrow_classes_have_one_summand, other_classes_have_some_summand, unifiers_go_with,
};

/// The values of a unifier go with a state that admits its partition, as its sorts have them.
pub fn sorted_unifiers_go_with()
    ensures { SortedUnifiersGoWith }
{
    unifiers_go_with();
    narrow_classes_have_one_summand();
    other_classes_have_some_summand();
}
