//! Laws of values at a leaf, each the contract of a function that does nothing.
ghost use Rattle.fvn_combine_complete.specs.Laws.{
  ValuesMeetWhatIsAsked,
  ValuesChoose,
  ValuesAreLaidOut,
  NoAliases,
  ReadingsTell,
  TablesHaveSums,
  TagsExist,
  UnifiersGoWith,
  ValuesObeyChoices,
  ObeyedChoicesFall,
  ObeyedChoicesCover,
  LeavesCover,
  UnfilledHasNoValues,
};

use fvn_combine_nodes::unifiers_partition;
use fvn_combine_supports::{
    counts_are_made_up, made_up_by_taken, minimal_has_column, pieces_choose,
};
use fvn_combine_systems::{counts_solve, unifiers_have_values};

/// The counts of values that go with a leaf meet what is asked of the choice for an operator.
pub fn values_meet_what_is_asked()
    ensures { ValuesMeetWhatIsAsked }
{
    counts_solve();
}

/// Values that go with a leaf choose minimal solutions, with pieces.
pub fn values_choose()
    ensures { ValuesChoose }
{
    values_meet_what_is_asked();
    counts_are_made_up();
    pieces_choose();
}

/// The summands of values are the pieces, laid out.
pub fn values_are_laid_out()
    ensures { ValuesAreLaidOut }
{}

/// A value with two summands or more is no sum of a single constant.
pub fn no_aliases()
    ensures { NoAliases }
{
    made_up_by_taken();
}

/// A reading tells what heads and uses all classes.
pub fn readings_tell()
    ensures { ReadingsTell }
{}

/// The table of a well-kinded problem has sums over two subterms, and identities.
pub fn tables_have_sums()
    ensures { TablesHaveSums }
{}

/// Values that go with a leaf, and obey its heads, obey some tags that follow these.
pub fn tags_exist()
    ensures { TagsExist }
{}

/// A unifier's values go with each state that admits its partition.
pub fn unifiers_go_with()
    ensures { UnifiersGoWith }
{
    unifiers_have_values();
    unifiers_partition();
}

/// Values that go with a leaf obey a possible choice that is full, and whose tags follow its heads.
pub fn values_obey_choices()
    ensures { ValuesObeyChoices }
{
    values_choose();
    no_aliases();
    made_up_by_taken();
}

/// Where a class that has a summand for sure is in no minimal solution that is live, no values that obey the heads go with the state.
pub fn unfilled_has_no_values()
    ensures { UnfilledHasNoValues }
{
    counts_solve();
    minimal_has_column();
}

/// Where values obey a choice, a class needs only classes of a lower rank.
pub fn obeyed_choices_fall()
    ensures { ObeyedChoicesFall }
{}

/// Where a unifier's values obey a choice, what the bindings of its plan unfold to covers it.
pub fn obeyed_choices_cover()
    ensures { ObeyedChoicesCover }
{
    unifiers_partition();
    unifiers_go_with();
    tables_have_sums();
}

/// At a leaf that admits its partition, each unifier on kinds is covered by some choice.
pub fn leaves_cover()
    ensures { LeavesCover }
{
    unifiers_go_with();
    tables_have_sums();
    values_obey_choices();
    obeyed_choices_fall();
    obeyed_choices_cover();
}
