//! Laws of leaves that are opened, each the contract of a function that does nothing.
ghost use Rattle.fvn_combine_candidates.specs.Laws.{
  SumOperatorsAreFew,
  BasesMakeSystems,
  AliveBasesMakeAlive,
  RefusalsAreCauses,
  ListedChoicesArePossible,
  SortedChoicesAreWithin,
  CoveringChoicesAreListed,
  ListsCover,
};

use fvn_combine_bounds::sorted_leaves_cover;
use fvn_combine_choices::valid_choices_are_acceptable;
use fvn_combine_complete::readings_tell;
use fvn_combine_nodes::node_partitions_are_partitions;
use fvn_combine_systems::node_systems_are_sum_systems;

/// There are no more sum operators than subterms.
pub fn sum_operators_are_few()
    ensures { SumOperatorsAreFew }
{}

/// The minimal solutions of all sum operators go with their systems.
pub fn bases_make_systems()
    ensures { BasesMakeSystems }
{}

/// Where none that is alive is left out of the lists, none is of the systems.
pub fn alive_bases_make_alive()
    ensures { AliveBasesMakeAlive }
{}

/// A system that is refused at a partition is why a solver ends.
pub fn refusals_are_causes()
    ensures { RefusalsAreCauses }
{
    node_partitions_are_partitions();
    node_systems_are_sum_systems();
}

/// Tags and numbers are a possible choice that is full, and within bounds, where the numbers are choices of the
/// wheels and no class is an alias.
pub fn listed_choices_are_possible()
    ensures { ListedChoicesArePossible }
{
    valid_choices_are_acceptable();
}

/// A choice that keeps to what sorts ask is within the wheels' bounds.
pub fn sorted_choices_are_within()
    ensures { SortedChoicesAreWithin }
{}

/// A choice that covers a unifier can be listed.
pub fn covering_choices_are_listed()
    ensures { CoveringChoicesAreListed }
{}

/// At a leaf each unifier is covered by a choice that can be listed.
pub fn lists_cover()
    ensures { ListsCover }
{
    sorted_leaves_cover();
    readings_tell();
    covering_choices_are_listed();
    listed_choices_are_possible();
    sorted_choices_are_within();
}
