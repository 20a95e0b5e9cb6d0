//! Laws of level runs and explorations, each the contract of a function that does nothing.
ghost use Rattle.fvn_closure.specs.Laws.{
  CoveringsCarryLiftings,
  ChildrenAreVariants,
  LevelRunsAreLawful,
  ExplorationsAreLawful,
};

use fvn_exploring::Expander;
use fvn_rewrite_laws::{
    kinded_theories_are_lawful, lists_are_lawful, rules_are_lawful, sequences_are_lawful,
};
use fvn_terms::{covering_is_reflexive_and_transitive, rewriting_is_lawful};

/// What lifts into a variant lifts into each variant that covers it.
pub fn coverings_carry_liftings()
    ensures { CoveringsCarryLiftings }
{
    rewriting_is_lawful();
}

/// A child of a variant of the start is a variant of the start.
pub fn children_are_variants<E: Expander>(expander: &E)
    ensures { ChildrenAreVariants (E.setting expander.now) (E.drawn expander.now) }
{
    rewriting_is_lawful();
    sequences_are_lawful();
    lists_are_lawful();
    kinded_theories_are_lawful();
    rules_are_lawful();
}

/// Each member of a level run is a variant of the start; closed levels cover those that few steps lead to.
pub fn level_runs_are_lawful<E: Expander>(expander: &E)
    ensures { LevelRunsAreLawful (E.setting expander.now) (E.drawn expander.now) }
{
    rewriting_is_lawful();
    sequences_are_lawful();
    lists_are_lawful();
    kinded_theories_are_lawful();
    rules_are_lawful();
}

/// Where finitely many variants suffice, no exploration ends at its levels; a complete one is shortest.
pub fn explorations_are_lawful<E: Expander>(expander: &E)
    ensures { ExplorationsAreLawful (E.setting expander.now) (E.drawn expander.now) }
{
    rewriting_is_lawful();
    sequences_are_lawful();
    lists_are_lawful();
    kinded_theories_are_lawful();
    rules_are_lawful();
    covering_is_reflexive_and_transitive();
}
