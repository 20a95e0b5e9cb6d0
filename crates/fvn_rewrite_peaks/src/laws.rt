//! Laws of peaks, each the contract of a function that does nothing.
ghost use Rattle.fvn_rewrite_peaks.specs.Laws.{
  PlacesAreApartOrNested,
  JoinsAreKeptInside,
  ValuesCarryInstances,
  OverlapsDecideSteps,
  StandInsDecideSteps,
  ConfluentEquationsJoinOverlaps,
  TerminationAndJoinsGiveConfluence,
};

use fvn_rewrite_coherence::{instances_step_at_parts, rules_are_coherent, sequences_keep_sorts};
use fvn_rewrite_laws::{
    agreement_is_lawful, kinded_theories_are_lawful, rules_are_lawful, sequences_are_lawful,
};
use fvn_terms::rewriting_is_lawful;

/// Of two places of one form none stands in the other, or one does.
pub fn places_are_apart_or_nested()
    ensures { PlacesAreApartOrNested }
{}

/// What is joinable at one place is joinable in the whole.
pub fn joins_are_kept_inside()
    ensures { JoinsAreKeptInside }
{
    sequences_are_lawful();
}

/// Where each value of a substitution has a sequence to that of another, so has each instance.
pub fn values_carry_instances()
    ensures { ValuesCarryInstances }
{
    rewriting_is_lawful();
    sequences_are_lawful();
}

/// Where the overlaps of rules join, two steps from one term join.
pub fn overlaps_decide_steps()
    ensures { OverlapsDecideSteps }
{
    rules_are_lawful();
    stand_ins_decide_steps();
}

/// Where the overlaps of forms join that stand for the rules, two steps from one term join.
pub fn stand_ins_decide_steps()
    ensures { StandInsDecideSteps }
{
    rewriting_is_lawful();
    sequences_are_lawful();
    agreement_is_lawful();
    kinded_theories_are_lawful();
    rules_are_lawful();
    rules_are_coherent();
    sequences_keep_sorts();
    instances_step_at_parts();
}

/// Where equations are confluent, the overlaps of their rules join.
pub fn confluent_equations_join_overlaps()
    ensures { ConfluentEquationsJoinOverlaps }
{
    rewriting_is_lawful();
    agreement_is_lawful();
    rules_are_lawful();
}

/// Where the equations terminate and two steps from one term join, the equations are confluent.
pub fn termination_and_joins_give_confluence()
    ensures { TerminationAndJoinsGiveConfluence }
{
    rewriting_is_lawful();
    sequences_are_lawful();
    kinded_theories_are_lawful();
}
