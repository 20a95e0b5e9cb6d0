//! Laws of overlaps, each the contract of a function that does nothing.
ghost use Rattle.fvn_critical_pairs.specs.Laws.{
  OverlapsOfRulesDecideSteps,
  OverlapsOfRulesDecideConfluence,
  UnifiersDecideOverlaps,
  OverlapsAreSteps,
  DivergenceExcludesConfluence,
};

use fvn_lifting::{meetings_come_from_unifiers, renamed_forms_have_the_same_instances};
use fvn_rewrite_coherence::instances_step_at_parts;
use fvn_rewrite_laws::{agreement_is_lawful, rules_are_lawful, sequences_are_lawful};
use fvn_rewrite_peaks::{stand_ins_decide_steps, termination_and_joins_give_confluence};
use fvn_terms::rewriting_is_lawful;

/// Where all overlaps of rules join, two steps from one term join.
pub fn overlaps_of_rules_decide_steps()
    ensures { OverlapsOfRulesDecideSteps }
{
    rewriting_is_lawful();
    sequences_are_lawful();
    agreement_is_lawful();
    rules_are_lawful();
    renamed_forms_have_the_same_instances();
    stand_ins_decide_steps();
}

/// Where they do and the equations terminate, the equations are confluent.
pub fn overlaps_of_rules_decide_confluence()
    ensures { OverlapsOfRulesDecideConfluence }
{
    overlaps_of_rules_decide_steps();
    termination_and_joins_give_confluence();
}

/// Where both results of an overlap join under each unifier of a complete list, they join wherever it is met.
pub fn unifiers_decide_overlaps()
    ensures { UnifiersDecideOverlaps }
{
    rewriting_is_lawful();
    rules_are_lawful();
    meetings_come_from_unifiers();
}

/// Both results of an overlap are reached by one step, by one equation each.
pub fn overlaps_are_steps()
    ensures { OverlapsAreSteps }
{
    rewriting_is_lawful();
    rules_are_lawful();
    instances_step_at_parts();
}

/// Where one term is brought to two that have no form in common, the equations are not confluent.
pub fn divergence_excludes_confluence()
    ensures { DivergenceExcludesConfluence }
{
    rewriting_is_lawful();
}
