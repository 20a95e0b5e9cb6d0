//! Laws of lifting, each the contract of a function that does nothing.
ghost use Rattle.fvn_lifting.specs.Laws.{MeetingsComeFromUnifiers, InstancesMeetRules, SumsStepInPairs, SuccessorsAreSteps};
ghost use Rattle.fvn_lifting.specs.Laws.{RenamedFormsHaveTheSameInstances, TurnsLift, WholeExpansionsLift};

use fvn_rewrite_coherence::{instances_step_at_parts, rules_are_coherent};
use fvn_rewrite_laws::{kinded_theories_are_lawful, rules_are_lawful};
use fvn_terms::rewriting_is_lawful;

/// Where substitutions make two terms without common variables equal modulo the axioms, both follow one member of any
/// complete list of unifiers over new variables.
pub fn meetings_come_from_unifiers()
    ensures { MeetingsComeFromUnifiers }
{}

/// An instance of forms with irreducible values that is reducible meets a needed rule at a place of one of the forms.
pub fn instances_meet_rules()
    ensures { InstancesMeetRules }
{
    instances_step_at_parts();
}

/// Where an instance of a sum meets a rule that is met in pairs, already that of one summand, or of two, is reducible.
pub fn sums_step_in_pairs()
    ensures { SumsStepInPairs }
{
    rewriting_is_lawful();
    kinded_theories_are_lawful();
    rules_are_lawful();
}

/// One step leads from the instance by its unifier to what a narrowing step makes.
pub fn successors_are_steps()
    ensures { SuccessorsAreSteps }
{
    rewriting_is_lawful();
    rules_are_lawful();
    kinded_theories_are_lawful();
    instances_step_at_parts();
}

/// Each instance of forms is one of the same forms with renamed variables.
pub fn renamed_forms_have_the_same_instances()
    ensures { RenamedFormsHaveTheSameInstances }
{}

/// Where each unifier at a place gave a child or something reducible, each instance that meets the rule there lifts
/// into a child.
pub fn turns_lift()
    ensures { TurnsLift }
{
    rewriting_is_lawful();
    meetings_come_from_unifiers();
}

/// Where this is so at all places, for all needed rules, or else at all pairs of summands for a rule that is met in
/// pairs, each reducible instance with irreducible values lifts into a child.
pub fn whole_expansions_lift()
    ensures { WholeExpansionsLift }
{
    rewriting_is_lawful();
    rules_are_coherent();
    instances_meet_rules();
    sums_step_in_pairs();
    renamed_forms_have_the_same_instances();
}
