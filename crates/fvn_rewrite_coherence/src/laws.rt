//! Laws of the rules of a module, each the contract of a function that does nothing.
ghost use Rattle.fvn_rewrite_coherence.specs.Laws.{InstancesStepAtParts, RulesAreCoherent, SequencesKeepSorts};

use fvn_rewrite_laws::{agreement_is_lawful, kinded_theories_are_lawful, rules_are_lawful};
use fvn_terms::rewriting_is_lawful;

/// Each step of a term is a step at a place of its flat form by a rule whose left side the operator there heads, and the
/// other way round; variables and identities are irreducible.
pub fn rules_are_coherent()
    ensures { RulesAreCoherent }
{
    rewriting_is_lawful();
    kinded_theories_are_lawful();
    rules_are_lawful();
}

/// Along sequences with admissible sort-decreasing equations each sort of the first term is one of the last.
pub fn sequences_keep_sorts()
    ensures { SequencesKeepSorts }
{
    rewriting_is_lawful();
    kinded_theories_are_lawful();
}

/// A step of an instance of a form is one at a part of it, where one operator heads the part, its instance and a rule's left
/// side, or within the value of a variable.
pub fn instances_step_at_parts()
    ensures { InstancesStepAtParts }
{
    rewriting_is_lawful();
    kinded_theories_are_lawful();
    agreement_is_lawful();
    rules_are_coherent();
}
