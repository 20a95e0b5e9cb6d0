//! Laws of rewriting modulo the axioms, each the contract of a function that does nothing.
ghost use Rattle.fvn_rewrite_laws.specs.Laws.{
  SequencesAreLawful,
  ListsAreLawful,
  AgreementIsLawful,
  KindedTheoriesAreLawful,
  ShapesAreExact,
  ChoicesAreEnough,
  RulesAreLawful,
};

use fvn_terms::rewriting_is_lawful;

/// Sequences lead between classes of equal terms and inside terms, and irreducible terms are so modulo the axioms.
pub fn sequences_are_lawful()
    ensures { SequencesAreLawful }
{
    rewriting_is_lawful();
}

/// Sequences of lists are sequences of their members.
pub fn lists_are_lawful()
    ensures { ListsAreLawful }
{
    rewriting_is_lawful();
}

/// Variants, bounds and covering speak of the values of the terms' variables alone.
pub fn agreement_is_lawful()
    ensures { AgreementIsLawful }
{
    rewriting_is_lawful();
}

/// Steps keep kinds; where the equations are confluent, terms are equal in the theory exactly where sequences from them meet.
pub fn kinded_theories_are_lawful()
    ensures { KindedTheoriesAreLawful }
{
    rewriting_is_lawful();
}

/// The shape of an instance is computed from the shapes of the values.
pub fn shapes_are_exact()
    ensures { ShapesAreExact }
{}

/// Finitely many choices of sorts and identities tell whether an equation loses a sort, and whether a term collapses.
pub fn choices_are_enough()
    ensures { ChoicesAreEnough }
{}

/// Instances of the rules that are made from equations are steps, and bring no variable.
pub fn rules_are_lawful()
    ensures { RulesAreLawful }
{
    rewriting_is_lawful();
}
