//! Laws of the definitions, for every signature, each the contract of a function that does nothing.
ghost use Rattle.fvn_terms.specs.Laws.{
  EqualityIsAnEquivalence,
  EqualityIsACongruence,
  EqualityIsKeptBySubstitution,
  WhatFollowsAUnifierIsAUnifier,
  FreeTermsAreEqual,
  TheoryEqualityIsLawful,
  InstancesAreTransitive,
  CompleteSetsThatAreApartAreShortest,
  RewritingIsLawful,
  CoveringIsReflexiveAndTransitive,
};

use crate::declarations::Declarations;
use crate::plain::Plain;
use crate::substitution::PlainSubst;

/// Equality modulo the axioms is reflexive, symmetric and transitive.
pub fn equality_is_an_equivalence()
    ensures { EqualityIsAnEquivalence }
{}

/// An operator over arguments that are equal modulo the axioms gives terms that are.
pub fn equality_is_a_congruence()
    ensures { EqualityIsACongruence }
{}

/// Terms that are equal modulo the axioms stay so under a substitution that keeps kinds.
pub fn equality_is_kept_by_substitution()
    ensures { EqualityIsKeptBySubstitution }
{}

/// A unifier followed by a well-sorted substitution is a unifier.
pub fn what_follows_a_unifier_is_a_unifier()
    ensures { WhatFollowsAUnifierIsAUnifier }
{}

/// Where no operator has axioms, terms that are equal modulo the axioms are equal.
pub fn free_terms_are_equal()
    ensures { FreeTermsAreEqual }
{}

/// Equality in the theory of equations has the same laws, and contains equality modulo the axioms.
pub fn theory_equality_is_lawful()
    ensures { TheoryEqualityIsLawful }
{}

/// An instance of an instance is an instance.
pub fn instances_are_transitive()
    ensures { InstancesAreTransitive }
{}

/// A complete set of unifiers of which none is an instance of another has as few members as any complete set.
pub fn complete_sets_that_are_apart_are_shortest()
    ensures { CompleteSetsThatAreApartAreShortest }
{}

/// Rewriting modulo the axioms leads between classes of equal terms, inside terms and through instances.
pub fn rewriting_is_lawful()
    ensures { RewritingIsLawful }
{}

/// Covering is reflexive and transitive.
pub fn covering_is_reflexive_and_transitive()
    ensures { CoveringIsReflexiveAndTransitive }
{}

// Takes only what may be sent to and shared between threads.
fn shared<T: Send + Sync>(_value: &T) {}

/// Terms, substitutions and declarations may be shared between threads.
pub fn all_shared(declarations: &Declarations, term: &Plain, substitution: &PlainSubst) {
    shared(declarations);
    shared(term);
    shared(substitution);
}
