//! Laws of unifiers in a theory, each the contract of a function that does nothing.
ghost use Rattle.fvn_vunify.specs.Laws.{
  CompleteIrreducibleUnifiersAreShortest,
  FlattenedPairsHaveOneTheoryAnswer,
  TheoryUnifiersHaveIrreducibleValues,
};

use fvn_flat::flattened_pairs_have_one_answer;
use fvn_rewrite_normal_forms::normal_forms_are_lawful;
use fvn_terms::{instances_are_transitive, rewriting_is_lawful, theory_equality_is_lawful};

/// Where admissible equations terminate and lose no sort, every unifier in the theory is there an
/// instance of one with irreducible values.
pub fn theory_unifiers_have_irreducible_values()
    ensures { TheoryUnifiersHaveIrreducibleValues }
{
    normal_forms_are_lawful();
    rewriting_is_lawful();
    theory_equality_is_lawful();
    instances_are_transitive();
}

/// A complete list of unifiers with irreducible values is a shortest one, where none is an instance
/// of another.
pub fn complete_irreducible_unifiers_are_shortest()
    ensures { CompleteIrreducibleUnifiersAreShortest }
{
    instances_are_transitive();
}

/// Flattened pairs have the unifiers in the theory of the plain pairs.
pub fn flattened_pairs_have_one_theory_answer()
    ensures { FlattenedPairsHaveOneTheoryAnswer }
{
    theory_equality_is_lawful();
    flattened_pairs_have_one_answer();
}
