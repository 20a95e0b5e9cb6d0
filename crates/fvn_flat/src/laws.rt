//! Laws of flat pairs and of answers to them, each the contract of a function that does nothing.
ghost use Rattle.fvn_flat.specs.Laws.{
  AnswersToFlattenedPairs,
  EqualPairsHaveOneAnswer,
  FlattenedPairsAreGiven,
  FlattenedPairsHaveOneAnswer,
};

/// Problems whose pairs are equal modulo the axioms have the same variables, unifiers and complete sets.
pub fn equal_pairs_have_one_answer()
    ensures { EqualPairsHaveOneAnswer }
{}

/// So have flattened pairs and the plain pairs that they come from.
pub fn flattened_pairs_have_one_answer()
    ensures { FlattenedPairsHaveOneAnswer }
{}

/// Flattened pairs may be given to a solver.
pub fn flattened_pairs_are_given()
    ensures { FlattenedPairsAreGiven }
{}

/// A solver's answer to flattened pairs is one to the plain pairs.
pub fn answers_to_flattened_pairs()
    ensures { AnswersToFlattenedPairs }
{}
