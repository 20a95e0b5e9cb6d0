//! What is proved of all verdicts, each law carried by a function that does nothing.
ghost use Rattle.fvn_verify.specs.Laws.{VerdictsAgree, VerdictsWithoutEquationsAreDetermined};

use fvn_forms::equality_is_that_of_flat_forms;
use fvn_terms::{rewriting_is_lawful, theory_equality_is_lawful};

/// Where the equations are confluent, no pairs under one substitution are told to be equal and to differ, and the first
/// that differ are always the same.
pub fn verdicts_agree()
    ensures { VerdictsAgree }
{
    rewriting_is_lawful();
    theory_equality_is_lawful();
}

/// Without equations there is one verdict at most on pairs under a substitution.
pub fn verdicts_without_equations_are_determined()
    ensures { VerdictsWithoutEquationsAreDetermined }
{
    equality_is_that_of_flat_forms();
}
