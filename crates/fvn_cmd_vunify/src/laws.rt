//! The laws of lines, each the contract of a function that does nothing.
ghost use Rattle.fvn_cmd_vunify.specs.Laws.{ShownTheoryUnifiersKeepThePromise};

use fvn_answer::{equal_lines_are_instances, lines_denote_one_substitution};
use fvn_module_loading::loaded_modules_are_good;
use fvn_problems::problems_are_kinded;
use fvn_rewrite_laws::sequences_are_lawful;
use fvn_terms::{instances_are_transitive, rewriting_is_lawful, theory_equality_is_lawful};
use fvn_vunify::{
    complete_irreducible_unifiers_are_shortest, flattened_pairs_have_one_theory_answer,
    theory_unifiers_have_irreducible_values,
};

/// What the lines of an answer denote are unifiers in the theory with irreducible values, none an instance of another;
/// where the search came to its end, each unifier in the theory is an instance of that of a line, and else each within the
/// steps that the search went past.
pub fn shown_theory_unifiers_keep_the_promise()
    ensures { ShownTheoryUnifiersKeepThePromise }
{
    loaded_modules_are_good();
    problems_are_kinded();
    theory_equality_is_lawful();
    instances_are_transitive();
    rewriting_is_lawful();
    sequences_are_lawful();
    equal_lines_are_instances();
    lines_denote_one_substitution();
    flattened_pairs_have_one_theory_answer();
    theory_unifiers_have_irreducible_values();
    complete_irreducible_unifiers_are_shortest();
}
