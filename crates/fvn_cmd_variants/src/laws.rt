//! The laws of lines, each the contract of a function that does nothing.
ghost use Rattle.fvn_cmd_variants.specs.Laws.{ShownVariantsKeepThePromise};

use fvn_answer::{equal_lines_cover, lines_denote_one_variant};
use fvn_module_loading::loaded_modules_are_good;
use fvn_problems::queries_are_kinded;
use fvn_rewrite_laws::{lists_are_lawful, sequences_are_lawful};
use fvn_terms::{covering_is_reflexive_and_transitive, rewriting_is_lawful};

/// What the lines of an answer denote are variants of the term, none covered by another's; where the search came to its
/// end, each variant is covered by that of a line, and else each that few steps lead to.
pub fn shown_variants_keep_the_promise()
    ensures { ShownVariantsKeepThePromise }
{
    loaded_modules_are_good();
    queries_are_kinded();
    rewriting_is_lawful();
    sequences_are_lawful();
    lists_are_lawful();
    covering_is_reflexive_and_transitive();
    equal_lines_cover();
    lines_denote_one_variant();
}
