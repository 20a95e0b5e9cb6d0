//! The laws of lines, each the contract of a function that does nothing.
ghost use Rattle.fvn_cmd_unify.specs.Laws.{LinesDenoteUnifiers, ShownLinesKeepThePromise};

use fvn_answer::{equal_lines_are_instances, lines_denote_one_substitution};
use fvn_module_loading::loaded_modules_are_good;
use fvn_problems::problems_are_kinded;

/// What a line denotes is a unifier, and it and the unifier whose line it is are instances of each other.
pub fn lines_denote_unifiers()
    ensures { LinesDenoteUnifiers }
{
    equal_lines_are_instances();
    lines_denote_one_substitution();
}

/// What the lines of an answer denote are unifiers, none an instance of another, and at `complete` every unifier is an
/// instance of one.
pub fn shown_lines_keep_the_promise()
    ensures { ShownLinesKeepThePromise }
{
    loaded_modules_are_good();
    problems_are_kinded();
    lines_denote_unifiers();
}
