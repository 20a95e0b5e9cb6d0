//! How many unifiers a problem has.
ghost use Rattle.std.specs.Prelude.{IfOk, All};
ghost use Rattle.fvn_answer.specs.Answers.{FitsEnd};
ghost use Rattle.fvn_problems.specs.Problems.{AreOfOneKind, HasVariables};
ghost use Rattle.fvn_cmd_unify.specs.Solutions.{IsEndOfSearch};

use crate::ends::end_told;
use crate::replying::solved;
use fvn_answer::End;
use fvn_flat::{answers_to_flattened_pairs, flattened_pairs_have_one_answer};
use fvn_module::Module;
use fvn_problems::Problem;
use fvn_terms::NoMemory;
use std::alloc::Global;

/// How the search for the unifiers of a problem ends, without these.
pub fn end_of_search(alloc: Global, declared: &Module, problem: &Problem) -> Result<End, NoMemory>
    requires kinded { All (AreOfOneKind declared.now.signature) problem.now.pairs }
    requires vars { HasVariables declared.now.signature problem.now }
    ensures found { IfOk result (IsEndOfSearch declared.now problem.now) }
    ensures fits { IfOk result (FitsEnd declared.now.signature) }
{
    answers_to_flattened_pairs();
    flattened_pairs_have_one_answer();
    declared.signature().recall_good();
    let found = solved(alloc, declared, problem)?;
    let unifiers = found.unifiers.as_slice();
    Ok(end_told(&found.end, unifiers.len()))
}
