//! The reply to `work`.
ghost use Rattle.std.specs.Prelude.{◌≤◌, IfOk, All};
ghost use Rattle.fvn_problems.specs.Problems.{AreOfOneKind, HasVariables};
ghost use Rattle.fvn_module_loading.specs.Loading.{IsLoaded};
ghost use Rattle.fvn_cmd.specs.Texts.{bytes_of};
ghost use Rattle.fvn_cmd_words.specs.declared.limits.TheConstants.{LEAST_WORK, MOST_WORK};
ghost use Rattle.fvn_cmd_work.specs.Made.{work_module};
ghost use Rattle.fvn_cmd_work.specs.Replies.{IsCount, IsWorkAnswer};

use crate::texts::{module_text, problem_text};
use fvn_answer::answer_text;
use fvn_cmd::{Answer, Text, status_of_end};
use fvn_cmd_unify::end_of_search;
use fvn_module::Module;
use fvn_module_loading::load;
use fvn_problems::{Problem, read_problem};
use fvn_terms::NoMemory;
use std::alloc::Global;

// How many unifiers a problem has.
fn count(alloc: Global, declared: &Module, problem: &Problem) -> Result<Answer, NoMemory>
    requires kinded { All (AreOfOneKind declared.now.signature) problem.now.pairs }
    requires vars { HasVariables declared.now.signature problem.now }
    ensures { IfOk result (λ a. IsCount declared.now problem.now a.status (bytes_of a.text)) }
{
    let end = end_of_search(alloc, declared, problem)?;
    let lines = Vec::new(alloc);
    let text = answer_text(alloc, declared, lines, &end)?;
    Ok(Answer {
        status: status_of_end(&end),
        text: Text::Made(text),
    })
}

// What is replied to a number, where the module is read.
fn reply_in(alloc: Global, declared: &Module, n: u64) -> Result<Answer, NoMemory>
    requires loaded { IsLoaded work_module declared.now }
    requires least { LEAST_WORK ≤ n }
    requires most { n ≤ MOST_WORK }
    ensures { IfOk result (λ a. IsWorkAnswer n a.status (bytes_of a.text)) }
{
    declared.recall_readable();
    match read_problem(
        alloc,
        declared.signature(),
        declared.names(),
        problem_text(n),
    ) {
        Ok(problem) => {
            let reply = count(alloc, declared, &problem)?;
            Ok(reply)
        }
        Err(_want_of_memory) => Err(NoMemory),
    }
}

/// How many unifiers a sum of two variables and one of so many have.
///
/// The module and the problem are texts of the program, so that nothing but want of memory keeps them from being read:
/// a refusal is no answer.
pub fn work_reply(alloc: Global, n: u64) -> Result<Answer, NoMemory>
    requires least { LEAST_WORK ≤ n }
    requires most { n ≤ MOST_WORK }
    ensures { IfOk result (λ a. IsWorkAnswer n a.status (bytes_of a.text)) }
{
    match load(alloc, module_text()) {
        Ok(declared) => reply_in(alloc, &declared, n),
        Err(_want_of_memory) => Err(NoMemory),
    }
}
