//! The reply to `unify`.
ghost use Rattle.std.specs.Prelude.{IfOk, All};
ghost use Rattle.fvn_answer.specs.Asked.{AreAsked};
ghost use Rattle.fvn_cmd.specs.Texts.{bytes_of};
ghost use Rattle.fvn_problems.specs.Problems.{AreOfOneKind, HasVariables};
ghost use Rattle.fvn_cmd_unify.specs.Replies.{IsAnswer, IsUnifyReply};
ghost use Rattle.fvn_cmd_unify.specs.inner.Steps.{IsSolved, RepliesIn};

use crate::ends::end_told;
use crate::lines::lines_of;
use crate::pairs::flattened;
use fvn_answer::{answer_text, equal_lines_are_instances};
use fvn_axunify::{AxiomUnify, SolveLimits};
use fvn_base::limits::{TERM_SYMBOLS, UNIFIERS};
use fvn_cmd::{Answer, Text, refuse_module, refuse_problem, status_of_end};
use fvn_flat::{
    Solved, answers_to_flattened_pairs, flattened_pairs_are_given, flattened_pairs_have_one_answer,
};
use fvn_module::Module;
use fvn_module_loading::load;
use fvn_problems::{Problem, problem_names_are_words, problem_names_differ, read_problem};
use fvn_terms::NoMemory;
use std::alloc::Global;

// What the solver finds.
pub(crate) fn solved(
    alloc: Global,
    declared: &Module,
    problem: &Problem,
) -> Result<Solved, NoMemory>
    requires kinded { All (AreOfOneKind declared.now.signature) problem.now.pairs }
    requires vars { HasVariables declared.now.signature problem.now }
    ensures { IfOk result (IsSolved declared.now problem.now) }
{
    flattened_pairs_are_given();
    let signature = declared.signature();
    signature.recall_good();
    let limits = SolveLimits {
        unifiers: UNIFIERS,
        size: TERM_SYMBOLS,
    };
    let given = flattened(alloc, signature, problem.pairs.as_slice())?;
    let solver = AxiomUnify::new(signature, limits);
    let found = solver.unify(alloc, &given, 0)?;
    Ok(found)
}

// The answer to a problem.
fn answer(alloc: Global, declared: &Module, problem: &Problem) -> Result<Answer, NoMemory>
    requires kinded { All (AreOfOneKind declared.now.signature) problem.now.pairs }
    requires vars { HasVariables declared.now.signature problem.now }
    requires asked { AreAsked declared.now.signature problem.now.names.texts problem.now.vars }
    ensures { IfOk result (λ a. IsAnswer declared.now problem.now a.status (bytes_of a.text)) }
{
    answers_to_flattened_pairs();
    flattened_pairs_have_one_answer();
    equal_lines_are_instances();
    declared.signature().recall_good();
    let found = solved(alloc, declared, problem)?;
    let unifiers = found.unifiers.as_slice();
    let lines = lines_of(alloc, declared, problem, unifiers)?;
    let end = end_told(&found.end, unifiers.len());
    let text = answer_text(alloc, declared, lines, &end)?;
    Ok(Answer {
        status: status_of_end(&end),
        text: Text::Made(text),
    })
}

// What is replied to the word of a problem, where the module is read.
fn reply_in(alloc: Global, declared: &Module, word: &[u8]) -> Result<Answer, NoMemory>
    ensures { IfOk result (λ a. RepliesIn declared.now word.now a.status (bytes_of a.text)) }
{
    declared.recall_readable();
    problem_names_are_words();
    problem_names_differ();
    match read_problem(alloc, declared.signature(), declared.names(), word) {
        Err(fault) => {
            let reply = refuse_problem(alloc, fault)?;
            Ok(reply)
        }
        Ok(problem) => {
            let reply = answer(alloc, declared, &problem)?;
            Ok(reply)
        }
    }
}

/// What is replied to the text of a module and the word of a problem that is to be unified.
pub fn unify_reply(alloc: Global, bytes: &[u8], word: &[u8]) -> Result<Answer, NoMemory>
    ensures { IfOk result (λ a. IsUnifyReply bytes.now word.now a.status (bytes_of a.text)) }
{
    match load(alloc, bytes) {
        Ok(declared) => reply_in(alloc, &declared, word),
        Err(fault) => refuse_module(alloc, &fault),
    }
}
