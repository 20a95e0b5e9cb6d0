//! The reply to `vunify`.
ghost use Rattle.std.specs.Prelude.{IfOk};
ghost use Rattle.fvn_cmd.specs.Texts.{bytes_of};
ghost use Rattle.fvn_cmd_exploring.specs.Searches.{AreSomeWorkers, IsSearchable, KeepsSome};
ghost use Rattle.fvn_cmd_vunify.specs.Replies.{IsAnswer, IsVunifyReply};
ghost use Rattle.fvn_cmd_vunify.specs.inner.Steps.{IsProblemIn, RepliesIn};

use crate::solving::solved;
use fvn_answer::equal_lines_are_instances;
use fvn_cmd::{Answer, refuse_module, refuse_problem};
use fvn_cmd_exploring::{Search, answer_after, load_with_rules};
use fvn_cmd_unify::{flattened, lines_of};
use fvn_cmd_words::Reach;
use fvn_cover::Gate;
use fvn_flat::flattened_pairs_are_given;
use fvn_problems::{Problem, problem_names_are_words, problem_names_differ, read_problem};
use fvn_terms::{NoMemory, rewriting_is_lawful};
use fvn_vunify::{
    complete_irreducible_unifiers_are_shortest, flattened_pairs_have_one_theory_answer,
    theory_unifiers_have_irreducible_values,
};
use std::alloc::Global;
use std::thread::Threads;

// The answer to a problem.
fn answer<R: Threads + Sync, G: Gate>(
    rt: &R,
    gate: &G,
    search: &Search<'_>,
    problem: &Problem,
) -> Result<Answer, NoMemory>
    requires search { IsSearchable
        search.now.declared.now search.now.rules.now search.now.reach search.now.workers }
    requires problem { IsProblemIn search.now.declared.now problem.now }
    ensures { IfOk result (λ a. IsAnswer
        search.now.declared.now problem.now search.now.reach a.status (bytes_of a.text)) }
{
    equal_lines_are_instances();
    rewriting_is_lawful();
    flattened_pairs_are_given();
    flattened_pairs_have_one_theory_answer();
    theory_unifiers_have_irreducible_values();
    complete_irreducible_unifiers_are_shortest();
    let declared = search.declared;
    let signature = declared.signature();
    signature.recall_good();
    signature.recall_completed();
    let given = flattened(search.alloc, signature, problem.pairs.as_slice())?;
    let r = solved(rt, gate, search, given)?;
    let unifiers = r.unifiers.as_slice();
    let lines = lines_of(search.alloc, declared, problem, unifiers)?;
    let reply = answer_after(search, &r.end, lines)?;
    Ok(reply)
}

// What is replied to the word of a problem, where the module is loaded.
fn reply_in<R: Threads + Sync, G: Gate>(
    rt: &R,
    gate: &G,
    search: &Search<'_>,
    word: &[u8],
) -> Result<Answer, NoMemory>
    requires search { IsSearchable
        search.now.declared.now search.now.rules.now search.now.reach search.now.workers }
    ensures { IfOk result (λ a. RepliesIn
        search.now.declared.now word.now search.now.reach a.status (bytes_of a.text)) }
{
    let declared = search.declared;
    declared.recall_readable();
    problem_names_are_words();
    problem_names_differ();
    match read_problem(search.alloc, declared.signature(), declared.names(), word) {
        Err(fault) => {
            let reply = refuse_problem(search.alloc, fault)?;
            Ok(reply)
        }
        Ok(problem) => {
            let reply = answer(rt, gate, search, &problem)?;
            Ok(reply)
        }
    }
}

/// What is replied to the text of a module and the word of a problem: its unifiers in the theory of the module, found so
/// far by so many workers, or what is refused.
pub fn vunify_reply<R: Threads + Sync, G: Gate>(
    rt: &R,
    gate: &G,
    alloc: Global,
    bytes: &[u8],
    word: &[u8],
    reach: Reach,
    workers: u32,
) -> Result<Answer, NoMemory>
    requires reach { KeepsSome reach }
    requires workers { AreSomeWorkers workers }
    ensures { IfOk result (λ a.
        IsVunifyReply bytes.now word.now reach a.status (bytes_of a.text)) }
{
    match load_with_rules(alloc, bytes) {
        Ok(loaded) => {
            let search = Search {
                alloc,
                declared: &loaded.declared,
                rules: &loaded.rules,
                reach,
                workers,
            };
            let reply = reply_in(rt, gate, &search, word)?;
            Ok(reply)
        }
        Err(fault) => {
            let reply = refuse_module(alloc, &fault)?;
            Ok(reply)
        }
    }
}
