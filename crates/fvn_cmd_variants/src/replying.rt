//! The reply to `variants`.
ghost use Rattle.std.specs.Prelude.{IfOk};
ghost use Rattle.fvn_terms.specs.Plain.{term};
ghost use Rattle.fvn_terms.specs.Signature.{IsTerm};
ghost use Rattle.fvn_cmd.specs.Texts.{bytes_of};
ghost use Rattle.fvn_cmd_exploring.specs.Searches.{AreSomeWorkers, IsSearchable, KeepsSome};
ghost use Rattle.fvn_cmd_variants.specs.Replies.{IsAnswer, IsVariantsReply};
ghost use Rattle.fvn_cmd_variants.specs.inner.Steps.{IsStartOf, IsTermIn, RepliesIn};

use crate::lines::lines_of;
use crate::searching::searched;
use fvn_answer::equal_lines_cover;
use fvn_cmd::{Answer, refuse_module, refuse_problem};
use fvn_cmd_exploring::{Search, answer_after, load_with_rules};
use fvn_cmd_words::Reach;
use fvn_cover::Gate;
use fvn_flat::{Flat, flatten};
use fvn_problems::{Query, query_names_are_words, query_names_differ, read_term};
use fvn_signature::Signature;
use fvn_terms::{NoMemory, Plain, rewriting_is_lawful};
use std::alloc::Global;
use std::thread::Threads;

// The flat form of a term, as a list.
fn start_of(alloc: Global, signature: &Signature, t: &Plain) -> Result<Vec<Flat>, NoMemory>
    requires { IsTerm signature.now (term t.now) }
    ensures { IfOk result (λ start. IsStartOf signature.now (term t.now) start.items) }
{
    let form = flatten(alloc, signature, t)?;
    let mut start = Vec::new(alloc);
    start.push(form)?;
    Ok(start)
}

// The answer to a term.
fn answer<R: Threads + Sync, G: Gate>(
    rt: &R,
    gate: &G,
    search: &Search<'_>,
    query: &Query,
) -> Result<Answer, NoMemory>
    requires search { IsSearchable
        search.now.declared.now search.now.rules.now search.now.reach search.now.workers }
    requires query { IsTermIn search.now.declared.now query.now }
    ensures { IfOk result (λ a. IsAnswer
        search.now.declared.now query.now search.now.reach a.status (bytes_of a.text)) }
{
    equal_lines_cover();
    rewriting_is_lawful();
    let declared = search.declared;
    let signature = declared.signature();
    signature.recall_good();
    signature.recall_completed();
    let start = start_of(search.alloc, signature, &query.term)?;
    let x = searched(rt, gate, search, start.as_slice())?;
    let variants = x.variants.as_slice();
    let lines = lines_of(search.alloc, declared, query, variants)?;
    let reply = answer_after(search, &x.end, lines)?;
    Ok(reply)
}

// What is replied to the word of a term, where the module is loaded.
fn reply_in<R: Threads + Sync, G: Gate>(
    rt: &R,
    gate: &G,
    search: &Search<'_>,
    word: &[u8],
) -> Result<Answer, NoMemory>
    requires search { IsSearchable
        search.now.declared.now search.now.rules.now search.now.reach search.now.workers }
    ensures { IfOk result (λ a. RepliesIn
        search.now.declared.now word.now search.now.reach a.status (bytes_of a.text)) }
{
    let declared = search.declared;
    declared.recall_readable();
    query_names_are_words();
    query_names_differ();
    match read_term(search.alloc, declared.signature(), declared.names(), word) {
        Err(fault) => {
            let reply = refuse_problem(search.alloc, fault)?;
            Ok(reply)
        }
        Ok(query) => {
            let reply = answer(rt, gate, search, &query)?;
            Ok(reply)
        }
    }
}

/// What is replied to the text of a module and the word of a term: its variants, found so far by so many workers, or
/// what is refused.
pub fn variants_reply<R: Threads + Sync, G: Gate>(
    rt: &R,
    gate: &G,
    alloc: Global,
    bytes: &[u8],
    word: &[u8],
    reach: Reach,
    workers: u32,
) -> Result<Answer, NoMemory>
    requires reach { KeepsSome reach }
    requires workers { AreSomeWorkers workers }
    ensures { IfOk result (λ a.
        IsVariantsReply bytes.now word.now reach a.status (bytes_of a.text)) }
{
    match load_with_rules(alloc, bytes) {
        Ok(loaded) => {
            let search = Search {
                alloc,
                declared: &loaded.declared,
                rules: &loaded.rules,
                reach,
                workers,
            };
            let reply = reply_in(rt, gate, &search, word)?;
            Ok(reply)
        }
        Err(fault) => {
            let reply = refuse_module(alloc, &fault)?;
            Ok(reply)
        }
    }
}
