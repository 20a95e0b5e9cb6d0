//! The reply to `verify`.
ghost use Rattle.std.specs.Prelude.{All, IfOk};
ghost use Rattle.fvn_terms.specs.Signature.{KeepsKinds};
ghost use Rattle.fvn_terms.specs.Substitution.{value};
ghost use Rattle.fvn_problems.specs.Problems.{AreOfOneKind};
ghost use Rattle.fvn_problems.specs.Scopes.{AreNamesOf};
ghost use Rattle.fvn_module_loading.specs.Loading.{HasHarmlessSides};
ghost use Rattle.fvn_cmd.specs.Texts.{bytes_of};
ghost use Rattle.fvn_cmd_verify.specs.Verdicts.{TellsVerdict};
ghost use Rattle.fvn_cmd_verify.specs.Replies.{IsVerifyReply};
ghost use Rattle.fvn_cmd_verify.specs.inner.Steps.{RepliesToBindings, RepliesToProblem};

use crate::telling::tell;
use fvn_base::limits::TERM_SYMBOLS;
use fvn_cmd::{Answer, refuse_module, refuse_problem};
use fvn_cohere::harmless_equations_are_admissible;
use fvn_module::Module;
use fvn_module_engines::{extend, verify};
use fvn_module_loading::load;
use fvn_problems::{Bindings, Problem, read_bindings, read_problem};
use fvn_terms::NoMemory;
use fvn_theory::Bounds;
use std::alloc::Global;

// The answer to a problem under bindings.
fn verified(
    alloc: Global,
    declared: &Module,
    problem: &Problem,
    bindings: &Bindings,
    steps: u64,
) -> Result<Answer, NoMemory>
    requires harmless { HasHarmlessSides declared.now }
    requires kinded { All (AreOfOneKind declared.now.signature) problem.now.pairs }
    requires keeps { KeepsKinds declared.now.signature (value bindings.now.subst.pairs) }
    ensures { IfOk result (λ a.
        TellsVerdict declared.now steps problem.now bindings.now a.status (bytes_of a.text)) }
{
    declared.recall_readable();
    harmless_equations_are_admissible();
    let rules = extend(alloc, declared)?;
    let bounds = Bounds {
        steps,
        size: TERM_SYMBOLS,
    };
    let verdict = verify(alloc, declared, &rules, problem, bindings, bounds)?;
    let answer = tell(alloc, declared, steps, verdict)?;
    Ok(answer)
}

// What is replied to the word of bindings, where the problem is read.
fn reply_to_bindings(
    alloc: Global,
    declared: &Module,
    problem: &Problem,
    bindings: &[u8],
    steps: u64,
) -> Result<Answer, NoMemory>
    requires harmless { HasHarmlessSides declared.now }
    requires names { AreNamesOf declared.now.signature declared.now.names }
    requires kinded { All (AreOfOneKind declared.now.signature) problem.now.pairs }
    ensures { IfOk result (λ a. RepliesToBindings
        declared.now problem.now bindings.now steps a.status (bytes_of a.text)) }
{
    match read_bindings(
        alloc,
        declared.signature(),
        declared.names(),
        problem,
        bindings,
    ) {
        Err(fault) => {
            let answer = refuse_problem(alloc, fault)?;
            Ok(answer)
        }
        Ok(bound) => {
            let answer = verified(alloc, declared, problem, &bound, steps)?;
            Ok(answer)
        }
    }
}

// What is replied to the words of a problem and of bindings, where the module is loaded.
fn reply_to_problem(
    alloc: Global,
    declared: &Module,
    problem: &[u8],
    bindings: &[u8],
    steps: u64,
) -> Result<Answer, NoMemory>
    requires harmless { HasHarmlessSides declared.now }
    ensures { IfOk result (λ a. RepliesToProblem
        declared.now problem.now bindings.now steps a.status (bytes_of a.text)) }
{
    declared.recall_readable();
    match read_problem(alloc, declared.signature(), declared.names(), problem) {
        Err(fault) => {
            let answer = refuse_problem(alloc, fault)?;
            Ok(answer)
        }
        Ok(asked) => {
            let answer = reply_to_bindings(alloc, declared, &asked, bindings, steps)?;
            Ok(answer)
        }
    }
}

/// What is replied to the text of a module and the words of a problem and of bindings, with this limit on the steps of
/// each side: a verdict, or what is refused.
pub fn verify_reply(
    alloc: Global,
    bytes: &[u8],
    problem: &[u8],
    bindings: &[u8],
    steps: u64,
) -> Result<Answer, NoMemory>
    ensures { IfOk result (λ a. IsVerifyReply
        bytes.now problem.now bindings.now steps a.status (bytes_of a.text)) }
{
    match load(alloc, bytes) {
        Ok(declared) => {
            let answer = reply_to_problem(alloc, &declared, problem, bindings, steps)?;
            Ok(answer)
        }
        Err(fault) => {
            let answer = refuse_module(alloc, &fault)?;
            Ok(answer)
        }
    }
}
