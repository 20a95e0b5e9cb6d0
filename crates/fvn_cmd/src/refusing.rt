//! The answers that refuse a module, a problem or bindings.
ghost use Rattle.std.specs.Prelude.{◌≡◌, IfOk};
ghost use Rattle.fvn_cmd.specs.Refusing.{IsProblemRefusalLine, IsRefusalLine};
ghost use Rattle.fvn_cmd.specs.Texts.{bytes_of};

use crate::answer::Answer;
use crate::status::Status;
use fvn_cmd_texts::{problem_text, refusal_text};
use fvn_module::ModuleFault;
use fvn_problems::ProblemFault;
use fvn_terms::NoMemory;
use std::alloc::Global;

/// The refusal of a module.
pub fn refuse_module(alloc: Global, fault: &ModuleFault) -> Result<Answer, NoMemory>
    ensures status { IfOk result (λ a. a.status ≡ Status.ModuleRefused) }
    ensures text { IfOk result (λ a. IsRefusalLine fault.now (bytes_of a.text)) }
{
    let text = refusal_text(alloc, fault)?;
    let answer = Answer::one_line(Status::ModuleRefused, text)?;
    Ok(answer)
}

/// The refusal of a problem or of bindings.
pub fn refuse_problem(alloc: Global, fault: ProblemFault) -> Result<Answer, NoMemory>
    ensures status { IfOk result (λ a. a.status ≡ Status.ProblemRefused) }
    ensures text { IfOk result (λ a. IsProblemRefusalLine fault (bytes_of a.text)) }
{
    let text = problem_text(alloc, fault)?;
    let answer = Answer::one_line(Status::ProblemRefused, text)?;
    Ok(answer)
}
