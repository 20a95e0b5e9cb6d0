//! The reply to `terminates`.
ghost use Rattle.std.specs.Prelude.{◌≡◌, IfOk, Some};
ghost use Rattle.fvn_weights.specs.Weighing.{AreWeightsOf};
ghost use Rattle.fvn_cmd.specs.Texts.{bytes_of};
ghost use Rattle.fvn_cmd_terminates.specs.Weighings.{IsWeighingLine, TellsWeighing};
ghost use Rattle.fvn_cmd_terminates.specs.Replies.{IsTerminatesReply};
ghost use Rattle.fvn_cmd_terminates.specs.inner.Steps.{RepliesIn};

use fvn_cmd::{Answer, Status, refuse_module, refuse_problem};
use fvn_cmd_texts::weigh_fault_text;
use fvn_module::Module;
use fvn_module_loading::load;
use fvn_terms::NoMemory;
use fvn_weights::{WeighFault, Weights, weigh};
use fvn_weights_reading::read_weights;
use std::alloc::Global;

// The answer that weights have this first fault.
fn tell_fault(alloc: Global, declared: &Module, fault: &WeighFault) -> Result<Answer, NoMemory>
    ensures status { IfOk result (λ a. a.status ≡ Status.Nothing) }
    ensures text { IfOk result (λ a.
        IsWeighingLine declared.now (Some fault.now) (bytes_of a.text)) }
{
    let text = weigh_fault_text(alloc, declared.names(), fault)?;
    let answer = Answer::one_line(Status::Nothing, text)?;
    Ok(answer)
}

// The answer to weights.
fn answer(alloc: Global, declared: &Module, weights: &Weights) -> Result<Answer, NoMemory>
    requires { AreWeightsOf declared.now.signature weights.now.list }
    ensures { IfOk result (λ a.
        TellsWeighing declared.now weights.now a.status (bytes_of a.text)) }
{
    match weigh(alloc, declared.signature(), declared.equations(), weights) {
        Ok(()) => Ok(Answer::fixed(Status::Solved, b"terminates\n")),
        Err(fault) => {
            let answer = tell_fault(alloc, declared, &fault)?;
            Ok(answer)
        }
    }
}

// What is replied to the word of weights, where the module is loaded.
fn reply_in(alloc: Global, declared: &Module, word: &[u8]) -> Result<Answer, NoMemory>
    ensures { IfOk result (λ a. RepliesIn declared.now word.now a.status (bytes_of a.text)) }
{
    declared.recall_readable();
    match read_weights(alloc, declared.signature(), declared.names(), word) {
        Err(fault) => {
            let reply = refuse_problem(alloc, fault)?;
            Ok(reply)
        }
        Ok(weights) => {
            let reply = answer(alloc, declared, &weights)?;
            Ok(reply)
        }
    }
}

/// What is replied to the text of a module and the word of weights: whether they show that its equations terminate, or
/// what is refused.
pub fn terminates_reply(alloc: Global, bytes: &[u8], word: &[u8]) -> Result<Answer, NoMemory>
    ensures { IfOk result (λ a. IsTerminatesReply bytes.now word.now a.status (bytes_of a.text)) }
{
    match load(alloc, bytes) {
        Ok(declared) => reply_in(alloc, &declared, word),
        Err(fault) => refuse_module(alloc, &fault),
    }
}
