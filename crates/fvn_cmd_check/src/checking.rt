//! The answer to `check`.
ghost use Rattle.std.specs.Prelude.{IfOk};
ghost use Rattle.fvn_cmd.specs.Texts.{bytes_of};
ghost use Rattle.fvn_cmd_check.specs.Checks.{IsCheckReply, TellsSorts};

use fvn_cmd::{Answer, Status, refuse_module};
use fvn_cmd_texts::{sorts_text, summary_text};
use fvn_module::Module;
use fvn_module_loading::{load, sort_loss};
use fvn_terms::NoMemory;
use std::alloc::Global;

// What is told of a module: how much it declares, and whether its equations keep sorts.
fn tell_module(alloc: Global, declared: &Module) -> Result<Answer, NoMemory>
    ensures { IfOk result (λ a. TellsSorts declared.now a.status (bytes_of a.text)) }
{
    let summary = summary_text(alloc, declared)?;
    let loss = sort_loss(alloc, declared)?;
    let sorts = sorts_text(alloc, loss)?;
    let answer = Answer::two_lines(Status::Solved, summary, sorts.as_slice())?;
    Ok(answer)
}

/// What is replied to the text of a module that is to be checked: how much it declares and whether its equations keep
/// sorts, or its first fault.
pub fn check_reply(alloc: Global, bytes: &[u8]) -> Result<Answer, NoMemory>
    ensures { IfOk result (λ a. IsCheckReply bytes.now a.status (bytes_of a.text)) }
{
    match load(alloc, bytes) {
        Ok(declared) => tell_module(alloc, &declared),
        Err(fault) => refuse_module(alloc, &fault),
    }
}
