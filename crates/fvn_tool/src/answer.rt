//! The answer to a command over the text of a module.
ghost use Rattle.std.specs.Prelude.{◌≡◌, IfOk};
ghost use Rattle.fvn_tool.specs.Asked.{too_long_line};
ghost use Rattle.fvn_tool.specs.Outcomes.{usage_line};
ghost use Rattle.fvn_tool.specs.inner.Reading.{meant, IsFit};
ghost use Rattle.fvn_tool.specs.inner.Steps.{IsCommandReply};
ghost use Rattle.fvn_cmd.specs.Texts.{bytes_of};

use crate::words::Command;
use fvn_cmd::{Answer, Status};
use fvn_cmd_laws::{check_reply, unify_reply, variants_reply, verify_reply, vunify_reply};
use fvn_cmd_terminates::terminates_reply;
use fvn_cover::Gate;
use fvn_terms::NoMemory;
use std::alloc::Global;
use std::thread::Threads;

/// The usage line, for words that are no command.
pub(crate) fn usage() -> Answer
    ensures status { result.status ≡ Status.Usage }
    ensures text { bytes_of result.text ≡ usage_line }
{
    Answer::fixed(
        Status::Usage,
        b"usage: fvn check|unify|variants|vunify|verify|work|terminates\n",
    )
}

/// The refusal of a module whose text is too long.
pub(crate) fn too_long() -> Answer
    ensures status { result.status ≡ Status.ModuleRefused }
    ensures text { bytes_of result.text ≡ too_long_line }
{
    Answer::fixed(Status::ModuleRefused, b"module 14\n")
}

/// What is replied to a command over the text of a module.
pub(crate) fn reply<R: Threads + Sync, G: Gate>(
    rt: &R,
    gate: &G,
    alloc: Global,
    bytes: &[u8],
    command: Command<'_>,
) -> Result<Answer, NoMemory>
    requires { IsFit command }
    ensures { IfOk result (λ a.
        IsCommandReply (meant command.entry) bytes.now a.status (bytes_of a.text)) }
{
    match command {
        Command::Check => check_reply(alloc, bytes),
        Command::Unify(word) => unify_reply(alloc, bytes, word),
        Command::Verify(problem, bindings, steps) => {
            verify_reply(alloc, bytes, problem, bindings, steps)
        }
        Command::Terminates(word) => terminates_reply(alloc, bytes, word),
        Command::Variants(word, reach, workers) => {
            variants_reply(rt, gate, alloc, bytes, word, reach, workers)
        }
        Command::Vunify(word, reach, workers) => {
            vunify_reply(rt, gate, alloc, bytes, word, reach, workers)
        }
    }
}
