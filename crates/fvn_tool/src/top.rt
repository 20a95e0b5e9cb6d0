//! The top call.
ghost use Rattle.std.specs.Prelude.{◌≡◌, ◌<◌, ◌⊎◌, map, string_bytes, ◌≢◌, IfOk, IfErr, IsOk, IsErrOf};
ghost use Rattle.fvn_outside.specs.Faults.{Rose, NeverFails};
ghost use Rattle.fvn_tool.specs.Words.{AreNoCommand, ReadNothing};
ghost use Rattle.fvn_cmd.specs.Texts.{bytes_of};
ghost use Rattle.fvn_cmd.specs.Statuses.{IsSilent};
ghost use Rattle.fvn_tool.specs.Runs.{seen, Leaves};
ghost use Rattle.fvn_tool.specs.Claims.{IsReport};
ghost use Rattle.fvn_tool.specs.inner.Steps.{IsGivenOutcome};

use crate::laws::questions_are_determined;
use crate::words::Heard;
use crate::{answer, words};
use fvn_base::limits::MODULE_BYTES;
use fvn_cmd::{Answer, Status};
use fvn_cmd_laws::{answers_are_exact, explored_answers_are_exact, verdicts_are_exact};
use fvn_cmd_work::work_reply;
use fvn_cover::Gate;
use fvn_outside::{ReadAll, Sink, Source, WriteFailed, read_all, write_all};
use fvn_terms::NoMemory;
use std::alloc::Global;
use std::string::String;
use std::thread::Threads;

// Reads the module where the words are a command over one, and answers; a status alone where nothing is to be written.
fn respond<R: Threads + Sync, G: Gate, S: Source>(
    rt: &R,
    gate: &G,
    alloc: Global,
    words: &[String],
    source: &mut S,
) -> Result<Answer, Status>
    ensures unread { ReadNothing (map string_bytes words.now) → source.new ≡ source.old }
    ensures usage { AreNoCommand (map string_bytes words.now) → IsOk result }
    ensures outcome { IfOk result (λ a. IsGivenOutcome (map string_bytes words.now)
        (seen S.left S.faults source.old source.new) a.status (bytes_of a.text)) }

    ensures silent { IfErr result IsSilent }
    ensures read_fault { IfErr result (λ s. s ≡ Status.ReadFault →
        Rose (S.faults source.old) (S.faults source.new)) }
    ensures no_read_fault { NeverFails S.faults → IfErr result (λ s. s ≡ Status.NoMemory) }
    ensures failed_read { S.faults source.old < S.faults source.new →
        IsErrOf result Status.ReadFault }
{
    match words::hear(words) {
        Heard::NoCommand => Ok(answer::usage()),
        Heard::Work(number) => match work_reply(alloc, number) {
            Err(NoMemory) => Err(Status::NoMemory),
            Ok(answer) => Ok(answer),
        },
        Heard::OverModule(command) => match read_all(alloc, source, MODULE_BYTES) {
            Err(ReadAll::Fault) => Err(Status::ReadFault),
            Err(ReadAll::NoMemory) => Err(Status::NoMemory),
            Err(ReadAll::TooLong) => Ok(answer::too_long()),
            Ok(bytes) => match answer::reply(rt, gate, alloc, &bytes, command) {
                Err(NoMemory) => Err(Status::NoMemory),
                Ok(answer) => Ok(answer),
            },
        },
    }
}

// Answers, and writes the answer's text.
fn conclude<R: Threads + Sync, G: Gate, S: Source, K: Sink>(
    rt: &R,
    gate: &G,
    alloc: Global,
    words: &[String],
    source: &mut S,
    out: &mut K,
) -> Status
    ensures unread { ReadNothing (map string_bytes words.now) → source.new ≡ source.old }
    ensures unwritten { IsSilent result → out.new ≡ out.old }
    ensures outcome { Leaves
        (IsGivenOutcome (map string_bytes words.now)
        (seen S.left S.faults source.old source.new))
        result (seen K.written K.faults out.old out.new) }
    ensures usage { AreNoCommand (map string_bytes words.now) →
        (result ≡ Status.Usage) ⊎ (result ≡ Status.WriteFault) }

    ensures read_fault { result ≡ Status.ReadFault →
        Rose (S.faults source.old) (S.faults source.new) }
    ensures no_read_fault { NeverFails S.faults → result ≢ Status.ReadFault }
    ensures failed_read { S.faults source.old < S.faults source.new → result ≡ Status.ReadFault }
    ensures write_fault { result ≡ Status.WriteFault →
        Rose (K.faults out.old) (K.faults out.new) }
    ensures no_write_fault { NeverFails K.faults → result ≢ Status.WriteFault }
    ensures failed_write { K.faults out.old < K.faults out.new → result ≡ Status.WriteFault }
{
    match respond(rt, gate, alloc, words, source) {
        Err(status) => status,
        Ok(answer) => match write_all(out, answer.text.as_slice()) {
            Ok(()) => answer.status,
            Err(WriteFailed) => Status::WriteFault,
        },
    }
}

/// Does all that the program does: reads the words and the module, carries out the command, and writes one text.
///
/// Nothing is written before the whole text is there. Each piece of work that may run beside others goes through the
/// gate first.
pub fn run<R: Threads + Sync, G: Gate, S: Source, K: Sink>(
    rt: &R,
    gate: &G,
    alloc: Global,
    words: &[String],
    source: &mut S,
    out: &mut K,
) -> Status
    ensures report { IsReport (record {
      words = map string_bytes words.now;
      source = seen S.left S.faults source.old source.new;
      status = result;
      sink = seen K.written K.faults out.old out.new;
    }) }

    // Only for a command that reads is anything read, and without a text nothing is written.
    ensures unread { ReadNothing (map string_bytes words.now) → source.new ≡ source.old }
    ensures unwritten { IsSilent result → out.new ≡ out.old }

    // What never fails gives no fault.
    ensures no_read_fault { NeverFails S.faults → result ≢ Status.ReadFault }
    ensures no_write_fault { NeverFails K.faults → result ≢ Status.WriteFault }
{
    verdicts_are_exact();
    answers_are_exact();
    explored_answers_are_exact();
    questions_are_determined();
    conclude(rt, gate, alloc, words, source, out)
}
