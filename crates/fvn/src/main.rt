//! The program: it hands the words, standard input and standard output to the top call.
#![tactic(auto)]

ghost use Rattle.std.specs.Prelude.{◌≡◌, map, string_bytes};
ghost use Rattle.std.specs.Process.{exit_status};
ghost use Rattle.fvn_cmd.specs.declared.status.Status.{Status as AnyStatus};
ghost use Rattle.fvn_cmd.specs.Statuses.{exit_number, IsSilent};
ghost use Rattle.fvn_tool.specs.Words.{ReadNothing};
ghost use Rattle.fvn_tool.specs.Runs.{seen};
ghost use Rattle.fvn_tool.specs.Claims.{IsReport};

#[cfg(test)]
mod tests;

use fvn_cover::{Gate, OpenGate};
use fvn_outside::{Sink, Source, StdSink, StdSource};
use fvn_tool::{Status, run};
use std::alloc::Global;
use std::env::{self, Env};
use std::io;
use std::process::ExitCode;
use std::string::String;
use std::thread::Threads;

// The words of the command line after the program's name.
fn words<R: Env + AllocGlobal>(rt: &R) -> io::Result<Vec<String>> {
    let mut words = Vec::new(rt.alloc());
    for word in env::args(rt)?.skip(1) {
        words.push(word)?;
    }
    Ok(words)
}

// A run, and the code of its status to exit with.
fn program<R: Threads + Sync, G: Gate, S: Source, K: Sink>(
    rt: &R,
    gate: &G,
    alloc: Global,
    words: &[String],
    source: &mut S,
    out: &mut K,
) -> ExitCode
    ensures report { (status : AnyStatus) × (exit_status result ≡ exit_number status)
        × IsReport (record {
          words = map string_bytes words.now;
          source = seen S.left S.faults source.old source.new;
          status = status;
          sink = seen K.written K.faults out.old out.new;
        })
        × (IsSilent status → out.new ≡ out.old) }
    ensures unread { ReadNothing (map string_bytes words.now) → source.new ≡ source.old }
{
    let status = run(rt, gate, alloc, words, source, out);
    ExitCode::from(status.exit_number())
}

fn main(rt: HostRuntime) -> ExitCode {
    // Words that are no text are no command.
    let words = match words(&rt) {
        Ok(words) => words,
        Err(error) if error.kind() == io::ErrorKind::OutOfMemory => {
            return ExitCode::from(Status::NoMemory.exit_number());
        }
        Err(_) => Vec::new(rt.alloc()),
    };
    let mut module = StdSource::new(rt.stdin());
    let mut out = StdSink::new(rt.stdout());
    program(
        &rt,
        &OpenGate,
        rt.alloc(),
        words.as_slice(),
        &mut module,
        &mut out,
    )
}
