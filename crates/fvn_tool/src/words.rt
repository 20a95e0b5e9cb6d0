//! Reading the words of the command line.
ghost use Rattle.std.specs.Prelude.{ℕ, List, map, string_bytes};
ghost use Rattle.fvn_cmd_words.specs.Words as grammar;
ghost use Rattle.fvn_cmd_words.specs.Told as told;
ghost use Rattle.fvn_tool.specs.inner.Reading.{IsHeard};

use fvn_cmd_words::{Command as Asked, Reach, read_command};
use std::string::String;

/// What the words ask of a module that is read.
#[derive(Clone, Copy)]
pub(crate) enum Command<'a> {
    /// To tell how much a module declares.
    Check,
    /// To unify the sides of each pair of a problem.
    Unify(&'a [u8]),
    /// To tell whether bindings solve a problem, with a limit on the steps from each side.
    Verify(&'a [u8], &'a [u8], u64),
    /// To tell whether weights show that the equations terminate.
    Terminates(&'a [u8]),
    /// To find the variants of a term, searched so far, by so many workers.
    Variants(&'a [u8], Reach, u32),
    /// To find the unifiers of a problem in the theory of the module, searched so far, by so many workers.
    Vunify(&'a [u8], Reach, u32),
}

/// What the words ask.
#[derive(Clone, Copy)]
pub(crate) enum Heard<'a> {
    /// Nothing that is a command.
    NoCommand,
    /// To count the unifiers of a problem that is made of a number.
    Work(u64),
    /// Something of a module that is read.
    OverModule(Command<'a>),
}

// What a command of the words means.
fn meaning(asked: Asked<'_>) -> Heard<'_>
    requires { told.IsWithin asked }
    ensures { (words : List (List ℕ)) → grammar.IsCommand words (told.meant asked.entry) →
        IsHeard words result }
{
    match asked {
        Asked::Check => Heard::OverModule(Command::Check),
        Asked::Unify(problem) => Heard::OverModule(Command::Unify(problem)),
        Asked::Verify(problem, bindings, steps) => {
            Heard::OverModule(Command::Verify(problem, bindings, steps))
        }
        Asked::Terminates(weights) => Heard::OverModule(Command::Terminates(weights)),
        Asked::Variants(term, reach, workers) => {
            Heard::OverModule(Command::Variants(term, reach, workers as u32))
        }
        Asked::Vunify(problem, reach, workers) => {
            Heard::OverModule(Command::Vunify(problem, reach, workers as u32))
        }
        Asked::Work(number) => Heard::Work(number),
    }
}

/// What the words ask; no command exactly where they are none.
pub(crate) fn hear(words: &[String]) -> Heard<'_>
    ensures { IsHeard (map string_bytes words.now) result }
{
    let read = read_command(words);
    match read {
        None => Heard::NoCommand,
        Some(asked) => meaning(asked),
    }
}
