//! Words of the command line, and the command that they are.
use fvn_cmd_words::{Command, Reach, read_command};
use fvn_terms::NoMemory;
use std::alloc::Global;
use std::process::Abort;
use std::string::String;

// Each line has words with one space between two, and the command that they are, with its numbers: steps, or levels,
// variants, steps and workers. An empty word is one that an argument can be.
const ROWS: &str = "check => check
check -- => check
check x => none
check --steps 3 => none
-- check => none
Check => none
unify x => unify x
unify  => unify 
unify - => unify -
unify -- -a => unify -a
unify -- -- => unify --
unify => none
unify a b => none
unify -a => none
unify a --workers 2 => none
terminates f:1 => terminates f:1
verify p b => verify p b 10000
verify --steps 3 p b => verify p b 3
verify p --steps=3 b => verify p b 3
verify p b --steps 1000000 => verify p b 1000000
verify p b --steps 1000001 => none
verify p b --steps 0 => none
verify p b --steps => none
verify p b --levels 3 => none
verify p b --steps 3 --steps=3 => none
verify p => none
verify p b c => none
variants t => variants t 100 1000 10000 1
variants t --levels 1000 --variants=10000 --steps 1000000 --workers=16 => variants t 1000 10000 1000000 16
variants --workers 2 --levels=1 t => variants t 1 1000 10000 2
variants t --levels 000000005 => variants t 5 1000 10000 1
variants t --levels 0000000005 => none
variants t --levels 1001 => none
variants t --variants 10001 => none
variants t --workers 17 => none
variants t --levels 0 => none
variants t --variants 0 => none
variants t --steps 0 => none
variants t --steps 1000001 => none
variants t --workers 0 => none
variants t --levels= => none
variants t --levels=+5 => none
variants t --levels 5a => none
variants t --levels -- 5 => none
variants t --level 5 => none
variants t --levels5 => none
variants t --levels 5 --levels 5 => none
variants -- t --levels 5 => none
variants -- --levels => variants --levels 100 1000 10000 1
variants --levels 7 -- -x => variants -x 7 1000 10000 1
vunify x --workers 16 --steps=1000000 --variants 10000 --levels=1000 => vunify x 1000 10000 1000000 16
vunify x --levels 1001 => none
vunify x --variants 10001 => none
vunify x --steps 1000001 => none
vunify x --workers 17 => none
vunify x --levels 0 => none
vunify x --variants 0 => none
vunify x --steps 0 => none
vunify x --workers 0 => none
vunify x --workers 4 => vunify x 100 1000 10000 4
vunify x y => none
work 1 => none
work 2 => work 2
work 06 => work 6
work 7 => none
work 2 --steps 4 => none
work two => none
module => none";

// A text.
fn say(out: &mut String, text: &str) -> Result<(), NoMemory> {
    out.push_str(text)?;
    Ok(())
}

// Bytes, each as a letter.
fn say_bytes(out: &mut String, bytes: &[u8]) -> Result<(), NoMemory> {
    for byte in bytes {
        out.push(char::from(*byte))?;
    }
    Ok(())
}

// A number behind a space.
fn say_number(out: &mut String, alloc: Global, n: u64) -> Result<(), NoMemory> {
    let text = format!(in alloc; " {n}")?;
    say(out, text.as_str())
}

// The numbers of an exploration.
fn say_reach(out: &mut String, alloc: Global, reach: Reach, workers: u64) -> Result<(), NoMemory> {
    say_number(out, alloc, u64::from(reach.levels))?;
    say_number(out, alloc, u64::from(reach.variants))?;
    say_number(out, alloc, reach.steps)?;
    say_number(out, alloc, workers)
}

// A word, and the numbers of an exploration.
fn say_search(
    out: &mut String,
    alloc: Global,
    word: &[u8],
    reach: Reach,
    workers: u64,
) -> Result<(), NoMemory> {
    say_bytes(out, word)?;
    say_reach(out, alloc, reach, workers)
}

// A problem, bindings and a number of steps.
fn say_verify(
    out: &mut String,
    alloc: Global,
    problem: &[u8],
    bindings: &[u8],
    steps: u64,
) -> Result<(), NoMemory> {
    say_bytes(out, problem)?;
    say(out, " ")?;
    say_bytes(out, bindings)?;
    say_number(out, alloc, steps)
}

// The word for a command.
fn name(command: Command<'_>) -> &'static str {
    match command {
        Command::Check => "check",
        Command::Unify(_) => "unify ",
        Command::Verify(_, _, _) => "verify ",
        Command::Terminates(_) => "terminates ",
        Command::Variants(_, _, _) => "variants ",
        Command::Vunify(_, _, _) => "vunify ",
        Command::Work(_) => "work",
    }
}

// A command with its words and numbers.
fn say_command(out: &mut String, alloc: Global, command: Command<'_>) -> Result<(), NoMemory> {
    say(out, name(command))?;
    match command {
        Command::Check => Ok(()),
        Command::Unify(problem) => say_bytes(out, problem),
        Command::Verify(problem, bindings, steps) => {
            say_verify(out, alloc, problem, bindings, steps)
        }
        Command::Terminates(weights) => say_bytes(out, weights),
        Command::Variants(term, reach, workers) => say_search(out, alloc, term, reach, workers),
        Command::Vunify(problem, reach, workers) => say_search(out, alloc, problem, reach, workers),
        Command::Work(n) => say_number(out, alloc, n),
    }
}

// The words of a line.
fn words_of(alloc: Global, text: &str) -> Result<Vec<String>, NoMemory> {
    let mut words = Vec::new(alloc);
    for piece in text.split(' ') {
        let mut word = String::new(alloc);
        word.push_str(piece)?;
        words.push(word)?;
    }
    Ok(words)
}

// The command that the words are, or `none`.
fn told(alloc: Global, words: &[String]) -> Result<String, NoMemory> {
    let mut out = String::new(alloc);
    match read_command(words) {
        Some(command) => say_command(&mut out, alloc, command)?,
        None => say(&mut out, "none")?,
    }
    Ok(out)
}

// What the words of a row are is what the row says.
fn assert_row(rt: &impl Abort, alloc: Global, line: &str) -> Result<(), NoMemory> {
    let (asked, want) = line.split_once(" => ").unwrap_or((line, ""));
    let words = words_of(alloc, asked)?;
    let found = told(alloc, words.as_slice())?;
    assert_eq!(rt; found.as_str(), want, "at {line}");
    Ok(())
}

#[test]
fn words_are_read_so(rt: HostRuntime) -> Result<(), NoMemory> {
    for line in ROWS.lines() {
        assert_row(&rt, rt.alloc(), line)?;
    }
    Ok(())
}

#[test]
fn no_words_are_no_command(rt: HostRuntime) -> Result<(), NoMemory> {
    let words: Vec<String> = Vec::new(rt.alloc());
    let found = told(rt.alloc(), words.as_slice())?;
    assert_eq!(&rt; found.as_str(), "none", "no words");
    Ok(())
}
