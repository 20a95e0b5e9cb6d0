//! The program's answers, from the words and the module to the bytes that are written.
mod check;
mod faults;
mod limits;
mod meeting;
mod terminates;
mod unify;
mod usage;
mod variants;
mod verify;

use crate::program;
use fvn_cover::{Gate, OpenGate};
use fvn_outside::{MemSink, MemSource};
use fvn_terms::NoMemory;
use std::alloc::Global;
use std::process::{Abort, ExitCode};
use std::string::String;
use std::thread::Threads;

// A table is a text of blocks, with an empty line between two. A block is a module, ` <=` and a line of its own for each
// row; or rows alone. A row is `words ==> number | lines`, or `words <= module ==> number | lines`: the words of the
// command line, with ` | ` between two; the number that the run exits with; and the lines that it writes, or in place of
// all but the last of them how many these are, as in `7 lines | complete 7`; or `nothing`. Between two tildes a number, `%` and a part
// stand for the part so many times, with the number of each time, from 0 on, in place of a mark `@`.

/// The bytes that a sink has room for.
const ROOM: usize = 1_000_000;

/// The words, the module, the calls that are to fail, or none for 0, and the room of the sink.
#[derive(Drop)]
struct Setting<'a> {
    words: &'a [String],
    module: &'a [u8],
    failing_read: u64,
    failing_write: u64,
    room: usize,
}

/// No call fails.
fn plain<'a>(words: &'a [String], module: &'a [u8]) -> Setting<'a> {
    Setting {
        words,
        module,
        failing_read: 0,
        failing_write: 0,
        room: ROOM,
    }
}

/// A row, of which each part is as it stands there.
#[derive(Drop)]
struct Row<'a> {
    command: &'a str,
    module: &'a str,
    number: &'a str,
    lines: &'a str,
}

/// The row of a line, over this module if it has none of its own.
fn row_of<'a>(line: &'a str, module: &'a str) -> Row<'a> {
    let (asked, said) = line.split_once(" ==> ").unwrap_or((line, "no row"));
    let (command, module) = asked.split_once(" <= ").unwrap_or((asked, module));
    let (number, lines) = said.split_once(" | ").unwrap_or((said, "no lines"));
    Row {
        command,
        module,
        number,
        lines,
    }
}

/// The number that digits write, or 0.
fn number(text: &str) -> usize {
    text.parse::<usize>().unwrap_or(0)
}

/// The part, with the number in place of a mark.
fn push_with_number(
    alloc: Global,
    text: &mut String,
    part: &str,
    n: usize,
) -> Result<(), NoMemory> {
    match part.split_once('@') {
        Some((before, behind)) => {
            let marked = format!(in alloc; "{before}{n}{behind}")?;
            text.push_str(marked.as_str())?;
        }
        None => text.push_str(part)?,
    }
    Ok(())
}

/// The part so many times.
fn push_often(alloc: Global, text: &mut String, count: usize, part: &str) -> Result<(), NoMemory> {
    for n in 0..count {
        push_with_number(alloc, text, part, n)?;
    }
    Ok(())
}

/// A piece of a text: as it is, or a number and a part.
fn push_piece(alloc: Global, text: &mut String, piece: &str) -> Result<(), NoMemory> {
    match piece.split_once('%') {
        Some((count, part)) => push_often(alloc, text, number(count), part),
        None => Ok(text.push_str(piece)?),
    }
}

/// The text with all its parts.
fn spread(alloc: Global, short: &str) -> Result<String, NoMemory> {
    let mut text = String::new(alloc);
    for piece in short.split('~') {
        push_piece(alloc, &mut text, piece)?;
    }
    Ok(text)
}

/// The words of a row; there are none in an empty text.
fn words_of(alloc: Global, command: &str) -> Result<Vec<String>, NoMemory> {
    if command.is_empty() {
        return Ok(Vec::new(alloc));
    }
    let mut words = Vec::new(alloc);
    for word in command.split(" | ") {
        words.push(String::from_str(alloc, word)?)?;
    }
    Ok(words)
}

/// The lines of a row, each with its end; or `nothing`.
fn text_of(alloc: Global, lines: &str) -> Result<String, NoMemory> {
    if lines == "nothing" {
        return Ok(String::new(alloc));
    }
    let mut text = lines.replace(alloc, " | ", "\n")?;
    text.push('\n')?;
    Ok(text)
}

/// The source of a setting: a read gives 64 bytes at most, and 16 where one is to fail.
fn source_of(alloc: Global, setting: &Setting) -> Result<MemSource, NoMemory> {
    let bytes = Vec::from_slice(alloc, setting.module)?;
    let reads = Vec::from_slice(alloc, &[setting.failing_read])?;
    if setting.failing_read == 0 {
        return Ok(MemSource::new(bytes, 64, reads));
    }
    Ok(MemSource::new(bytes, 16, reads))
}

/// The sink of a setting: a write takes 3 bytes at most.
fn sink_of(alloc: Global, setting: &Setting) -> Result<MemSink, NoMemory> {
    let writes = Vec::from_slice(alloc, &[setting.failing_write])?;
    match MemSink::new(alloc, setting.room, 3, writes) {
        Ok(out) => Ok(out),
        Err(_) => Err(NoMemory),
    }
}

/// The exit code of a run, which writes to the sink.
fn code_of<R: Threads + Sync, G: Gate>(
    rt: &R,
    gate: &G,
    alloc: Global,
    setting: &Setting,
    out: &mut MemSink,
) -> Result<ExitCode, NoMemory> {
    let mut module = source_of(alloc, setting)?;
    Ok(program(rt, gate, alloc, setting.words, &mut module, out))
}

/// How many lines end in the text.
fn lines_in(text: &[u8]) -> usize {
    let mut count = 0usize;
    for b in text {
        if *b == b'\n' {
            count = count.saturating_add(1);
        }
    }
    count
}

/// Whether the text is what is said, or has as many lines as are said before the last one.
fn is_said(text: &[u8], said: &str) -> bool {
    match said.split_once(" lines\n") {
        Some((count, last)) => {
            lines_in(text) == number(count).saturating_add(1) && text.ends_with(last.as_bytes())
        }
        None => text == said.as_bytes(),
    }
}

/// Whether a run exits with this number and writes what is said.
fn answers<R: Threads + Sync, G: Gate>(
    rt: &R,
    gate: &G,
    alloc: Global,
    setting: &Setting,
    number: u8,
    said: &str,
) -> Result<bool, NoMemory> {
    let mut out = sink_of(alloc, setting)?;
    let code = code_of(rt, gate, alloc, setting, &mut out)?;
    Ok(code == ExitCode::from(number) && is_said(out.written(), said))
}

/// A run exits with this number and writes what is said.
fn told<R: Abort + Threads + Sync, G: Gate>(
    rt: &R,
    gate: &G,
    alloc: Global,
    setting: &Setting,
    number: u8,
    said: &str,
) -> Result<(), NoMemory> {
    let same = answers(rt, gate, alloc, setting, number, said)?;
    assert!(rt; same, "at {number} and {said}");
    Ok(())
}

/// What is said in a row.
fn row_told<R: Abort + Threads + Sync, G: Gate>(
    rt: &R,
    gate: &G,
    alloc: Global,
    row: &Row,
) -> Result<(), NoMemory> {
    let words = words_of(alloc, row.command)?;
    let said = text_of(alloc, row.lines)?;
    let setting = plain(words.as_slice(), row.module.as_bytes());
    let number = row.number.parse::<u8>().unwrap_or(9);
    told(rt, gate, alloc, &setting, number, said.as_str())
}

/// The rows of a block.
fn block_told<R: Abort + Threads + Sync>(
    rt: &R,
    alloc: Global,
    block: &str,
) -> Result<(), NoMemory> {
    let (module, rows) = block.split_once(" <=\n").unwrap_or(("", block));
    for line in rows.lines() {
        row_told(rt, &OpenGate, alloc, &row_of(line, module))?;
    }
    Ok(())
}

/// The blocks of a table.
fn table_told<R: Abort + Threads + Sync>(
    rt: &R,
    alloc: Global,
    short: &str,
) -> Result<(), NoMemory> {
    let table = spread(alloc, short)?;
    for block in table.as_str().split("\n\n") {
        block_told(rt, alloc, block)?;
    }
    Ok(())
}
