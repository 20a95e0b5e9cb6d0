//! Rows of tables: a text with what is shown of it.
//!
//! Of the parts of a text between bars the second, fourth and so on is a number with what stands so many times, at each
//! with its own number in place of `%`; an empty one is the end of a line.
use super::answers::shown_answers;
use super::reading::{shown_body, shown_form, shown_module, shown_statements, shown_taken};
use fvn_terms::NoMemory;
use std::alloc::Global;
use std::process::Abort;

/// What is shown of the texts of a table: of a term the number of tokens; the form of what stands in a module, or of a
/// whole text; what the statements of a module or a whole text declare; what a module answers.
#[derive(Clone, Copy)]
pub enum Asked {
    Term,
    Body,
    Form,
    Statements,
    Module,
    Answers,
}

// The part so many times.
fn push_often(out: &mut String, part: &str, count: u32) -> Result<(), NoMemory> {
    for _ in 0..count {
        out.push_str(part)?;
    }
    Ok(())
}

// The part so many times, each time with its number.
fn push_numbered(out: &mut String, alloc: Global, part: &str, count: u32) -> Result<(), NoMemory> {
    let (before, behind) = part.split_once('%').unwrap_or((part, ""));
    for i in 0..count {
        out.push_str(&format!(in alloc; "{before}{i}{behind}")?)?;
    }
    Ok(())
}

// The number that digits write.
fn number_of(word: &str) -> u32 {
    let mut number = 0u32;
    for digit in word.as_bytes() {
        number = number
            .wrapping_mul(10)
            .wrapping_add(u32::from(digit.wrapping_sub(b'0')));
    }
    number
}

// What stands so many times, or the end of a line.
fn push_counted(out: &mut String, alloc: Global, part: &str) -> Result<(), NoMemory> {
    let (word, part) = part.split_once(' ').unwrap_or(("1", "\n"));
    let count = number_of(word);
    if part.contains('%') {
        return push_numbered(out, alloc, part, count);
    }
    push_often(out, part, count)
}

// A part as it is, or so many times as it says.
fn push_part(out: &mut String, alloc: Global, place: usize, part: &str) -> Result<(), NoMemory> {
    if place % 2 == 1 {
        return push_counted(out, alloc, part);
    }
    out.push_str(part)?;
    Ok(())
}

/// The text that the text of a row stands for.
pub fn expanded(alloc: Global, text: &str) -> Result<String, NoMemory> {
    let mut out = String::new(alloc);
    for (place, part) in text.split('|').enumerate() {
        push_part(&mut out, alloc, place, part)?;
    }
    Ok(out)
}

/// What is shown is what is wanted, or is long where that is wanted.
pub fn assert_shown(rt: &impl Abort, shown: &str, want: &str, line: &str) {
    let told = if want == "long" && shown.len() > 500 {
        want
    } else {
        shown
    };
    assert_eq!(rt; told, want, "at {line}");
}

// What the table asks of the text.
fn shown(alloc: Global, what: Asked, text: &str) -> Result<String, NoMemory> {
    match what {
        Asked::Term => shown_taken(alloc, text),
        Asked::Body => shown_body(alloc, text),
        Asked::Form => shown_form(alloc, text),
        Asked::Statements => shown_statements(alloc, text),
        Asked::Module => shown_module(alloc, text),
        Asked::Answers => shown_answers(alloc, text),
    }
}

// What is shown of a row is what it says.
fn assert_row(rt: &impl Abort, alloc: Global, what: Asked, line: &str) -> Result<(), NoMemory> {
    let (text, want) = line.rsplit_once(" => ").unwrap_or((line, "no arrow"));
    let text = expanded(alloc, text)?;
    let shown = shown(alloc, what, text.as_str())?;
    assert_shown(rt, shown.as_str(), want, line);
    Ok(())
}

/// What is shown of each row's text is what is wanted.
pub fn assert_rows(
    rt: &impl Abort,
    alloc: Global,
    what: Asked,
    lines: &str,
) -> Result<(), NoMemory> {
    for line in lines.lines() {
        assert_row(rt, alloc, what, line)?;
    }
    Ok(())
}
