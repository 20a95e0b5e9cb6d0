//! Answer texts of ends that are written as words.
ghost use Rattle.std.specs.Prelude.{IfOk, IfSome};
ghost use Rattle.fvn_problems.specs.Scopes.{AreNamesOf};
ghost use Rattle.fvn_answer.specs.Answers.{FitsEnd};

use fvn_answer::{End, Line, answer_text};
use fvn_flat::flatten;
use fvn_module::Module;
use fvn_problems::read_term;
use fvn_terms::{NoMemory, OpId};
use std::alloc::Global;

// The number that digits stand for, or 0.
fn number(text: &str) -> u32 {
    text.parse::<u32>().unwrap_or(0)
}

// A number of steps and a term.
fn steps_of(alloc: Global, declared: &Module, text: &str) -> Result<Option<End>, NoMemory>
    requires { AreNamesOf declared.now.signature declared.now.names }
    ensures { IfOk result (λ o. IfSome o (FitsEnd declared.now.signature)) }
{
    let (n, term) = text.split_once(' ').unwrap_or((text, ""));
    match read_term(
        alloc,
        declared.signature(),
        declared.names(),
        term.as_bytes(),
    ) {
        Err(_) => Ok(None),
        Ok(query) => {
            let form = flatten(alloc, declared.signature(), &query.term)?;
            Ok(Some(End::Steps(u64::from(number(n)), form)))
        }
    }
}

// An operator.
fn basis_of(declared: &Module, text: &str) -> Option<End>
    ensures { IfSome result (FitsEnd declared.now.signature) }
{
    match declared.names().ops.place(text.as_bytes()) {
        None => None,
        Some(place) => {
            if place < declared.signature().declarations().ops.as_slice().len() && place < 65536 {
                Some(End::Basis(OpId(place as u16)))
            } else {
                None
            }
        }
    }
}

// The end with this word and number.
fn counted(declared: &Module, word: &str, n: u32) -> Option<End>
    ensures { IfSome result (FitsEnd declared.now.signature) }
{
    let _signature = declared.signature();
    match word {
        "complete" => Some(End::Complete(n as usize)),
        "levels" => Some(End::Levels(n)),
        "variants" => Some(End::Variants(n)),
        "size" => Some(End::Size(u64::from(n))),
        "unifiers" => Some(End::Unifiers(n)),
        "sorts" => Some(End::Sorts(n as usize)),
        _ => None,
    }
}

// The end that words are.
fn end_of(alloc: Global, declared: &Module, text: &str) -> Result<Option<End>, NoMemory>
    requires { AreNamesOf declared.now.signature declared.now.names }
    ensures { IfOk result (λ o. IfSome o (FitsEnd declared.now.signature)) }
{
    let (word, rest) = text.split_once(' ').unwrap_or((text, ""));
    if word == "steps" {
        return steps_of(alloc, declared, rest);
    }
    if word == "basis" {
        return Ok(basis_of(declared, rest));
    }
    Ok(counted(declared, word, number(rest)))
}

// The texts between strokes that are not empty, but for the first.
fn lines_of(alloc: Global, text: &str) -> Result<Vec<Line>, NoMemory> {
    let mut lines = Vec::new(alloc);
    for part in text.split('|').skip(1) {
        let part = part.trim();
        if !part.is_empty() {
            lines.push(Vec::from_slice(alloc, part.as_bytes())?)?;
        }
    }
    Ok(lines)
}

/// The text of an answer: an end, and lines behind strokes.
pub fn answer_of(alloc: Global, declared: &Module, text: &str) -> Result<Vec<u8>, NoMemory> {
    declared.recall_readable();
    let (end, _) = text.split_once('|').unwrap_or((text, ""));
    let lines = lines_of(alloc, text)?;
    match end_of(alloc, declared, end.trim())? {
        None => Ok(Vec::new(alloc)),
        Some(end) => answer_text(alloc, declared, lines, &end),
    }
}
