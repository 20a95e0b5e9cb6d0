//! Prints what binding texts give, and reads it back.
ghost use Rattle.fvn_terms.specs.Sorts.{IsWellSorted};
ghost use Rattle.fvn_terms.specs.Substitution.{value};
ghost use Rattle.fvn_problems.specs.Scopes.{AreNamesOf};
ghost use Rattle.fvn_answer.specs.Asked.{AreAsked};

use super::filling::filled;
use fvn_answer::{line_of, variant_line};
use fvn_module::Module;
use fvn_problems::{Bindings, Problem, problem_names_are_words, read_bindings, read_problem};
use fvn_terms::NoMemory;
use std::alloc::Global;

// The line of what bindings give.
fn line_of_bindings(
    alloc: Global,
    declared: &Module,
    problem: &Problem,
    bindings: &Bindings,
) -> Result<Vec<u8>, NoMemory>
    requires vars { AreAsked declared.now.signature problem.now.names.texts problem.now.vars }
    requires sorted { IsWellSorted declared.now.signature (value bindings.now.subst.pairs) }
{
    let subst = filled(alloc, declared.signature(), problem, bindings)?;
    line_of(
        alloc,
        declared,
        &problem.names,
        &subst,
        problem.vars.as_slice(),
    )
}

// The line of what a binding text gives, or that it is none.
fn line_in(
    alloc: Global,
    declared: &Module,
    problem: &Problem,
    text: &[u8],
) -> Result<Vec<u8>, NoMemory>
    requires names { AreNamesOf declared.now.signature declared.now.names }
    requires vars { AreAsked declared.now.signature problem.now.names.texts problem.now.vars }
{
    match read_bindings(alloc, declared.signature(), declared.names(), problem, text) {
        Ok(bindings) => line_of_bindings(alloc, declared, problem, &bindings),
        Err(_) => {
            let none = Vec::from_slice(alloc, b"no bindings")?;
            Ok(none)
        }
    }
}

// The same, and the line of what that line gives.
fn line_twice(
    alloc: Global,
    declared: &Module,
    problem: &Problem,
    text: &[u8],
) -> Result<(Vec<u8>, Vec<u8>), NoMemory>
    requires names { AreNamesOf declared.now.signature declared.now.names }
    requires vars { AreAsked declared.now.signature problem.now.names.texts problem.now.vars }
{
    let line = line_in(alloc, declared, problem, text)?;
    let again = line_in(alloc, declared, problem, line.as_slice())?;
    Ok((line, again))
}

/// The line of what a binding text gives in a problem, and the line of what that line gives.
pub fn line_of_texts(
    alloc: Global,
    declared: &Module,
    problem: &[u8],
    bindings: &[u8],
) -> Result<(Vec<u8>, Vec<u8>), NoMemory> {
    declared.recall_readable();
    problem_names_are_words();
    match read_problem(alloc, declared.signature(), declared.names(), problem) {
        Ok(asked) => {
            asked.names.texts.are_distinct();
            line_twice(alloc, declared, &asked, bindings)
        }
        Err(_) => {
            let none = Vec::from_slice(alloc, b"no problem")?;
            Ok((none, Vec::new(alloc)))
        }
    }
}

// The line of a variant: the first variable has its term, the others its substitution.
fn variant_of_bindings(
    alloc: Global,
    declared: &Module,
    problem: &Problem,
    bindings: &Bindings,
) -> Result<Vec<u8>, NoMemory>
    requires vars { AreAsked declared.now.signature problem.now.names.texts problem.now.vars }
    requires sorted { IsWellSorted declared.now.signature (value bindings.now.subst.pairs) }
{
    let subst = filled(alloc, declared.signature(), problem, bindings)?;
    let vars = problem.vars.as_slice();
    if vars.is_empty() {
        return Ok(Vec::new(alloc));
    }
    match subst.get(vars[0]) {
        Some(term) => variant_line(alloc, declared, &problem.names, term, &subst, &vars[1..]),
        None => Ok(Vec::new(alloc)),
    }
}

// The line of the variant that a binding text gives, or that it is none.
fn variant_in(
    alloc: Global,
    declared: &Module,
    problem: &Problem,
    text: &[u8],
) -> Result<Vec<u8>, NoMemory>
    requires names { AreNamesOf declared.now.signature declared.now.names }
    requires vars { AreAsked declared.now.signature problem.now.names.texts problem.now.vars }
{
    match read_bindings(alloc, declared.signature(), declared.names(), problem, text) {
        Ok(bindings) => variant_of_bindings(alloc, declared, problem, &bindings),
        Err(_) => {
            let none = Vec::from_slice(alloc, b"no bindings")?;
            Ok(none)
        }
    }
}

/// The line of the variant that a binding text gives in a problem.
pub fn variant_of_texts(
    alloc: Global,
    declared: &Module,
    problem: &[u8],
    bindings: &[u8],
) -> Result<Vec<u8>, NoMemory> {
    declared.recall_readable();
    problem_names_are_words();
    match read_problem(alloc, declared.signature(), declared.names(), problem) {
        Ok(asked) => {
            asked.names.texts.are_distinct();
            variant_in(alloc, declared, &asked, bindings)
        }
        Err(_) => {
            let none = Vec::from_slice(alloc, b"no problem")?;
            Ok(none)
        }
    }
}
