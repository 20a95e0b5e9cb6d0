//! Reads terms, forms and modules, and shows what is read.
use super::writing::{push_number, text_of};
use fvn_module::{Module, ModuleFault, read_module};
use fvn_module_statements::read_form;
use fvn_module_syntax::{Mark, RawRank, Statement};
use fvn_syntax::{Piece, RawSort, Row, Text, cut, skip_term};
use fvn_terms::NoMemory;
use std::alloc::Global;

// The name of a sort, or the first one of a kind in brackets.
fn push_sort(out: &mut String, sort: &RawSort<'_>) -> Result<(), NoMemory> {
    match sort {
        RawSort::Name(text) => out.push_str(text_of(text.bytes()))?,
        RawSort::Kind(text, _) => {
            out.push('[')?;
            out.push_str(text_of(text.bytes()))?;
            out.push(']')?;
        }
    }
    Ok(())
}

// The label of an equation, if it has one.
fn push_label(out: &mut String, label: &Option<Text<'_>>) -> Result<(), NoMemory> {
    if let Some(text) = label {
        out.push('[')?;
        out.push_str(text_of(text.bytes()))?;
        out.push_str("] : ")?;
    }
    Ok(())
}

// An attribute of an equation.
fn push_mark(out: &mut String, mark: &Mark<'_>) -> Result<(), NoMemory> {
    match mark {
        Mark::Variant => out.push_str("variant")?,
        Mark::Label(text) => {
            out.push_str("label ")?;
            out.push_str(text_of(text.bytes()))?;
        }
    }
    Ok(())
}

// The attributes of an equation.
fn push_marks(out: &mut String, marks: &[Mark<'_>]) -> Result<(), NoMemory> {
    let mut before = " [";
    for mark in marks {
        out.push_str(before)?;
        push_mark(out, mark)?;
        before = " ";
    }
    out.push(']')?;
    Ok(())
}

// The numbers of arguments and of attributes, with the sort of the result between.
fn push_rank(
    out: &mut String,
    alloc: Global,
    rank: &RawRank<'_>,
    attributes: usize,
) -> Result<(), NoMemory> {
    push_number(out, alloc, " ", rank.args.len())?;
    out.push_str(if rank.partial { " ~> " } else { " -> " })?;
    push_sort(out, &rank.result)?;
    push_number(out, alloc, " ", attributes)
}

// The label, how many tokens the sides have, and the attributes.
fn push_equation(
    out: &mut String,
    alloc: Global,
    label: &Option<Text<'_>>,
    left: &Row<'_>,
    right: &Row<'_>,
    marks: &[Mark<'_>],
) -> Result<(), NoMemory> {
    out.push_str(", eq ")?;
    push_label(out, label)?;
    push_number(out, alloc, "", left.pieces().len())?;
    push_number(out, alloc, " = ", right.pieces().len())?;
    push_marks(out, marks)
}

// What is read of a statement.
fn push_statement(
    out: &mut String,
    alloc: Global,
    statement: &Statement<'_>,
) -> Result<(), NoMemory> {
    match statement {
        Statement::Sorts { names, .. } => push_number(out, alloc, ", sorts ", names.len()),
        Statement::Subsorts { groups, .. } => push_number(out, alloc, ", subsorts ", groups.len()),
        Statement::Variables { names, sort, .. } => {
            push_number(out, alloc, ", vars ", names.len())?;
            out.push(' ')?;
            push_sort(out, sort)
        }
        Statement::Equation {
            label,
            left,
            right,
            marks,
        } => push_equation(out, alloc, label, left, right, marks.as_slice()),
        Statement::Operator {
            name,
            rank,
            attributes,
        } => {
            push_number(out, alloc, ", op ", name.pieces().len())?;
            push_rank(out, alloc, rank, attributes.len())
        }
        Statement::Operators {
            names,
            rank,
            attributes,
        } => {
            push_number(out, alloc, ", ops ", names.len())?;
            push_rank(out, alloc, rank, attributes.len())
        }
    }
}

// What is read of each statement.
fn shown_list(alloc: Global, statements: &[Statement<'_>]) -> Result<String, NoMemory> {
    let mut out = String::new(alloc);
    out.push_str("read")?;
    for statement in statements {
        push_statement(&mut out, alloc, statement)?;
    }
    Ok(out)
}

// The statements of tokens, or their fault.
fn shown_pieces<'a>(alloc: Global, pieces: &'a [Piece<'a>]) -> Result<String, NoMemory> {
    match read_form(alloc, pieces) {
        Ok(form) => shown_list(alloc, form.statements.as_slice()),
        Err(fault) => Ok(format!(in alloc; "{fault:?}")?),
    }
}

/// The statements of a text, or its fault.
pub fn shown_form(alloc: Global, text: &str) -> Result<String, NoMemory> {
    match cut(alloc, text.as_bytes()) {
        Ok(pieces) => shown_pieces(alloc, pieces.as_slice()),
        Err(fault) => Ok(format!(in alloc; "{fault:?}")?),
    }
}

/// The text of a module with these statements.
pub fn module_text(alloc: Global, statements: &str) -> Result<String, NoMemory> {
    Ok(format!(in alloc; "fmod M is {statements} endfm")?)
}

/// The statements of a module, or its fault.
pub fn shown_body(alloc: Global, statements: &str) -> Result<String, NoMemory> {
    let text = module_text(alloc, statements)?;
    shown_form(alloc, text.as_str())
}

// How many tokens the term takes with which the row begins.
fn shown_term(alloc: Global, row: &[Piece<'_>]) -> Result<String, NoMemory> {
    match skip_term(alloc, row)? {
        Some(n) => Ok(format!(in alloc; "{n}")?),
        None => Ok(format!(in alloc; "no")?),
    }
}

/// How many tokens the term has with which a text begins.
pub fn shown_taken(alloc: Global, text: &str) -> Result<String, NoMemory> {
    match cut(alloc, text.as_bytes()) {
        Ok(row) => shown_term(alloc, row.as_slice()),
        Err(fault) => Ok(format!(in alloc; "{fault:?}")?),
    }
}

// How much a module declares.
fn shown_numbers(alloc: Global, module: &Module) -> Result<String, NoMemory> {
    let mut out = String::new(alloc);
    push_number(&mut out, alloc, "", module.signature().sort_count())?;
    push_number(&mut out, alloc, " ", module.signature().kind_count())?;
    push_number(&mut out, alloc, " ", module.signature().op_count())?;
    push_number(&mut out, alloc, " ", module.equations().len())?;
    Ok(out)
}

// A fault, without names.
fn shown_fault(alloc: Global, fault: &ModuleFault) -> Result<String, NoMemory> {
    match fault {
        ModuleFault::Signature(fault, _, _) => Ok(format!(in alloc; "{fault:?}")?),
        _ => Ok(format!(in alloc; "{fault:?}")?),
    }
}

/// How much the module of a text declares, or the first fault.
pub fn shown_module(alloc: Global, text: &str) -> Result<String, NoMemory> {
    match read_module(alloc, text.as_bytes()) {
        Ok(module) => shown_numbers(alloc, &module),
        Err(fault) => shown_fault(alloc, &fault),
    }
}

/// The same of a module with these statements.
pub fn shown_statements(alloc: Global, statements: &str) -> Result<String, NoMemory> {
    let text = module_text(alloc, statements)?;
    shown_module(alloc, text.as_str())
}
