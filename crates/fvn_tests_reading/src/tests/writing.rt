//! Writes names and terms.
use fvn_syntax::{Names, Texts};
use fvn_terms::{Args, NoMemory, OpId, Plain, SortId, Var};
use std::alloc::Global;
use std::str::from_utf8;

/// The bytes of a name as a text.
pub fn text_of(bytes: &[u8]) -> &str {
    from_utf8(bytes).unwrap_or("?")
}

/// A number behind a text.
pub fn push_number(
    out: &mut String,
    alloc: Global,
    before: &str,
    number: usize,
) -> Result<(), NoMemory> {
    out.push_str(&format!(in alloc; "{before}{number}")?)?;
    Ok(())
}

/// The text, where there is one before it.
pub fn push_between(out: &mut String, text: &str) -> Result<(), NoMemory> {
    if !out.is_empty() {
        out.push_str(text)?;
    }
    Ok(())
}

/// A sort by its name, a kind by a star and its number.
pub fn push_sort(
    out: &mut String,
    alloc: Global,
    names: &Names,
    s: SortId,
) -> Result<(), NoMemory> {
    if usize::from(s.0) < names.sorts.len() {
        out.push_str(text_of(names.sort_text(s)))?;
        return Ok(());
    }
    push_number(out, alloc, "*", usize::from(s.0))
}

/// An operator by its name.
pub fn push_operator(out: &mut String, names: &Names, op: OpId) -> Result<(), NoMemory> {
    if usize::from(op.0) < names.ops.len() {
        out.push_str(text_of(names.op_text(op)))?;
    }
    Ok(())
}

/// A variable by its text or else its number, and its sort.
pub fn push_variable(
    out: &mut String,
    alloc: Global,
    names: &Names,
    texts: &Texts,
    x: Var,
) -> Result<(), NoMemory> {
    if (x.name as usize) < texts.len() && !x.fresh {
        out.push_str(text_of(texts.text(x.name as usize)))?;
    } else {
        push_number(out, alloc, "", x.name as usize)?;
    }
    out.push(':')?;
    push_sort(out, alloc, names, x.sort)
}

/// A term in its binary form.
#[cycle(show)]
pub fn push_term(
    out: &mut String,
    alloc: Global,
    names: &Names,
    texts: &Texts,
    t: &Plain,
) -> Result<(), NoMemory> {
    match t {
        Plain::Var(x) => push_variable(out, alloc, names, texts, *x),
        Plain::App(op, us) => {
            push_operator(out, names, *op)?;
            push_arguments(out, alloc, names, texts, us)
        }
    }
}

// The arguments in parentheses, if there are any.
#[cycle(show)]
fn push_arguments(
    out: &mut String,
    alloc: Global,
    names: &Names,
    texts: &Texts,
    us: &Args,
) -> Result<(), NoMemory> {
    let mut before = '(';
    for u in &us.items {
        out.push(before)?;
        before = ',';
        push_term(out, alloc, names, texts, u)?;
    }
    if before == ',' {
        out.push(')')?;
    }
    Ok(())
}

/// Two terms with a sign between.
pub fn push_pair(
    out: &mut String,
    alloc: Global,
    names: &Names,
    texts: &Texts,
    left: &Plain,
    right: &Plain,
) -> Result<(), NoMemory> {
    push_term(out, alloc, names, texts, left)?;
    out.push_str(" = ")?;
    push_term(out, alloc, names, texts, right)
}
