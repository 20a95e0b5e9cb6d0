//! Writes parts and splits of tests.
use fvn_purify::{Classes, Head, Split};
use fvn_terms::{NoMemory, OpId};
use std::alloc::Global;

/// The sign with this number from the first on.
fn push_sign(out: &mut String, first: u8, number: usize) -> Result<(), NoMemory> {
    out.push(char::from(first.wrapping_add((number % 40) as u8)))?;
    Ok(())
}

/// The number of a node or a class is a sign from 0 on.
fn push_numbers(out: &mut String, list: &[usize]) -> Result<(), NoMemory> {
    for i in list {
        push_sign(out, b'0', *i)?;
    }
    Ok(())
}

/// Both numbers of each pair.
fn push_pairs(out: &mut String, list: &[(usize, usize)]) -> Result<(), NoMemory> {
    for (i, j) in list {
        push_numbers(out, &[*i, *j])?;
    }
    Ok(())
}

/// A mark, where there is one, and the letter of an operator.
fn push_operator(out: &mut String, mark: &str, f: OpId) -> Result<(), NoMemory> {
    out.push_str(mark)?;
    push_sign(out, b'f', usize::from(f.0))
}

/// The letter of each operator.
fn push_operators(out: &mut String, list: &[OpId]) -> Result<(), NoMemory> {
    for f in list {
        push_operator(out, "", *f)?;
    }
    Ok(())
}

/// The nodes of the parts, of those with a head and of the pairs, and the operators with axioms.
pub fn push_classes(out: &mut String, classes: &Classes) -> Result<(), NoMemory> {
    push_numbers(out, classes.places.parts.as_slice())?;
    out.push_str(" | ")?;
    push_numbers(out, classes.places.headed.as_slice())?;
    out.push_str(" | ")?;
    push_pairs(out, classes.places.pairs.as_slice())?;
    out.push_str(" | ")?;
    push_operators(out, classes.ops.as_slice())
}

/// A letter for what heads each class, and the letter of its operator.
fn push_heads(out: &mut String, heads: &[Head]) -> Result<(), NoMemory> {
    for head in heads {
        match head {
            Head::Free => out.push_str("F")?,
            Head::Pair(f) => push_operator(out, "P", *f)?,
            Head::Sum(f) => push_operator(out, "S", *f)?,
            Head::Identity(e) => push_operator(out, "I", *e)?,
        }
    }
    Ok(())
}

/// A cross for each pair that is crossed, and a dash for each other.
fn push_ways(out: &mut String, swaps: &[bool]) -> Result<(), NoMemory> {
    for crossed in swaps {
        out.push_str(if *crossed { "x" } else { "-" })?;
    }
    Ok(())
}

/// Behind a space the numbers of the classes, the heads, and for each pair a cross or a dash.
pub fn text_of(alloc: Global, split: &Split) -> Result<String, NoMemory> {
    let mut out = String::from_str(alloc, " ")?;
    push_numbers(&mut out, split.class_of.as_slice())?;
    out.push_str(":")?;
    push_heads(&mut out, split.heads.as_slice())?;
    out.push_str(":")?;
    push_ways(&mut out, split.swaps.as_slice())?;
    Ok(out)
}
