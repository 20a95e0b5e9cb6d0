//! Writes flat terms.
use fvn_flat::Flat;
use fvn_signature::Signature;
use fvn_terms::{NoMemory, SortId, Var};

/// The letter so many places behind the first one, which twenty letters take in turn.
fn push_letter(out: &mut String, first: u8, number: u16) -> Result<(), NoMemory> {
    out.push(char::from(first.wrapping_add((number % 20) as u8)))?;
    Ok(())
}

/// A sort or a kind is a letter.
pub fn push_sort(out: &mut String, s: SortId) -> Result<(), NoMemory> {
    push_letter(out, b'A', s.0)
}

/// A variable is the letter of its sort and the last digit of its name, behind `#` where it is new.
fn push_var(out: &mut String, x: &Var) -> Result<(), NoMemory> {
    if x.fresh {
        out.push_str("#")?;
    }
    push_sort(out, x.sort)?;
    push_letter(out, b'0', (x.name % 10) as u16)
}

/// The arguments of a sum stand in square brackets.
pub fn push_flat(out: &mut String, sig: &Signature, t: &Flat) -> Result<(), NoMemory> {
    if let Some(x) = t.as_var() {
        push_var(out, &x)?;
    }
    if let Some(f) = t.head() {
        push_letter(out, b'f', f.0)?;
        let joined = sig.axioms(f).is_sum();
        if t.args().is_empty() {
            return Ok(());
        }
        out.push_str(if joined { "[" } else { "(" })?;
        let mut before = false;
        for u in t.args() {
            if before {
                out.push_str(" ")?;
            }
            push_flat(out, sig, u)?;
            before = true;
        }
        out.push_str(if joined { "]" } else { ")" })?;
    }
    Ok(())
}
