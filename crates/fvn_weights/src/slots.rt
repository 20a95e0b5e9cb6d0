//! Where variables stand: each slot of names notes where its first variable does, so that few are looked at.
ghost use Rattle.std.specs.Prelude.{◌≡◌, ◌<◌, OnOk, length, slice_set, Some, None};
ghost use Rattle.fvn_weights.specs.declared.limits.TheConstants.{SLOTS};
ghost use Rattle.fvn_weights.specs.inner.Numbers.{found, place, slot, slot_place, start_or, AreStarts, IsRaised};

use crate::limits::SLOTS;
use crate::numbers::{is_same, place_of, raise_at};
use fvn_terms::{NoMemory, Var};
use std::alloc::Global;

/// Makes room for a number of each slot, where there is none.
pub(crate) fn make_room(alloc: Global, starts: &mut Vec<usize>) -> Result<(), NoMemory>
    ensures { OnOk result (length starts.new.items ≡ SLOTS) }
{
    if starts.len() == SLOTS {
        return Ok(());
    }
    *starts = Vec::from_elem(alloc, 0usize, SLOTS)?;
    Ok(())
}

// The slot of a variable.
fn slot_of(x: Var) -> usize
    ensures exact { result ≡ slot x }
    ensures small { result < SLOTS }
{
    x.name as usize % SLOTS
}

// Where the first variable of a slot stands. What is noted of a slot without variables leads to none of them.
fn first_in(factors: &[(Var, u64)], starts: &[usize], s: usize) -> Option<usize>
    requires starts { AreStarts factors.now starts.now }
    requires within { s < SLOTS }
    ensures { result ≡ slot_place factors.now s }
{
    let i = starts[s];
    if i >= factors.len() {
        return None;
    }
    let own = slot_of(factors[i].0);
    if own != s {
        return None;
    }
    Some(i)
}

// Where the variable stands first: where the first one of its slot does, or behind it.
fn place_from(factors: &[(Var, u64)], i: usize, x: Var) -> Option<usize>
    requires { slot_place factors.now (slot x) ≡ Some i }
    ensures { result ≡ place factors.now x }
{
    let here = is_same(factors[i].0, x);
    if here {
        return Some(i);
    }
    let other = place_of(factors, x);
    other
}

// Where the variable stands first.
fn place_in(factors: &[(Var, u64)], starts: &[usize], x: Var) -> Option<usize>
    requires { AreStarts factors.now starts.now }
    ensures { result ≡ place factors.now x }
{
    let s = slot_of(x);
    match first_in(factors, starts, s) {
        Some(i) => place_from(factors, i, x),
        None => None,
    }
}

/// The number of a variable.
pub(crate) fn number_of(factors: &[(Var, u64)], starts: &[usize], x: Var) -> u64
    requires { AreStarts factors.now starts.now }
    ensures { result ≡ found factors.now x }
{
    match place_in(factors, starts, x) {
        Some(i) => factors[i].1,
        None => 0,
    }
}

// The place of a slot's first variable, or this one.
fn start_or(first: Option<usize>, place: usize) -> usize
    ensures { result ≡ start_or first place }
{
    match first {
        Some(i) => i,
        None => place,
    }
}

// Writes the number of a slot.
fn note(starts: &mut Vec<usize>, s: usize, place: usize)
    requires { s < length starts.old.items }
    ensures { starts.new.items ≡ slice_set starts.old.items s place }
{
    starts[s] = place;
}

// Puts a new variable behind the others.
fn put_new(
    factors: &mut Vec<(Var, u64)>,
    starts: &mut Vec<usize>,
    x: Var,
    number: u64,
) -> Result<(), NoMemory>
    requires starts { AreStarts factors.old.items starts.old.items }
    requires new { place factors.old.items x ≡ None }
    ensures { OnOk result
        (IsRaised x number factors.old.items factors.new.items starts.new.items) }
{
    let s = slot_of(x);
    let first = first_in(factors.as_slice(), starts.as_slice(), s);
    let start = start_or(first, factors.len());
    factors.push((x, number))?;
    note(starts, s, start);
    Ok(())
}

/// Raises the number of a variable.
pub(crate) fn raise(
    factors: &mut Vec<(Var, u64)>,
    starts: &mut Vec<usize>,
    x: Var,
    more: u64,
) -> Result<(), NoMemory>
    requires { AreStarts factors.old.items starts.old.items }
    ensures { OnOk result
        (IsRaised x more factors.old.items factors.new.items starts.new.items) }
{
    match place_in(factors.as_slice(), starts.as_slice(), x) {
        Some(i) => {
            raise_at(factors, i, x, more);
            Ok(())
        }
        None => {
            put_new(factors, starts, x, more)?;
            Ok(())
        }
    }
}
