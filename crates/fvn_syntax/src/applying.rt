//! Operators over their arguments.
ghost use Rattle.std.specs.Prelude.{◌≡◌, ◌-◌, [], ◌∷◌, IfOk};
ghost use Rattle.fvn_terms.specs.Plain.{terms};
ghost use Rattle.fvn_syntax.specs.Names.{arity_of};
ghost use Rattle.fvn_syntax.specs.Resolve.{wanted, fit_from, fits_number, application_fault, nested_all, applied};

use crate::fault::TermFault;
use crate::naming::first_arguments;
use fvn_terms::{Args, Declarations, NoMemory, OpId, Plain, SortId};
use std::alloc::Global;

// The kind that is wanted at a place; the arguments of a sum are all of one kind.
fn wanted_kind(d: &Declarations, sum: bool, op: OpId, i: usize) -> SortId
    ensures { result ≡ wanted d.now sum op i }
{
    let place = if sum { 0 } else { i };
    match first_arguments(d, op).get(place) {
        Some(sort) => d.kind(*sort),
        None => d.kind(SortId(0)),
    }
}

// Whether each kind is the one that is wanted at its place.
fn kinds_fit(d: &Declarations, sum: bool, op: OpId, kinds: &[SortId]) -> bool
    ensures { result ≡ fit_from d.now sum op 0 kinds.now }
{
    for (i, kind) in kinds.iter().enumerate() {
        if kind.0 != wanted_kind(d, sum, op, i).0 {
            return false;
        }
    }
    true
}

// Whether the operator takes so many arguments.
fn number_fits(d: &Declarations, sum: bool, op: OpId, number: usize) -> bool
    ensures { result ≡ fits_number sum (arity_of d.now op) number }
{
    if sum {
        2 <= number
    } else {
        first_arguments(d, op).len() == number
    }
}

/// The fault of an application: the number of arguments, and then their kinds.
pub fn find_fault(d: &Declarations, sum: bool, op: OpId, kinds: &[SortId]) -> Option<TermFault>
    ensures { result ≡ application_fault d.now sum op kinds.now }
{
    if !number_fits(d, sum, op, kinds.len()) {
        return Some(TermFault::Arity);
    }
    if !kinds_fit(d, sum, op, kinds) {
        return Some(TermFault::WrongKind);
    }
    None
}

// The operator over two arguments.
fn pair(alloc: Global, op: OpId, first: Plain, second: Plain) -> Result<Plain, NoMemory>
    ensures { IfOk result (λ t. t ≡ Plain.App op (terms (first ∷ second ∷ []))) }
{
    let mut args = Vec::new(alloc);
    args.push(first)?;
    args.push(second)?;
    Ok(Plain::App(op, Args::from_vec(args)))
}

// A right-nested sum.
fn nest(alloc: Global, op: OpId, terms: Vec<Plain>) -> Result<Plain, NoMemory>
    ensures { IfOk result (λ t. t ≡ nested_all op terms.items) }
{
    let mut left = terms;
    let Some(mut whole) = left.pop() else {
        return Ok(Plain::App(op, Args::from_vec(left)));
    };
    while let Some(term) = left.pop() {
        whole = pair(alloc, op, term, whole)?;
    }
    Ok(whole)
}

/// The operator over its arguments; a sum is right-nested.
pub fn build(alloc: Global, sum: bool, op: OpId, terms: Vec<Plain>) -> Result<Plain, NoMemory>
    ensures { IfOk result (λ t. t ≡ applied sum op terms.items) }
{
    if sum {
        return nest(alloc, op, terms);
    }
    Ok(Plain::App(op, Args::from_vec(terms)))
}
