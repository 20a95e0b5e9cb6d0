//! Operators with the same declarations: what is found of the first holds of the others.
ghost use Rattle.std.specs.Prelude.{◌≡◌, ◌<◌, IsTrue, IfSome};
ghost use Rattle.fvn_signature_draft.specs.Alike.{AreAlike, HasEarlierAlike};

use fvn_terms::{Declarations, OpId, Rank, SortId};

// Whether the two lists of sorts are one.
fn same_sorts(some: &[SortId], others: &[SortId]) -> bool
    ensures { IsTrue result → some.now ≡ others.now }
{
    if some.len() != others.len() {
        return false;
    }
    for (s, q) in some.iter().zip(others.iter()) {
        if *s != *q {
            return false;
        }
    }
    true
}

/// Whether two ranks are the same.
pub fn same_rank(one: &Rank, other: &Rank) -> bool
    ensures { IsTrue result → one.now ≡ other.now }
{
    one.result == other.result && same_sorts(one.args.as_slice(), other.args.as_slice())
}

// Whether the two lists of ranks are one.
fn same_ranks(some: &[Rank], others: &[Rank]) -> bool
    ensures { IsTrue result → some.now ≡ others.now }
{
    if some.len() != others.len() {
        return false;
    }
    for (one, other) in some.iter().zip(others.iter()) {
        if !same_rank(one, other) {
            return false;
        }
    }
    true
}

// Whether the two operators have the same axioms and ranks.
fn are_alike(declarations: &Declarations, one: OpId, other: OpId) -> bool
    ensures { IsTrue result → AreAlike declarations.now one other }
{
    let first = match declarations.declared(one) {
        Some(declared) => declared,
        None => return false,
    };
    let second = match declarations.declared(other) {
        Some(declared) => declared,
        None => return false,
    };
    if first.axioms != second.axioms {
        return false;
    }
    same_ranks(first.ranks.as_slice(), second.ranks.as_slice())
}

/// The first of the earlier operators with the same declarations.
pub fn earlier_alike(declarations: &Declarations, op: OpId) -> Option<OpId>
    ensures { IfSome result (λ g. (g.0 < op.0) × AreAlike declarations.now g op) }
{
    for g in 0..op.0 {
        if are_alike(declarations, OpId(g), op) {
            return Some(OpId(g));
        }
    }
    None
}

/// Whether an earlier operator has the same declarations.
pub fn has_earlier_alike(declarations: &Declarations, op: OpId) -> bool
    ensures { IsTrue result → HasEarlierAlike declarations.now op }
{
    match earlier_alike(declarations, op) {
        Some(_) => true,
        None => false,
    }
}
