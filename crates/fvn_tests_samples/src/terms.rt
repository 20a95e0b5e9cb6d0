//! Reads terms, and decides whether they are well-kinded.
//!
//! A term is written with each operator after its arguments, a variable as the letter of its sort and a number.
ghost use Rattle.std.specs.Prelude.{◌≡◌, ◌<◌, map, Contains, IsTrue, IfSome};
ghost use Rattle.fvn_terms.specs.Plain.{term};
ghost use Rattle.fvn_terms.specs.Signature.{kind, declared, IsSort, HasKind, HaveKinds, IsTerm};

use super::signatures::{operator_of, sort_of};
use fvn_signature::Signature;
use fvn_terms::{Args, NoMemory, OpId, Plain, Rank, SortId, Var};
use std::alloc::Global;

/// The first declaration of an operator.
fn first_rank<'a>(sig: &'a Signature, op: OpId) -> Option<&'a Rank>
    ensures { IfSome result (λ r. Contains (declared sig.now op).ranks r.now) }
{
    sig.declarations().declared(op)?.ranks.as_slice().first()
}

/// Whether the number is that of a sort or a kind.
pub fn is_sort(sig: &Signature, s: SortId) -> bool
    ensures { IsTrue result → IsSort sig.now s }
{
    usize::from(s.0) < sig.declarations().kinds.as_slice().len()
}

/// Whether the sort is one of the kind.
fn is_of_kind(sig: &Signature, s: SortId, k: SortId) -> bool
    ensures { IsTrue result → (IsSort sig.now s × (kind sig.now s ≡ k)) }
{
    is_sort(sig, s) && sig.kind(s) == k
}

/// Whether the term is well-kinded, and has the kind.
#[cycle(kinds)]
pub fn has_kind(sig: &Signature, t: &Plain, k: SortId) -> bool
    ensures { IsTrue result → HasKind sig.now (term t.now) k }
{
    match t {
        Plain::Var(x) => is_of_kind(sig, x.sort, k),
        Plain::App(f, us) => match first_rank(sig, *f) {
            Some(rank) => {
                if sig.kind(rank.result) != k {
                    return false;
                }
                have_kinds(sig, us, rank.args.as_slice())
            }
            None => false,
        },
    }
}

/// Whether the arguments have the kinds of these sorts.
#[cycle(kinds)]
fn have_kinds(sig: &Signature, us: &Args, list: &[SortId]) -> bool
    ensures { IsTrue result → HaveKinds sig.now us.now (map (kind sig.now) list.now) }
{
    if us.items.len() != list.len() {
        return false;
    }
    for (u, s) in us.items.iter().zip(list.iter()) {
        if !has_kind(sig, u, sig.kind(*s)) {
            return false;
        }
    }
    true
}

/// The kind of a term, where it is well-kinded.
fn kind_of(sig: &Signature, t: &Plain) -> SortId {
    match t {
        Plain::Var(x) => sig.kind(x.sort),
        Plain::App(f, _) => match first_rank(sig, *f) {
            Some(rank) => sig.kind(rank.result),
            None => SortId(0),
        },
    }
}

/// Whether the term is well-kinded.
pub fn is_term(sig: &Signature, t: &Plain) -> bool
    ensures { IsTrue result → IsTerm sig.now (term t.now) }
{
    let k = kind_of(sig, t);
    has_kind(sig, t, k)
}

/// The terms, with those that the operator takes as its arguments.
fn applied(
    alloc: Global,
    sig: &Signature,
    terms: Vec<Plain>,
    op: OpId,
) -> Result<Vec<Plain>, NoMemory> {
    let mut rest = terms;
    let mut args = Vec::new(alloc);
    for _ in 0..sig.arity(op) {
        if let Some(t) = rest.pop() {
            args.push(t)?;
        }
    }
    args.as_mut_slice().reverse();
    rest.push(Plain::App(op, Args::from_vec(args)))?;
    Ok(rest)
}

/// A variable is the letter of its sort, and its number.
pub fn var_of(word: &str) -> Var {
    let name = match word.as_bytes().last() {
        Some(digit) => u32::from(digit.wrapping_sub(b'0')),
        None => 0,
    };
    Var {
        name,
        sort: sort_of(word),
        fresh: false,
    }
}

/// The term that is written with each operator after its arguments.
pub fn term_of(alloc: Global, sig: &Signature, text: &str) -> Result<Option<Plain>, NoMemory> {
    let mut terms = Vec::new(alloc);
    for word in text.split(' ') {
        if word < "a" {
            terms.push(Plain::Var(var_of(word)))?;
        } else {
            terms = applied(alloc, sig, terms, operator_of(word))?;
        }
    }
    Ok(terms.pop())
}
