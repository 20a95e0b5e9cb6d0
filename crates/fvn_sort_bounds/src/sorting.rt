//! The least sort of a term.
ghost use Rattle.std.specs.Prelude.{◌≡◌, ◌↔◌, Some, None, Option, IsTrue};
ghost use Rattle.fvn_terms.specs.declared.plain.OpId.{OpId};
ghost use Rattle.fvn_terms.specs.Term.{app};
ghost use Rattle.fvn_terms.specs.Plain.{term};
ghost use Rattle.fvn_terms.specs.Signature.{axioms, IsTerm};
ghost use Rattle.fvn_terms.specs.Equality.{IsAssociative};
ghost use Rattle.fvn_terms.specs.Sorts.{IsLeastSort};
ghost use Rattle.fvn_forms.specs.Canon.{as_constant, canon};
ghost use Rattle.fvn_forms.specs.LeastSort.{least_sort};

use fvn_base::limits::ARGUMENTS;
use fvn_signature::Signature;
use fvn_terms::{Args, OpId, Plain, SortId};

/// The least sort of a term, and the operator of its flat form where this is a constant.
#[derive(Clone, Copy)]
struct Sorted {
    sort: SortId,
    constant: Option<OpId>,
}

// Whether there are both, and they are one.
fn is_identity(identity: Option<OpId>, constant: Option<OpId>) -> bool
    ensures { IsTrue result ↔ ((e : OpId) × (identity ≡ Some e) × (constant ≡ Some e)) }
{
    match identity {
        Some(e) => match constant {
            Some(g) => e == g,
            None => false,
        },
        None => false,
    }
}

// The least sort of the term, and the constant that its flat form is, if it is one.
#[cycle(least)]
fn sort_term(signature: &Signature, t: &Plain) -> Sorted
    requires term { IsTerm signature.now (term t.now) }
    ensures sort { result.sort ≡ least_sort signature.now (canon signature.now (term t.now)) }
    ensures constant { result.constant ≡ as_constant (canon signature.now (term t.now)) }
{
    match t {
        Plain::Var(x) => Sorted {
            sort: x.sort,
            constant: None,
        },
        Plain::App(f, us) => {
            if signature.axioms(*f).is_sum() {
                sort_sum(signature, *f, us)
            } else {
                sort_plain(signature, *f, us)
            }
        }
    }
}

// The same of a sum: where a side is the identity, that of the other.
#[cycle(least)]
fn sort_sum(signature: &Signature, f: OpId, us: &Args) -> Sorted
    requires term { IsTerm signature.now (app f us.now) }
    requires sum { IsAssociative (axioms signature.now f) }
    ensures sort { result.sort ≡ least_sort signature.now (canon signature.now (app f us.now)) }
    ensures constant { result.constant ≡ as_constant (canon signature.now (app f us.now)) }
{
    signature.recall_good();
    let left = sort_term(signature, &us.items[0]);
    let right = sort_term(signature, &us.items[1]);
    let identity = signature.identity(f);
    if is_identity(identity, left.constant) {
        return right;
    }
    if is_identity(identity, right.constant) {
        return left;
    }
    Sorted {
        sort: signature.result(f, &[left.sort, right.sort]),
        constant: None,
    }
}

// The same of an operator that is no sum.
#[cycle(least)]
fn sort_plain(signature: &Signature, f: OpId, us: &Args) -> Sorted
    requires term { IsTerm signature.now (app f us.now) }
    requires plain { IsAssociative (axioms signature.now f) → ⊥ }
    ensures sort { result.sort ≡ least_sort signature.now (canon signature.now (app f us.now)) }
    ensures constant { result.constant ≡ as_constant (canon signature.now (app f us.now)) }
{
    signature.recall_good();
    let mut sorts = [SortId(0); ARGUMENTS];
    let mut i: usize = 0;
    for u in &us.items {
        sorts[i] = sort_term(signature, u).sort;
        i += 1;
    }
    Sorted {
        sort: signature.result(f, &sorts[..i]),
        constant: if us.items.is_empty() { Some(f) } else { None },
    }
}

/// The least sort of a term.
pub fn sort_of(signature: &Signature, t: &Plain) -> SortId
    requires { IsTerm signature.now (term t.now) }
    ensures { IsLeastSort signature.now (term t.now) result }
{
    signature.recall_good();
    sort_term(signature, t).sort
}
