//! What a class is bound to.
ghost use Rattle.std.specs.Prelude.{◌≡◌, ◌++◌, ◌<◌, ℕ, List, map, replicate, length, slice_index_or, All, IfOk, OnOk};
ghost use Rattle.fvn_forms.specs.Flat.{fvar};
ghost use Rattle.fvn_forms.specs.Canon.{sum};
ghost use Rattle.fvn_flat.specs.SolvedLists.{component, members};
ghost use Rattle.fvn_combine_nodes.specs.States.{class_of};
ghost use Rattle.fvn_combine_triangular.specs.inner.Planning.{
  no_name,
  part_of,
  IsSummable,
};

use crate::shares::Share;
use fvn_combine_nodes::State;
use fvn_flat::Flat;
use fvn_signature::Signature;
use fvn_terms::{NoMemory, OpId, Var};
use std::alloc::Global;

// The names of the classes of these nodes.
pub(crate) fn names_over(
    alloc: Global,
    state: &State,
    names: &[Var],
    ks: &[usize],
) -> Result<Vec<Flat>, NoMemory>
    requires within { All (λ k. k < length state.now.names) ks.now }
    requires classes { All (λ k. k < length names.now) state.now.names }
    ensures { IfOk result (λ v. v.items
        ≡ map (λ k. fvar (slice_index_or names.now (class_of state.now k) no_name)) ks.now) }
{
    let mut args = Vec::with_capacity(alloc, ks.len())?;
    for k in ks {
        args.push(Flat::var(names[state.class_of(*k)]))?;
    }
    Ok(args)
}

// The place of the first column of class k; past all columns where there is none.
fn column_of(columns: &[usize], k: usize) -> usize
    ensures { (v : List ℕ) → length v ≡ length columns.now
        → component columns.now v k ≡ slice_index_or v result 0 }
{
    for j in 0..columns.len() {
        if columns[j] == k {
            return j;
        }
    }
    columns.len()
}

// What a solution has at a place; past its end, zero.
fn part_at(parts: &[u32], j: usize) -> u32
    ensures { result ≡ slice_index_or parts.now j 0 }
{
    match parts.get(j) {
        Some(n) => *n,
        None => 0,
    }
}

// Adds a variable so many times.
fn add_copies(terms: &mut Vec<Flat>, x: Var, count: u32) -> Result<(), NoMemory>
    ensures { OnOk result (terms.new.items ≡ terms.old.items ++ replicate count (fvar x)) }
{
    for _ in 0..count {
        terms.push(Flat::var(x))?;
    }
    Ok(())
}

// The members of the sum to which class k is bound.
pub(crate) fn members_of(
    alloc: Global,
    columns: &[usize],
    shares: &[Share],
    k: usize,
) -> Result<Vec<Flat>, NoMemory>
    requires { All (λ s. length s.solution ≡ length columns.now) shares.now }
    ensures { IfOk result (λ v. v.items ≡ members columns.now (map part_of shares.now) k) }
{
    let mut terms = Vec::with_capacity(alloc, shares.len())?;
    let column = column_of(columns, k);
    for share in shares {
        let count = part_at(share.solution.as_slice(), column);
        add_copies(&mut terms, share.variable, count)?;
    }
    Ok(terms)
}

// The sum of the operator over variables.
pub(crate) fn sum_over(
    alloc: Global,
    sig: &Signature,
    f: OpId,
    mut terms: Vec<Flat>,
) -> Result<Flat, NoMemory>
    requires { IsSummable sig.now f terms.items }
    ensures exact { IfOk result (λ t. t ≡ sum sig.now f terms.items) }
{
    sig.recall_good();
    if terms.len() == 1 {
        return Ok(terms.remove(0));
    }
    if terms.is_empty() {
        let t = Flat::app(alloc, sig, sig.identity(f).unwrap_or(f), terms)?;
        return Ok(t);
    }
    let t = Flat::app(alloc, sig, f, terms)?;
    Ok(t)
}
