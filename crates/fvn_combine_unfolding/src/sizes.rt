//! Sizes of what bindings unfold to, before anything is unfolded.
ghost use Rattle.std.specs.Prelude.{◌≡◌, ◌↔◌, ◌<◌, ◌-◌, ◌^◌, All, Any, IfOk, IsTrue};
ghost use Rattle.fvn_forms.specs.Flat.{symbols};
ghost use Rattle.fvn_forms.specs.Settled.{Settled};
ghost use Rattle.fvn_flat.specs.SolvedLists.{IsTriangular};
ghost use Rattle.fvn_flat.specs.Own.{own};
ghost use Rattle.fvn_combine_choices.specs.Plans.{unfolds_to, size_in};
ghost use Rattle.fvn_combine_unfolding.specs.Sizes.{AddUp};
ghost use Rattle.fvn_combine_unfolding.specs.inner.Noted.{noted_size, noted_sizes, capped, own_size};

use fvn_flat::{Flat, SolvedList};
use fvn_signature::Signature;
use fvn_terms::{NoMemory, Var};
use std::alloc::Global;

// The symbols of an operator over so many arguments, besides those of the arguments.
fn own_symbols(joined: bool, count: usize) -> u64
    ensures { result ≡ own joined count }
{
    if joined && count != 0 {
        count as u64 - 1
    } else {
        1
    }
}

// The symbols of a term besides those of its arguments.
fn own_size(sig: &Signature, t: &Flat) -> u64
    requires { Settled sig.now t.now }
    ensures { result ≡ own_size t.now }
{
    let us = t.args();
    match t.head() {
        None => 1,
        Some(f) => own_symbols(sig.axioms(f).is_sum(), us.len()),
    }
}

// The size that is noted of a variable; where none is, it stands for itself.
fn noted_size(sizes: &[(Var, u64)], x: Var) -> u64
    ensures { result ≡ noted_size sizes.now x }
{
    for (y, n) in sizes {
        if *y == x {
            return *n;
        }
    }
    1
}

// The symbols of a term whose variables have the sizes that are noted, or the greatest number.
fn size_over(sig: &Signature, sizes: &[(Var, u64)], t: &Flat) -> u64
    requires { Settled sig.now t.now }
    ensures { result ≡ capped (size_in (noted_size sizes.now) t.now) }
{
    match t.as_var() {
        Some(x) => noted_size(sizes, x),
        None => {
            let mut count = own_size(sig, t);
            for u in t.args() {
                count = count.saturating_add(size_over(sig, sizes, u));
            }
            count
        }
    }
}

// The sizes of what the bound variables unfold to, from the last binding to the first.
fn sizes_of(
    alloc: Global,
    sig: &Signature,
    bindings: &[(Var, Flat)],
) -> Result<Vec<(Var, u64)>, NoMemory>
    requires { All (λ b. Settled sig.now b.1) bindings.now }
    ensures { IfOk result (λ sizes. sizes.items ≡ noted_sizes bindings.now) }
{
    let mut sizes = Vec::with_capacity(alloc, bindings.len())?;
    let mut i = bindings.len();
    while i > 0 {
        i -= 1;
        let (x, t) = &bindings[i];
        let size = size_over(sig, sizes.as_slice(), t);
        sizes.push((*x, size))?;
    }
    Ok(sizes)
}

/// Whether one of the variables unfolds to more symbols than the limit.
///
/// Nothing is unfolded for it.
pub fn is_too_large(
    alloc: Global,
    sig: &Signature,
    list: &SolvedList,
    vars: &[Var],
    limit: u64,
) -> Result<bool, NoMemory>
    requires settled { All (λ b. Settled sig.now b.1) list.now.bindings }
    requires triangular { IsTriangular list.now.bindings }
    requires add_up { AddUp sig.now list.now.bindings }
    requires limit { limit < 2 ^ 64 - 1 }
    ensures { IfOk result (λ large. IsTrue large
        ↔ Any (λ x. limit < symbols (unfolds_to sig.now list.now.bindings x)) vars.now) }
{
    let sizes = sizes_of(alloc, sig, list.bindings.as_slice())?;
    for x in vars {
        let size = noted_size(sizes.as_slice(), *x);
        if size > limit {
            return Ok(true);
        }
    }
    Ok(false)
}
