//! The kinds of what was collected.
ghost use Rattle.std.specs.Prelude.{◌≡◌, ◌↔◌, ◌<◌, ◌≤◌, ◌+◌, ℕ, map, IfOk, true};
ghost use Rattle.fvn_base.specs.declared.limits.TheConstants.{SORTS};
ghost use Rattle.fvn_forms.specs.SortOrder.{sort_number};
ghost use Rattle.fvn_signature.specs.Words.{Has, IsClosure};
ghost use Rattle.fvn_signature.specs.FirstSorts.{first_sorts};
ghost use Rattle.fvn_signature_draft.specs.Tops.{is_maximal, is_maximal_of, top_in, tops};
ghost use Rattle.fvn_signature_draft.specs.Collected.{
  IsClosed,
  both_ways,
  joins,
  first_joined,
  parts_before,
  kind_of,
  kinds,
};

use crate::closure::{both_ways, closure};
use crate::collected::Collected;
use fvn_base::Seq;
use fvn_signature::words::has;
use fvn_terms::{NoMemory, SortId};
use std::alloc::Global;

/// The kinds of the sorts, and the number after the last kind.
#[derive(Drop)]
struct SortKinds {
    kinds: Vec<SortId>,
    next: u16,
}

/// The first sort that the order joins with `s`, by the word of those that it does.
fn first_joined(collected: &Collected, word: u64, s: u16) -> u16
    requires few { collected.now.sorts ≤ SORTS }
    requires word { (q : ℕ) → q < collected.now.sorts →
        Has word q ↔ (joins collected.now (sort_number s) (sort_number q) ≡ true) }
    ensures { sort_number result ≡ first_joined collected.now (sort_number s) }
{
    for q in 0..collected.sorts {
        if has(word, q) {
            return q;
        }
    }
    s
}

// The kind of each declared sort, and the next number of a kind.
fn sort_kinds(alloc: Global, collected: &Collected, joined: &[u64]) -> Result<SortKinds, NoMemory>
    requires few { collected.now.sorts ≤ SORTS }
    requires joined { IsClosure collected.now.sorts (both_ways collected.now.below) joined.now }
    ensures kinds { IfOk result (λ k. k.kinds.items ≡ map (kind_of collected.now)
        (first_sorts collected.now.sorts)) }
    ensures next { IfOk result (λ k. k.next ≡ collected.now.sorts + parts_before collected.now
        collected.now.sorts) }
{
    let mut kinds = Vec::new(alloc);
    let mut next = collected.sorts;
    for s in 0..collected.sorts {
        let first = first_joined(collected, joined[usize::from(s)], s);
        if first == s {
            kinds.push(SortId(next))?;
            next += 1;
        } else {
            let kind = kinds[usize::from(first)];
            kinds.push(kind)?;
        }
    }
    Ok(SortKinds { kinds, next })
}

/// The kinds of the sorts that were collected.
fn kinds_of_sorts(alloc: Global, collected: &Collected) -> Result<SortKinds, NoMemory>
    requires few { collected.now.sorts ≤ SORTS }
    requires closed { IsClosed collected.now }
    ensures kinds { IfOk result (λ k. k.kinds.items ≡ map (kind_of collected.now)
        (first_sorts collected.now.sorts)) }
    ensures next { IfOk result (λ k. k.next ≡ collected.now.sorts + parts_before collected.now
        collected.now.sorts) }
{
    let pairs = both_ways(alloc, collected.below.as_slice())?;
    let joined = closure(alloc, collected.sorts, pairs.as_slice())?;
    sort_kinds(alloc, collected, joined.as_slice())
}

/// The kind of each sort, and then of each kind.
pub fn kinds_of(alloc: Global, collected: &Collected) -> Result<Vec<SortId>, NoMemory>
    requires few { collected.now.sorts ≤ SORTS }
    requires closed { IsClosed collected.now }
    ensures { IfOk result (λ v. v.items ≡ kinds collected.now) }
{
    let SortKinds { mut kinds, next } = kinds_of_sorts(alloc, collected)?;
    for k in collected.sorts..next {
        kinds.push(SortId(k))?;
    }
    Ok(kinds)
}

// Whether no pair leads up from the sort.
fn is_maximal(collected: &Collected, s: SortId) -> bool
    ensures { result ≡ is_maximal collected.now s }
{
    collected
        .below
        .as_slice()
        .iter()
        .all(|pair| pair.0.0 != s.0)
}

// The kind of a sort, in the list of the kinds of all.
fn kind_at(collected: &Collected, kinds: &[SortId], s: u16) -> SortId
    requires kinds { kinds.now ≡ map (kind_of collected.now) (first_sorts collected.now.sorts) }
    requires declared { s < collected.now.sorts }
    ensures { result ≡ kind_of collected.now (sort_number s) }
{
    kinds[usize::from(s)]
}

// Whether the sort is a maximal one of the kind.
fn is_maximal_of(collected: &Collected, kinds: &[SortId], k: SortId, s: u16) -> bool
    requires kinds { kinds.now ≡ map (kind_of collected.now) (first_sorts collected.now.sorts) }
    requires declared { s < collected.now.sorts }
    ensures { result ≡ is_maximal_of collected.now k (sort_number s) }
{
    kind_at(collected, kinds, s).0 == k.0 && is_maximal(collected, SortId(s))
}

// The sort after which a kind is named.
fn top_in(collected: &Collected, kinds: &[SortId], k: SortId) -> SortId
    requires { kinds.now ≡ map (kind_of collected.now) (first_sorts collected.now.sorts) }
    ensures { result ≡ top_in collected.now k }
{
    for s in 0..collected.sorts {
        if is_maximal_of(collected, kinds, k, s) {
            return SortId(s);
        }
    }
    k
}

/// The sorts after which the kinds are named, in the order of the kinds.
pub fn tops(alloc: Global, collected: &Collected) -> Result<Seq<SortId>, NoMemory>
    requires few { collected.now.sorts ≤ SORTS }
    requires closed { IsClosed collected.now }
    ensures { IfOk result (λ list. list ≡ tops collected.now) }
{
    let SortKinds { kinds, next } = kinds_of_sorts(alloc, collected)?;
    let mut list = Vec::new(alloc);
    for k in collected.sorts..next {
        list.push(top_in(collected, kinds.as_slice(), SortId(k)))?;
    }
    Ok(Seq::from_vec(list))
}
