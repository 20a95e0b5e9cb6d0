//! Where pairs of sorts lead, one word a sort.
ghost use Rattle.std.specs.Prelude.{◌≡◌, ◌<◌, ◌≤◌, ◌^◌, length, map, All, IfOk, slice_index_or};
ghost use Rattle.std.specs.List.{range_with_len};
ghost use Rattle.fvn_base.specs.declared.limits.TheConstants.{SORTS};
ghost use Rattle.fvn_signature.specs.Words.{IsClosure};
ghost use Rattle.fvn_signature_draft.specs.Collected.{both_ways};
ghost use Rattle.fvn_signature_draft.specs.inner.Words.{gaining};

use fvn_signature::words::has;
use fvn_terms::{NoMemory, SortId};
use std::alloc::Global;

/// The word, with the other's bits where it has the bit.
fn gaining(word: u64, k: u16, other: u64) -> u64
    requires { k < 64 }
    ensures { result ≡ gaining k other word }
{
    if has(word, k) { word | other } else { word }
}

/// For each sort the word of it alone.
fn single_bits(alloc: Global, sorts: u16) -> Result<Vec<u64>, NoMemory>
    requires { sorts ≤ SORTS }
    ensures { IfOk result (λ v. v.items ≡ map (λ k. 2 ^ k) (range_with_len 0 sorts)) }
{
    let mut words = Vec::new(alloc);
    for k in 0..sorts {
        words.push(1u64 << k)?;
    }
    Ok(words)
}

/// Each word that has bit `low` gains the bits of word `high`.
fn gain(words: &mut Vec<u64>, low: u16, high: usize)
    requires low { low < 64 }
    requires high { high < length words.old.items }
    ensures { words.new.items ≡ map (gaining low (slice_index_or words.old.items high 0))
        words.old.items }
{
    let gained = words[high];
    for word in words.iter_mut() {
        *word = gaining(*word, low, gained);
    }
}

/// For each sort the sorts to which the pairs lead from it.
///
/// One step for each pair: what reaches its lower sort reaches all that its upper sort does.
pub fn closure(alloc: Global, sorts: u16, pairs: &[(SortId, SortId)]) -> Result<Vec<u64>, NoMemory>
    requires few { sorts ≤ SORTS }
    requires in_range { All (λ p. (p.0.0 < sorts) × (p.1.0 < sorts)) pairs.now }
    ensures { IfOk result (λ v. IsClosure sorts pairs.now v.items) }
{
    let mut words = single_bits(alloc, sorts)?;
    for pair in pairs {
        gain(&mut words, pair.0.0, usize::from(pair.1.0));
    }
    Ok(words)
}

/// The pairs, and the pairs turned round.
pub fn both_ways(
    alloc: Global,
    pairs: &[(SortId, SortId)],
) -> Result<Vec<(SortId, SortId)>, NoMemory>
    ensures { IfOk result (λ v. v.items ≡ both_ways pairs.now) }
{
    let mut all = Vec::from_slice(alloc, pairs)?;
    for pair in pairs {
        all.push((pair.1, pair.0))?;
    }
    Ok(all)
}
