//! The ranks of a list without those that stand there before.
ghost use Rattle.std.specs.Prelude.{Contains, IfOk, IsTrue};
ghost use Rattle.fvn_signature.specs.FoundAlike.{FindAlike};

use crate::alike::same_rank;
use crate::ranks::copied;
use fvn_terms::{NoMemory, Rank};
use std::alloc::Global;

/// Whether the rank is one of these.
fn is_listed(ranks: &[Rank], rank: &Rank) -> bool
    ensures { IsTrue result → Contains ranks.now rank.now }
{
    for other in ranks {
        if same_rank(other, rank) {
            return true;
        }
    }
    false
}

/// The ranks without those that stand there before; among their results the same is found.
pub fn without_repeats(alloc: Global, ranks: &[Rank]) -> Result<Vec<Rank>, NoMemory>
    ensures { IfOk result (λ v. FindAlike v.items ranks.now) }
{
    let mut all = Vec::new(alloc);
    for rank in ranks {
        if is_listed(all.as_slice(), rank) {
            continue;
        }
        all.push(copied(alloc, rank)?)?;
    }
    Ok(all)
}
