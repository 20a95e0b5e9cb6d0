//! Tags of shared classes, from numbers.
ghost use Rattle.std.specs.Prelude.{◌≡◌, ◌≢◌, ◌<◌, ◌-◌, ◌^◌, length, All, AllPairs, IfOk};
ghost use Rattle.fvn_combine_candidates.specs.Sharing.{classes_of};
ghost use Rattle.fvn_combine_candidates.specs.Tags.{tag_counts, user_at, AreTags};

use crate::sharing::SharedClass;
use fvn_terms::{NoMemory, OpId};
use std::alloc::Global;

/// How many tags each shared class may have: none, or one of the operators that use it.
pub fn option_counts(alloc: Global, shared: &[SharedClass]) -> Result<Vec<u32>, NoMemory>
    requires few { All (λ c. length c.users < 2 ^ 32 - 1) shared.now }
    ensures { IfOk result (λ v. v.items ≡ tag_counts shared.now) }
{
    let mut counts = Vec::new(alloc);
    for c in shared {
        counts.push(c.users.len() as u32 + 1)?;
    }
    Ok(counts)
}

// The operator that the number stands for; 0 stands for none.
fn user_at(users: &[OpId], number: u32) -> Option<OpId>
    ensures { result ≡ user_at users.now number }
{
    if number == 0 {
        return None;
    }
    let i = number as usize - 1;
    if i < users.len() {
        Some(users[i])
    } else {
        None
    }
}

/// One tag for each of n nodes: of a shared class that which its number stands for, and else none.
pub fn tags_of(
    alloc: Global,
    n: usize,
    shared: &[SharedClass],
    numbers: &[u32],
) -> Result<Vec<Option<OpId>>, NoMemory>
    requires within { All (λ c. c.class < n) shared.now }
    requires distinct { AllPairs ◌≢◌ (classes_of shared.now) }
    requires numbered { length numbers.now ≡ length shared.now }
    ensures as_many { IfOk result (λ v. length v.items ≡ n) }
    ensures exact { IfOk result (λ v. AreTags shared.now numbers.now v.items) }
{
    let mut tags = vec![in alloc; None; n]?;
    for i in 0..shared.len() {
        let entry = &shared[i];
        let tag = user_at(entry.users.as_slice(), numbers[i]);
        tags[entry.class] = tag;
    }
    Ok(tags)
}
