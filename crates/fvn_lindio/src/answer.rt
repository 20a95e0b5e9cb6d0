//! The search's vectors as solutions.
ghost use Rattle.std.specs.Prelude.{◌≡◌, ◌<◌, ◌≤◌, ℕ, List, IfOk, IsTrue, IsFalse, All, Any, Contains};
ghost use Rattle.fvn_lindio.specs.Systems.{vectors_of};
ghost use Rattle.fvn_lindio.specs.inner.Generators.{vectors_in};

use crate::system::Solution;
use fvn_base::Seq;
use fvn_base::limits::COMPONENT;
use smallvec::SmallVec;
use std::alloc::{AllocError, Global};

/// Whether a component is over the greatest.
fn has_wide(parts: &[u64]) -> bool
    ensures wide { IsTrue result → Any (λ a. COMPONENT < a) parts.now }
    ensures narrow { IsFalse result → All (λ a. a ≤ COMPONENT) parts.now }
{
    for a in parts {
        if *a > COMPONENT {
            return true;
        }
    }
    false
}

/// Whether one of the vectors has such a component.
pub(crate) fn is_wide(list: &[SmallVec<u64, 8>]) -> bool
    ensures wide { IsTrue result → (v : List ℕ) × Contains (vectors_in list.now) v
        × Any (λ a. COMPONENT < a) v }
    ensures narrow { IsFalse result → All (All (λ a. a ≤ COMPONENT)) (vectors_in list.now) }
{
    for v in list {
        if has_wide(v.as_slice()) {
            return true;
        }
    }
    false
}

/// The vector as a solution.
fn solution_of(alloc: Global, parts: &[u64]) -> Result<Solution, AllocError>
    requires { All (λ a. a ≤ COMPONENT) parts.now }
    ensures { IfOk result (λ v. v.parts ≡ parts.now) }
{
    let mut narrow = Vec::new(alloc);
    for a in parts {
        narrow.push(*a as u32)?;
    }
    Ok(Solution {
        parts: Seq::from_vec(narrow),
    })
}

/// The vectors as solutions, in the same order.
pub(crate) fn solutions_of(
    alloc: Global,
    list: &[SmallVec<u64, 8>],
) -> Result<Vec<Solution>, AllocError>
    requires { All (All (λ a. a ≤ COMPONENT)) (vectors_in list.now) }
    ensures { IfOk result (λ solutions. vectors_of solutions.items ≡ vectors_in list.now) }
{
    let mut solutions = Vec::new(alloc);
    for v in list {
        let solution = solution_of(alloc, v.as_slice())?;
        solutions.push(solution)?;
    }
    Ok(solutions)
}
