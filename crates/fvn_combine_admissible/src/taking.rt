//! The minimal solutions that a number takes.
ghost use Rattle.std.specs.Prelude.{◌≡◌, ◌++◌, IfOk, OnOk};
ghost use Rattle.fvn_lindio.specs.Systems.{vectors_of};
ghost use Rattle.fvn_acunify.specs.ValidChoice.{chosen};
ghost use Rattle.fvn_combine_admissible.specs.inner.Reads.{taken_if};

use fvn_base::Seq;
use fvn_lindio::Solution;
use fvn_terms::NoMemory;
use std::alloc::Global;

// Adds a solution, where the bit is set.
fn add_if(
    alloc: Global,
    bits: u128,
    solutions: &mut Vec<Solution>,
    solution: &Solution,
) -> Result<(), NoMemory>
    ensures { OnOk result (vectors_of solutions.new.items
        ≡ vectors_of solutions.old.items ++ taken_if bits solution.now.parts) }
{
    if bits % 2 != 1 {
        return Ok(());
    }
    let parts = Vec::from_slice(alloc, solution.parts.as_slice())?;
    solutions.push(Solution {
        parts: Seq::from_vec(parts),
    })?;
    Ok(())
}

/// The minimal solutions that the bits of a number take, in their order.
pub fn taken(alloc: Global, basis: &[Solution], number: u128) -> Result<Vec<Solution>, NoMemory>
    ensures { IfOk result (λ all. vectors_of all.items ≡ chosen number (vectors_of basis.now)) }
{
    let mut solutions = Vec::with_capacity(alloc, basis.len())?;
    let mut bits = number;
    for solution in basis {
        add_if(alloc, bits, &mut solutions, solution)?;
        bits /= 2;
    }
    Ok(solutions)
}
