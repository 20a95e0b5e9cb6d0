//! The sides of pairs, which are what is explored.
ghost use Rattle.std.specs.Prelude.{◌≡◌, ◌≤◌, length, IfOk};
ghost use Rattle.fvn_vunify.specs.Sides.{sides_in_turn, FitAsSides};

use fvn_flat::{Flat, Pairs};
use fvn_terms::NoMemory;
use std::alloc::Global;

// The left and the right side of each pair in turn.
fn turned(alloc: Global, pairs: Vec<(Flat, Flat)>) -> Result<Vec<Flat>, NoMemory>
    ensures { IfOk result (λ sides. sides.items ≡ sides_in_turn pairs.items) }
{
    let mut sides = Vec::new(alloc);
    for pair in pairs {
        let (left, right) = pair;
        sides.push(left)?;
        sides.push(right)?;
    }
    Ok(sides)
}

/// The left and the right side of each pair in turn.
///
/// They fit where the pairs do, and there are some where there is a pair.
pub fn sides_of(alloc: Global, given: Pairs) -> Result<Vec<Flat>, NoMemory>
    ensures exact { IfOk result (λ sides. sides.items ≡ sides_in_turn given.pairs) }
    ensures fit { IfOk result (λ sides. FitAsSides given.pairs sides.items) }
    ensures some { IfOk result (λ sides. 1 ≤ length given.pairs → 1 ≤ length sides.items) }
{
    let sides = turned(alloc, given.pairs.into_vec())?;
    Ok(sides)
}
