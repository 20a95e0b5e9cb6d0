//! The minimal solutions of a system, one row after another.
ghost use Rattle.std.specs.Prelude.{◌≡◌, ◌≢◌, ◌↔◌, ◌≤◌, ℕ, List, IfOk, length, All, AllPairs, Contains};
ghost use Rattle.fvn_base.specs.Order.{IsBefore};
ghost use Rattle.fvn_lindio.specs.Systems.{IsMinimal, IsSystem, rows_of, vectors_of};
ghost use Rattle.fvn_lindio.specs.Refusals.{IsTooMany, IsTooWide};

use crate::answer::{is_wide, solutions_of};
use crate::rows::extended;
use crate::system::{LinFault, Solution, System};
use fvn_base::Seq;
use fvn_base::limits::COMPONENT;
use smallvec::SmallVec;
use std::alloc::Global;

/// All minimal solutions of the system, or the first prefix of its rows that is refused: one with
/// more than `most` minimal solutions, or else one with a component over 65,535.
///
/// Rows are taken one after another; within a row the search adds one solution of the rows before
/// at a time, as E. Contejean and H. Devie do with unit vectors (An efficient incremental algorithm
/// for solving systems of linear Diophantine equations, 1994).
pub fn basis(alloc: Global, system: &System, most: usize) -> Result<Seq<Solution>, LinFault>
    requires { IsSystem system.now }

    ensures exact { IfOk result (λ list. (v : List ℕ) →
        Contains (vectors_of list) v ↔ IsMinimal system.now.columns (rows_of system.now) v) }
    ensures ordered { IfOk result (λ list. AllPairs IsBefore (vectors_of list)) }
    ensures few { IfOk result (λ list. length list ≤ most) }
    ensures narrow { IfOk result (λ list. All (All (λ a. a ≤ COMPONENT)) (vectors_of list)) }

    // Where memory does not run out, each refusal comes exactly where its prefix is the first.
    ensures too_many { result ≢ Err LinFault.NoMemory → (k : ℕ) →
        (result ≡ Err (LinFault.TooMany k)) ↔ IsTooMany system.now.columns (rows_of system.now) most k }
    ensures too_wide { result ≢ Err LinFault.NoMemory → (k : ℕ) →
        (result ≡ Err (LinFault.TooWide k)) ↔ IsTooWide system.now.columns (rows_of system.now) most k }
{
    let rows = system.rows.as_slice();
    let mut known: Vec<SmallVec<u64, 8>> = Vec::new(alloc);
    for k in 0..rows.len() {
        known = extended(
            alloc,
            &rows[..k],
            rows[k].coefficients.as_slice(),
            known.as_slice(),
        )?;
        if known.len() > most {
            return Err(LinFault::TooMany(k + 1));
        }
        if is_wide(known.as_slice()) {
            return Err(LinFault::TooWide(k + 1));
        }
    }
    let solutions = solutions_of(alloc, known.as_slice())?;
    Ok(Seq::from_vec(solutions))
}
