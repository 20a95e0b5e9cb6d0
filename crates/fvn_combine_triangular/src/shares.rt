//! What stands for the minimal solutions that are taken.
ghost use Rattle.std.specs.Prelude.{◌≡◌, ◌+◌, ◌*◌, ◌<◌, ◌≤◌, ◌^◌, map, length, All, Contains, IfOk};
ghost use Rattle.fvn_acunify.specs.declared.limits.TheConstants.{LISTED_SOLUTIONS as most};
ghost use Rattle.fvn_lindio.specs.Systems.{vectors_of};
ghost use Rattle.fvn_acunify.specs.ValidChoice.{chosen};
ghost use Rattle.fvn_combine_nodes.specs.States.{IsClosed, class_of};
ghost use Rattle.fvn_combine_leaves.specs.Readings.{IsReading};
ghost use Rattle.fvn_combine_admissible.specs.Listed.{tag_in};
ghost use Rattle.fvn_combine_triangular.specs.inner.Planning.{
  variable_for,
  AreShares,
  AreAllShares,
  AreSized,
};

use fvn_acunify::limits::LISTED_SOLUTIONS;
use fvn_base::Seq;
use fvn_combine_admissible::{asked, taken};
use fvn_combine_leaves::{Reading, Sums};
use fvn_combine_nodes::{State, Table};
use fvn_lindio::Solution;
use fvn_signature::Signature;
use fvn_terms::{NoMemory, OpId, Var};
use std::alloc::Global;

/// A minimal solution that is taken, and the variable that stands for it.
#[derive(Drop)]
pub(crate) struct Share {
    pub(crate) solution: Seq<u32>,
    pub(crate) variable: Var,
}

// The name of the first of the constants that the solution has, or else the new variable.
fn variable_for(
    constants: &[usize],
    columns: &[usize],
    names: &[Var],
    parts: &[u32],
    fresh: Var,
) -> Var
    requires columns { All (λ c. (c < length columns.now) × (c < length parts.now)) constants.now }
    requires names { All (λ k. k < length names.now) columns.now }
    ensures { result ≡ variable_for constants.now columns.now names.now parts.now fresh }
{
    for c in constants {
        if parts[*c] > 0 {
            return names[columns[*c]];
        }
    }
    fresh
}

// What stands for the solutions that are taken for an operator, with new variables from a number.
fn shares_of(
    alloc: Global,
    sig: &Signature,
    table: &Table,
    state: &State,
    reading: &Reading,
    tags: &[Option<OpId>],
    sums: &Sums,
    basis: &[Solution],
    number: u128,
    names: &[Var],
    start: u32,
) -> Result<Vec<Share>, NoMemory>
    requires closed { IsClosed sig.now table.now state.now }
    requires reading { IsReading sig.now table.now (class_of state.now) reading.now }
    requires listed { Contains reading.now.sums sums.now }
    requires sized { All (λ v. length v ≡ length sums.now.columns) (vectors_of basis.now) }
    requires few { length basis.now ≤ most }
    requires names { length names.now ≡ length table.now.nodes }
    requires room { start + most < 2 ^ 32 }
    ensures { IfOk result (λ v. AreShares sig.now table.now (class_of state.now) (tag_in tags.now)
        sums.now names.now start (chosen number (vectors_of basis.now)) v.items) }
{
    table.recall_well_made();
    let asked = asked(alloc, sig, table, state, reading, tags, sums)?;
    let solutions = taken(alloc, basis, number)?;
    let kind = sig.operator_kind(sums.operator);
    let mut shares = Vec::with_capacity(alloc, solutions.len())?;
    let mut next = start;
    for solution in solutions.as_slice() {
        let fresh = Var {
            name: next,
            sort: kind,
            fresh: true,
        };
        let parts = solution.parts.as_slice();
        let variable = variable_for(
            asked.constants.as_slice(),
            sums.columns.as_slice(),
            names,
            parts,
            fresh,
        );
        let copy = Vec::from_slice(alloc, parts)?;
        shares.push(Share {
            solution: Seq::from_vec(copy),
            variable,
        })?;
        next += 1;
    }
    Ok(shares)
}

// What stands for the solutions that are taken for each operator, with new variables from a number.
pub(crate) fn all_shares(
    alloc: Global,
    sig: &Signature,
    table: &Table,
    state: &State,
    reading: &Reading,
    tags: &[Option<OpId>],
    bases: &[Seq<Solution>],
    numbers: &[u128],
    names: &[Var],
    start: u32,
) -> Result<Vec<Vec<Share>>, NoMemory>
    requires closed { IsClosed sig.now table.now state.now }
    requires reading { IsReading sig.now table.now (class_of state.now) reading.now }
    requires sized { AreSized reading.now bases.now numbers.now }
    requires names { length names.now ≡ length table.now.nodes }
    requires room { start + most * length reading.now.sums < 2 ^ 32 }
    ensures { IfOk result (λ v.
        AreAllShares sig.now table.now (class_of state.now) (tag_in tags.now)
        reading.now.sums bases.now numbers.now names.now start (map (λ w. w.items) v.items)) }
{
    let mut all = Vec::new(alloc);
    let mut next = start;
    let sums = reading.sums.as_slice();
    for i in 0..sums.len() {
        let basis = bases[i].as_slice();
        let shares = shares_of(
            alloc, sig, table, state, reading, tags, &sums[i], basis, numbers[i], names, next,
        )?;
        all.push(shares)?;
        next += LISTED_SOLUTIONS as u32;
    }
    Ok(all)
}
