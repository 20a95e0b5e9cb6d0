//! Whether a shared class is a sum of a constant alone.
ghost use Rattle.std.specs.Prelude.{◌≡◌, ◌↔◌, ◌<◌, ◌-◌, ◌^◌, min, length, slice_index, All, Contains, IfOk, IsTrue};
ghost use Rattle.fvn_lindio.specs.Systems.{vectors_of};
ghost use Rattle.fvn_acunify.specs.ValidChoice.{chosen, column_sum};
ghost use Rattle.fvn_combine_nodes.specs.States.{IsClosed, class_of};
ghost use Rattle.fvn_combine_leaves.specs.Readings.{IsReading};
ghost use Rattle.fvn_combine_leaves.specs.Users.{IsWholeSums, IsWhole, IsSharedIn};
ghost use Rattle.fvn_combine_admissible.specs.Listed.{tag_in};
ghost use Rattle.fvn_combine_admissible.specs.Aliases.{HasNoAlias};
ghost use Rattle.fvn_combine_admissible.specs.inner.Reads.{IsBoundIn, HasOneOf, IsAloneAt, MayBeAliasIn};

use crate::asking::constants_of;
use crate::bound::is_bound_in;
use crate::taking::taken;
use fvn_combine_leaves::{Reading, Sums, is_shared};
use fvn_combine_nodes::{State, Table};
use fvn_lindio::Solution;
use fvn_signature::Signature;
use fvn_terms::{NoMemory, OpId};
use std::alloc::Global;

// What a solution has in column j.
fn part(solution: &Solution, j: usize) -> u32
    requires { j < length solution.now.parts }
    ensures { result ≡ slice_index solution.now.parts j }
{
    solution.parts.as_slice()[j]
}

// What the solutions have in a column, all together, or the greatest number.
fn total(solutions: &[Solution], j: usize) -> u64
    requires { All (λ v. j < length v) (vectors_of solutions.now) }
    ensures { result ≡ min (column_sum j (vectors_of solutions.now)) (2 ^ 64 - 1) }
{
    let mut sum: u64 = 0;
    for solution in solutions {
        sum = sum.saturating_add(u64::from(part(solution, j)));
    }
    sum
}

// Whether a solution is other than zero in one of these columns.
fn has_one_of(columns: &[usize], parts: &[u32]) -> bool
    requires { All (λ c. c < length parts.now) columns.now }
    ensures { IsTrue result ↔ HasOneOf columns.now parts.now }
{
    for c in columns {
        if parts[*c] > 0 {
            return true;
        }
    }
    false
}

// Whether one of the solutions has column j and one of the constants.
fn has_both(solutions: &[Solution], constants: &[usize], j: usize) -> bool
    requires column { All (λ v. j < length v) (vectors_of solutions.now) }
    requires constants { All (λ v. All (λ c. c < length v) constants.now)
        (vectors_of solutions.now) }
    ensures { IsTrue result ↔ IsAloneAt constants.now (vectors_of solutions.now) j }
{
    for solution in solutions {
        if part(solution, j) == 0 {
            continue;
        }
        if has_one_of(constants, solution.parts.as_slice()) {
            return true;
        }
    }
    false
}

// Whether class k is shared, and bound to a sum of the operator.
fn may_be_alias(reading: &Reading, n: usize, tags: &[Option<OpId>], sums: &Sums, k: usize) -> bool
    requires whole { IsWhole n reading.now }
    requires sums { IsWholeSums n sums.now }
    requires within { k < n }
    ensures { IsTrue result
        ↔ (IsSharedIn reading.now k × IsBoundIn reading.now tags.now sums.now k) }
{
    if !is_shared(reading, n, k) {
        return false;
    }
    is_bound_in(reading, n, tags, sums, k)
}

// Whether the class of column j is shared, and a sum of a constant alone.
fn is_alias_at(
    reading: &Reading,
    n: usize,
    tags: &[Option<OpId>],
    sums: &Sums,
    solutions: &[Solution],
    constants: &[usize],
    j: usize,
) -> bool
    requires whole { IsWhole n reading.now }
    requires sums { IsWholeSums n sums.now }
    requires within { j < length sums.now.columns }
    requires column { All (λ v. j < length v) (vectors_of solutions.now) }
    requires constants { All (λ v. All (λ c. c < length v) constants.now)
        (vectors_of solutions.now) }
    ensures { IsTrue result
        ↔ MayBeAliasIn reading.now tags.now sums.now constants.now (vectors_of solutions.now) j }
{
    if !may_be_alias(reading, n, tags, sums, sums.columns.as_slice()[j]) {
        return false;
    }
    if total(solutions, j) > 1 {
        return false;
    }
    has_both(solutions, constants, j)
}

/// Whether no shared class is a sum of a constant alone, where a number takes solutions for the operator.
pub fn has_no_alias(
    alloc: Global,
    sig: &Signature,
    table: &Table,
    state: &State,
    reading: &Reading,
    tags: &[Option<OpId>],
    sums: &Sums,
    basis: &[Solution],
    number: u128,
) -> Result<bool, NoMemory>
    requires closed { IsClosed sig.now table.now state.now }
    requires reading { IsReading sig.now table.now (class_of state.now) reading.now }
    requires listed { Contains reading.now.sums sums.now }
    requires sized { All (λ v. length v ≡ length sums.now.columns) (vectors_of basis.now) }
    ensures { IfOk result (λ b. IsTrue b
        ↔ HasNoAlias sig.now table.now (class_of state.now) (tag_in tags.now)
        sums.now.operator sums.now.columns (chosen number (vectors_of basis.now))) }
{
    let _sig = sig;
    let _state = state;
    table.recall_well_made();
    let n = table.nodes().len();
    let constants = constants_of(alloc, reading, n, tags, sums)?;
    if constants.is_empty() {
        return Ok(true);
    }
    let solutions = taken(alloc, basis, number)?;
    for j in 0..sums.columns.len() {
        if is_alias_at(
            reading,
            n,
            tags,
            sums,
            solutions.as_slice(),
            constants.as_slice(),
            j,
        ) {
            return Ok(false);
        }
    }
    Ok(true)
}
