//! Wheels for all sum operators, under tags.
ghost use Rattle.std.specs.Prelude.{◌≡◌, ◌≤◌, ℕ, List, Contains, IfOk, None};
ghost use Rattle.std.specs.List.{AllZip};
ghost use Rattle.fvn_terms.specs.Signature.{axioms};
ghost use Rattle.fvn_terms.specs.Equality.{IsAssociative};
ghost use Rattle.fvn_acunify.specs.Cursor.{unbounded};
ghost use Rattle.fvn_combine_nodes.specs.States.{IsClosed, class_of};
ghost use Rattle.fvn_combine_leaves.specs.Readings.{AreSums, IsReading};
ghost use Rattle.fvn_combine_admissible.specs.Listed.{tag_in};
ghost use Rattle.fvn_acunify_product.specs.Weight.{product};
ghost use Rattle.fvn_acunify_product.specs.Wheels.{IsChoice, PendingChoices, choices_left, counts_of, wheel_of};
ghost use Rattle.fvn_combine_leaves.specs.Bases.{IsBasis, AreBases};
ghost use Rattle.fvn_combine_candidates.specs.Turning.{IsFullFor, IsWheel, AreWheels, HasBounds, HaveBounds};

use crate::neutral::is_neutral;
use crate::vanishing::other_columns;
use fvn_acunify::{Choices, choices_among};
use fvn_acunify_product::Wheels;
use fvn_base::Seq;
use fvn_combine_admissible::theory;
use fvn_combine_bounds::bounds_of;
use fvn_combine_leaves::{Reading, Sums};
use fvn_combine_nodes::{State, Table};
use fvn_lindio::Solution;
use fvn_signature::Signature;
use fvn_terms::{NoMemory, OpId};
use std::alloc::Global;

// The same choices; where the operator has an identity, full ones alone.
fn listed(
    alloc: Global,
    sig: &Signature,
    table: &Table,
    state: &State,
    reading: &Reading,
    sums: &Sums,
    mut choices: Choices,
) -> Result<Choices, NoMemory>
    requires closed { IsClosed sig.now table.now state.now }
    requires reading { IsReading sig.now table.now (class_of state.now) reading.now }
    requires listed { Contains reading.now.sums sums.now }
    requires all { choices.full ≡ None }
    ensures basis { IfOk result (λ c. c.basis ≡ choices.basis) }
    ensures constants { IfOk result (λ c. c.constants ≡ choices.constants) }
    ensures may_be_zero { IfOk result (λ c. c.may_be_zero ≡ choices.may_be_zero) }
    ensures bounds { IfOk result (λ c. c.bounds ≡ choices.bounds) }
    ensures full { IfOk result (λ c.
        IsFullFor sig.now table.now (class_of state.now) sums.now c.full) }
{
    match sig.identity(sums.operator) {
        None => Ok(choices),
        Some(e) => {
            let others = other_columns(alloc, sig, table, state, reading, sums, e)?;
            choices.list_full(Seq::from_vec(others));
            Ok(choices)
        }
    }
}

// The choices for a sum operator among its minimal solutions, without bounds.
fn choices_of(
    alloc: Global,
    sig: &Signature,
    table: &Table,
    state: &State,
    reading: &Reading,
    tags: &[Option<OpId>],
    sums: &Sums,
    basis: &[Solution],
) -> Result<Choices, NoMemory>
    requires closed { IsClosed sig.now table.now state.now }
    requires reading { IsReading sig.now table.now (class_of state.now) reading.now }
    requires listed { Contains reading.now.sums sums.now }
    requires basis { IsBasis sums.now.system basis.now }
    ensures asked { IfOk result (λ c.
        IsWheel sig.now table.now (class_of state.now) (tag_in tags.now)
        sums.now basis.now (wheel_of c)) }
    ensures bounds { IfOk result (λ c. c.bounds ≡ unbounded) }
{
    let theory = theory(alloc, sig, table, state, reading, tags, sums)?;
    match choices_among(alloc, &theory, basis) {
        Ok(choices) => {
            let full = listed(alloc, sig, table, state, reading, sums, choices)?;
            Ok(full)
        }
        Err(_) => Err(NoMemory),
    }
}

// The same choices; where sorts are heeded, those within what they ask alone.
fn bounded(
    alloc: Global,
    sig: &Signature,
    table: &Table,
    state: &State,
    sums: &Sums,
    sorted: bool,
    mut choices: Choices,
) -> Result<Choices, NoMemory>
    requires associative { IsAssociative (axioms sig.now sums.now.operator) }
    requires closed { IsClosed sig.now table.now state.now }
    requires sums { AreSums sig.now table.now (class_of state.now) sums.now }
    requires unbounded { choices.bounds ≡ unbounded }
    ensures constants { IfOk result (λ c. c.constants ≡ choices.constants) }
    ensures may_be_zero { IfOk result (λ c. c.may_be_zero ≡ choices.may_be_zero) }
    ensures basis { IfOk result (λ c. c.basis ≡ choices.basis) }
    ensures full { IfOk result (λ c. c.full ≡ choices.full) }
    ensures bounds { IfOk result (λ c.
        HasBounds sig.now table.now (class_of state.now) sorted sums.now c.bounds) }
{
    if !sorted {
        return Ok(choices);
    }
    let neutral = is_neutral(sig, sums.operator);
    let bounds = bounds_of(alloc, sig, table, state, sums, neutral)?;
    choices.list_within(bounds);
    Ok(choices)
}

/// One wheel for each sum operator: the lists of numbers that are to come are exactly those in which
/// each number is valid for what is asked of its operator's minimal solutions, under these tags, and
/// takes every solution without a constant that may stand for the operator's identity; where sorts are
/// heeded, those alone that keep to what sorts ask.
pub fn wheels(
    alloc: Global,
    sig: &Signature,
    table: &Table,
    state: &State,
    reading: &Reading,
    bases: &[Seq<Solution>],
    tags: &[Option<OpId>],
    sorted: bool,
) -> Result<Wheels, NoMemory>
    requires closed { IsClosed sig.now table.now state.now }
    requires reading { IsReading sig.now table.now (class_of state.now) reading.now }
    requires bases { AreBases reading.now.sums bases.now }
    ensures asked { IfOk result (λ o.
        AreWheels sig.now table.now (class_of state.now) (tag_in tags.now)
        reading.now.sums bases.now o.wheels) }
    ensures bounds { IfOk result (λ o. HaveBounds sig.now table.now (class_of state.now) sorted
        reading.now.sums o.wheels) }
    ensures all_pending { IfOk result (λ o. (numbers : List ℕ) →
        AllZip IsChoice o.wheels numbers → PendingChoices o numbers) }
    ensures bounded { IfOk result (λ o. choices_left o ≤ product (counts_of o.wheels)) }
{
    let sums = reading.sums.as_slice();
    let mut list = Vec::new(alloc);
    for i in 0..sums.len() {
        let entry = &sums[i];
        let basis = bases[i].as_slice();
        let choices = choices_of(alloc, sig, table, state, reading, tags, entry, basis)?;
        let within = bounded(alloc, sig, table, state, entry, sorted, choices)?;
        list.push(within)?;
    }
    let wheels = Wheels::new(alloc, list)?;
    Ok(wheels)
}
