//! What is asked of the minimal solutions that are taken for a sum operator.
ghost use Rattle.std.specs.Prelude.{◌↔◌, ◌<◌, length, Contains, IfOk, IsTrue};
ghost use Rattle.fvn_combine_nodes.specs.States.{IsClosed, class_of};
ghost use Rattle.fvn_combine_leaves.specs.Readings.{IsReading};
ghost use Rattle.fvn_combine_leaves.specs.Users.{IsWholeSums, IsWhole};
ghost use Rattle.fvn_combine_choices.specs.Binding.{AreAsked};
ghost use Rattle.fvn_combine_admissible.specs.Listed.{tag_in};
ghost use Rattle.fvn_combine_admissible.specs.inner.Reads.{
  IsConstantAt,
  AreConstantsOf,
  IsRequiredIn,
  AreMarksOf,
};

use crate::bound::is_bound_in;
use fvn_base::Seq;
use fvn_combine_leaves::{Reading, Sums, has_twin};
use fvn_combine_nodes::{State, Table, has_no_identity};
use fvn_signature::Signature;
use fvn_terms::{NoMemory, OpId};
use std::alloc::Global;

/// What is asked of the minimal solutions that are taken for a sum operator.
#[derive(Drop)]
pub struct Requirements {
    /// The columns of its constants: together the solutions have each once, and none has two.
    pub constants: Seq<usize>,
    /// For each column whether all solutions that are taken may be zero there.
    pub may_be_zero: Seq<bool>,
}

// Whether column j is that of a constant.
fn is_constant_at(reading: &Reading, n: usize, tags: &[Option<OpId>], sums: &Sums, j: usize) -> bool
    requires whole { IsWhole n reading.now }
    requires sums { IsWholeSums n sums.now }
    requires within { j < length sums.now.columns }
    ensures { IsTrue result ↔ IsConstantAt reading.now tags.now sums.now j }
{
    if !sums.used.as_slice()[j] {
        return false;
    }
    !is_bound_in(reading, n, tags, sums, sums.columns.as_slice()[j])
}

// The columns of constants.
pub(crate) fn constants_of(
    alloc: Global,
    reading: &Reading,
    n: usize,
    tags: &[Option<OpId>],
    sums: &Sums,
) -> Result<Vec<usize>, NoMemory>
    requires whole { IsWhole n reading.now }
    requires sums { IsWholeSums n sums.now }
    ensures { IfOk result (λ v. AreConstantsOf reading.now tags.now sums.now v.items) }
{
    let mut constants = Vec::new(alloc);
    for j in 0..sums.columns.len() {
        if !is_constant_at(reading, n, tags, sums, j) {
            continue;
        }
        constants.push(j)?;
    }
    Ok(constants)
}

// Whether the sum of the operator to which class k is bound has a member.
fn is_required(
    sig: &Signature,
    reading: &Reading,
    n: usize,
    tags: &[Option<OpId>],
    sums: &Sums,
    k: usize,
) -> bool
    requires whole { IsWhole n reading.now }
    requires sums { IsWholeSums n sums.now }
    requires within { k < n }
    ensures { IsTrue result ↔ IsRequiredIn sig.now reading.now tags.now sums.now k }
{
    if !is_bound_in(reading, n, tags, sums, k) {
        return false;
    }
    if has_no_identity(sig.axioms(sums.operator)) {
        return true;
    }
    has_twin(sig, reading.sums.as_slice(), n, sums.operator, k)
}

// For each column whether all solutions may be zero there.
pub(crate) fn marks_of(
    alloc: Global,
    sig: &Signature,
    reading: &Reading,
    n: usize,
    tags: &[Option<OpId>],
    sums: &Sums,
) -> Result<Vec<bool>, NoMemory>
    requires whole { IsWhole n reading.now }
    requires sums { IsWholeSums n sums.now }
    ensures { IfOk result (λ v. AreMarksOf sig.now reading.now tags.now sums.now v.items) }
{
    let columns = sums.columns.as_slice();
    let mut marks = Vec::with_capacity(alloc, columns.len())?;
    for j in 0..columns.len() {
        let required = is_required(sig, reading, n, tags, sums, columns[j]);
        marks.push(!required)?;
    }
    Ok(marks)
}

/// What is asked of the minimal solutions that are taken for a sum operator, where classes have these tags.
pub fn asked(
    alloc: Global,
    sig: &Signature,
    table: &Table,
    state: &State,
    reading: &Reading,
    tags: &[Option<OpId>],
    sums: &Sums,
) -> Result<Requirements, NoMemory>
    requires closed { IsClosed sig.now table.now state.now }
    requires reading { IsReading sig.now table.now (class_of state.now) reading.now }
    requires listed { Contains reading.now.sums sums.now }
    ensures { IfOk result (λ a. AreAsked sig.now table.now (class_of state.now) (tag_in tags.now)
        sums.now.operator sums.now.columns a.constants a.may_be_zero) }
{
    let _state = state;
    table.recall_well_made();
    let n = table.nodes().len();
    let constants = constants_of(alloc, reading, n, tags, sums)?;
    let marks = marks_of(alloc, sig, reading, n, tags, sums)?;
    Ok(Requirements {
        constants: Seq::from_vec(constants),
        may_be_zero: Seq::from_vec(marks),
    })
}
