//! Columns of a minimal solution, which of its classes are single summands, and which of them are told apart.
//!
//! A solution that is taken stands for one summand. Where it adds a single summand several times, or two classes that it has
//! are single summands and are known to differ, it is never taken, so that nothing is asked of it; nor is anything asked of
//! classes that are noted as sums by the operator, which are never constants of it.
ghost use Rattle.std.specs.Prelude.{◌≡◌, ◌↔◌, ◌<◌, length, slice_index, IsTrue, IsFalse};
ghost use Rattle.fvn_combine_nodes.specs.States.{IsNaming, IsOpen};
ghost use Rattle.fvn_combine_leaves.specs.Users.{IsWholeSums, IsWhole};
ghost use Rattle.fvn_combine_questions.specs.inner.Touched.{
  IsNotedIn,
  StandsIn,
  IsSingleIn,
  AreToldIn,
  IsDeadAt,
  IsDead,
};

use crate::standing::{have_two_heads, is_noted_sum, is_one_summand, may_be_constant};
use fvn_combine_leaves::{Reading, Sums, is_user};
use fvn_combine_nodes::State;
use fvn_lindio::Solution;
use fvn_signature::Signature;
use fvn_terms::OpId;

// Whether the solution is above zero in column i.
pub(crate) fn has_column(v: &Solution, i: usize) -> bool
    requires { i < length v.now.parts }
    ensures { IsTrue result ↔ (0 < slice_index v.now.parts i) }
{
    v.parts.as_slice()[i] > 0
}

// Whether the solution is above one in column i.
fn has_several(v: &Solution, i: usize) -> bool
    requires { i < length v.now.parts }
    ensures { IsTrue result → 1 < slice_index v.now.parts i }
{
    v.parts.as_slice()[i] > 1
}

// Whether the solution has column i, whose class may be a constant of the operator, and is not noted as a sum by it.
pub(crate) fn stands(
    sig: &Signature,
    reading: &Reading,
    heads: &[Option<OpId>],
    n: usize,
    sums: &Sums,
    v: &Solution,
    i: usize,
) -> bool
    requires whole { IsWhole n reading.now }
    requires sums { IsWholeSums n sums.now }
    requires wide { length v.now.parts ≡ length sums.now.columns }
    requires within { i < length sums.now.columns }
    ensures { StandsIn reading.now sums.now (IsNotedIn sig.now heads.now) v.now i → IsTrue result }
{
    let columns = sums.columns.as_slice();
    if !has_column(v, i) {
        return false;
    }
    if is_noted_sum(sig, heads, sums.operator, columns[i]) {
        return false;
    }
    may_be_constant(reading, n, sums, columns[i])
}

// Whether the solution has column i, whose class is a single summand.
pub(crate) fn is_single(
    sig: &Signature,
    reading: &Reading,
    heads: &[Option<OpId>],
    n: usize,
    sums: &Sums,
    v: &Solution,
    i: usize,
) -> bool
    requires whole { IsWhole n reading.now }
    requires sums { IsWholeSums n sums.now }
    requires wide { length v.now.parts ≡ length sums.now.columns }
    requires within { i < length sums.now.columns }
    ensures { IsTrue result
        → IsSingleIn reading.now sums.now (IsNotedIn sig.now heads.now) v.now i }
{
    let columns = sums.columns.as_slice();
    if !has_column(v, i) {
        return false;
    }
    if !is_user(sums, columns[i]) {
        return false;
    }
    is_one_summand(sig, reading, heads, n, sums, columns[i])
}

// Whether heads tell the classes of columns i and j apart, or it is not open whether they are one.
pub(crate) fn are_told(state: &State, reading: &Reading, sums: &Sums, i: usize, j: usize) -> bool
    requires naming { IsNaming state.now }
    requires reading { IsWhole (length state.now.names) reading.now }
    requires sums { IsWholeSums (length state.now.names) sums.now }
    requires left { i < length sums.now.columns }
    requires right { j < length sums.now.columns }
    ensures told { IsTrue result → AreToldIn reading.now sums.now state.now i j }
    ensures open { IsFalse result
        → IsOpen state.now (slice_index sums.now.columns i) (slice_index sums.now.columns j) }
{
    let columns = sums.columns.as_slice();
    if have_two_heads(reading, columns[i], columns[j]) {
        return true;
    }
    !state.is_open(columns[i], columns[j])
}

// Whether the solution has column i, whose class is a single summand, and has it several times, or has one before it that is
// a single summand too and told apart.
fn is_dead_at(
    sig: &Signature,
    state: &State,
    reading: &Reading,
    heads: &[Option<OpId>],
    sums: &Sums,
    v: &Solution,
    i: usize,
) -> bool
    requires naming { IsNaming state.now }
    requires reading { IsWhole (length state.now.names) reading.now }
    requires sums { IsWholeSums (length state.now.names) sums.now }
    requires wide { length v.now.parts ≡ length sums.now.columns }
    requires within { i < length sums.now.columns }
    ensures { IsTrue result
        → IsDeadAt reading.now sums.now state.now (IsNotedIn sig.now heads.now) v.now i }
{
    let n = state.names.len();
    if !is_single(sig, reading, heads, n, sums, v, i) {
        return false;
    }
    if has_several(v, i) {
        return true;
    }
    for j in 0..i {
        if !is_single(sig, reading, heads, n, sums, v, j) {
            continue;
        }
        if are_told(state, reading, sums, i, j) {
            return true;
        }
    }
    false
}

// Whether the solution stands for no summand, by what is known of single summands.
pub(crate) fn is_dead(
    sig: &Signature,
    state: &State,
    reading: &Reading,
    heads: &[Option<OpId>],
    sums: &Sums,
    v: &Solution,
) -> bool
    requires naming { IsNaming state.now }
    requires reading { IsWhole (length state.now.names) reading.now }
    requires sums { IsWholeSums (length state.now.names) sums.now }
    requires wide { length v.now.parts ≡ length sums.now.columns }
    ensures { IsTrue result
        → IsDead reading.now sums.now state.now (IsNotedIn sig.now heads.now) v.now }
{
    for i in 0..sums.columns.len() {
        if is_dead_at(sig, state, reading, heads, sums, v, i) {
            return true;
        }
    }
    false
}
