//! Questions whether two classes are one that may be constants of one operator.
//!
//! Where many are told apart, few pairs are left among many: a class that has as many pairs kept apart as there are others
//! to ask of is passed over at first. Pairs may stand twice, so that all classes are gone through where nothing is found so.
ghost use Rattle.std.specs.Prelude.{◌<◌, length, All, IfSome};
ghost use Rattle.fvn_combine_nodes.specs.States.{IsNaming};
ghost use Rattle.fvn_combine_questions.specs.inner.Past.{
  IsOpenPair,
  IsOpenPairOr,
  ArePastClasses,
  ArePastPairs,
};
ghost use Rattle.fvn_combine_leaves.specs.Users.{IsWholeSums, IsWhole};

use crate::standing::{have_two_heads, may_be_constant};
use fvn_combine_leaves::{Reading, Sums};
use fvn_combine_nodes::State;

// A question whether class k is another class that may be a constant of the operator.
fn open_with(state: &State, reading: &Reading, sums: &Sums, k: usize) -> Option<(usize, usize)>
    requires naming { IsNaming state.now }
    requires reading { IsWhole (length state.now.names) reading.now }
    requires sums { IsWholeSums (length state.now.names) sums.now }
    requires within { k < length state.now.names }
    ensures { IsOpenPairOr state.now
        (ArePastClasses state.now reading.now sums.now k sums.now.columns) result }
{
    let n = state.names.len();
    for l in sums.columns.as_slice() {
        if !may_be_constant(reading, n, sums, *l) {
            continue;
        }
        if have_two_heads(reading, k, *l) {
            continue;
        }
        if state.is_open(k, *l) {
            return Some((k, *l));
        }
    }
    None
}

// A question whether two classes are one that may be constants of the operator.
fn open_of(state: &State, reading: &Reading, sums: &Sums) -> Option<(usize, usize)>
    requires naming { IsNaming state.now }
    requires reading { IsWhole (length state.now.names) reading.now }
    requires sums { IsWholeSums (length state.now.names) sums.now }
    ensures { IsOpenPairOr state.now
        (ArePastPairs state.now reading.now sums.now sums.now.columns) result }
{
    let n = state.names.len();
    for k in sums.columns.as_slice() {
        if !may_be_constant(reading, n, sums, *k) {
            continue;
        }
        match open_with(state, reading, sums, *k) {
            None => {}
            Some(pair) => return Some(pair),
        }
    }
    None
}

// Whether node i is in the class of this name.
fn is_in_class(names: &[usize], i: usize, name: usize) -> bool {
    match names.get(i) {
        None => false,
        Some(own) => *own == name,
    }
}

// Whether one of nodes i and j is in the class of this name.
fn has_side(names: &[usize], i: usize, j: usize, name: usize) -> bool {
    if is_in_class(names, i, name) {
        return true;
    }
    is_in_class(names, j, name)
}

// Whether fewer than so many pairs that are kept apart have a node of class k.
fn has_fewer_apart(state: &State, k: usize, count: usize) -> bool {
    let mut left = count;
    for (i, j) in state.apart.as_slice() {
        if left == 0 {
            return false;
        }
        if !has_side(state.names.as_slice(), *i, *j, k) {
            continue;
        }
        left = left.saturating_sub(1);
    }
    left > 0
}

// How many classes may be constants of the operator.
fn constants_count(reading: &Reading, n: usize, sums: &Sums) -> usize
    requires reading { IsWhole n reading.now }
    requires sums { IsWholeSums n sums.now }
{
    let mut count: usize = 0;
    for l in sums.columns.as_slice() {
        if !may_be_constant(reading, n, sums, *l) {
            continue;
        }
        count = count.saturating_add(1);
    }
    count
}

// How many classes beside class k, with no other head than it has, may be constants of the operator.
fn count_beside(reading: &Reading, n: usize, sums: &Sums, k: usize) -> usize
    requires reading { IsWhole n reading.now }
    requires sums { IsWholeSums n sums.now }
    requires within { k < n }
{
    let mut count: usize = 0;
    for l in sums.columns.as_slice() {
        if *l == k {
            continue;
        }
        if have_two_heads(reading, k, *l) {
            continue;
        }
        if !may_be_constant(reading, n, sums, *l) {
            continue;
        }
        count = count.saturating_add(1);
    }
    count
}

// Whether class k has fewer pairs that are kept apart than there are classes to ask of beside it, of so many that may be
// constants of the operator in all.
fn is_likely_open(state: &State, reading: &Reading, sums: &Sums, count: usize, k: usize) -> bool
    requires reading { IsWhole (length state.now.names) reading.now }
    requires sums { IsWholeSums (length state.now.names) sums.now }
    requires within { k < length state.now.names }
{
    if !has_fewer_apart(state, k, count.saturating_sub(1)) {
        return false;
    }
    let n = state.names.len();
    has_fewer_apart(state, k, count_beside(reading, n, sums, k))
}

// A question whether two classes are one that may be constants of the operator, of those that are likely to have one.
fn likely_of(state: &State, reading: &Reading, sums: &Sums) -> Option<(usize, usize)>
    requires naming { IsNaming state.now }
    requires reading { IsWhole (length state.now.names) reading.now }
    requires sums { IsWholeSums (length state.now.names) sums.now }
    ensures { IfSome result (IsOpenPair state.now) }
{
    let n = state.names.len();
    let count = constants_count(reading, n, sums);
    for k in sums.columns.as_slice() {
        if !may_be_constant(reading, n, sums, *k) {
            continue;
        }
        if !is_likely_open(state, reading, sums, count, *k) {
            continue;
        }
        match open_with(state, reading, sums, *k) {
            None => {}
            Some(pair) => return Some(pair),
        }
    }
    None
}

// The same of one operator after the other.
fn likely_question(state: &State, reading: &Reading) -> Option<(usize, usize)>
    requires naming { IsNaming state.now }
    requires reading { IsWhole (length state.now.names) reading.now }
    ensures { IfSome result (IsOpenPair state.now) }
{
    for s in reading.sums.as_slice() {
        match likely_of(state, reading, s) {
            None => {}
            Some(pair) => return Some(pair),
        }
    }
    None
}

// A question whether two classes are one that may be constants of one operator, of all pairs of all operators.
fn open_of_any(state: &State, reading: &Reading) -> Option<(usize, usize)>
    requires naming { IsNaming state.now }
    requires reading { IsWhole (length state.now.names) reading.now }
    ensures { IsOpenPairOr state.now
        (All (λ s. ArePastPairs state.now reading.now s s.columns) reading.now.sums) result }
{
    for s in reading.sums.as_slice() {
        match open_of(state, reading, s) {
            None => {}
            Some(pair) => return Some(pair),
        }
    }
    None
}

// A question whether two classes are one that may be constants of one operator: of those that are likely to have one, or
// else of all.
pub(crate) fn constants_question(state: &State, reading: &Reading) -> Option<(usize, usize)>
    requires naming { IsNaming state.now }
    requires reading { IsWhole (length state.now.names) reading.now }
    ensures { IsOpenPairOr state.now
        (All (λ s. ArePastPairs state.now reading.now s s.columns) reading.now.sums) result }
{
    match likely_question(state, reading) {
        Some(pair) => Some(pair),
        None => open_of_any(state, reading),
    }
}
