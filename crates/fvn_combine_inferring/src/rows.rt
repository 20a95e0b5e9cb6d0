//! Reduced rows.
ghost use Rattle.std.specs.Prelude.{◌≡◌, ◌<◌, ◌∷◌, [], length, All, IfOk, IfSome};
ghost use Rattle.fvn_combine_bounds.specs.CombineChoicesTables.{HasSums};
ghost use Rattle.fvn_combine_nodes.specs.States.{IsClosed};
ghost use Rattle.fvn_combine_inferring.specs.Rows.{AreSides};
ghost use Rattle.fvn_combine_inferring.specs.inner.Splits.{IsAddition, AreWithin, IsSum, IsReduced};

use crate::cancelling::{cancel, without};
use crate::expressions::{Addition, expression, split_at};
use fvn_combine_nodes::{State, Table};
use fvn_signature::Signature;
use fvn_terms::NoMemory;
use std::alloc::Global;

/// Two lists of classes whose values have together the same summands.
#[derive(Drop)]
pub struct Row {
    pub left: Vec<usize>,
    pub right: Vec<usize>,
}

// The classes that two classes add, as sums of classes that have no split.
fn sum_of(
    alloc: Global,
    splits: &[Option<(usize, usize)>],
    a: usize,
    b: usize,
) -> Result<Vec<usize>, NoMemory>
    requires splits { AreWithin splits.now }
    requires first { a < length splits.now }
    requires second { b < length splits.now }
    ensures { IfOk result (λ v. IsSum splits.now a b v.items) }
{
    let mut list = expression(alloc, splits, a)?;
    let second = expression(alloc, splits, b)?;
    list.extend_from_slice(second.as_slice())?;
    Ok(list)
}

// What is left of the equation of class k with the sum of a and b.
fn reduced(
    alloc: Global,
    splits: &[Option<(usize, usize)>],
    unit: Option<usize>,
    k: usize,
    a: usize,
    b: usize,
) -> Result<Row, NoMemory>
    requires splits { AreWithin splits.now }
    requires whole { k < length splits.now }
    requires first { a < length splits.now }
    requires second { b < length splits.now }
    ensures { IfOk result (IsReduced splits.now unit k a b) }
{
    let mut added = sum_of(alloc, splits, a, b)?;
    let whole = expression(alloc, splits, k)?;
    let rest = cancel(alloc, &mut added, whole.as_slice())?;
    let left = without(alloc, added.as_slice(), unit)?;
    let right = without(alloc, rest.as_slice(), unit)?;
    Ok(Row { left, right })
}

// The classes that node i adds, where it is a sum.
pub(crate) fn added(
    alloc: Global,
    sig: &Signature,
    table: &Table,
    state: &State,
    addition: &Addition,
    i: usize,
) -> Result<Option<Vec<usize>>, NoMemory>
    requires closed { IsClosed sig.now table.now state.now }
    requires sums { HasSums sig.now table.now }
    requires addition { IsAddition sig.now table.now state.now addition.now }
    requires within { i < length table.now.nodes }
    ensures sides { IfOk result (λ o. IfSome o (λ v.
        AreSides sig.now table.now state.now addition.now.operator (i ∷ []) v.items)) }
    ensures within { IfOk result (λ o.
        IfSome o (λ v. All (λ k. k < length table.now.nodes) v.items)) }
{
    table.recall_well_made();
    let _sig = sig;
    match split_at(table, state, addition.operator, i) {
        None => Ok(None),
        Some(p) => {
            let list = sum_of(alloc, addition.splits.as_slice(), p.0, p.1)?;
            Ok(Some(list))
        }
    }
}

// Whether class k is replaced by these two.
fn is_split(addition: &Addition, k: usize, p: (usize, usize)) -> bool {
    let splits = addition.splits.as_slice();
    if k >= splits.len() {
        return false;
    }
    match splits[k] {
        None => false,
        Some(q) => {
            if q.0 != p.0 {
                return false;
            }
            q.1 == p.1
        }
    }
}

// The reduced row of node i, where it is a sum; nothing where its class is replaced by what it adds, so that nothing is left.
pub(crate) fn row_at(
    alloc: Global,
    sig: &Signature,
    table: &Table,
    state: &State,
    addition: &Addition,
    i: usize,
) -> Result<Option<Row>, NoMemory>
    requires closed { IsClosed sig.now table.now state.now }
    requires sums { HasSums sig.now table.now }
    requires addition { IsAddition sig.now table.now state.now addition.now }
    requires within { i < length table.now.nodes }
    ensures sides { IfOk result (λ o. IfSome o (λ r.
        AreSides sig.now table.now state.now addition.now.operator r.left.items r.right.items)) }
    ensures left { IfOk result (λ o.
        IfSome o (λ r. All (λ k. k < length table.now.nodes) r.left.items)) }
    ensures right { IfOk result (λ o.
        IfSome o (λ r. All (λ k. k < length table.now.nodes) r.right.items)) }
{
    table.recall_well_made();
    let _sig = sig;
    match split_at(table, state, addition.operator, i) {
        None => Ok(None),
        Some(p) => {
            if is_split(addition, state.class_of(i), p) {
                return Ok(None);
            }
            let row = reduced(
                alloc,
                addition.splits.as_slice(),
                addition.unit,
                state.class_of(i),
                p.0,
                p.1,
            )?;
            Ok(Some(row))
        }
    }
}
