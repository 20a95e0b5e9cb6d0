//! Sums that add just the classes of one side of a reduced row, where the other side is one class alone.
ghost use Rattle.std.specs.Prelude.{◌≡◌, ℕ, ◌<◌, ◌∷◌, [], length, sum_by, All, IfOk, IfSome, IsTrue};
ghost use Rattle.fvn_combine_bounds.specs.CombineChoicesTables.{HasSums};
ghost use Rattle.fvn_combine_nodes.specs.States.{IsClosed};
ghost use Rattle.fvn_combine_inferring.specs.Inferred.{IsInferred};
ghost use Rattle.fvn_combine_inferring.specs.Rows.{AreSides};
ghost use Rattle.fvn_combine_inferring.specs.inner.Splits.{IsAddition};

use crate::cancelling::cancel;
use crate::expressions::Addition;
use crate::inferring::Inferred;
use crate::meeting::met;
use crate::rows::{Row, added};
use crate::rules::the_one;
use fvn_combine_nodes::{State, Table};
use fvn_signature::Signature;
use fvn_terms::NoMemory;
use std::alloc::Global;

// Whether neither list has a class.
fn have_none(xs: &[usize], ys: &[usize]) -> bool
    ensures { IsTrue result → (length xs.now ≡ 0) × (length ys.now ≡ 0) }
{
    if xs.len() == 0 {
        return ys.len() == 0;
    }
    false
}

// Whether both lists have the same classes, each as often.
fn same_bag(alloc: Global, xs: &[usize], ys: &[usize]) -> Result<bool, NoMemory>
    ensures { IfOk result (λ b. IsTrue b → (w : ℕ → ℕ) → sum_by w xs.now ≡ sum_by w ys.now) }
{
    let mut left = Vec::new(alloc);
    left.extend_from_slice(xs)?;
    let rest = cancel(alloc, &mut left, ys)?;
    let kept = left.as_slice();
    let more = rest.as_slice();
    Ok(have_none(kept, more))
}

// Whether node j adds just the classes of the list.
fn is_like(
    alloc: Global,
    sig: &Signature,
    table: &Table,
    state: &State,
    addition: &Addition,
    list: &[usize],
    j: usize,
) -> Result<bool, NoMemory>
    requires closed { IsClosed sig.now table.now state.now }
    requires sums { HasSums sig.now table.now }
    requires addition { IsAddition sig.now table.now state.now addition.now }
    requires within { j < length table.now.nodes }
    ensures { IfOk result (λ b. IsTrue b
        → AreSides sig.now table.now state.now addition.now.operator (j ∷ []) list.now) }
{
    match added(alloc, sig, table, state, addition, j)? {
        None => Ok(false),
        Some(classes) => {
            let same = same_bag(alloc, classes.as_slice(), list)?;
            Ok(same)
        }
    }
}

// A node that adds just the classes of the list.
fn sum_like(
    alloc: Global,
    sig: &Signature,
    table: &Table,
    state: &State,
    addition: &Addition,
    list: &[usize],
) -> Result<Option<usize>, NoMemory>
    requires closed { IsClosed sig.now table.now state.now }
    requires sums { HasSums sig.now table.now }
    requires addition { IsAddition sig.now table.now state.now addition.now }
    ensures within { IfOk result (λ o. IfSome o (λ j. j < length table.now.nodes)) }
    ensures sides { IfOk result (λ o. IfSome o (λ j.
        AreSides sig.now table.now state.now addition.now.operator (j ∷ []) list.now)) }
{
    for j in 0..table.nodes().len() {
        if is_like(alloc, sig, table, state, addition, list, j)? {
            return Ok(Some(j));
        }
    }
    Ok(None)
}

// What is said of the one class of a list that has the summands of a node, if there is one.
fn alone_met(
    sig: &Signature,
    table: &Table,
    state: &State,
    sorted: bool,
    addition: &Addition,
    list: &[usize],
    sum: Option<usize>,
) -> Inferred
    requires closed { IsClosed sig.now table.now state.now }
    requires within { All (λ k. k < length table.now.nodes) list.now }
    requires one { length list.now ≡ 1 }
    requires other { IfSome sum (λ j. j < length table.now.nodes) }
    requires sides { IfSome sum (λ j.
        AreSides sig.now table.now state.now addition.now.operator list.now (j ∷ [])) }
    ensures { IsInferred sig.now table.now state.now sorted result }
{
    let _addition = addition;
    match sum {
        None => Inferred::Nothing,
        Some(j) => match the_one(list) {
            None => Inferred::Nothing,
            Some(k) => met(sig, table, state, sorted, k, j),
        },
    }
}

// Whether the first list is one class alone, and the second has several.
fn is_alone(one: &[usize], several: &[usize]) -> bool
    ensures { IsTrue result → (length one.now ≡ 1) }
{
    if one.len() == 1 {
        return several.len() > 1;
    }
    false
}

// What is said where one side of the row is one class alone, and a sum adds just the classes of the other: it is this sum.
pub(crate) fn stood_for(
    alloc: Global,
    sig: &Signature,
    table: &Table,
    state: &State,
    sorted: bool,
    addition: &Addition,
    row: &Row,
) -> Result<Inferred, NoMemory>
    requires closed { IsClosed sig.now table.now state.now }
    requires sums { HasSums sig.now table.now }
    requires addition { IsAddition sig.now table.now state.now addition.now }
    requires left { All (λ k. k < length table.now.nodes) row.now.left.items }
    requires right { All (λ k. k < length table.now.nodes) row.now.right.items }
    requires sides { AreSides sig.now table.now state.now addition.now.operator row.now.left.items
        row.now.right.items }
    ensures { IfOk result (IsInferred sig.now table.now state.now sorted) }
{
    let left = row.left.as_slice();
    let right = row.right.as_slice();
    if is_alone(left, right) {
        let sum = sum_like(alloc, sig, table, state, addition, right)?;
        return Ok(alone_met(sig, table, state, sorted, addition, left, sum));
    }
    if is_alone(right, left) {
        let other = sum_like(alloc, sig, table, state, addition, left)?;
        return Ok(alone_met(sig, table, state, sorted, addition, right, other));
    }
    Ok(Inferred::Nothing)
}
