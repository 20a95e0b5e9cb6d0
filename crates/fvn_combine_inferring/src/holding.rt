//! Classes that hold single summands, as reduced rows say.
ghost use Rattle.std.specs.Prelude.{◌<◌, length, All, IfOk, IfSome, IsTrue, OnOk, ℕ};
ghost use Rattle.fvn_combine_bounds.specs.CombineChoicesTables.{HasSums};
ghost use Rattle.fvn_combine_nodes.specs.States.{IsClosed};
ghost use Rattle.fvn_combine_inferring.specs.Inferred.{TellHeads};
ghost use Rattle.fvn_combine_inferring.specs.Rows.{AreSides, IsSummand, IsAmong};
ghost use Rattle.fvn_combine_inferring.specs.inner.Sizes.{AreSaid, AreInside, IsPair};
ghost use Rattle.fvn_combine_inferring.specs.inner.Holding.{ArePairs};
ghost use Rattle.fvn_combine_inferring.specs.inner.Splits.{IsAddition};

use crate::bounds::is_summand;
use crate::differing::{candidate, differ, is_only};
use crate::expressions::Addition;
use crate::heads::Known;
use crate::rows::Row;
use crate::sizes::{Inside, is_circular, note_pair};
use fvn_combine_nodes::{State, Table};
use fvn_signature::Signature;
use fvn_terms::NoMemory;

/// Pairs of classes, by the sizes of their values, and pairs of nodes that have one value.
#[derive(Drop)]
pub struct Pairs {
    /// What sums and arguments say.
    pub insides: Vec<Inside>,
    /// What the rows say that are read: a single summand, and the class that has it.
    pub held: Vec<Inside>,
    /// Nodes that have one value: of a row of which one side is empty, and of sums that add the identity.
    pub equal: Vec<(usize, usize)>,
}

// A single summand, and the one class of those that it is among which may have it: it has no more symbols, and fewer
// where both differ for sure.
fn holder(
    sig: &Signature,
    table: &Table,
    state: &State,
    known: &Known,
    addition: &Addition,
    insides: &[Inside],
    k: usize,
    list: &[usize],
) -> Option<Inside>
    requires closed { IsClosed sig.now table.now state.now }
    requires sums { HasSums sig.now table.now }
    requires heads { TellHeads sig.now table.now state.now known.now.sorted known.now.heads.items }
    requires addition { IsAddition sig.now table.now state.now addition.now }
    requires insides { AreInside sig.now table.now state.now known.now.sorted insides.now }
    requires within { k < length table.now.nodes }
    requires list { All (λ l. l < length table.now.nodes) list.now }
    requires one { IsSummand sig.now table.now state.now known.now.sorted addition.now.operator k }
    requires among { IsAmong sig.now table.now state.now addition.now.operator k list.now }
    ensures { IfSome result (IsPair sig.now table.now state.now known.now.sorted) }
{
    match candidate(sig, table, state, known, addition, insides, k, list) {
        None => None,
        Some(l) => {
            if !is_only(sig, table, state, known, addition, insides, k, l, list) {
                return None;
            }
            let proper = differ(sig, table, state, known, k, l);
            Some(Inside {
                small: k,
                large: l,
                proper,
            })
        }
    }
}

// Notes the class that has a single summand, where one alone may have it.
fn note_holder(
    pairs: &mut Pairs,
    sig: &Signature,
    table: &Table,
    state: &State,
    known: &Known,
    addition: &Addition,
    k: usize,
    list: &[usize],
) -> Result<(), NoMemory>
    requires closed { IsClosed sig.now table.now state.now }
    requires sums { HasSums sig.now table.now }
    requires heads { TellHeads sig.now table.now state.now known.now.sorted known.now.heads.items }
    requires addition { IsAddition sig.now table.now state.now addition.now }
    requires pairs { ArePairs sig.now table.now state.now known.now.sorted pairs.old }
    requires within { k < length table.now.nodes }
    requires list { All (λ l. l < length table.now.nodes) list.now }
    requires one { IsSummand sig.now table.now state.now known.now.sorted addition.now.operator k }
    requires among { IsAmong sig.now table.now state.now addition.now.operator k list.now }
    ensures { OnOk result (ArePairs sig.now table.now state.now known.now.sorted pairs.new) }
{
    let insides = pairs.insides.as_slice();
    match holder(sig, table, state, known, addition, insides, k, list) {
        None => Ok(()),
        Some(pair) => {
            note_pair(&mut pairs.held, sig, table, state, known.sorted, pair)?;
            Ok(())
        }
    }
}

// Notes what single summands of the first list say: each is among those of the second one.
fn note_holders(
    pairs: &mut Pairs,
    sig: &Signature,
    table: &Table,
    state: &State,
    known: &Known,
    addition: &Addition,
    first: &[usize],
    second: &[usize],
) -> Result<(), NoMemory>
    requires closed { IsClosed sig.now table.now state.now }
    requires sums { HasSums sig.now table.now }
    requires heads { TellHeads sig.now table.now state.now known.now.sorted known.now.heads.items }
    requires addition { IsAddition sig.now table.now state.now addition.now }
    requires pairs { ArePairs sig.now table.now state.now known.now.sorted pairs.old }
    requires left { All (λ k. k < length table.now.nodes) first.now }
    requires right { All (λ k. k < length table.now.nodes) second.now }
    requires sides { AreSides sig.now table.now state.now addition.now.operator first.now
        second.now }
    ensures { OnOk result (ArePairs sig.now table.now state.now known.now.sorted pairs.new) }
{
    for k in first {
        if !is_summand(sig, table, state, known, addition, *k) {
            continue;
        }
        note_holder(pairs, sig, table, state, known, addition, *k, second)?;
    }
    Ok(())
}

// Notes what single summands of both sides of a row say.
pub(crate) fn note_row(
    pairs: &mut Pairs,
    sig: &Signature,
    table: &Table,
    state: &State,
    known: &Known,
    addition: &Addition,
    row: &Row,
) -> Result<(), NoMemory>
    requires closed { IsClosed sig.now table.now state.now }
    requires sums { HasSums sig.now table.now }
    requires heads { TellHeads sig.now table.now state.now known.now.sorted known.now.heads.items }
    requires addition { IsAddition sig.now table.now state.now addition.now }
    requires pairs { ArePairs sig.now table.now state.now known.now.sorted pairs.old }
    requires left { All (λ k. k < length table.now.nodes) row.now.left.items }
    requires right { All (λ k. k < length table.now.nodes) row.now.right.items }
    requires sides { AreSides sig.now table.now state.now addition.now.operator row.now.left.items
        row.now.right.items }
    ensures { OnOk result (ArePairs sig.now table.now state.now known.now.sorted pairs.new) }
{
    let left = row.left.as_slice();
    let right = row.right.as_slice();
    note_holders(pairs, sig, table, state, known, addition, left, right)?;
    note_holders(pairs, sig, table, state, known, addition, right, left)?;
    Ok(())
}

// Whether a class has fewer symbols than itself, as rows say together with sums and arguments.
pub(crate) fn is_held_within(held: &mut Vec<Inside>, insides: &[Inside]) -> Result<bool, NoMemory>
    ensures { IfOk result (λ b. IsTrue b → (w : ℕ → ℕ) → AreSaid w held.old.items
        → AreSaid w insides.now → ⊥) }
{
    if held.len() == 0 {
        return Ok(false);
    }
    held.extend_from_slice(insides)?;
    let circular = is_circular(held.as_slice());
    Ok(circular)
}
