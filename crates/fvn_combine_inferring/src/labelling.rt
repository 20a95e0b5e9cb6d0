//! Labels: operators as whose sums classes may be taken.
ghost use Rattle.std.specs.Prelude.{◌≡◌, ◌<◌, length, All, IfSome, IsTrue};
ghost use Rattle.fvn_combine_bounds.specs.CombineChoicesTables.{HasSums};
ghost use Rattle.fvn_combine_leaves.specs.Readings.{IsReading};
ghost use Rattle.fvn_combine_leaves.specs.Users.{IsWholeSums};
ghost use Rattle.fvn_combine_nodes.specs.States.{IsClosed, class_of};
ghost use Rattle.fvn_combine_inferring.specs.Inferred.{TellHeads, IsSumOfNoOther};
ghost use Rattle.fvn_combine_inferring.specs.inner.Labels.{IsAside};

use crate::bounds::is_other_head;
use crate::expressions::head_at;
use crate::heads::Known;
use crate::possible::member_heads;
use fvn_combine_leaves::{Reading, Sums, is_shared, is_user};
use fvn_combine_nodes::{State, Table};
use fvn_signature::Signature;
use fvn_terms::OpId;

// Whether the operator is the first of two, does not use class k, or neither of both heads a sum by it, or its identity.
fn is_aside(sig: &Signature, sums: &Sums, k: usize, p: (OpId, OpId)) -> bool
    requires { length sums.now.used ≡ length sums.now.columns }
    ensures { IsTrue result → IsAside sig.now k p sums.now }
{
    if sums.operator == p.0 {
        return true;
    }
    if !is_user(sums, k) {
        return true;
    }
    if !is_other_head(sig, sums.operator, p.0) {
        return false;
    }
    is_other_head(sig, sums.operator, p.1)
}

// Whether all are so.
fn are_aside(sig: &Signature, sums: &[Sums], n: usize, k: usize, p: (OpId, OpId)) -> bool
    requires whole { All (IsWholeSums n) sums.now }
    ensures { IsTrue result → All (IsAside sig.now k p) sums.now }
{
    let _nodes = n;
    for i in 0..sums.len() {
        if !is_aside(sig, &sums[i], k, p) {
            return false;
        }
    }
    true
}

/// An operator with an identity that heads a member of the class of node k, where no other operator that uses the class
/// can make its value a sum, whatever values go with the state.
pub fn label_at(
    sig: &Signature,
    table: &Table,
    state: &State,
    reading: &Reading,
    known: &Known,
    k: usize,
) -> Option<OpId>
    requires closed { IsClosed sig.now table.now state.now }
    requires sums { HasSums sig.now table.now }
    requires reading { IsReading sig.now table.now (class_of state.now) reading.now }
    requires heads { TellHeads sig.now table.now state.now known.now.sorted known.now.heads.items }
    requires within { k < length table.now.nodes }
    ensures { IfSome result (λ f.
        IsSumOfNoOther sig.now table.now state.now known.now.sorted f k) }
{
    table.recall_well_made();
    let n = table.nodes().len();
    if !is_shared(reading, n, state.class_of(k)) {
        return None;
    }
    if head_at(state, known.heads.as_slice(), k).is_some() {
        return None;
    }
    match member_heads(sig, table, state, known, k) {
        None => None,
        Some(p) => {
            if !are_aside(sig, reading.sums.as_slice(), n, state.class_of(k), p) {
                return None;
            }
            Some(p.0)
        }
    }
}
