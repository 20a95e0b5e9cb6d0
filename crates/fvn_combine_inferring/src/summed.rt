//! Classes that have a summand since a class that they add has one.
ghost use Rattle.std.specs.Prelude.{◌≡◌, ◌<◌, length, IsTrue};
ghost use Rattle.fvn_terms.specs.Signature.{axioms};
ghost use Rattle.fvn_terms.specs.Equality.{IsAssociative};
ghost use Rattle.fvn_combine_bounds.specs.CombineChoicesTables.{HasSums};
ghost use Rattle.fvn_combine_nodes.specs.States.{IsClosed};
ghost use Rattle.fvn_combine_inferring.specs.Inferred.{TellHeads, HaveTwoValues};
ghost use Rattle.fvn_combine_inferring.specs.Rows.{HasSummand};
ghost use Rattle.fvn_combine_inferring.specs.inner.Splits.{IsUnitNode};

use crate::bounds::{is_apart_from_unit, is_headed};
use crate::expressions::split_at;
use crate::heads::Known;
use fvn_combine_nodes::{State, Table};
use fvn_signature::Signature;
use fvn_terms::OpId;

// Whether the value of the class of node k has a summand for sure, as what heads it or what it is kept apart from says.
fn has_known_summand(
    sig: &Signature,
    table: &Table,
    state: &State,
    known: &Known,
    f: OpId,
    k: usize,
) -> bool
    requires closed { IsClosed sig.now table.now state.now }
    requires sums { HasSums sig.now table.now }
    requires heads { TellHeads sig.now table.now state.now known.now.sorted known.now.heads.items }
    requires within { k < length table.now.nodes }
    ensures { IsTrue result → HasSummand sig.now table.now state.now known.now.sorted f k }
{
    if is_headed(sig, table, state, known, f, k) {
        return true;
    }
    is_apart_from_unit(sig, table, state, known.sorted, f, k)
}

// Whether node i adds a class that has one.
fn adds_summand(
    sig: &Signature,
    table: &Table,
    state: &State,
    known: &Known,
    f: OpId,
    i: usize,
) -> bool
    requires associative { IsAssociative (axioms sig.now f) }
    requires closed { IsClosed sig.now table.now state.now }
    requires sums { HasSums sig.now table.now }
    requires heads { TellHeads sig.now table.now state.now known.now.sorted known.now.heads.items }
    requires within { i < length table.now.nodes }
    ensures { IsTrue result → HasSummand sig.now table.now state.now known.now.sorted f i }
{
    table.recall_well_made();
    match split_at(table, state, f, i) {
        None => false,
        Some(p) => {
            if has_known_summand(sig, table, state, known, f, p.0) {
                return true;
            }
            has_known_summand(sig, table, state, known, f, p.1)
        }
    }
}

// Whether a member of the class of node k adds a class that has a summand for sure.
pub(crate) fn is_summed(
    sig: &Signature,
    table: &Table,
    state: &State,
    known: &Known,
    f: OpId,
    k: usize,
) -> bool
    requires associative { IsAssociative (axioms sig.now f) }
    requires closed { IsClosed sig.now table.now state.now }
    requires sums { HasSums sig.now table.now }
    requires heads { TellHeads sig.now table.now state.now known.now.sorted known.now.heads.items }
    requires within { k < length table.now.nodes }
    ensures { IsTrue result → HasSummand sig.now table.now state.now known.now.sorted f k }
{
    let class = state.class_of(k);
    for i in class..table.nodes().len() {
        if state.class_of(i) != class {
            continue;
        }
        if adds_summand(sig, table, state, known, f, i) {
            return true;
        }
    }
    false
}

// Whether the value of the class of node k has a summand for sure, as what is known of it or of a class that it adds says.
pub(crate) fn has_some_summand(
    sig: &Signature,
    table: &Table,
    state: &State,
    known: &Known,
    f: OpId,
    k: usize,
) -> bool
    requires associative { IsAssociative (axioms sig.now f) }
    requires closed { IsClosed sig.now table.now state.now }
    requires sums { HasSums sig.now table.now }
    requires heads { TellHeads sig.now table.now state.now known.now.sorted known.now.heads.items }
    requires within { k < length table.now.nodes }
    ensures { IsTrue result → HasSummand sig.now table.now state.now known.now.sorted f k }
{
    if has_known_summand(sig, table, state, known, f, k) {
        return true;
    }
    is_summed(sig, table, state, known, f, k)
}

// Whether node j is in the class of an operator's identity, and node i has a summand under the operator for sure.
fn is_unlike(
    sig: &Signature,
    table: &Table,
    state: &State,
    known: &Known,
    unit: (OpId, usize),
    i: usize,
    j: usize,
) -> bool
    requires closed { IsClosed sig.now table.now state.now }
    requires sums { HasSums sig.now table.now }
    requires heads { TellHeads sig.now table.now state.now known.now.sorted known.now.heads.items }
    requires unit { IsUnitNode table.now unit.0 unit.1 }
    requires inside { unit.1 < length table.now.nodes }
    requires left { i < length table.now.nodes }
    requires right { j < length table.now.nodes }
    ensures { IsTrue result → HaveTwoValues sig.now table.now state.now known.now.sorted i j }
{
    if !state.is_same(j, unit.1) {
        return false;
    }
    is_summed(sig, table, state, known, unit.0, i)
}

// Whether node j is in the class of the identity of an operator under which node i has a summand for sure.
pub(crate) fn is_no_unit(
    sig: &Signature,
    table: &Table,
    state: &State,
    known: &Known,
    i: usize,
    j: usize,
) -> bool
    requires closed { IsClosed sig.now table.now state.now }
    requires sums { HasSums sig.now table.now }
    requires heads { TellHeads sig.now table.now state.now known.now.sorted known.now.heads.items }
    requires left { i < length table.now.nodes }
    requires right { j < length table.now.nodes }
    ensures { IsTrue result → HaveTwoValues sig.now table.now state.now known.now.sorted i j }
{
    table.recall_well_made();
    for u in table.units() {
        if is_unlike(sig, table, state, known, *u, i, j) {
            return true;
        }
    }
    false
}
