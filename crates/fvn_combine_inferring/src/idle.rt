//! Sums that add the identity of their operator: each has the value of the other class that it adds.
ghost use Rattle.std.specs.Prelude.{◌<◌, length, IfOk, OnOk};
ghost use Rattle.fvn_combine_bounds.specs.CombineChoicesTables.{HasSums};
ghost use Rattle.fvn_combine_nodes.specs.States.{IsClosed};
ghost use Rattle.fvn_combine_inferring.specs.Inferred.{AreEqualPairs, IsInferred};
ghost use Rattle.fvn_combine_inferring.specs.inner.Holding.{ArePairs};
ghost use Rattle.fvn_combine_inferring.specs.inner.Splits.{IsUnitNode};

use crate::expressions::{split_at, unit_of};
use crate::holding::Pairs;
use crate::inferring::Inferred;
use crate::meeting::met;
use fvn_combine_nodes::{State, Table};
use fvn_signature::Signature;
use fvn_terms::{NoMemory, OpId};

// What is said of node i, where it is a sum by f and adds the class of node n, f's identity.
fn idle_at(
    sig: &Signature,
    table: &Table,
    state: &State,
    sorted: bool,
    f: OpId,
    n: usize,
    i: usize,
) -> Inferred
    requires closed { IsClosed sig.now table.now state.now }
    requires sums { HasSums sig.now table.now }
    requires unit { IsUnitNode table.now f n }
    requires inside { n < length table.now.nodes }
    requires within { i < length table.now.nodes }
    ensures { IsInferred sig.now table.now state.now sorted result }
{
    table.recall_well_made();
    match split_at(table, state, f, i) {
        None => Inferred::Nothing,
        Some(p) => {
            if state.is_same(p.0, n) {
                return met(sig, table, state, sorted, i, p.1);
            }
            if state.is_same(p.1, n) {
                return met(sig, table, state, sorted, i, p.0);
            }
            Inferred::Nothing
        }
    }
}

// Notes the two nodes that must meet, where that is said.
fn note_met(
    equal: &mut Vec<(usize, usize)>,
    sig: &Signature,
    table: &Table,
    state: &State,
    sorted: bool,
    told: Inferred,
) -> Result<(), NoMemory>
    requires equal { AreEqualPairs sig.now table.now state.now sorted equal.old.items }
    requires told { IsInferred sig.now table.now state.now sorted told }
    ensures { OnOk result (AreEqualPairs sig.now table.now state.now sorted equal.new.items) }
{
    let _sig = sig;
    let _table = table;
    let _state = state;
    let _sorted = sorted;
    match told {
        Inferred::Nothing => Ok(()),
        Inferred::Impossible => Ok(()),
        Inferred::Together(i, j) => {
            equal.push((i, j))?;
            Ok(())
        }
        Inferred::Question(_, _) => Ok(()),
    }
}

// What is said of the sums by f that add the class of node n, f's identity, of which all that must meet are noted.
fn each_idle(
    equal: &mut Vec<(usize, usize)>,
    sig: &Signature,
    table: &Table,
    state: &State,
    sorted: bool,
    f: OpId,
    n: usize,
) -> Result<Inferred, NoMemory>
    requires closed { IsClosed sig.now table.now state.now }
    requires sums { HasSums sig.now table.now }
    requires equal { AreEqualPairs sig.now table.now state.now sorted equal.old.items }
    requires unit { IsUnitNode table.now f n }
    requires inside { n < length table.now.nodes }
    ensures is { IfOk result (IsInferred sig.now table.now state.now sorted) }
    ensures equal { OnOk result (AreEqualPairs sig.now table.now state.now sorted equal.new.items) }
{
    let mut said = Inferred::Nothing;
    for i in 0..table.nodes().len() {
        let told = idle_at(sig, table, state, sorted, f, n, i);
        if told.is_impossible() {
            return Ok(told);
        }
        note_met(equal, sig, table, state, sorted, told)?;
        said = said.or_told(told);
    }
    Ok(said)
}

// What is said of the sums by f that add its identity, of which all that must meet are noted.
pub(crate) fn idle_sums(
    pairs: &mut Pairs,
    sig: &Signature,
    table: &Table,
    state: &State,
    sorted: bool,
    f: OpId,
) -> Result<Inferred, NoMemory>
    requires closed { IsClosed sig.now table.now state.now }
    requires sums { HasSums sig.now table.now }
    requires pairs { ArePairs sig.now table.now state.now sorted pairs.old }
    ensures is { IfOk result (IsInferred sig.now table.now state.now sorted) }
    ensures pairs { OnOk result (ArePairs sig.now table.now state.now sorted pairs.new) }
{
    match unit_of(table, f) {
        None => Ok(Inferred::Nothing),
        Some(n) => {
            let told = each_idle(&mut pairs.equal, sig, table, state, sorted, f, n)?;
            Ok(told)
        }
    }
}
