//! How a state is read.
ghost use Rattle.std.specs.Prelude.{◌≡◌, ◌≤◌, map, length, All, IfOk};
ghost use Rattle.fvn_base.specs.declared.limits.TheConstants.{COLUMNS};
ghost use Rattle.fvn_terms.specs.Signature.{axioms};
ghost use Rattle.fvn_terms.specs.Equality.{IsAssociative};
ghost use Rattle.fvn_combine_nodes.specs.States.{IsClosed, class_of};
ghost use Rattle.fvn_combine_systems.specs.NodeSystems.{HoldsArguments};
ghost use Rattle.fvn_combine_leaves.specs.Readings.{AreSums, IsReading};

use crate::heads::heads_of;
use crate::operators::sum_operators;
use crate::system::{SumSystem, sum_system};
use crate::used::used_of;
use fvn_base::Seq;
use fvn_combine_leaves::{Reading, Sums};
use fvn_combine_nodes::{State, Table};
use fvn_signature::Signature;
use fvn_terms::{NoMemory, OpId};
use std::alloc::Global;

// The sum operator with its system.
fn sums_of(
    alloc: Global,
    sig: &Signature,
    table: &Table,
    state: &State,
    f: OpId,
) -> Result<Sums, NoMemory>
    requires associative { IsAssociative (axioms sig.now f) }
    requires whole { length state.now.names ≡ length table.now.nodes }
    requires arguments { HoldsArguments table.now }
    requires few { length table.now.subterms ≤ COLUMNS }
    ensures sums { IfOk result (AreSums sig.now table.now (class_of state.now)) }
    ensures operator { IfOk result (λ s. s.operator ≡ f) }
{
    let _sig = sig;
    let sums = sum_system(alloc, table, state, f)?;
    let SumSystem { columns, system } = sums;
    let used = used_of(alloc, &system)?;
    Ok(Sums {
        operator: f,
        columns,
        system,
        used: Seq::from_vec(used),
    })
}

// The sum operators with their systems.
fn all_sums(
    alloc: Global,
    sig: &Signature,
    table: &Table,
    state: &State,
    operators: &[OpId],
) -> Result<Vec<Sums>, NoMemory>
    requires associative { All (λ f. IsAssociative (axioms sig.now f)) operators.now }
    requires whole { length state.now.names ≡ length table.now.nodes }
    requires arguments { HoldsArguments table.now }
    requires few { length table.now.subterms ≤ COLUMNS }
    ensures sums { IfOk result (λ v. All (AreSums sig.now table.now (class_of state.now)) v.items) }
    ensures operators { IfOk result (λ v. map (λ s. s.operator) v.items ≡ operators.now) }
{
    let mut sums = Vec::new(alloc);
    for f in operators {
        sums.push(sums_of(alloc, sig, table, state, *f)?)?;
    }
    Ok(sums)
}

/// Reads a state.
pub fn read(
    alloc: Global,
    sig: &Signature,
    table: &Table,
    state: &State,
) -> Result<Reading, NoMemory>
    requires closed { IsClosed sig.now table.now state.now }
    requires arguments { HoldsArguments table.now }
    requires few { length table.now.subterms ≤ COLUMNS }
    ensures { IfOk result (IsReading sig.now table.now (class_of state.now)) }
{
    let operators = sum_operators(alloc, sig, table)?;
    let sums = all_sums(alloc, sig, table, state, operators.as_slice())?;
    let heads = heads_of(alloc, sig, table, state)?;
    Ok(Reading {
        sums: Seq::from_vec(sums),
        heads: Seq::from_vec(heads),
    })
}
