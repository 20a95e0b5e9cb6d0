//! The sum operators of a table.
ghost use Rattle.std.specs.Prelude.{◌↔◌, ℕ, ◌<◌, List, length, Contains, IfOk, OnOk, MatchOption, IsTrue};
ghost use Rattle.fvn_terms.specs.declared.plain.OpId.{OpId as Operator};
ghost use Rattle.fvn_terms.specs.Signature.{axioms};
ghost use Rattle.fvn_terms.specs.Equality.{IsAssociative};
ghost use Rattle.fvn_combine_nodes.specs.Table.{IsOver};
ghost use Rattle.fvn_combine_leaves.specs.Readings.{AreSumOperators};
ghost use Rattle.fvn_combine_reading.specs.inner.Reading.{IsAdded};

use fvn_combine_nodes::{Node, Table};
use fvn_signature::Signature;
use fvn_terms::{NoMemory, OpId};
use std::alloc::Global;

// The operator of a node, where it is associative.
fn sum_operator(sig: &Signature, table: &Table, i: usize) -> Option<OpId>
    requires { i < length table.now.nodes }
    ensures { MatchOption result
        ((f : Operator) (ks : List ℕ) → IsOver table.now.nodes i f ks → IsAssociative (axioms sig.now f) → ⊥)
        (λ f. IsAssociative (axioms sig.now f) × (ks : List ℕ) × IsOver table.now.nodes i f ks) }
{
    match table.node(i) {
        Node::Var(_) => None,
        Node::App(f, _) => {
            if sig.axioms(*f).is_sum() {
                Some(*f)
            } else {
                None
            }
        }
    }
}

// Whether the operator is in the list.
fn is_listed(list: &[OpId], f: OpId) -> bool
    ensures { IsTrue result ↔ Contains list.now f }
{
    for g in list {
        if *g == f {
            return true;
        }
    }
    false
}

// Puts an operator at the end, where there is one that is not in the list.
fn add_operator(list: &mut Vec<OpId>, found: Option<OpId>) -> Result<(), NoMemory>
    ensures { OnOk result (IsAdded list.old.items list.new.items found) }
{
    match found {
        None => Ok(()),
        Some(f) => {
            if is_listed(list.as_slice(), f) {
                return Ok(());
            }
            list.push(f)?;
            Ok(())
        }
    }
}

// The associative operators that head subterms, each once.
pub(crate) fn sum_operators(
    alloc: Global,
    sig: &Signature,
    table: &Table,
) -> Result<Vec<OpId>, NoMemory>
    ensures { IfOk result (λ v. AreSumOperators sig.now table.now v.items) }
{
    table.recall_well_made();
    let mut list = Vec::new(alloc);
    for i in table.subterms() {
        let found = sum_operator(sig, table, *i);
        add_operator(&mut list, found)?;
    }
    Ok(list)
}
