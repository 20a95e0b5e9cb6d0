//! What heads the classes of a state.
ghost use Rattle.std.specs.Prelude.{◌≡◌, ℕ, ◌<◌, List, length, IfOk, MatchOption};
ghost use Rattle.fvn_terms.specs.declared.plain.OpId.{OpId as Operator};
ghost use Rattle.fvn_terms.specs.Signature.{axioms};
ghost use Rattle.fvn_flat.specs.Partitions.{HasNoIdentity};
ghost use Rattle.fvn_combine_nodes.specs.Table.{IsOver};
ghost use Rattle.fvn_combine_nodes.specs.States.{IsClosed, class_of};
ghost use Rattle.fvn_combine_leaves.specs.Readings.{AreHeads};
ghost use Rattle.fvn_combine_reading.specs.inner.Reading.{noted};

use fvn_combine_nodes::{Node, State, Table, has_no_identity};
use fvn_signature::Signature;
use fvn_terms::{NoMemory, OpId};
use std::alloc::Global;

// The operator of a node, where it has no identity.
fn own_head(sig: &Signature, table: &Table, i: usize) -> Option<OpId>
    requires { i < length table.now.nodes }
    ensures { MatchOption result
        ((f : Operator) (ks : List ℕ) → IsOver table.now.nodes i f ks → HasNoIdentity (axioms sig.now f) → ⊥)
        (λ f. HasNoIdentity (axioms sig.now f) × (ks : List ℕ) × IsOver table.now.nodes i f ks) }
{
    match table.node(i) {
        Node::Var(_) => None,
        Node::App(f, _) => {
            if has_no_identity(sig.axioms(*f)) {
                Some(*f)
            } else {
                None
            }
        }
    }
}

// Notes the head of a class, where there is one.
fn note(heads: &mut Vec<Option<OpId>>, k: usize, head: Option<OpId>)
    requires { k < length heads.old.items }
    ensures { heads.new.items ≡ noted heads.old.items k head }
{
    match head {
        None => {}
        Some(f) => heads[k] = Some(f),
    }
}

// For each node the operator without an identity that heads a member of the class that it names.
pub(crate) fn heads_of(
    alloc: Global,
    sig: &Signature,
    table: &Table,
    state: &State,
) -> Result<Vec<Option<OpId>>, NoMemory>
    requires closed { IsClosed sig.now table.now state.now }
    ensures { IfOk result (λ v. AreHeads sig.now table.now (class_of state.now) v.items) }
{
    let count = table.nodes().len();
    let mut heads = vec![in alloc; None; count]?;
    for i in 0..count {
        let head = own_head(sig, table, i);
        note(&mut heads, state.class_of(i), head);
    }
    Ok(heads)
}
