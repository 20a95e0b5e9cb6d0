//! The variables of a table, and the new variables that name its classes.
ghost use Rattle.std.specs.Prelude.{◌≡◌, ◌+◌, ◌<◌, ◌^◌, length, IfOk};
ghost use Rattle.fvn_terms.specs.declared.plain.SortId.{SortId as Sort};
ghost use Rattle.fvn_terms.specs.Signature.{HasKind};
ghost use Rattle.fvn_combine_nodes.specs.Table.{term_at};
ghost use Rattle.fvn_combine_triangular.specs.Ready.{AreVariablesOf};
ghost use Rattle.fvn_combine_triangular.specs.inner.Planning.{AreNames};

use fvn_combine_nodes::{Node, Table};
use fvn_signature::Signature;
use fvn_terms::{NoMemory, SortId, Var};
use std::alloc::Global;

/// The variables of a table, each once.
pub fn variables(alloc: Global, table: &Table) -> Result<Vec<Var>, NoMemory>
    ensures { IfOk result (λ v. AreVariablesOf table.now v.items) }
{
    table.recall_well_made();
    let mut vars = Vec::new(alloc);
    for node in table.nodes() {
        match node {
            Node::Var(x) => vars.push(*x)?,
            Node::App(_, _) => {}
        }
    }
    Ok(vars)
}

/// The kind of a node.
pub fn node_kind(sig: &Signature, table: &Table, i: usize) -> SortId
    requires { i < length table.now.nodes }
    ensures { (k : Sort) → HasKind sig.now (term_at table.now.nodes i) k → result ≡ k }
{
    table.recall_well_made();
    match table.node(i) {
        Node::Var(x) => sig.kind(x.sort),
        Node::App(f, _) => sig.operator_kind(*f),
    }
}

// For each node the variable that names its class, where the node names it.
pub(crate) fn names_of(
    alloc: Global,
    sig: &Signature,
    table: &Table,
    first: u32,
) -> Result<Vec<Var>, NoMemory>
    requires { first + length table.now.nodes < 2 ^ 32 }
    ensures { IfOk result (λ v. AreNames sig.now table.now first v.items) }
{
    table.recall_well_made();
    let mut names = Vec::with_capacity(alloc, table.nodes().len())?;
    let mut number = first;
    for i in 0..table.nodes().len() {
        names.push(Var {
            name: number,
            sort: node_kind(sig, table, i),
            fresh: true,
        })?;
        number += 1;
    }
    Ok(names)
}
