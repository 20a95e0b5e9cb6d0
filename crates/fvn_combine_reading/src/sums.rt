//! The sums by an operator among the nodes of a table.
ghost use Rattle.std.specs.Prelude.{◌≡◌, ◌<◌, length, slice_get, IfSome};
ghost use Rattle.fvn_combine_systems.specs.NodeSystems.{is_headed, pair, addends};

use fvn_combine_nodes::{Node, Table};
use fvn_terms::OpId;

// Whether f heads the node.
pub(crate) fn is_headed(table: &Table, f: OpId, i: usize) -> bool
    requires { i < length table.now.nodes }
    ensures { result ≡ is_headed f (slice_get table.now.nodes i) }
{
    match table.node(i) {
        Node::Var(_) => false,
        Node::App(g, _) => f == *g,
    }
}

// The two numbers, where there are two.
fn pair(ks: &[usize]) -> Option<(usize, usize)>
    ensures { result ≡ pair ks.now }
{
    if ks.len() == 2 {
        Some((ks[0], ks[1]))
    } else {
        None
    }
}

// The two arguments of a node that f heads.
pub(crate) fn addends(table: &Table, f: OpId, i: usize) -> Option<(usize, usize)>
    requires { i < length table.now.nodes }
    ensures is { result ≡ addends f (slice_get table.now.nodes i) }
    ensures within { IfSome result (λ p.
        (p.0 < length table.now.nodes) × (p.1 < length table.now.nodes)) }
{
    table.recall_well_made();
    match table.node(i) {
        Node::Var(_) => None,
        Node::App(g, ks) => { if f == *g { pair(ks.as_slice()) } else { None } }
    }
}
