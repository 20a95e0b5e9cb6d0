//! Ranks of classes: twice the size of the largest node of each, and one more where a node of it has no variables.
//!
//! No clause speaks of them, and no answer depends on them: they say which question is asked first. Two classes without
//! variables are told apart at once, so that these come first.

use fvn_combine_nodes::{Node, State};
use fvn_terms::NoMemory;
use std::alloc::Global;

// The number at place k, or zero where there is none.
fn number_at(numbers: &[usize], k: usize) -> usize {
    match numbers.get(k) {
        None => 0,
        Some(number) => *number,
    }
}

// The rank of a term over nodes of these ranks: twice how many symbols it has, and one more where none of them has a variable;
// at most the greatest number.
fn rank_over(ranks: &[usize], arguments: &[usize]) -> usize {
    let mut size: usize = 1;
    let mut closed = 1;
    for k in arguments {
        let rank = number_at(ranks, *k);
        size = size.saturating_add(rank / 2);
        closed = (rank % 2).min(closed);
    }
    size.saturating_mul(2).saturating_add(closed)
}

// The rank of the node, where the nodes below it are of these ranks.
fn rank_of_node(ranks: &[usize], node: &Node) -> usize {
    match node {
        Node::Var(_) => 2,
        Node::App(_, arguments) => rank_over(ranks, arguments.as_slice()),
    }
}

/// The rank of each node, each of which stands after its arguments.
pub(crate) fn node_ranks(alloc: Global, nodes: &[Node]) -> Result<Vec<usize>, NoMemory> {
    let mut ranks = Vec::new(alloc);
    for node in nodes {
        ranks.push(rank_of_node(ranks.as_slice(), node))?;
    }
    Ok(ranks)
}

// The rank of a class with nodes of both ranks: by the larger size, and without variables where one has none.
fn joined(one: usize, other: usize) -> usize {
    let size = (one / 2).max(other / 2);
    size.saturating_mul(2)
        .saturating_add((one % 2).max(other % 2))
}

// A node of this rank is in class k.
fn raise(ranks: &mut Vec<usize>, k: usize, rank: usize) {
    if k < ranks.len() {
        ranks[k] = joined(ranks[k], rank);
    }
}

/// For each class its rank.
pub(crate) fn class_ranks(
    alloc: Global,
    state: &State,
    nodes: &[usize],
) -> Result<Vec<usize>, NoMemory> {
    let names = state.names.as_slice();
    let mut ranks = vec![in alloc; 0usize; names.len()]?;
    for i in 0..names.len() {
        raise(&mut ranks, names[i], number_at(nodes, i));
    }
    Ok(ranks)
}
