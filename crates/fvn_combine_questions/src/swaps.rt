//! Questions that decide which way commutative nodes of one class meet.
ghost use Rattle.std.specs.Prelude.{◌≡◌, ◌<◌, ◌&&◌, [], ◌∷◌, length, All, IsFalse};
ghost use Rattle.fvn_combine_nodes.specs.States.{IsClosed, IsNaming, is_same};
ghost use Rattle.fvn_combine_questions.specs.Swaps.{IsUndecided};
ghost use Rattle.fvn_combine_questions.specs.inner.Swaps.{IsOpenFirst, IsUndecidedAt, IsUndecidedIn, IsNoSwap};

use fvn_combine_nodes::{Node, State, Table, is_only_commutative};
use fvn_signature::Signature;

// Whether a is in the class of w, and b in that of v.
fn are_crosswise(state: &State, a: usize, b: usize, v: usize, w: usize) -> bool
    requires all { All (λ k. k < length state.now.names) (a ∷ b ∷ v ∷ w ∷ []) }
    ensures { result ≡ (is_same state.now a w && is_same state.now b v) }
{
    if !state.is_same(a, w) {
        return false;
    }
    state.is_same(b, v)
}

// The first of two nodes and of two others that meet neither way, where these are open.
fn open_first(state: &State, ks: &[usize], ls: &[usize]) -> Option<(usize, usize)>
    requires naming { IsNaming state.now }
    requires left { All (λ k. k < length state.now.names) ks.now }
    requires right { All (λ k. k < length state.now.names) ls.now }
    ensures { IsOpenFirst state.now ks.now ls.now result }
{
    if ks.len() != 2 {
        return None;
    }
    if ls.len() != 2 {
        return None;
    }
    if are_crosswise(state, ks[0], ks[1], ls[0], ls[1]) {
        return None;
    }
    if state.is_open(ks[0], ls[0]) {
        return Some((ks[0], ls[0]));
    }
    None
}

// The first arguments of nodes i and j, where these are of one class and meet neither way.
fn undecided_at(
    sig: &Signature,
    table: &Table,
    state: &State,
    i: usize,
    j: usize,
) -> Option<(usize, usize)>
    requires closed { IsClosed sig.now table.now state.now }
    requires left { i < length table.now.nodes }
    requires right { j < length table.now.nodes }
    ensures { IsUndecidedAt sig.now table.now state.now i j result }
{
    table.recall_well_made();
    match table.node(i) {
        Node::Var(_) => None,
        Node::App(f, ks) => match table.node(j) {
            Node::Var(_) => None,
            Node::App(g, ls) => {
                if *f != *g {
                    return None;
                }
                if !is_only_commutative(sig.axioms(*f)) {
                    return None;
                }
                if !state.is_same(i, j) {
                    return None;
                }
                open_first(state, ks.as_slice(), ls.as_slice())
            }
        },
    }
}

// Whether an operator that is commutative alone heads node i.
fn is_commutative(sig: &Signature, table: &Table, i: usize) -> bool
    requires { i < length table.now.nodes }
    ensures { IsFalse result → IsNoSwap sig.now table.now i }
{
    match table.node(i) {
        Node::Var(_) => false,
        Node::App(f, _) => is_only_commutative(sig.axioms(*f)),
    }
}

// The first arguments of node i and another one.
fn undecided_in(sig: &Signature, table: &Table, state: &State, i: usize) -> Option<(usize, usize)>
    requires closed { IsClosed sig.now table.now state.now }
    requires within { i < length table.now.nodes }
    ensures { IsUndecidedIn sig.now table.now state.now i result }
{
    if !is_commutative(sig, table, i) {
        return None;
    }
    for j in 0..table.nodes().len() {
        match undecided_at(sig, table, state, i, j) {
            None => {}
            Some(pair) => return Some(pair),
        }
    }
    None
}

/// The first arguments of two commutative nodes of one class that meet neither way: whether these two
/// are in one class decides it. Where there are none, the classes are a partition.
pub fn undecided(sig: &Signature, table: &Table, state: &State) -> Option<(usize, usize)>
    requires closed { IsClosed sig.now table.now state.now }
    ensures { IsUndecided sig.now table.now state.now result }
{
    for i in 0..table.nodes().len() {
        match undecided_in(sig, table, state, i) {
            None => {}
            Some(pair) => return Some(pair),
        }
    }
    None
}
