//! Which two nodes a state is asked about next.
ghost use Rattle.std.specs.Prelude.{◌≡◌, ◌<◌, ℕ, List, ◌∷◌, length, MatchOption, All, Contains};
ghost use Rattle.fvn_terms.specs.declared.plain.OpId.{OpId};
ghost use Rattle.fvn_combine_nodes.specs.Table.{IsOver};
ghost use Rattle.fvn_combine_nodes.specs.States.{IsNaming, IsOpen, class_of};
ghost use Rattle.fvn_purify.specs.Parts.{outline};
ghost use Rattle.fvn_purify.specs.inner.Options.{AreFirst};
ghost use Rattle.fvn_purify.specs.inner.Choices.{ArePlacesWithin, IsNextQuestion};

use crate::classes::Classes;
use fvn_combine_nodes::{Node, State, Table};
use fvn_terms::OpId;

// The first of the nodes that is open with node x.
fn open_among(state: &State, x: usize, nodes: &[usize]) -> Option<usize>
    requires naming { IsNaming state.now }
    requires within { x < length state.now.names }
    requires all { All (λ y. y < length state.now.names) nodes.now }
    ensures { MatchOption result ((y : ℕ) → Contains nodes.now y → IsOpen state.now x y → ⊥)
        (λ y. Contains nodes.now y × IsOpen state.now x y) }
{
    for y in nodes {
        if state.is_open(x, *y) {
            return Some(*y);
        }
    }
    None
}

// Two parts that are open.
fn open_parts(state: &State, parts: &[usize]) -> Option<(usize, usize)>
    requires naming { IsNaming state.now }
    requires all { All (λ y. y < length state.now.names) parts.now }
    ensures { MatchOption result
        ((x y : ℕ) → Contains parts.now x → Contains parts.now y → IsOpen state.now x y → ⊥)
        (λ p. Contains parts.now p.0 × Contains parts.now p.1 × IsOpen state.now p.0 p.1) }
{
    for x in parts {
        match open_among(state, *x, parts) {
            None => {}
            Some(y) => return Some((*x, y)),
        }
    }
    None
}

// An identity that is open with node x.
fn open_unit(state: &State, x: usize, units: &[(OpId, usize)]) -> Option<usize>
    requires naming { IsNaming state.now }
    requires within { x < length state.now.names }
    requires all { All (λ p. p.1 < length state.now.names) units.now }
    ensures { MatchOption result
        ((p : OpId × ℕ) → Contains units.now p → IsOpen state.now x p.1 → ⊥)
        (λ y. ((p : OpId × ℕ) × Contains units.now p × (p.1 ≡ y)) × IsOpen state.now x y) }
{
    for (_, y) in units {
        if state.is_open(x, *y) {
            return Some(*y);
        }
    }
    None
}

// A part with a head and an identity that are open.
fn open_units(state: &State, headed: &[usize], units: &[(OpId, usize)]) -> Option<(usize, usize)>
    requires naming { IsNaming state.now }
    requires within { All (λ x. x < length state.now.names) headed.now }
    requires all { All (λ p. p.1 < length state.now.names) units.now }
    ensures { MatchOption result
        ((x : ℕ) → Contains headed.now x → (p : OpId × ℕ) → Contains units.now p →
        IsOpen state.now x p.1 → ⊥)
        (λ q. Contains headed.now q.0
        × ((p : OpId × ℕ) × Contains units.now p × (p.1 ≡ q.1))
        × IsOpen state.now q.0 q.1) }
{
    for x in headed {
        match open_unit(state, *x, units) {
            None => {}
            Some(y) => return Some((*x, y)),
        }
    }
    None
}

/// The first argument of node `i`.
pub(crate) fn first_argument(table: &Table, i: usize) -> Option<usize>
    requires { i < length table.now.nodes }
    ensures { MatchOption result
        ((f : OpId) (k : ℕ) (ks : List ℕ) → IsOver table.now.nodes i f (k ∷ ks) → ⊥)
        (λ k. (f : OpId) × (ks : List ℕ) × IsOver table.now.nodes i f (k ∷ ks)) }
{
    match table.node(i) {
        Node::Var(_) => None,
        Node::App(_, arguments) => {
            if arguments.is_empty() {
                return None;
            }
            Some(arguments.as_slice()[0])
        }
    }
}

/// The first arguments of two nodes.
pub(crate) fn first_arguments(table: &Table, i: usize, j: usize) -> Option<(usize, usize)>
    requires left { i < length table.now.nodes }
    requires right { j < length table.now.nodes }
    ensures { MatchOption result
        ((x y : ℕ) → AreFirst table.now (i, j) x y → ⊥)
        (λ q. AreFirst table.now (i, j) q.0 q.1) }
{
    match first_argument(table, i) {
        None => None,
        Some(x) => match first_argument(table, j) {
            None => None,
            Some(y) => Some((x, y)),
        },
    }
}

// The first arguments of two nodes, where the nodes are in one class and the arguments are open.
fn open_first(table: &Table, state: &State, i: usize, j: usize) -> Option<(usize, usize)>
    requires naming { IsNaming state.now }
    requires whole { length state.now.names ≡ length table.now.nodes }
    requires left { i < length table.now.nodes }
    requires right { j < length table.now.nodes }
    ensures { MatchOption result
        ((x y : ℕ) → class_of state.now i ≡ class_of state.now j →
        AreFirst table.now (i, j) x y → IsOpen state.now x y → ⊥)
        (λ q. (class_of state.now i ≡ class_of state.now j)
        × AreFirst table.now (i, j) q.0 q.1 × IsOpen state.now q.0 q.1) }
{
    table.recall_well_made();
    if !state.is_same(i, j) {
        return None;
    }
    match first_arguments(table, i, j) {
        None => None,
        Some((x, y)) => {
            if state.is_open(x, y) {
                Some((x, y))
            } else {
                None
            }
        }
    }
}

// The first arguments of a pair of one class that are open.
fn open_ways(table: &Table, state: &State, pairs: &[(usize, usize)]) -> Option<(usize, usize)>
    requires naming { IsNaming state.now }
    requires whole { length state.now.names ≡ length table.now.nodes }
    requires all { All (λ p.
        (p.0 < length table.now.nodes) × (p.1 < length table.now.nodes)) pairs.now }
    ensures { MatchOption result
        ((p : ℕ × ℕ) (x y : ℕ) → Contains pairs.now p →
        class_of state.now p.0 ≡ class_of state.now p.1 →
        AreFirst table.now p x y → IsOpen state.now x y → ⊥)
        (λ q. ((p : ℕ × ℕ) × Contains pairs.now p
        × (class_of state.now p.0 ≡ class_of state.now p.1)
        × AreFirst table.now p q.0 q.1)
        × IsOpen state.now q.0 q.1) }
{
    for (i, j) in pairs {
        match open_first(table, state, *i, *j) {
            None => {}
            Some(found) => return Some(found),
        }
    }
    None
}

/// Two nodes that are open, and which a split tells apart: parts, a part and an identity, or the
/// first arguments of a pair of one class.
pub(crate) fn question(classes: &Classes, state: &State) -> Option<(usize, usize)>
    requires naming { IsNaming state.now }
    requires whole { length state.now.names ≡ length classes.now.table.nodes }
    requires within { ArePlacesWithin (outline classes.now) }
    ensures { IsNextQuestion (outline classes.now) state.now result }
{
    classes.table.recall_well_made();
    match open_parts(state, classes.places.parts.as_slice()) {
        Some(found) => Some(found),
        None => match open_units(
            state,
            classes.places.headed.as_slice(),
            classes.table.units(),
        ) {
            Some(found) => Some(found),
            None => open_ways(&classes.table, state, classes.places.pairs.as_slice()),
        },
    }
}
