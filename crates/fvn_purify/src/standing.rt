//! Where a node stands: under which operators, and of which theories.
ghost use Rattle.std.specs.Prelude.{◌≡◌, ◌≢◌, ◌↔◌, ◌⊎◌, ◌<◌, length, IsTrue, MatchOption, Contains};
ghost use Rattle.fvn_purify.specs.Theories.{
  theory,
  IsVariable,
  AreOpposite,
  StandsUnder,
  StandsOutside,
  StandsInTwo,
  FacesVariable,
  IsAbstracted,
  IsSharedVariable,
};
ghost use Rattle.fvn_purify.specs.inner.Standing.{StandsUnderAt, StandsOutsideAt};

use fvn_combine_nodes::{Node, Table};
use fvn_signature::Signature;
use fvn_terms::OpId;

// The theory of an operator; none is that of the free operators.
fn theory(sig: &Signature, f: OpId) -> Option<OpId>
    ensures { result ≡ theory sig.now f }
{
    if sig.axioms(f).is_free() {
        return None;
    }
    Some(f)
}

// Whether the theory of an operator is another than this one.
fn is_other(sig: &Signature, f: OpId, own: Option<OpId>) -> bool
    ensures { IsTrue result ↔ (theory sig.now f ≢ own) }
{
    match theory(sig, f) {
        None => own.is_some(),
        Some(g) => match own {
            None => true,
            Some(h) => g != h,
        },
    }
}

// Whether nodes i and j are the two sides of a pair.
fn are_opposite(table: &Table, i: usize, j: usize) -> bool
    ensures { IsTrue result ↔ AreOpposite table.now i j }
{
    if table.sides().contains(&(i, j)) {
        return true;
    }
    table.sides().contains(&(j, i))
}

// Whether node i is among the arguments of node j, or the other side of a pair.
fn stands(table: &Table, i: usize, j: usize, arguments: &[usize]) -> bool
    ensures { IsTrue result ↔ (Contains arguments.now i ⊎ AreOpposite table.now i j) }
{
    if arguments.contains(&i) {
        return true;
    }
    are_opposite(table, i, j)
}

// The operator of node j, where node i stands under it there.
fn standing_at(table: &Table, i: usize, j: usize) -> Option<OpId>
    requires { j < length table.now.nodes }
    ensures { MatchOption result
        ((f : OpId) → StandsUnderAt table.now i j f → ⊥)
        (StandsUnderAt table.now i j) }
{
    match table.node(j) {
        Node::Var(_) => None,
        Node::App(f, arguments) => {
            if stands(table, i, j, arguments.as_slice()) {
                Some(*f)
            } else {
                None
            }
        }
    }
}

// An operator that node i stands under.
fn standing(table: &Table, i: usize) -> Option<OpId>
    ensures { MatchOption result
        ((f : OpId) → StandsUnder table.now i f → ⊥)
        (StandsUnder table.now i) }
{
    for j in 0..table.nodes().len() {
        match standing_at(table, i, j) {
            None => {}
            Some(f) => return Some(f),
        }
    }
    None
}

// Whether node i stands under node j, of another theory than this one.
fn stands_outside_at(sig: &Signature, table: &Table, i: usize, own: Option<OpId>, j: usize) -> bool
    requires { j < length table.now.nodes }
    ensures { IsTrue result ↔ StandsOutsideAt sig.now table.now i own j }
{
    match standing_at(table, i, j) {
        None => false,
        Some(f) => is_other(sig, f, own),
    }
}

// Whether node i stands under an operator of another theory than this one.
fn stands_outside(sig: &Signature, table: &Table, i: usize, own: Option<OpId>) -> bool
    ensures { IsTrue result ↔ StandsOutside sig.now table.now i own }
{
    for j in 0..table.nodes().len() {
        if stands_outside_at(sig, table, i, own, j) {
            return true;
        }
    }
    false
}

// Whether node i stands under operators of two theories.
fn stands_in_two(sig: &Signature, table: &Table, i: usize) -> bool
    ensures { IsTrue result ↔ StandsInTwo sig.now table.now i }
{
    match standing(table, i) {
        None => false,
        Some(f) => stands_outside(sig, table, i, theory(sig, f)),
    }
}

// Whether node i is a variable.
fn is_variable(table: &Table, i: usize) -> bool
    requires { i < length table.now.nodes }
    ensures { IsTrue result ↔ IsVariable table.now i }
{
    match table.node(i) {
        Node::Var(_) => true,
        Node::App(_, _) => false,
    }
}

// Whether node i and a variable are the two sides of a pair.
fn faces_variable(table: &Table, i: usize) -> bool
    ensures { IsTrue result ↔ FacesVariable table.now i }
{
    for j in 0..table.nodes().len() {
        if is_variable(table, j) {
            if are_opposite(table, i, j) {
                return true;
            }
        }
    }
    false
}

/// Whether node `i` is abstracted.
pub(crate) fn is_abstracted(sig: &Signature, table: &Table, i: usize) -> bool
    requires { i < length table.now.nodes }
    ensures { IsTrue result ↔ IsAbstracted sig.now table.now i }
{
    match table.node(i) {
        Node::Var(_) => false,
        Node::App(f, _) => stands_outside(sig, table, i, theory(sig, *f)),
    }
}

/// Whether node `i` is a shared variable.
pub(crate) fn is_shared(sig: &Signature, table: &Table, i: usize) -> bool
    requires { i < length table.now.nodes }
    ensures { IsTrue result ↔ IsSharedVariable sig.now table.now i }
{
    if !is_variable(table, i) {
        return false;
    }
    if faces_variable(table, i) {
        return true;
    }
    stands_in_two(sig, table, i)
}
