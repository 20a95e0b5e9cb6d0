//! The parts of a table, those with a head, the operators with axioms and the pairs.
ghost use Rattle.std.specs.Prelude.{◌≡◌, ◌↔◌, ◌<◌, length, filter, slice_get, IfOk, OnOk, IsTrue, MatchOption, All, Contains};
ghost use Rattle.fvn_purify.specs.Theories.{IsAbstracted, IsSharedVariable};
ghost use Rattle.fvn_purify.specs.Parts.{IsEach, may_collapse, ArePair, HasAxioms};
ghost use Rattle.fvn_purify.specs.inner.Standing.{IsPairBelow, HeadsWithAxioms};

use crate::standing::{is_abstracted, is_shared};
use fvn_combine_nodes::{Node, Table, is_only_commutative};
use fvn_signature::Signature;
use fvn_terms::{Axioms, NoMemory, OpId};
use std::alloc::Global;

// Whether an operator with these axioms has none.
fn is_free(axioms: Axioms) -> bool
    ensures { IsTrue result ↔ (axioms ≡ Axioms.Free) }
{
    axioms.is_free()
}

/// The abstracted nodes.
pub(crate) fn abstracted(
    alloc: Global,
    sig: &Signature,
    table: &Table,
) -> Result<Vec<usize>, NoMemory>
    ensures { IfOk result (λ list. IsEach (IsAbstracted sig.now table.now) list.items) }
{
    let mut list = Vec::new(alloc);
    for i in 0..table.nodes().len() {
        if is_abstracted(sig, table, i) {
            list.push(i)?;
        }
    }
    Ok(list)
}

/// The shared variables.
pub(crate) fn shared(alloc: Global, sig: &Signature, table: &Table) -> Result<Vec<usize>, NoMemory>
    ensures { IfOk result (λ list. IsEach (IsSharedVariable sig.now table.now) list.items) }
{
    let mut list = Vec::new(alloc);
    for i in 0..table.nodes().len() {
        if is_shared(sig, table, i) {
            list.push(i)?;
        }
    }
    Ok(list)
}

// Whether an operator with an identity heads node i.
fn may_collapse(sig: &Signature, table: &Table, i: usize) -> bool
    requires { i < length table.now.nodes }
    ensures { result ≡ may_collapse sig.now (slice_get table.now.nodes i) }
{
    match table.node(i) {
        Node::Var(_) => false,
        Node::App(f, _) => sig.identity(*f).is_some(),
    }
}

/// The nodes of the list that an operator with an identity heads.
pub(crate) fn collapsing(
    alloc: Global,
    sig: &Signature,
    table: &Table,
    list: &[usize],
) -> Result<Vec<usize>, NoMemory>
    requires { All (λ i. i < length table.now.nodes) list.now }
    ensures { IfOk result (λ r. r.items
        ≡ filter (λ i. may_collapse sig.now (slice_get table.now.nodes i)) list.now) }
{
    let mut rest = Vec::new(alloc);
    for i in list {
        if may_collapse(sig, table, *i) {
            rest.push(*i)?;
        }
    }
    Ok(rest)
}

// Whether one commutative operator heads nodes i and j.
fn are_pair(sig: &Signature, table: &Table, i: usize, j: usize) -> bool
    requires order { i < j }
    requires within { j < length table.now.nodes }
    ensures { IsTrue result ↔ ArePair sig.now table.now (i, j) }
{
    match table.node(i) {
        Node::Var(_) => false,
        Node::App(f, _) => match table.node(j) {
            Node::Var(_) => false,
            Node::App(g, _) => {
                if *f != *g {
                    return false;
                }
                is_only_commutative(sig.axioms(*f))
            }
        },
    }
}

// Adds the pairs whose higher node is j.
fn add_pairs(
    sig: &Signature,
    table: &Table,
    j: usize,
    list: &mut Vec<(usize, usize)>,
) -> Result<(), NoMemory>
    requires within { j < length table.now.nodes }
    requires below { IsEach (IsPairBelow sig.now table.now j 0) list.old.items }
    ensures { OnOk result (IsEach (IsPairBelow sig.now table.now j j) list.new.items) }
{
    for i in 0..j {
        if are_pair(sig, table, i, j) {
            list.push((i, j))?;
        }
    }
    Ok(())
}

/// The pairs of nodes that one commutative operator heads.
pub(crate) fn pairs(
    alloc: Global,
    sig: &Signature,
    table: &Table,
) -> Result<Vec<(usize, usize)>, NoMemory>
    ensures { IfOk result (λ list. IsEach (ArePair sig.now table.now) list.items) }
{
    let mut list = Vec::new(alloc);
    for j in 0..table.nodes().len() {
        add_pairs(sig, table, j, &mut list)?;
    }
    Ok(list)
}

// The operator of node i, where it has axioms and is not listed.
fn new_operator(sig: &Signature, table: &Table, list: &[OpId], i: usize) -> Option<OpId>
    requires { i < length table.now.nodes }
    ensures { MatchOption result
        ((f : OpId) → HeadsWithAxioms sig.now table.now i f → Contains list.now f)
        (λ f. HeadsWithAxioms sig.now table.now i f × (Contains list.now f → ⊥)) }
{
    match table.node(i) {
        Node::Var(_) => None,
        Node::App(f, _) => {
            if is_free(sig.axioms(*f)) {
                return None;
            }
            if list.contains(f) {
                return None;
            }
            Some(*f)
        }
    }
}

/// The operators with axioms that head nodes.
pub(crate) fn operators(
    alloc: Global,
    sig: &Signature,
    table: &Table,
) -> Result<Vec<OpId>, NoMemory>
    ensures { IfOk result (λ list. IsEach (HasAxioms sig.now table.now) list.items) }
{
    let mut list = Vec::new(alloc);
    for i in 0..table.nodes().len() {
        match new_operator(sig, table, list.as_slice(), i) {
            None => {}
            Some(f) => list.push(f)?,
        }
    }
    Ok(list)
}
