//! Which heads a class can have.
ghost use Rattle.std.specs.Prelude.{◌≡◌, ◌<◌, ◌≤◌, ℕ, [], ◌∷◌, length, map, slice_get, Some, IfOk, MatchOption, All};
ghost use Rattle.fvn_terms.specs.declared.plain.OpId.{OpId};
ghost use Rattle.fvn_flat.specs.Partitions.{HasNoIdentity};
ghost use Rattle.fvn_combine_nodes.specs.Table.{IsOver};
ghost use Rattle.fvn_combine_nodes.specs.States.{IsClosed, class_of};
ghost use Rattle.fvn_purify.specs.Parts.{outline};
ghost use Rattle.fvn_purify.specs.Heads.{head_by, operator_head};
ghost use Rattle.fvn_purify.specs.inner.Choices.{ArePlacesWithin};
ghost use Rattle.fvn_purify.specs.inner.Options.{IsEarlier, IsUnitIn, IsSolidAt, IsForcedHead, IsHeadOptions};

use crate::classes::{Classes, Head};
use fvn_combine_nodes::{Node, State, Table, has_no_identity};
use fvn_signature::Signature;
use fvn_terms::{Axioms, NoMemory, OpId};
use std::alloc::Global;

// The head that an earlier node of the class of node i has.
fn earlier(state: &State, headed: &[usize], heads: &[Head], i: usize) -> Option<Head>
    requires within { All (λ j. j < length state.now.names) headed.now }
    requires node { i < length state.now.names }
    requires few { length heads.now ≤ length headed.now }
    ensures { MatchOption result
        ((h : Head) → IsEarlier (class_of state.now) headed.now heads.now i h → ⊥)
        (IsEarlier (class_of state.now) headed.now heads.now i) }
{
    for k in 0..heads.len() {
        if state.is_same(headed[k], i) {
            return Some(heads[k]);
        }
    }
    None
}

// The constant that is node j.
fn constant_at(table: &Table, j: usize) -> Option<OpId>
    requires { j < length table.now.nodes }
    ensures { MatchOption result
        ((e : OpId) → IsOver table.now.nodes j e [] → ⊥)
        (λ e. IsOver table.now.nodes j e []) }
{
    match table.node(j) {
        Node::Var(_) => None,
        Node::App(e, arguments) => { if arguments.is_empty() { Some(*e) } else { None } }
    }
}

// The identity in the class of node i, if node j is that.
fn unit_at(table: &Table, state: &State, i: usize, j: usize) -> Option<OpId>
    requires node { i < length state.now.names }
    requires unit { j < length state.now.names }
    requires whole { length state.now.names ≡ length table.now.nodes }
    ensures { MatchOption result
        ((e : OpId) → class_of state.now i ≡ class_of state.now j → IsOver table.now.nodes j e [] → ⊥)
        (λ e. (class_of state.now i ≡ class_of state.now j) × IsOver table.now.nodes j e []) }
{
    if !state.is_same(i, j) {
        return None;
    }
    constant_at(table, j)
}

// The identity in the class of node i.
fn unit_in(table: &Table, state: &State, i: usize) -> Option<OpId>
    requires node { i < length state.now.names }
    requires whole { length state.now.names ≡ length table.now.nodes }
    ensures { MatchOption result ((e : OpId) → IsUnitIn table.now (class_of state.now) i e → ⊥)
        (IsUnitIn table.now (class_of state.now) i) }
{
    table.recall_well_made();
    for (_, j) in table.units() {
        match unit_at(table, state, i, *j) {
            None => {}
            Some(e) => return Some(e),
        }
    }
    None
}

// The head of what an operator with these axioms heads.
fn head_by(axioms: Axioms, f: OpId) -> Head
    ensures { result ≡ head_by axioms f }
{
    if axioms.is_sum() {
        return Head::Sum(f);
    }
    if axioms.is_free() {
        return Head::Free;
    }
    Head::Pair(f)
}

// The head of an operator without an identity.
fn solid_head(f: OpId, axioms: Axioms) -> Option<Head>
    ensures { MatchOption result
        (HasNoIdentity axioms → ⊥)
        (λ h. HasNoIdentity axioms × (h ≡ head_by axioms f)) }
{
    if has_no_identity(axioms) {
        Some(head_by(axioms, f))
    } else {
        None
    }
}

// The head of node j, if it is in the class of node i and an operator without an identity heads it.
fn solid_at(sig: &Signature, table: &Table, state: &State, i: usize, j: usize) -> Option<Head>
    requires node { i < length state.now.names }
    requires other { j < length state.now.names }
    requires whole { length state.now.names ≡ length table.now.nodes }
    ensures { MatchOption result
        ((h : Head) → IsSolidAt sig.now table.now (class_of state.now) i j h → ⊥)
        (IsSolidAt sig.now table.now (class_of state.now) i j) }
{
    if !state.is_same(j, i) {
        return None;
    }
    match table.node(j) {
        Node::Var(_) => None,
        Node::App(f, _) => solid_head(*f, sig.axioms(*f)),
    }
}

// The head of the members of the class of node i that an operator without an identity heads.
fn solid_in(sig: &Signature, table: &Table, state: &State, i: usize) -> Option<Head>
    requires node { i < length state.now.names }
    requires whole { length state.now.names ≡ length table.now.nodes }
    ensures { MatchOption result
        ((j : ℕ) (h : Head) → IsSolidAt sig.now table.now (class_of state.now) i j h → ⊥)
        (λ h. (j : ℕ) × IsSolidAt sig.now table.now (class_of state.now) i j h) }
{
    for j in 0..table.nodes().len() {
        match solid_at(sig, table, state, i, j) {
            None => {}
            Some(h) => return Some(h),
        }
    }
    None
}

// The one head that the class of node i can have, if it can have one alone.
fn forced_head(
    sig: &Signature,
    classes: &Classes,
    state: &State,
    heads: &[Head],
    i: usize,
) -> Option<Head>
    requires closed { IsClosed sig.now classes.now.table state.now }
    requires within { ArePlacesWithin (outline classes.now) }
    requires few { length heads.now ≤ length classes.now.places.headed }
    requires node { i < length classes.now.table.nodes }
    ensures { IsForcedHead sig.now (outline classes.now) (class_of state.now) heads.now i result }
{
    match earlier(state, classes.places.headed.as_slice(), heads, i) {
        Some(h) => Some(h),
        None => match unit_in(&classes.table, state, i) {
            Some(e) => Some(Head::Identity(e)),
            None => solid_in(sig, &classes.table, state, i),
        },
    }
}

// The head of the operator.
fn operator_head(sig: &Signature, f: OpId) -> Head
    ensures { result ≡ operator_head sig.now f }
{
    head_by(sig.axioms(f), f)
}

// The heads of all theories.
fn all_theories(alloc: Global, sig: &Signature, ops: &[OpId]) -> Result<Vec<Head>, NoMemory>
    ensures { IfOk result (λ heads. heads.items ≡ Head.Free ∷ map (operator_head sig.now) ops.now) }
{
    let mut heads = Vec::new(alloc);
    heads.push(Head::Free)?;
    for f in ops {
        let head = operator_head(sig, *f);
        heads.push(head)?;
    }
    Ok(heads)
}

/// The heads that node `i` can have, which is the next one with a head, after these.
pub(crate) fn head_options(
    alloc: Global,
    sig: &Signature,
    classes: &Classes,
    state: &State,
    heads: &[Head],
    i: usize,
) -> Result<Vec<Head>, NoMemory>
    requires closed { IsClosed sig.now classes.now.table state.now }
    requires within { ArePlacesWithin (outline classes.now) }
    requires node { slice_get classes.now.places.headed (length heads.now) ≡ Some i }
    requires few { length heads.now ≤ length classes.now.places.headed }
    ensures { IfOk result (λ options. IsHeadOptions sig.now (outline classes.now)
        (class_of state.now) heads.now i options.items) }
{
    match forced_head(sig, classes, state, heads, i) {
        Some(h) => {
            let mut one = Vec::new(alloc);
            one.push(h)?;
            Ok(one)
        }
        None => {
            let all = all_theories(alloc, sig, classes.ops.as_slice())?;
            Ok(all)
        }
    }
}
