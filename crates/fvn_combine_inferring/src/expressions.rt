//! Classes as sums of other classes.
ghost use Rattle.std.specs.Prelude.{◌≡◌, ◌<◌, ◌∷◌, [], length, slice_get, slice_index_or, None, All, IfOk, IfSome};
ghost use Rattle.fvn_terms.specs.Signature.{axioms};
ghost use Rattle.fvn_terms.specs.Equality.{IsAssociative};
ghost use Rattle.fvn_combine_nodes.specs.States.{IsClosed, class_of};
ghost use Rattle.fvn_combine_systems.specs.NodeSystems.{pair, addends};
ghost use Rattle.fvn_combine_inferring.specs.inner.Splits.{IsUnitNode, IsUnitClass, IsSplit, AreSplits, IsUnsplit, noted, IsAddition, AreWithin, IsSplitPlace, IsExpression};

use crate::heads::Known;
use crate::sorts::{narrow_marks, other_marks};
use fvn_base::Seq;
use fvn_combine_nodes::{Node, State, Table};
use fvn_signature::Signature;
use fvn_terms::{NoMemory, OpId};
use std::alloc::Global;

// The most steps in which a class is replaced by what it adds; one that takes more stays as it is.
const STEPS: usize = 256;

/// The sums by an operator at a state.
#[derive(Drop)]
pub struct Addition {
    pub operator: OpId,
    /// The class of its identity, where it has one that is a node.
    pub unit: Option<usize>,
    /// For each class two classes that a member of it adds, where there are any.
    pub splits: Seq<Option<(usize, usize)>>,
    /// For each class whether the sort of a variable in it admits no sum; nowhere where sorts are not heeded.
    pub narrow: Seq<bool>,
    /// For each class whether the sort of a variable in it does not admit the identity; the same.
    pub other: Seq<bool>,
}

// The two numbers, where there are two.
fn pair(ks: &[usize]) -> Option<(usize, usize)>
    ensures { result ≡ pair ks.now }
{
    if ks.len() == 2 {
        Some((ks[0], ks[1]))
    } else {
        None
    }
}

// The two arguments of a node that f heads.
pub(crate) fn addends(table: &Table, f: OpId, i: usize) -> Option<(usize, usize)>
    requires { i < length table.now.nodes }
    ensures is { result ≡ addends f (slice_get table.now.nodes i) }
    ensures within { IfSome result (λ p.
        (p.0 < length table.now.nodes) × (p.1 < length table.now.nodes)) }
{
    table.recall_well_made();
    match table.node(i) {
        Node::Var(_) => None,
        Node::App(g, ks) => { if f == *g { pair(ks.as_slice()) } else { None } }
    }
}

// The classes of the two nodes that node i adds, where it is a sum by f.
pub(crate) fn split_at(table: &Table, state: &State, f: OpId, i: usize) -> Option<(usize, usize)>
    requires whole { length state.now.names ≡ length table.now.nodes }
    requires within { i < length table.now.nodes }
    ensures { IfSome result (IsSplit table.now state.now f (class_of state.now i)) }
{
    match addends(table, f, i) {
        None => None,
        Some(p) => Some((state.class_of(p.0), state.class_of(p.1))),
    }
}

// The operator that is noted of the class of node i.
pub(crate) fn head_at(state: &State, heads: &[Option<OpId>], i: usize) -> Option<OpId>
    requires within { i < length state.now.names }
    requires heads { class_of state.now i < length heads.now }
    ensures { result ≡ slice_index_or heads.now (class_of state.now i) None }
{
    heads[state.class_of(i)]
}

// The same; none where another operator heads the class, as f's identity heads its own.
fn own_split(
    sig: &Signature,
    table: &Table,
    state: &State,
    heads: &[Option<OpId>],
    f: OpId,
    i: usize,
) -> Option<(usize, usize)>
    requires closed { IsClosed sig.now table.now state.now }
    requires heads { length heads.now ≡ length table.now.nodes }
    requires within { i < length table.now.nodes }
    ensures { IfSome result (IsSplit table.now state.now f (class_of state.now i)) }
{
    let _sig = sig;
    match head_at(state, heads, i) {
        None => split_at(table, state, f, i),
        Some(g) => {
            if g == f {
                split_at(table, state, f, i)
            } else {
                None
            }
        }
    }
}

// Notes the split of a class, where there is one.
fn note(splits: &mut Vec<Option<(usize, usize)>>, k: usize, split: Option<(usize, usize)>)
    requires { k < length splits.old.items }
    ensures { splits.new.items ≡ noted splits.old.items k split }
{
    match split {
        None => {}
        Some(p) => splits[k] = Some(p),
    }
}

// No splits.
fn unsplit(alloc: Global, count: usize) -> Result<Vec<Option<(usize, usize)>>, NoMemory>
    ensures { IfOk result (λ v. IsUnsplit count v.items) }
{
    let mut splits = Vec::with_capacity(alloc, count)?;
    for _i in 0..count {
        splits.push(None)?;
    }
    Ok(splits)
}

// For each class two classes that a member of it adds.
fn splits_of(
    alloc: Global,
    sig: &Signature,
    table: &Table,
    state: &State,
    heads: &[Option<OpId>],
    f: OpId,
) -> Result<Vec<Option<(usize, usize)>>, NoMemory>
    requires closed { IsClosed sig.now table.now state.now }
    requires heads { length heads.now ≡ length table.now.nodes }
    ensures { IfOk result (λ v. AreSplits table.now state.now f v.items) }
{
    let count = table.nodes().len();
    let mut splits = unsplit(alloc, count)?;
    for i in 0..count {
        let split = own_split(sig, table, state, heads, f, i);
        note(&mut splits, state.class_of(i), split);
    }
    Ok(splits)
}

// The node of f's identity.
pub(crate) fn unit_of(table: &Table, f: OpId) -> Option<usize>
    ensures unit { IfSome result (IsUnitNode table.now f) }
    ensures within { IfSome result (λ n. n < length table.now.nodes) }
{
    table.recall_well_made();
    for (g, n) in table.units() {
        if *g == f {
            return Some(*n);
        }
    }
    None
}

// The class of f's identity.
fn unit_class(table: &Table, state: &State, f: OpId) -> Option<usize>
    requires whole { length state.now.names ≡ length table.now.nodes }
    ensures { IfSome result (IsUnitClass table.now state.now f) }
{
    match unit_of(table, f) {
        None => None,
        Some(n) => Some(state.class_of(n)),
    }
}

// The sums by f at the state.
pub(crate) fn addition_of(
    alloc: Global,
    sig: &Signature,
    table: &Table,
    state: &State,
    known: &Known,
    f: OpId,
) -> Result<Addition, NoMemory>
    requires associative { IsAssociative (axioms sig.now f) }
    requires closed { IsClosed sig.now table.now state.now }
    requires heads { length known.now.heads.items ≡ length table.now.nodes }
    ensures is { IfOk result (IsAddition sig.now table.now state.now) }
    ensures operator { IfOk result (λ a. a.operator ≡ f) }
{
    let splits = splits_of(alloc, sig, table, state, known.heads.as_slice(), f)?;
    let narrow = narrow_marks(alloc, sig, table, state, f, known.sorted)?;
    let other = other_marks(alloc, sig, table, state, f, known.sorted)?;
    Ok(Addition {
        operator: f,
        unit: unit_class(table, state, f),
        splits: Seq::from_vec(splits),
        narrow: Seq::from_vec(narrow),
        other: Seq::from_vec(other),
    })
}

// Puts the two classes of its split in the place of a class; answers whether it has one.
fn split_place(
    list: &mut Vec<usize>,
    splits: &[Option<(usize, usize)>],
    place: usize,
) -> Result<bool, NoMemory>
    requires place { place < length list.old.items }
    requires within { slice_index_or list.old.items place 0 < length splits.now }
    ensures { IfOk result (IsSplitPlace splits.now list.old.items list.new.items place) }
{
    match splits[list[place]] {
        None => Ok(false),
        Some(p) => {
            list.push(p.1)?;
            list[place] = p.0;
            Ok(true)
        }
    }
}

// The class alone.
fn alone(alloc: Global, k: usize) -> Result<Vec<usize>, NoMemory>
    ensures { IfOk result (λ v. v.items ≡ k ∷ []) }
{
    let mut list = Vec::new(alloc);
    list.push(k)?;
    Ok(list)
}

// The class as a sum of classes that have no split; where that takes too many steps, the class alone.
pub(crate) fn expression(
    alloc: Global,
    splits: &[Option<(usize, usize)>],
    k: usize,
) -> Result<Vec<usize>, NoMemory>
    requires within { k < length splits.now }
    requires splits { AreWithin splits.now }
    ensures { IfOk result (λ v. IsExpression splits.now k v.items) }
{
    let mut list = alone(alloc, k)?;
    let mut place = 0;
    for _step in 0..STEPS {
        if place == list.len() {
            return Ok(list);
        }
        if !split_place(&mut list, splits, place)? {
            place += 1;
            continue;
        }
    }
    let whole = alone(alloc, k)?;
    Ok(whole)
}
