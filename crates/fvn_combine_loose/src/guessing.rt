//! Which classes may be loose, and the heights of those that are made from them: guesses, which are checked afterwards.
ghost use Rattle.std.specs.Prelude.{◌≡◌, ◌<◌, length, All, IfOk};

use crate::checking::{head_at, height_at, highest, is_absent, is_idle, is_like};
use fvn_combine_nodes::{Node, State, Table};
use fvn_signature::Signature;
use fvn_terms::NoMemory;
use std::alloc::Global;

/// For each class a node in it that an operator heads, and whether something that stands above it is made in several ways.
#[derive(Drop)]
pub(crate) struct Ways {
    pub heads: Vec<Option<usize>>,
    pub barred: Vec<bool>,
}

// No heads.
fn headless(alloc: Global, count: usize) -> Result<Vec<Option<usize>>, NoMemory> {
    let mut heads = Vec::with_capacity(alloc, count)?;
    for _i in 0..count {
        heads.push(None)?;
    }
    Ok(heads)
}

// Nothing barred.
pub(crate) fn unbarred(alloc: Global, count: usize) -> Result<Vec<bool>, NoMemory> {
    let mut barred = Vec::with_capacity(alloc, count)?;
    for _i in 0..count {
        barred.push(false)?;
    }
    Ok(barred)
}

// Bars a class.
pub(crate) fn bar(barred: &mut Vec<bool>, class: usize) {
    if class < barred.len() {
        barred[class] = true;
    }
}

// Whether a class is barred.
fn is_barred(barred: &[bool], class: usize) -> bool {
    match barred.get(class) {
        None => true,
        Some(is) => *is,
    }
}

// Bars the classes of these nodes.
fn bar_all(state: &State, barred: &mut Vec<bool>, ks: &[usize])
    requires { All (λ k. k < length state.now.names) ks.now }
{
    for k in ks {
        bar(barred, state.class_of(*k));
    }
}

// Notes the head of a class.
fn set_head(heads: &mut Vec<Option<usize>>, class: usize, i: usize) {
    if class < heads.len() {
        heads[class] = Some(i);
    }
}

// Notes node i, which an operator heads, as the head of its class, where it is not idle, and bars the class where it has another
// head, or where it stands in itself.
fn note(
    sig: &Signature,
    table: &Table,
    state: &State,
    heads: &mut Vec<Option<usize>>,
    barred: &mut Vec<bool>,
    i: usize,
)
    requires whole { length state.now.names ≡ length table.now.nodes }
    requires within { i < length table.now.nodes }
{
    table.recall_well_made();
    match table.node(i) {
        Node::Var(_) => {}
        Node::App(f, ks) => {
            if is_idle(table, state, i, *f, ks.as_slice()) {
                return;
            }
            let class = state.class_of(i);
            if !is_absent(state, ks.as_slice(), class) {
                bar(barred, class);
            }
            match head_at(state, heads.as_slice(), i) {
                None => set_head(heads, class, i),
                Some(m) => {
                    if !is_like(sig, table, state, m, i) {
                        bar(barred, class);
                    }
                }
            }
        }
    }
}

// Bars the classes of the arguments of node i where its own is barred.
fn pass_down(table: &Table, state: &State, barred: &mut Vec<bool>, i: usize)
    requires whole { length state.now.names ≡ length table.now.nodes }
    requires within { i < length table.now.nodes }
{
    table.recall_well_made();
    match table.node(i) {
        Node::Var(_) => {}
        Node::App(_, ks) => {
            if is_barred(barred.as_slice(), state.class_of(i)) {
                bar_all(state, barred, ks.as_slice());
            }
        }
    }
}

// Bars what stands in barred classes.
fn pass_all_down(table: &Table, state: &State, barred: &mut Vec<bool>)
    requires whole { length state.now.names ≡ length table.now.nodes }
{
    let count = table.nodes().len();
    for k in 0..count {
        pass_down(table, state, barred, count - 1 - k);
    }
}

// The ways in which classes are made.
pub(crate) fn ways_of(
    alloc: Global,
    sig: &Signature,
    table: &Table,
    state: &State,
) -> Result<Ways, NoMemory>
    requires whole { length state.now.names ≡ length table.now.nodes }
{
    let count = table.nodes().len();
    let mut heads = headless(alloc, count)?;
    let mut barred = unbarred(alloc, count)?;
    for i in 0..count {
        note(sig, table, state, &mut heads, &mut barred, i);
    }
    pass_all_down(table, state, &mut barred);
    Ok(Ways { heads, barred })
}

// Whether node z names a class that may be loose.
pub(crate) fn may_be_loose(state: &State, ways: &Ways, z: usize) -> bool
    requires { z < length state.now.names }
{
    if state.class_of(z) != z {
        return false;
    }
    if is_barred(ways.barred.as_slice(), z) {
        return false;
    }
    head_at(state, ways.heads.as_slice(), z).is_none()
}

// Whether some class may be loose.
pub(crate) fn has_candidate(table: &Table, state: &State, ways: &Ways) -> bool
    requires whole { length state.now.names ≡ length table.now.nodes }
{
    for z in 0..table.nodes().len() {
        if may_be_loose(state, ways, z) {
            return true;
        }
    }
    false
}

// Whether an operator of sums heads some node.
pub(crate) fn has_sum(sig: &Signature, table: &Table) -> bool {
    for node in table.nodes() {
        match node {
            Node::Var(_) => {}
            Node::App(f, _) => {
                if sig.axioms(*f).is_sum() {
                    return true;
                }
            }
        }
    }
    false
}

// Notes the height of a class.
pub(crate) fn set_height(heights: &mut Vec<usize>, class: usize, height: usize)
    ensures { length heights.new.items ≡ length heights.old.items }
{
    if class < heights.len() {
        heights[class] = height;
    }
}

// The greatest height of the classes of node i's arguments; none where it is idle.
fn beneath(table: &Table, state: &State, heights: &[usize], i: usize) -> usize
    requires whole { length state.now.names ≡ length table.now.nodes }
    requires within { i < length table.now.nodes }
{
    table.recall_well_made();
    match table.node(i) {
        Node::Var(_) => 0,
        Node::App(f, ks) => {
            if is_idle(table, state, i, *f, ks.as_slice()) {
                return 0;
            }
            highest(state, heights, ks.as_slice())
        }
    }
}

// Raises the class of node i above those of its arguments; answers whether nodes before i may stand above it.
fn raise(table: &Table, state: &State, heights: &mut Vec<usize>, i: usize) -> bool
    requires whole { length state.now.names ≡ length table.now.nodes }
    requires within { i < length table.now.nodes }
    ensures { length heights.new.items ≡ length heights.old.items }
{
    let high = beneath(table, state, heights.as_slice(), i);
    if high == 0 {
        return false;
    }
    if high < height_at(state, heights.as_slice(), i) {
        return false;
    }
    if high >= table.nodes().len() {
        return false;
    }
    let class = state.class_of(i);
    set_height(heights, class, high + 1);
    class != i
}

// Raises the classes of the nodes from this one on, once; answers whether nodes before one may stand above its class.
fn raise_from(table: &Table, state: &State, heights: &mut Vec<usize>, first: usize) -> bool
    requires whole { length state.now.names ≡ length table.now.nodes }
    ensures { length heights.new.items ≡ length heights.old.items }
{
    let mut turned = false;
    for i in first..table.nodes().len() {
        if raise(table, state, heights, i) {
            turned = true;
        }
    }
    turned
}

// Heights of the classes above that of node z, which names it: a node stands above its arguments' numbers, so what stands
// above z comes after it, and one turn is enough but for classes that are named by a node before the one that is raised.
pub(crate) fn heights_above(
    alloc: Global,
    table: &Table,
    state: &State,
    z: usize,
) -> Result<Vec<usize>, NoMemory>
    requires whole { length state.now.names ≡ length table.now.nodes }
    ensures { IfOk result (λ v. length v.items ≡ length table.now.nodes) }
{
    let count = table.nodes().len();
    let mut heights = vec![in alloc; 0usize; count]?;
    set_height(&mut heights, z, 1);
    let mut first = z;
    for _turn in 0..count {
        if !raise_from(table, state, &mut heights, first) {
            return Ok(heights);
        }
        first = 0;
    }
    Ok(heights)
}
