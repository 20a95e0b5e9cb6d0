//! Questions, and what is left of a state when they are answered.
ghost use Rattle.std.specs.Prelude.{◌≡◌, ◌≢◌, ◌<◌, length, All, IfOk};
ghost use Rattle.fvn_combine_nodes.specs.States.{IsClosed, IsOpen, IsNaming};
ghost use Rattle.fvn_combine_tree.specs.Questions.{IsStart, IsAnswer, AreAnswers};
ghost use Rattle.fvn_combine_tree.specs.Trees.{AreMet, AreKeptApart};
ghost use Rattle.fvn_combine_tree.specs.inner.Closing.{state_of};
ghost use Rattle.fvn_combine_tree.specs.inner.Starts.{IsSingles, IsJoinedFrom, SomeOpen};

use crate::chains::Chains;
use crate::closing::{Closing, close};
use fvn_combine_nodes::{State, Table};
use fvn_signature::Signature;
use fvn_terms::NoMemory;
use std::alloc::Global;

/// What is left of a state where two nodes are in one class, and where they are kept apart.
#[derive(Drop)]
pub struct Answers {
    pub same: Option<State>,
    pub apart: Option<State>,
}

// Each node in a class of its own.
fn singles(alloc: Global, count: usize) -> Result<Closing, NoMemory>
    ensures { IfOk result (λ c. IsSingles count (state_of c)) }
{
    let mut names = Vec::new(alloc);
    for i in 0..count {
        names.push(i)?;
    }
    Ok(Closing {
        names,
        apart: Vec::new(alloc),
    })
}

// The sides of each pair are joined.
fn join_sides(closing: &mut Closing, sides: &[(usize, usize)])
    requires naming { IsNaming (state_of closing.old) }
    requires sides { All (λ p. (p.0 < length closing.old.names.items)
        × (p.1 < length closing.old.names.items)) sides.now }
    ensures { IsJoinedFrom sides.now (state_of closing.old) (state_of closing.new) }
{
    for (l, r) in sides {
        let _moved = closing.join(*l, *r);
    }
}

/// The state that every partition of the nodes has; none only where no partition has what the state has.
pub fn start(alloc: Global, sig: &Signature, table: &Table) -> Result<Option<State>, NoMemory>
    ensures { IfOk result (IsStart sig.now table.now) }
{
    table.recall_well_made();
    let mut closing = singles(alloc, table.nodes().len())?;
    let chains = Chains::new(alloc, table.nodes().len())?;
    join_sides(&mut closing, table.sides());
    let state = close(sig, table, closing, chains);
    Ok(state)
}

// The state in the making.
fn opened(alloc: Global, state: &State) -> Result<Closing, NoMemory>
    ensures { IfOk result (λ c. state_of c ≡ state.now) }
{
    let names = match Vec::from_slice(alloc, state.names.as_slice()) {
        Ok(names) => names,
        Err(_) => return Err(NoMemory),
    };
    let apart = match Vec::from_slice(alloc, state.apart.as_slice()) {
        Ok(apart) => apart,
        Err(_) => return Err(NoMemory),
    };
    Ok(Closing { names, apart })
}

/// What is left where the nodes are in one class.
pub(crate) fn ask_same(
    alloc: Global,
    sig: &Signature,
    table: &Table,
    state: &State,
    i: usize,
    j: usize,
) -> Result<Option<State>, NoMemory>
    requires closed { IsClosed sig.now table.now state.now }
    requires left { i < length table.now.nodes }
    requires right { j < length table.now.nodes }
    requires open { IsOpen state.now i j }
    ensures { IfOk result (IsAnswer sig.now table.now state.now (λ class. class i ≡ class j)) }
{
    table.recall_well_made();
    let mut closing = opened(alloc, state)?;
    let chains = Chains::new(alloc, table.nodes().len())?;
    let _moved = closing.join(i, j);
    let left = close(sig, table, closing, chains);
    Ok(left)
}

/// What is left where the nodes of each pair are in one class: all are joined, and the state is closed once.
pub(crate) fn ask_met(
    alloc: Global,
    sig: &Signature,
    table: &Table,
    state: &State,
    pairs: &[(usize, usize)],
) -> Result<Option<State>, NoMemory>
    requires closed { IsClosed sig.now table.now state.now }
    requires within { All (λ p. (p.0 < length table.now.nodes)
        × (p.1 < length table.now.nodes)) pairs.now }
    requires some_open { SomeOpen state.now pairs.now }
    ensures { IfOk result (IsAnswer sig.now table.now state.now (AreMet pairs.now)) }
{
    table.recall_well_made();
    let mut closing = opened(alloc, state)?;
    let chains = Chains::new(alloc, table.nodes().len())?;
    join_sides(&mut closing, pairs);
    let left = close(sig, table, closing, chains);
    Ok(left)
}

/// What is left where the nodes are kept apart.
pub(crate) fn ask_apart(
    alloc: Global,
    sig: &Signature,
    table: &Table,
    state: &State,
    i: usize,
    j: usize,
) -> Result<Option<State>, NoMemory>
    requires closed { IsClosed sig.now table.now state.now }
    requires left { i < length table.now.nodes }
    requires right { j < length table.now.nodes }
    requires open { IsOpen state.now i j }
    ensures { IfOk result (IsAnswer sig.now table.now state.now (λ class. class i ≢ class j)) }
{
    table.recall_well_made();
    let mut closing = opened(alloc, state)?;
    let chains = Chains::new(alloc, table.nodes().len())?;
    closing.apart.push((i, j))?;
    let left = close(sig, table, closing, chains);
    Ok(left)
}

/// What is left where the nodes of each pair are kept apart: all pairs are added, and the state is closed once.
pub(crate) fn ask_all_apart(
    alloc: Global,
    sig: &Signature,
    table: &Table,
    state: &State,
    pairs: &[(usize, usize)],
) -> Result<Option<State>, NoMemory>
    requires closed { IsClosed sig.now table.now state.now }
    requires within { All (λ p. (p.0 < length table.now.nodes)
        × (p.1 < length table.now.nodes)) pairs.now }
    requires some_open { SomeOpen state.now pairs.now }
    ensures { IfOk result (IsAnswer sig.now table.now state.now (AreKeptApart pairs.now)) }
{
    table.recall_well_made();
    let mut closing = opened(alloc, state)?;
    let chains = Chains::new(alloc, table.nodes().len())?;
    closing.apart.extend_from_slice(pairs)?;
    let left = close(sig, table, closing, chains);
    Ok(left)
}

/// What is left of a closed state where nodes i and j are in one class, and where they are kept apart.
pub fn ask(
    alloc: Global,
    sig: &Signature,
    table: &Table,
    state: &State,
    i: usize,
    j: usize,
) -> Result<Answers, NoMemory>
    requires closed { IsClosed sig.now table.now state.now }
    requires left { i < length table.now.nodes }
    requires right { j < length table.now.nodes }
    requires open { IsOpen state.now i j }
    ensures { IfOk result (AreAnswers sig.now table.now state.now i j) }
{
    let same = ask_same(alloc, sig, table, state, i, j)?;
    let apart = ask_apart(alloc, sig, table, state, i, j)?;
    Ok(Answers { same, apart })
}
