//! Decision trees over the nodes of a table.
ghost use Rattle.std.specs.Prelude.{◌≡◌, ◌≢◌, ℕ, ◌-◌, ◌<◌, List, [], ◌∷◌, ◌++◌, take, length, All, IfOk, OnOk, OnErr, IfSome, MatchOption};
ghost use Rattle.fvn_combine_nodes.specs.Classes.{IsNodePartition};
ghost use Rattle.fvn_combine_tree.specs.Trees.{weight, IsToCome, AreClosed, AreInOrder, IsOpenAtTop, SomeOpenAtTop};
ghost use Rattle.fvn_combine_tree.specs.Trees.{AreMet, AreKeptApart, IsAsked, IsTakenOn};
ghost use Rattle.fvn_combine_tree.specs.inner.Starts.{listed};

use crate::asking::{Answers, ask, ask_all_apart, ask_apart, ask_met, start};
use fvn_combine_nodes::{State, Table};
use fvn_signature::Signature;
use fvn_terms::NoMemory;
use std::alloc::Global;
use std::marker::Model;

/// The states that are still to be looked at, seen as the list of them; the last one is the top.
#[derive(Drop)]
pub struct Tree {
    states: Vec<State>,
}

impl Model for Tree {
    ghost use Rattle.std.specs.Prelude.{List};
    ghost use Rattle.fvn_combine_nodes.specs.declared.state.State.{State};

    ghost Value = { List State };

    ghost view = { λ t. t.states.items };
}

// Puts a state in place of the last one.
fn set_last(states: &mut Vec<State>, state: State)
    requires { 0 < length states.old.items }
    ensures { states.new.items ≡ take (length states.old.items - 1) states.old.items ++ state ∷ [] }
{
    let last = states.len() - 1;
    states[last] = state;
}

// Puts two states in place of the last one.
fn set_last_two(states: &mut Vec<State>, first: State, second: State) -> Result<(), NoMemory>
    requires { 0 < length states.old.items }
    ensures ok { OnOk result
        (states.new.items ≡ take (length states.old.items - 1) states.old.items ++ first ∷ second ∷ []) }
    ensures no_memory { OnErr result (states.new.items ≡ states.old.items) }
{
    let last = states.len() - 1;
    states.push(second)?;
    states[last] = first;
    Ok(())
}

// Puts the answers in place of the last state.
fn replace_top(states: &mut Vec<State>, answers: Answers) -> Result<(), NoMemory>
    requires { 0 < length states.old.items }
    ensures ok { OnOk result
        (states.new.items ≡ take (length states.old.items - 1) states.old.items ++ listed answers) }
    ensures no_memory { OnErr result (states.new.items ≡ states.old.items) }
{
    let Answers { same, apart } = answers;
    match same {
        None => match apart {
            None => {
                let _top = states.pop();
                Ok(())
            }
            Some(parted) => {
                set_last(states, parted);
                Ok(())
            }
        },
        Some(joined) => match apart {
            None => {
                set_last(states, joined);
                Ok(())
            }
            Some(parted) => set_last_two(states, parted, joined),
        },
    }
}

impl Tree {
    /// The tree in which all partitions are still to come.
    pub fn new(alloc: Global, sig: &Signature, table: &Table) -> Result<Tree, NoMemory>
        ensures closed { IfOk result (AreClosed sig.now table.now) }
        ensures all { IfOk result (λ t. (class : ℕ → ℕ) → IsNodePartition sig.now table.now class →
            IsToCome t class) }
        ensures ordered { IfOk result AreInOrder }
    {
        let mut states = Vec::new(alloc);
        match start(alloc, sig, table)? {
            None => Ok(Tree { states }),
            Some(state) => {
                states.push(state)?;
                Ok(Tree { states })
            }
        }
    }

    /// The top.
    pub fn top(&self) -> Option<&State>
        ensures { MatchOption result (self.now ≡ []) (λ s. (below : List State)
            × (self.now ≡ below ++ s.now ∷ [])) }
    {
        self.states.as_slice().last()
    }

    /// Takes the top out.
    pub fn take_top(&mut self) -> Option<State>
        ensures taken { MatchOption result ((self.old ≡ [])
            × (self.new ≡ [])) (λ s. self.old ≡ self.new ++ s ∷ []) }
        ensures falls { IfSome result (λ s. weight self.new < weight self.old) }
        ensures ordered { AreInOrder self.old → AreInOrder self.new }
    {
        self.states.pop()
    }

    /// Puts in place of the top what is left of it where nodes i and j are in one class, and where
    /// they are apart.
    pub fn ask(
        &mut self,
        alloc: Global,
        sig: &Signature,
        table: &Table,
        i: usize,
        j: usize,
    ) -> Result<(), NoMemory>
        requires closed { AreClosed sig.now table.now self.old }
        requires left { i < length table.now.nodes }
        requires right { j < length table.now.nodes }
        requires open { IsOpenAtTop self.old i j }
        ensures asked { OnOk result (IsAsked sig.now table.now self.old self.new) }
        ensures closed { AreClosed sig.now table.now self.new }
        // Of two states the one in which nodes are together is looked at first.
        ensures ordered { AreInOrder self.old → AreInOrder self.new }
        ensures falls { OnOk result (weight self.new < weight self.old) }
        ensures no_memory { OnErr result (self.new ≡ self.old) }
    {
        let answers = match self.states.as_slice().last() {
            Some(top) => ask(alloc, sig, table, top, i, j)?,
            None => return Ok(()),
        };
        replace_top(&mut self.states, answers)?;
        Ok(())
    }

    /// Puts in place of the top what is left of it where the nodes of each pair are in one class; where some are
    /// apart nothing is to come any more.
    pub fn meet(
        &mut self,
        alloc: Global,
        sig: &Signature,
        table: &Table,
        pairs: &[(usize, usize)],
    ) -> Result<(), NoMemory>
        requires closed { AreClosed sig.now table.now self.old }
        requires within { All (λ p. (p.0 < length table.now.nodes)
            × (p.1 < length table.now.nodes)) pairs.now }
        requires some_open { SomeOpenAtTop self.old pairs.now }
        ensures met { OnOk result
            (IsTakenOn sig.now table.now (AreMet pairs.now) self.old self.new) }
        ensures closed { AreClosed sig.now table.now self.new }
        // Of two states the one in which nodes are together is looked at first.
        ensures ordered { AreInOrder self.old → AreInOrder self.new }
        ensures falls { OnOk result (weight self.new < weight self.old) }
        ensures no_memory { OnErr result (self.new ≡ self.old) }
    {
        let same = match self.states.as_slice().last() {
            Some(top) => ask_met(alloc, sig, table, top, pairs)?,
            None => return Ok(()),
        };
        replace_top(&mut self.states, Answers { same, apart: None })?;
        Ok(())
    }

    /// Puts in place of the top what is left of it where nodes i and j are kept apart; where they are in
    /// one class nothing is to come any more.
    pub fn part(
        &mut self,
        alloc: Global,
        sig: &Signature,
        table: &Table,
        i: usize,
        j: usize,
    ) -> Result<(), NoMemory>
        requires closed { AreClosed sig.now table.now self.old }
        requires left { i < length table.now.nodes }
        requires right { j < length table.now.nodes }
        requires open { IsOpenAtTop self.old i j }
        ensures parted { OnOk result
            (IsTakenOn sig.now table.now (λ class. class i ≢ class j) self.old self.new) }
        ensures closed { AreClosed sig.now table.now self.new }
        // Of two states the one in which nodes are together is looked at first.
        ensures ordered { AreInOrder self.old → AreInOrder self.new }
        ensures falls { OnOk result (weight self.new < weight self.old) }
        ensures no_memory { OnErr result (self.new ≡ self.old) }
    {
        let apart = match self.states.as_slice().last() {
            Some(top) => ask_apart(alloc, sig, table, top, i, j)?,
            None => return Ok(()),
        };
        replace_top(&mut self.states, Answers { same: None, apart })?;
        Ok(())
    }

    /// Puts in place of the top what is left of it where the nodes of each pair are kept apart; where some are in
    /// one class nothing is to come any more.
    pub fn part_all(
        &mut self,
        alloc: Global,
        sig: &Signature,
        table: &Table,
        pairs: &[(usize, usize)],
    ) -> Result<(), NoMemory>
        requires closed { AreClosed sig.now table.now self.old }
        requires within { All (λ p. (p.0 < length table.now.nodes)
            × (p.1 < length table.now.nodes)) pairs.now }
        requires some_open { SomeOpenAtTop self.old pairs.now }
        ensures parted { OnOk result
            (IsTakenOn sig.now table.now (AreKeptApart pairs.now) self.old self.new) }
        ensures closed { AreClosed sig.now table.now self.new }
        // Of two states the one in which nodes are together is looked at first.
        ensures ordered { AreInOrder self.old → AreInOrder self.new }
        ensures falls { OnOk result (weight self.new < weight self.old) }
        ensures no_memory { OnErr result (self.new ≡ self.old) }
    {
        let left = match self.states.as_slice().last() {
            Some(top) => ask_all_apart(alloc, sig, table, top, pairs)?,
            None => return Ok(()),
        };
        replace_top(
            &mut self.states,
            Answers {
                same: None,
                apart: left,
            },
        )?;
        Ok(())
    }
}
