//! Steps: a question that is asked, one more head, one more way, or a split.
ghost use Rattle.std.specs.Prelude.{◌≡◌, ◌<◌, ◌++◌, [], ◌∷◌, length, map, IfOk, OnOk, All};
ghost use Rattle.fvn_combine_nodes.specs.States.{IsClosed, IsOpen, class_of};
ghost use Rattle.fvn_combine_tree.specs.Questions.{AreAnswers};
ghost use Rattle.fvn_combine_tree.specs.declared.asking.Answers.{Answers};
ghost use Rattle.fvn_purify.specs.Parts.{outline};
ghost use Rattle.fvn_purify.specs.Splits.{number_in};
ghost use Rattle.fvn_purify.specs.inner.Options.{IsForcedWay, IsWayOptions};
ghost use Rattle.fvn_purify.specs.inner.Choices.{asking, chosen, split_of, AreStepped, IsSound, IsLeaf, IsStepOf, IsExpansion, ArePlacesWithin};

use crate::choosing::{Leaf, Partial};
use crate::classes::{Classes, Head};
use crate::heading::head_options;
use crate::questions::{first_arguments, question};
use crate::split::Split;
use fvn_base::Seq;
use fvn_combine_nodes::State;
use fvn_combine_tree::{Answers, ask};
use fvn_signature::Signature;
use fvn_terms::NoMemory;
use std::alloc::Global;

/// What a step gives: what is ahead in parts, or the one split that is ahead.
#[derive(Drop)]
pub enum Step {
    More(Seq<Partial>),
    Whole(Split),
}

// The items, and one more.
fn with_one<T: Copy>(alloc: Global, items: &[T], item: T) -> Result<Seq<T>, NoMemory>
    ensures { IfOk result (λ more. more ≡ items.now ++ item ∷ []) }
{
    match Vec::from_slice(alloc, items) {
        Ok(mut items) => {
            items.push(item)?;
            Ok(Seq::from_vec(items))
        }
        Err(_) => Err(NoMemory),
    }
}

// The same state.
fn same_state(alloc: Global, state: &State) -> Result<State, NoMemory>
    ensures { IfOk result (λ copy. copy ≡ state.now) }
{
    let names = Seq::from_slice(alloc, state.names.as_slice())?;
    let apart = Seq::from_slice(alloc, state.apart.as_slice())?;
    Ok(State { names, apart })
}

// Adds what is left of a state.
fn add_answer(list: &mut Vec<Partial>, answer: Option<State>) -> Result<(), NoMemory>
    ensures { OnOk result (list.new.items ≡ list.old.items ++ asking answer) }
{
    match answer {
        None => Ok(()),
        Some(state) => {
            list.push(Partial::Asking(state))?;
            Ok(())
        }
    }
}

// What is left where the nodes of a question are apart, and where they are in one class.
fn asked(
    alloc: Global,
    sig: &Signature,
    classes: &Classes,
    state: &State,
    i: usize,
    j: usize,
) -> Result<Seq<Partial>, NoMemory>
    requires closed { IsClosed sig.now classes.now.table state.now }
    requires left { i < length classes.now.table.nodes }
    requires right { j < length classes.now.table.nodes }
    requires open { IsOpen state.now i j }
    ensures { IfOk result (λ list.
        (a : Answers) × AreAnswers sig.now classes.now.table state.now i j a
        × (list ≡ asking a.apart ++ asking a.same)) }
{
    let Answers { same, apart } = ask(alloc, sig, &classes.table, state, i, j)?;
    let mut list = Vec::new(alloc);
    add_answer(&mut list, apart)?;
    add_answer(&mut list, same)?;
    Ok(Seq::from_vec(list))
}

// The state as a leaf without heads and ways.
fn settled(alloc: Global, state: &State) -> Result<Seq<Partial>, NoMemory>
    ensures { IfOk result (λ list. list ≡ chosen state.now [] [] ∷ []) }
{
    let state = same_state(alloc, state)?;
    let leaf = Leaf {
        state,
        heads: Seq::new(alloc),
        swaps: Seq::new(alloc),
    };
    let mut list = Vec::new(alloc);
    list.push(Partial::Choosing(leaf))?;
    Ok(Seq::from_vec(list))
}

// The leaf with one more head.
fn with_head(alloc: Global, leaf: &Leaf, head: Head) -> Result<Partial, NoMemory>
    ensures { IfOk result (λ p.
        p ≡ chosen leaf.now.state (leaf.now.heads ++ head ∷ []) leaf.now.swaps) }
{
    let state = same_state(alloc, &leaf.state)?;
    let heads = with_one(alloc, leaf.heads.as_slice(), head)?;
    let swaps = Seq::from_slice(alloc, leaf.swaps.as_slice())?;
    Ok(Partial::Choosing(Leaf {
        state,
        heads,
        swaps,
    }))
}

// The leaf with each of the heads as one more.
fn with_heads(alloc: Global, leaf: &Leaf, options: &[Head]) -> Result<Seq<Partial>, NoMemory>
    ensures { IfOk result (λ list. list
        ≡ map (λ h. chosen leaf.now.state (leaf.now.heads ++ h ∷ []) leaf.now.swaps) options.now) }
{
    let mut list = Vec::new(alloc);
    for head in options {
        let more = with_head(alloc, leaf, *head)?;
        list.push(more)?;
    }
    Ok(Seq::from_vec(list))
}

// The leaf with one more way.
fn with_way(alloc: Global, leaf: &Leaf, crossed: bool) -> Result<Partial, NoMemory>
    ensures { IfOk result (λ p.
        p ≡ chosen leaf.now.state leaf.now.heads (leaf.now.swaps ++ crossed ∷ [])) }
{
    let state = same_state(alloc, &leaf.state)?;
    let heads = Seq::from_slice(alloc, leaf.heads.as_slice())?;
    let swaps = with_one(alloc, leaf.swaps.as_slice(), crossed)?;
    Ok(Partial::Choosing(Leaf {
        state,
        heads,
        swaps,
    }))
}

// The leaf with each of the ways as one more.
fn with_ways(alloc: Global, leaf: &Leaf, options: &[bool]) -> Result<Seq<Partial>, NoMemory>
    ensures { IfOk result (λ list. list
        ≡ map (λ w. chosen leaf.now.state leaf.now.heads (leaf.now.swaps ++ w ∷ [])) options.now) }
{
    let mut list = Vec::new(alloc);
    for crossed in options {
        let more = with_way(alloc, leaf, *crossed)?;
        list.push(more)?;
    }
    Ok(Seq::from_vec(list))
}

// The one way in which nodes i and j can meet, if they are in one class: crosswise, unless their
// first arguments are in one class.
fn forced_way(classes: &Classes, state: &State, i: usize, j: usize) -> Option<bool>
    requires left { i < length classes.now.table.nodes }
    requires right { j < length classes.now.table.nodes }
    requires whole { length state.now.names ≡ length classes.now.table.nodes }
    ensures { IsForcedWay (outline classes.now) (class_of state.now) (i, j) result }
{
    classes.table.recall_well_made();
    if !state.is_same(i, j) {
        return None;
    }
    match first_arguments(&classes.table, i, j) {
        None => None,
        Some((a, v)) => Some(!state.is_same(a, v)),
    }
}

// The ways in which nodes i and j, which one commutative operator heads, can meet in the classes.
fn way_options(
    alloc: Global,
    classes: &Classes,
    state: &State,
    i: usize,
    j: usize,
) -> Result<Vec<bool>, NoMemory>
    requires left { i < length classes.now.table.nodes }
    requires right { j < length classes.now.table.nodes }
    requires whole { length state.now.names ≡ length classes.now.table.nodes }
    ensures { IfOk result (λ options.
        IsWayOptions (outline classes.now) (class_of state.now) (i, j) options.items) }
{
    let mut options = Vec::new(alloc);
    match forced_way(classes, state, i, j) {
        Some(crossed) => {
            options.push(crossed)?;
            Ok(options)
        }
        None => {
            options.push(false)?;
            options.push(true)?;
            Ok(options)
        }
    }
}

// The number of the class of node i: the place of the first part in it.
fn number_in(state: &State, parts: &[usize], i: usize) -> usize
    requires all { All (λ p. p < length state.now.names) parts.now }
    requires node { i < length state.now.names }
    ensures { result ≡ number_in (class_of state.now) parts.now i }
{
    for k in 0..parts.len() {
        if state.is_same(parts[k], i) {
            return k;
        }
    }
    parts.len()
}

// The numbers of the classes of the parts.
fn numbers(alloc: Global, state: &State, parts: &[usize]) -> Result<Seq<usize>, NoMemory>
    requires all { All (λ p. p < length state.now.names) parts.now }
    ensures { IfOk result (λ list.
        list ≡ map (number_in (class_of state.now) parts.now) parts.now) }
{
    let mut list = Vec::new(alloc);
    for p in parts {
        let number = number_in(state, parts, *p);
        list.push(number)?;
    }
    Ok(Seq::from_vec(list))
}

// The split that a leaf with all heads and ways is.
fn whole(alloc: Global, classes: &Classes, leaf: &Leaf) -> Result<Split, NoMemory>
    requires within { ArePlacesWithin (outline classes.now) }
    requires nodes { length leaf.now.state.names ≡ length classes.now.table.nodes }
    ensures { IfOk result (λ split. split ≡ split_of (outline classes.now) leaf.now) }
{
    let class_of = numbers(alloc, &leaf.state, classes.places.parts.as_slice())?;
    let heads = Seq::from_slice(alloc, leaf.heads.as_slice())?;
    let swaps = Seq::from_slice(alloc, leaf.swaps.as_slice())?;
    Ok(Split {
        class_of,
        heads,
        swaps,
    })
}

// A step from a state that may still be asked a question.
fn step_asking(
    alloc: Global,
    sig: &Signature,
    classes: &Classes,
    state: &State,
) -> Result<Seq<Partial>, NoMemory>
    requires fit { AreStepped sig.now (outline classes.now) }
    requires closed { IsClosed sig.now classes.now.table state.now }
    ensures { IfOk result (IsExpansion sig.now (outline classes.now) (Partial.Asking state.now)) }
{
    match question(classes, state) {
        Some((i, j)) => {
            let list = asked(alloc, sig, classes, state, i, j)?;
            Ok(list)
        }
        None => {
            let list = settled(alloc, state)?;
            Ok(list)
        }
    }
}

// A step that chooses one more head.
fn step_head(
    alloc: Global,
    sig: &Signature,
    classes: &Classes,
    leaf: &Leaf,
) -> Result<Seq<Partial>, NoMemory>
    requires fit { AreStepped sig.now (outline classes.now) }
    requires leaf { IsLeaf sig.now (outline classes.now) leaf.now }
    requires more { length leaf.now.heads < length classes.now.places.headed }
    ensures { IfOk result (IsExpansion sig.now (outline classes.now) (Partial.Choosing leaf.now)) }
{
    let i = classes.places.headed.as_slice()[leaf.heads.len()];
    let options = head_options(alloc, sig, classes, &leaf.state, leaf.heads.as_slice(), i)?;
    let list = with_heads(alloc, leaf, options.as_slice())?;
    Ok(list)
}

// A step that chooses one more way.
fn step_way(
    alloc: Global,
    sig: &Signature,
    classes: &Classes,
    leaf: &Leaf,
) -> Result<Seq<Partial>, NoMemory>
    requires fit { AreStepped sig.now (outline classes.now) }
    requires leaf { IsLeaf sig.now (outline classes.now) leaf.now }
    requires more { length leaf.now.swaps < length classes.now.places.pairs }
    ensures { IfOk result (IsExpansion sig.now (outline classes.now) (Partial.Choosing leaf.now)) }
{
    let (i, j) = classes.places.pairs.as_slice()[leaf.swaps.len()];
    let options = way_options(alloc, classes, &leaf.state, i, j)?;
    let list = with_ways(alloc, leaf, options.as_slice())?;
    Ok(list)
}

/// A step from what is decided so far.
pub(crate) fn take_step(
    alloc: Global,
    sig: &Signature,
    classes: &Classes,
    partial: &Partial,
) -> Result<Step, NoMemory>
    requires fit { AreStepped sig.now (outline classes.now) }
    requires sound { IsSound sig.now (outline classes.now) partial.now }
    ensures { IfOk result (IsStepOf sig.now (outline classes.now) partial.now) }
{
    match partial {
        Partial::Asking(state) => {
            let list = step_asking(alloc, sig, classes, state)?;
            Ok(Step::More(list))
        }
        Partial::Choosing(leaf) => {
            if leaf.heads.len() < classes.places.headed.len() {
                let list = step_head(alloc, sig, classes, leaf)?;
                return Ok(Step::More(list));
            }
            if leaf.swaps.len() < classes.places.pairs.len() {
                let list = step_way(alloc, sig, classes, leaf)?;
                return Ok(Step::More(list));
            }
            let split = whole(alloc, classes, leaf)?;
            Ok(Step::Whole(split))
        }
    }
}
