//! Heights of classes, and which classes are sums over one in which the loose class stands: guesses, which are checked afterwards.
ghost use Rattle.std.specs.Prelude.{◌≡◌, ◌<◌, length, All};

use crate::checking::{head_at, height_at, highest, is_idle, is_marked};
use crate::guessing::{bar, set_height, unbarred};
use crate::summing::{Draft, Facts, sum_at};
use fvn_combine_nodes::{Node, State, Table};
use fvn_signature::Signature;
use fvn_terms::{NoMemory, OpId};
use std::alloc::Global;

// The most times that all nodes are gone through.
const TURNS: usize = 32;

// What a node says of a draft: it may not be, it holds, or it was changed so that it holds.
#[derive(Clone, Copy)]
enum Step {
    Fails,
    Stays,
    Changes,
}

// The class of node k.
fn class_within(state: &State, k: usize) -> Option<usize> {
    if k < state.names.len() {
        Some(state.class_of(k))
    } else {
        None
    }
}

// The height of a class.
fn height_of_class(heights: &[usize], class: usize) -> usize {
    match heights.get(class) {
        None => 0,
        Some(height) => *height,
    }
}

// What is noted of a class.
fn sum_of_class(sums: &[Option<(OpId, usize)>], class: usize) -> Option<(OpId, usize)> {
    match sums.get(class) {
        None => None,
        Some(sum) => *sum,
    }
}

// Notes a sum of a class.
fn set_sum(sums: &mut Vec<Option<(OpId, usize)>>, class: usize, sum: (OpId, usize)) {
    if class < sums.len() {
        sums[class] = Some(sum);
    }
}

// The class is made in one way, as high as that.
fn make(draft: &mut Draft, class: usize, height: usize) -> Step {
    match sum_of_class(draft.sums.as_slice(), class) {
        Some(_) => Step::Fails,
        None => {
            let high = height_of_class(draft.heights.as_slice(), class);
            if is_marked(draft.made.as_slice(), class) {
                if high >= height {
                    return Step::Stays;
                }
            }
            bar(&mut draft.made, class);
            set_height(&mut draft.heights, class, high.max(height));
            Step::Changes
        }
    }
}

// The class is a sum, as high as that.
fn add(draft: &mut Draft, class: usize, sum: (OpId, usize), height: usize) -> Step {
    if is_marked(draft.made.as_slice(), class) {
        return Step::Fails;
    }
    match sum_of_class(draft.sums.as_slice(), class) {
        None => {
            set_sum(&mut draft.sums, class, sum);
            set_height(&mut draft.heights, class, height);
            Step::Changes
        }
        Some(noted) => {
            if noted.0 != sum.0 || noted.1 != sum.1 {
                return Step::Fails;
            }
            if height_of_class(draft.heights.as_slice(), class) >= height {
                return Step::Stays;
            }
            set_height(&mut draft.heights, class, height);
            Step::Changes
        }
    }
}

// The class is a sum by f over node k, or over what the class of that is a sum of.
fn add_over(state: &State, draft: &mut Draft, class: usize, f: OpId, k: usize) -> Step
    requires { k < length state.now.names }
{
    let own = state.class_of(k);
    let height = height_of_class(draft.heights.as_slice(), own).saturating_add(1);
    match sum_of_class(draft.sums.as_slice(), own) {
        None => add(draft, class, (f, own), height),
        Some(sum) => {
            let part = if sum.0 == f { sum.1 } else { own };
            add(draft, class, (f, part), height)
        }
    }
}

// Whether the class has, for sure, the summands of the part.
fn is_said(state: &State, facts: &Facts<'_>, sum: (OpId, usize), class: usize) -> bool {
    for held in facts.held {
        if held.0 != sum.0 {
            continue;
        }
        if class_within(state, held.1) != Some(sum.1) {
            continue;
        }
        if class_within(state, held.2) == Some(class) {
            return true;
        }
    }
    false
}

// Notes the sum of the class of node k, where nothing heads it and it has the summands of the part.
fn fill(state: &State, facts: &Facts<'_>, draft: &mut Draft, sum: (OpId, usize), k: usize) -> Step
    requires { k < length state.now.names }
{
    if head_at(state, facts.heads, k).is_some() {
        return Step::Fails;
    }
    let class = state.class_of(k);
    if !is_said(state, facts, sum, class) {
        return Step::Fails;
    }
    let height = height_of_class(draft.heights.as_slice(), sum.1).saturating_add(1);
    add(draft, class, sum, height)
}

// What node i says, where it adds nodes in which nothing stands so far.
fn step_below(
    state: &State,
    facts: &Facts<'_>,
    draft: &mut Draft,
    i: usize,
    f: OpId,
    ks: (usize, usize),
) -> Step
    requires within { i < length state.now.names }
    requires left { ks.0 < length state.now.names }
    requires right { ks.1 < length state.now.names }
{
    if height_at(state, draft.heights.as_slice(), i) == 0 {
        return Step::Stays;
    }
    match sum_at(state, draft.sums.as_slice(), i) {
        None => Step::Fails,
        Some(sum) => {
            if sum.0 != f {
                return Step::Fails;
            }
            match fill(state, facts, draft, sum, ks.0) {
                Step::Fails => fill(state, facts, draft, sum, ks.1),
                step => step,
            }
        }
    }
}

// What node i says, where it adds two nodes by f.
fn step_by_sum(
    state: &State,
    facts: &Facts<'_>,
    draft: &mut Draft,
    i: usize,
    f: OpId,
    ks: (usize, usize),
) -> Step
    requires within { i < length state.now.names }
    requires left { ks.0 < length state.now.names }
    requires right { ks.1 < length state.now.names }
{
    let class = state.class_of(i);
    let left = height_at(state, draft.heights.as_slice(), ks.0);
    let right = height_at(state, draft.heights.as_slice(), ks.1);
    if left == 0 {
        if right == 0 {
            return step_below(state, facts, draft, i, f, ks);
        }
        return add_over(state, draft, class, f, ks.1);
    }
    if right == 0 {
        return add_over(state, draft, class, f, ks.0);
    }
    make(draft, class, left.max(right).saturating_add(1))
}

// What node i says, where an operator that is none of sums heads it over the nodes ks.
fn step_above(state: &State, draft: &mut Draft, i: usize, ks: &[usize]) -> Step
    requires within { i < length state.now.names }
    requires all { All (λ k. k < length state.now.names) ks.now }
{
    let high = highest(state, draft.heights.as_slice(), ks);
    if high == 0 {
        if height_at(state, draft.heights.as_slice(), i) == 0 {
            return Step::Stays;
        }
        return Step::Fails;
    }
    make(draft, state.class_of(i), high.saturating_add(1))
}

// What node i says.
fn step_by(
    sig: &Signature,
    table: &Table,
    state: &State,
    facts: &Facts<'_>,
    draft: &mut Draft,
    i: usize,
) -> Step
    requires whole { length state.now.names ≡ length table.now.nodes }
    requires within { i < length table.now.nodes }
{
    table.recall_well_made();
    match table.node(i) {
        Node::Var(_) => Step::Stays,
        Node::App(f, ks) => {
            let list = ks.as_slice();
            if is_idle(table, state, i, *f, list) {
                return Step::Stays;
            }
            if state.class_of(i) == draft.bottom {
                return Step::Fails;
            }
            if !sig.axioms(*f).is_sum() {
                return step_above(state, draft, i, list);
            }
            if list.len() != 2 {
                return Step::Fails;
            }
            step_by_sum(state, facts, draft, i, *f, (list[0], list[1]))
        }
    }
}

// What the nodes say, one after another.
fn turn(sig: &Signature, table: &Table, state: &State, facts: &Facts<'_>, draft: &mut Draft) -> Step
    requires { length state.now.names ≡ length table.now.nodes }
{
    let mut step = Step::Stays;
    for i in 0..table.nodes().len() {
        match step_by(sig, table, state, facts, draft, i) {
            Step::Fails => {
                return Step::Fails;
            }
            Step::Stays => {}
            Step::Changes => {
                step = Step::Changes;
            }
        }
    }
    step
}

// No sums.
fn sumless(alloc: Global, count: usize) -> Result<Vec<Option<(OpId, usize)>>, NoMemory> {
    let mut sums = Vec::with_capacity(alloc, count)?;
    for _i in 0..count {
        sums.push(None)?;
    }
    Ok(sums)
}

// The draft in which z stands in its own class alone.
fn first_draft(alloc: Global, count: usize, z: usize) -> Result<Draft, NoMemory> {
    let sums = sumless(alloc, count)?;
    let made = unbarred(alloc, count)?;
    let mut heights = vec![in alloc; 0usize; count]?;
    set_height(&mut heights, z, 1);
    Ok(Draft {
        bottom: z,
        heights,
        sums,
        made,
    })
}

/// A draft by which the class of node z, which names it, may be loose.
pub(crate) fn draft_above(
    alloc: Global,
    sig: &Signature,
    table: &Table,
    state: &State,
    facts: &Facts<'_>,
    z: usize,
) -> Result<Option<Draft>, NoMemory>
    requires { length state.now.names ≡ length table.now.nodes }
{
    let mut draft = first_draft(alloc, table.nodes().len(), z)?;
    for _turn in 0..TURNS {
        match turn(sig, table, state, facts, &mut draft) {
            Step::Fails => {
                return Ok(None);
            }
            Step::Stays => {
                return Ok(Some(draft));
            }
            Step::Changes => {}
        }
    }
    Ok(None)
}
