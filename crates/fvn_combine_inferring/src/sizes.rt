//! Classes whose values have fewer symbols than those of others for sure.
ghost use Rattle.std.specs.Prelude.{◌≡◌, ◌⊎◌, ◌<◌, ◌||◌, ℕ, length, slice_index_or, slice_set, IfOk, OnOk, IsTrue};
ghost use Rattle.fvn_terms.specs.Signature.{axioms};
ghost use Rattle.fvn_terms.specs.Equality.{IsAssociative};
ghost use Rattle.fvn_combine_bounds.specs.CombineChoicesTables.{HasSums};
ghost use Rattle.fvn_combine_leaves.specs.Readings.{IsReading};
ghost use Rattle.fvn_combine_nodes.specs.States.{IsClosed, class_of};
ghost use Rattle.fvn_combine_inferring.specs.Inferred.{TellHeads};
ghost use Rattle.fvn_combine_inferring.specs.inner.Sizes.{IsSaid, AreSaid, AreInside, IsPair, AreNoted, followed_mark};
ghost use Rattle.fvn_combine_inferring.specs.inner.Bounds.{HaveSummands};

use crate::arguments::note_arguments;
use crate::expressions::split_at;
use crate::heads::Known;
use crate::summed::has_some_summand;
use fvn_combine_leaves::Reading;
use fvn_combine_nodes::{State, Table};
use fvn_signature::Signature;
use fvn_terms::{NoMemory, OpId};
use std::alloc::Global;

// The greatest number of pairs of which chains are followed: of more, each pair alone is read.
const PAIRS: usize = 1024;
// Chains are followed through classes whose numbers are below this one.
const CLASSES: usize = 512;
// The most rounds in which chains are followed. A round goes through the pairs as they are listed, and so along each chain
// that is listed in its order; each turn against that order takes a round more.
const ROUNDS: usize = 16;
// What is noted of a class: that it has no fewer symbols than the class at which a chain begins.
const NO_FEWER: u8 = 1;
// And that it has more.
const MORE: u8 = 2;

/// Two classes: the value of the first has no more symbols than that of the second, or fewer.
#[derive(Clone, Copy)]
pub struct Inside {
    pub small: usize,
    pub large: usize,
    pub proper: bool,
}

// Notes a pair of nodes, by the classes of both.
pub(crate) fn note_pair(
    list: &mut Vec<Inside>,
    sig: &Signature,
    table: &Table,
    state: &State,
    sorted: bool,
    pair: Inside,
) -> Result<(), NoMemory>
    requires closed { IsClosed sig.now table.now state.now }
    requires pair { IsPair sig.now table.now state.now sorted pair }
    requires list { AreInside sig.now table.now state.now sorted list.old.items }
    ensures { OnOk result (AreInside sig.now table.now state.now sorted list.new.items) }
{
    let _sig = sig;
    let _table = table;
    let _sorted = sorted;
    let small = state.class_of(pair.small);
    let large = state.class_of(pair.large);
    list.push(Inside {
        small,
        large,
        proper: pair.proper,
    })?;
    Ok(())
}

// Whether both classes have a summand for sure.
fn have_both(
    sig: &Signature,
    table: &Table,
    state: &State,
    known: &Known,
    f: OpId,
    p: (usize, usize),
) -> bool
    requires associative { IsAssociative (axioms sig.now f) }
    requires closed { IsClosed sig.now table.now state.now }
    requires sums { HasSums sig.now table.now }
    requires heads { TellHeads sig.now table.now state.now known.now.sorted known.now.heads.items }
    requires first { p.0 < length table.now.nodes }
    requires second { p.1 < length table.now.nodes }
    ensures { IsTrue result → HaveSummands sig.now table.now state.now known.now.sorted f p.0 p.1 }
{
    if !has_some_summand(sig, table, state, known, f, p.0) {
        return false;
    }
    has_some_summand(sig, table, state, known, f, p.1)
}

// Notes both classes that node i adds, where it is a sum by f.
fn note_inside(
    list: &mut Vec<Inside>,
    sig: &Signature,
    table: &Table,
    state: &State,
    known: &Known,
    f: OpId,
    i: usize,
) -> Result<(), NoMemory>
    requires associative { IsAssociative (axioms sig.now f) }
    requires closed { IsClosed sig.now table.now state.now }
    requires sums { HasSums sig.now table.now }
    requires heads { TellHeads sig.now table.now state.now known.now.sorted known.now.heads.items }
    requires within { i < length table.now.nodes }
    requires list { AreInside sig.now table.now state.now known.now.sorted list.old.items }
    ensures { OnOk result (AreInside sig.now table.now state.now known.now.sorted list.new.items) }
{
    table.recall_well_made();
    match split_at(table, state, f, i) {
        None => Ok(()),
        Some(p) => {
            let proper = have_both(sig, table, state, known, f, p);
            let large = state.class_of(i);
            list.push(Inside {
                small: p.0,
                large,
                proper,
            })?;
            list.push(Inside {
                small: p.1,
                large,
                proper,
            })?;
            Ok(())
        }
    }
}

// Notes what node i contains: its arguments, or the classes that it adds.
fn note_node(
    list: &mut Vec<Inside>,
    sig: &Signature,
    table: &Table,
    state: &State,
    reading: &Reading,
    known: &Known,
    i: usize,
) -> Result<(), NoMemory>
    requires closed { IsClosed sig.now table.now state.now }
    requires sums { HasSums sig.now table.now }
    requires reading { IsReading sig.now table.now (class_of state.now) reading.now }
    requires heads { TellHeads sig.now table.now state.now known.now.sorted known.now.heads.items }
    requires within { i < length table.now.nodes }
    requires list { AreInside sig.now table.now state.now known.now.sorted list.old.items }
    ensures { OnOk result (AreInside sig.now table.now state.now known.now.sorted list.new.items) }
{
    table.recall_well_made();
    note_arguments(list, sig, table, state, known.sorted, i)?;
    for sums in reading.sums.as_slice() {
        note_inside(list, sig, table, state, known, sums.operator, i)?;
    }
    Ok(())
}

// Whether one of both holds.
fn either(a: bool, b: bool) -> bool
    ensures { result ≡ (a || b) }
{
    if a {
        return true;
    }
    b
}

// What is noted of class k; nothing where it is beyond the places.
fn noted(marks: &[u8], k: usize) -> u8
    ensures { result ≡ slice_index_or marks.now k 0 }
{
    if k >= marks.len() {
        return 0;
    }
    marks[k]
}

// Notes more of class k, where less was noted; answers whether that was so.
fn note(marks: &mut [u8], k: usize, mark: u8) -> bool
    ensures { (marks.new ≡ marks.old)
        ⊎ ((k < length marks.old) × (marks.new ≡ slice_set marks.old k mark)) }
{
    if k >= marks.len() {
        return false;
    }
    if marks[k] >= mark {
        return false;
    }
    marks[k] = mark;
    true
}

// What follows of a class that contains one of which this is noted.
fn followed(mark: u8, proper: bool) -> u8
    ensures { result ≡ followed_mark mark proper }
{
    if proper { MORE } else { mark }
}

// Notes what follows by one pair; answers whether it was new.
fn follow(marks: &mut [u8], pair: &Inside) -> bool
    ensures { (w : ℕ → ℕ) (k : ℕ) → IsSaid w pair.now → AreNoted w k marks.old
        → AreNoted w k marks.new }
{
    let mark = noted(marks, pair.small);
    if mark == 0 {
        return false;
    }
    note(marks, pair.large, followed(mark, pair.proper))
}

// Notes what follows by each of the pairs; answers whether anything was new.
fn follow_all(marks: &mut [u8], pairs: &[Inside]) -> bool
    ensures { (w : ℕ → ℕ) (k : ℕ) → AreSaid w pairs.now → AreNoted w k marks.old
        → AreNoted w k marks.new }
{
    let mut changed = false;
    for pair in pairs {
        let new = follow(marks, pair);
        changed = either(changed, new);
    }
    changed
}

// Notes what follows, round by round, as long as anything is new.
fn follow_chains(marks: &mut [u8], pairs: &[Inside])
    ensures { (w : ℕ → ℕ) (k : ℕ) → AreSaid w pairs.now → AreNoted w k marks.old
        → AreNoted w k marks.new }
{
    for _round in 0..ROUNDS {
        if !follow_all(marks, pairs) {
            return;
        }
    }
}

// Whether chains of pairs say that class k has fewer symbols than class l.
fn is_reached(pairs: &[Inside], k: usize, l: usize) -> bool
    ensures { IsTrue result → (w : ℕ → ℕ) → AreSaid w pairs.now → w k < w l }
{
    let mut marks = [0u8; CLASSES];
    let _new = note(&mut marks, k, NO_FEWER);
    follow_chains(&mut marks, pairs);
    noted(&marks, l) == MORE
}

/// The classes that sums add, which have no more symbols than the sums, and arguments of other operators, which have fewer:
/// node by node, each after what it is made of, so that one round follows a chain of nodes to its end.
pub(crate) fn insides(
    alloc: Global,
    sig: &Signature,
    table: &Table,
    state: &State,
    reading: &Reading,
    known: &Known,
) -> Result<Vec<Inside>, NoMemory>
    requires closed { IsClosed sig.now table.now state.now }
    requires sums { HasSums sig.now table.now }
    requires reading { IsReading sig.now table.now (class_of state.now) reading.now }
    requires heads { TellHeads sig.now table.now state.now known.now.sorted known.now.heads.items }
    ensures { IfOk result (λ v. AreInside sig.now table.now state.now known.now.sorted v.items) }
{
    let mut list = Vec::new(alloc);
    for i in 0..table.nodes().len() {
        note_node(&mut list, sig, table, state, reading, known, i)?;
    }
    Ok(list)
}

// Whether the pair says that class k has fewer symbols than class l.
fn says(pair: &Inside, k: usize, l: usize) -> bool
    ensures { IsTrue result → (w : ℕ → ℕ) → IsSaid w pair.now → w k < w l }
{
    if !pair.proper {
        return false;
    }
    if pair.small != k {
        return false;
    }
    pair.large == l
}

// Whether one of the pairs says so.
fn is_said(pairs: &[Inside], k: usize, l: usize) -> bool
    ensures { IsTrue result → (w : ℕ → ℕ) → AreSaid w pairs.now → w k < w l }
{
    for pair in pairs {
        if says(pair, k, l) {
            return true;
        }
    }
    false
}

// Whether class l contains another one.
fn has_parts(pairs: &[Inside], l: usize) -> bool {
    for pair in pairs {
        if pair.large != l {
            continue;
        }
        if pair.small != l {
            return true;
        }
    }
    false
}

// Whether pairs, or chains of them where there are not too many, say that class k has fewer symbols than class l.
pub(crate) fn is_smaller(pairs: &[Inside], k: usize, l: usize) -> bool
    ensures { IsTrue result → (w : ℕ → ℕ) → AreSaid w pairs.now → w k < w l }
{
    if !has_parts(pairs, l) {
        return false;
    }
    if pairs.len() > PAIRS {
        return is_said(pairs, k, l);
    }
    is_reached(pairs, k, l)
}

// Whether a class has fewer symbols than itself, by this pair, or by a chain that begins with it.
fn begins_circle(pairs: &[Inside], chained: bool, pair: &Inside) -> bool
    ensures { IsTrue result → (w : ℕ → ℕ) → AreSaid w pairs.now → IsSaid w pair.now → ⊥ }
{
    if !pair.proper {
        return false;
    }
    if pair.small == pair.large {
        return true;
    }
    if !chained {
        return false;
    }
    if !has_parts(pairs, pair.small) {
        return false;
    }
    is_reached(pairs, pair.small, pair.small)
}

// Raises the rank of the larger class of a pair, where it is too low; answers whether it was.
fn raise(ranks: &mut [u16], pair: &Inside) -> bool {
    if pair.small >= ranks.len() {
        return false;
    }
    if pair.large >= ranks.len() {
        return false;
    }
    let more = if pair.proper { 1 } else { 0 };
    let least = ranks[pair.small].saturating_add(more);
    if ranks[pair.large] >= least {
        return false;
    }
    ranks[pair.large] = least;
    true
}

// Raises ranks by each of the pairs; answers whether any was too low.
fn raise_all(ranks: &mut [u16], pairs: &[Inside]) -> bool {
    let mut changed = false;
    for pair in pairs {
        let raised = raise(ranks, pair);
        changed = either(changed, raised);
    }
    changed
}

// Whether classes can be ranked: each no lower than what it contains, and higher than what has fewer symbols. Then no chain
// of pairs says that a class has fewer symbols than itself.
fn are_ranked(pairs: &[Inside]) -> bool {
    let mut ranks = [0u16; CLASSES];
    for _round in 0..ROUNDS {
        if !raise_all(&mut ranks, pairs) {
            return true;
        }
    }
    false
}

// Whether chains may say that a class has fewer symbols than itself, and are to be followed.
fn may_be_circular(pairs: &[Inside]) -> bool {
    if pairs.len() > PAIRS {
        return false;
    }
    !are_ranked(pairs)
}

// Whether a class has fewer symbols than itself.
pub(crate) fn is_circular(pairs: &[Inside]) -> bool
    ensures { IsTrue result → (w : ℕ → ℕ) → AreSaid w pairs.now → ⊥ }
{
    let followed = may_be_circular(pairs);
    for pair in pairs {
        if begins_circle(pairs, followed, pair) {
            return true;
        }
    }
    false
}
