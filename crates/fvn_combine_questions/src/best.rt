//! Questions whether two classes are one that may be constants of one operator, and that a minimal solution has both of.
//!
//! Pairs with a single summand are asked of first: the answers tell which solutions are never taken. Of these, and of the
//! others then, the pair is asked whose larger class has the greatest rank, by numbers that the caller gives each class. Where
//! classes are ranked by what stands in them, what stands on top is asked of first; where that cannot be one, nothing need be
//! asked of what it holds. Classes of which two operators are noted come before all others, and those whose numbers are odd, as
//! those of classes without variables are: that they are two is told at once.
ghost use Rattle.std.specs.Prelude.{◌≡◌, ◌+◌, ◌<◌, length, None, IfSome, IsTrue, IsFalse};
ghost use Rattle.fvn_combine_nodes.specs.States.{IsNaming};
ghost use Rattle.fvn_combine_questions.specs.inner.Past.{IsOpenPairOr};
ghost use Rattle.fvn_combine_leaves.specs.Users.{IsWholeSums, IsWhole};
ghost use Rattle.fvn_combine_questions.specs.inner.Touched.{
  AreWide,
  AreAllWide,
  IsNotedIn,
  StandsIn,
  ArePastColumns,
  IsPastSolution,
  ArePastTouched,
  AreAllPast,
};
ghost use Rattle.fvn_combine_questions.specs.inner.Ranks.{IsOpenRanked, IsBestOr};

use crate::backwards::backwards;
use crate::standing::noted_head;
use crate::touched::{are_told, is_dead, is_single, stands};
use fvn_base::Seq;
use fvn_combine_leaves::{Reading, Sums};
use fvn_combine_nodes::State;
use fvn_lindio::Solution;
use fvn_signature::Signature;
use fvn_terms::OpId;

// What is asked of: a state with its sums, what is noted as what heads classes, and the ranks of classes.
#[derive(Clone, Copy)]
pub(crate) struct Asking<'a> {
    pub(crate) sig: &'a Signature,
    pub(crate) state: &'a State,
    pub(crate) reading: &'a Reading,
    pub(crate) heads: &'a [Option<OpId>],
    pub(crate) ranks: &'a [usize],
}

// Two classes, with the larger and the smaller one of their ranks.
#[derive(Clone, Copy)]
struct Ranked {
    left: usize,
    right: usize,
    larger: usize,
    smaller: usize,
}

// The rank of class k, or zero where none is given.
fn rank_of(ranks: &[usize], k: usize) -> usize {
    match ranks.get(k) {
        None => 0,
        Some(rank) => *rank,
    }
}

// Whether two operators are noted of classes k and l.
fn are_noted_apart(heads: &[Option<OpId>], k: usize, l: usize) -> bool {
    match noted_head(heads, k) {
        None => false,
        Some(f) => match noted_head(heads, l) {
            None => false,
            Some(g) => f != g,
        },
    }
}

// Whether two ranks are odd: neither class has a variable.
fn are_odd(one: usize, other: usize) -> bool {
    if one % 2 == 0 {
        return false;
    }
    other % 2 == 1
}

// The larger and the smaller one of the ranks of classes k and l, or the greatest numbers where two operators are noted of
// them, or both ranks are odd.
fn ranks_of_pair(asking: &Asking<'_>, k: usize, l: usize) -> (usize, usize) {
    let one = rank_of(asking.ranks, k);
    let other = rank_of(asking.ranks, l);
    if are_odd(one, other) {
        return (usize::MAX, usize::MAX);
    }
    if are_noted_apart(asking.heads, k, l) {
        return (usize::MAX, usize::MAX);
    }
    (one.max(other), one.min(other))
}

// Classes k and l with their ranks.
fn ranked_pair(asking: &Asking<'_>, k: usize, l: usize) -> Ranked
    ensures left { result.left ≡ k }
    ensures right { result.right ≡ l }
{
    let ranks = ranks_of_pair(asking, k, l);
    Ranked {
        left: k,
        right: l,
        larger: ranks.0,
        smaller: ranks.1,
    }
}

// Whether the first pair is to be asked before the second: its larger class has a greater rank, or else its smaller one.
fn is_above(first: Ranked, second: Ranked) -> bool {
    if first.larger != second.larger {
        return first.larger > second.larger;
    }
    first.smaller > second.smaller
}

// Whether the pair is to be asked before the best one so far, or there is none.
fn is_better(pair: Ranked, best: Option<Ranked>) -> bool
    ensures { best ≡ None → IsTrue result }
{
    match best {
        None => true,
        Some(other) => is_above(pair, other),
    }
}

// Whether the solution has column i, whose class may be a constant, and where single ones are sought is a single summand.
fn is_asked_of(asking: &Asking<'_>, sums: &Sums, v: &Solution, i: usize, single: bool) -> bool
    requires reading { IsWhole (length asking.now.state.now.names) asking.now.reading.now }
    requires sums { IsWholeSums (length asking.now.state.now.names) sums.now }
    requires wide { length v.now.parts ≡ length sums.now.columns }
    requires within { i < length sums.now.columns }
    ensures { IsFalse single
        → StandsIn asking.now.reading.now sums.now
        (IsNotedIn asking.now.sig.now asking.now.heads.now) v.now i
        → IsTrue result }
{
    let n = asking.state.names.len();
    if single {
        return is_single(asking.sig, asking.reading, asking.heads, n, sums, v, i);
    }
    stands(asking.sig, asking.reading, asking.heads, n, sums, v, i)
}

// The best of a pair from before and of the open ones of column i and another one that the solution has and whose class may
// be a constant.
fn best_of_column(
    asking: &Asking<'_>,
    sums: &Sums,
    v: &Solution,
    i: usize,
    before: Option<Ranked>,
) -> Option<Ranked>
    requires naming { IsNaming asking.now.state.now }
    requires reading { IsWhole (length asking.now.state.now.names) asking.now.reading.now }
    requires sums { IsWholeSums (length asking.now.state.now.names) sums.now }
    requires wide { length v.now.parts ≡ length sums.now.columns }
    requires within { i < length sums.now.columns }
    requires asked { IfSome before (IsOpenRanked asking.now.state.now) }
    ensures { IsBestOr asking.now.state.now before
        (ArePastColumns asking.now.reading.now sums.now asking.now.state.now
        (IsNotedIn asking.now.sig.now asking.now.heads.now) v.now i)
        result }
{
    let n = asking.state.names.len();
    let columns = sums.columns.as_slice();
    let mut best = before;
    for j in 0..columns.len() {
        let pair = ranked_pair(asking, columns[i], columns[j]);
        if !is_better(pair, best) {
            continue;
        }
        if !stands(asking.sig, asking.reading, asking.heads, n, sums, v, j) {
            continue;
        }
        if are_told(asking.state, asking.reading, sums, i, j) {
            continue;
        }
        best = Some(pair);
    }
    best
}

// The column that is gone through at this step: the first ones first where single summands are sought, else the last ones.
fn column_at(count: usize, step: usize, single: bool) -> usize
    requires { step < count }
    ensures within { result < count }
    ensures backwards { IsFalse single → result + step + 1 ≡ count }
{
    if single {
        return step;
    }
    backwards(count, step)
}

// The best of a pair from before and of the open ones of two classes that the solution has and that may be constants of the
// operator, or of those alone whose first class is a single summand: of pairs of one rank those of the last columns, or of
// the first single summands.
fn best_of_solution(
    asking: &Asking<'_>,
    sums: &Sums,
    v: &Solution,
    single: bool,
    before: Option<Ranked>,
) -> Option<Ranked>
    requires naming { IsNaming asking.now.state.now }
    requires reading { IsWhole (length asking.now.state.now.names) asking.now.reading.now }
    requires sums { IsWholeSums (length asking.now.state.now.names) sums.now }
    requires wide { length v.now.parts ≡ length sums.now.columns }
    requires asked { IfSome before (IsOpenRanked asking.now.state.now) }
    ensures { IsBestOr asking.now.state.now before
        (IsFalse single → IsPastSolution asking.now.reading.now sums.now asking.now.state.now
        (IsNotedIn asking.now.sig.now asking.now.heads.now) v.now)
        result }
{
    if is_dead(
        asking.sig,
        asking.state,
        asking.reading,
        asking.heads,
        sums,
        v,
    ) {
        return before;
    }
    let mut best = before;
    let count = sums.columns.len();
    for step in 0..count {
        let i = column_at(count, step, single);
        if !is_asked_of(asking, sums, v, i, single) {
            continue;
        }
        best = best_of_column(asking, sums, v, i, best);
    }
    best
}

// The same of all solutions of the operator.
fn best_of_solutions(
    asking: &Asking<'_>,
    sums: &Sums,
    basis: &[Solution],
    single: bool,
    before: Option<Ranked>,
) -> Option<Ranked>
    requires naming { IsNaming asking.now.state.now }
    requires reading { IsWhole (length asking.now.state.now.names) asking.now.reading.now }
    requires sums { IsWholeSums (length asking.now.state.now.names) sums.now }
    requires wide { AreWide (length sums.now.columns) basis.now }
    requires asked { IfSome before (IsOpenRanked asking.now.state.now) }
    ensures { IsBestOr asking.now.state.now before
        (IsFalse single → ArePastTouched asking.now.reading.now sums.now asking.now.state.now
        (IsNotedIn asking.now.sig.now asking.now.heads.now) basis.now)
        result }
{
    let mut best = before;
    for v in basis {
        best = best_of_solution(asking, sums, v, single, best);
    }
    best
}

// The same of all operators: of pairs of one rank the last operators first.
fn best_of_operators(asking: &Asking<'_>, bases: &[Seq<Solution>], single: bool) -> Option<Ranked>
    requires naming { IsNaming asking.now.state.now }
    requires reading { IsWhole (length asking.now.state.now.names) asking.now.reading.now }
    requires as_many { length bases.now ≡ length asking.now.reading.now.sums }
    requires wide { AreAllWide asking.now.reading.now.sums bases.now }
    ensures { IsBestOr asking.now.state.now None
        (IsFalse single → AreAllPast asking.now.reading.now asking.now.state.now
        (IsNotedIn asking.now.sig.now asking.now.heads.now) bases.now)
        result }
{
    let sums = asking.reading.sums.as_slice();
    let mut best = None;
    for step in 0..sums.len() {
        let i = backwards(sums.len(), step);
        best = best_of_solutions(asking, &sums[i], bases[i].as_slice(), single, best);
    }
    best
}

// A question whether two classes are one that may be constants of one operator, and that one of its solutions has both of:
// that of the greatest rank with a single summand, or else of all.
pub(crate) fn touched_question(
    asking: &Asking<'_>,
    bases: &[Seq<Solution>],
) -> Option<(usize, usize)>
    requires naming { IsNaming asking.now.state.now }
    requires reading { IsWhole (length asking.now.state.now.names) asking.now.reading.now }
    requires as_many { length bases.now ≡ length asking.now.reading.now.sums }
    requires wide { AreAllWide asking.now.reading.now.sums bases.now }
    ensures { IsOpenPairOr asking.now.state.now
        (AreAllPast asking.now.reading.now asking.now.state.now
        (IsNotedIn asking.now.sig.now asking.now.heads.now) bases.now)
        result }
{
    match best_of_operators(asking, bases, true) {
        Some(best) => Some((best.left, best.right)),
        None => match best_of_operators(asking, bases, false) {
            None => None,
            Some(best) => Some((best.left, best.right)),
        },
    }
}
