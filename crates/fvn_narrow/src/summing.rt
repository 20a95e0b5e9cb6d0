//! Two summands of a sum at a time.
ghost use Rattle.std.specs.Prelude.{◌≡◌, ◌<◌, length, IsTrue, IfOk};
ghost use Rattle.fvn_flat.specs.Forms.{args_of};
ghost use Rattle.fvn_rewrite_rules.specs.Given.{headed};
ghost use Rattle.fvn_narrow.specs.inner.Turns.{IsReady, IsSumAt, IsPairAt, IsTryAt, IsTryFrom, IsTryBefore};
ghost use Rattle.fvn_narrow.specs.inner.Turns.{ForEach, TryLifts, AreFound};
ghost use Rattle.fvn_narrow.specs.inner.Pairing.{IsFitSum, AreOthers, StandsAgain};

use crate::posing::is_whole;
use crate::stepping::Part;
use crate::tools::{Solves, Tools};
use crate::trying::{by_rules, with_more};
use fvn_base::Seq;
use fvn_exploring::{ExpandEnd, Expansion};
use fvn_flat::Flat;
use fvn_narrow_children::Start;
use fvn_places::add_copies;
use fvn_signature::Signature;
use fvn_terms::{NoMemory, OpId};
use std::alloc::Global;

// The sum of two of the summands.
fn pair_of(
    alloc: Global,
    sig: &Signature,
    f: OpId,
    sum: &Flat,
    i: usize,
    j: usize,
) -> Result<Flat, NoMemory>
    requires sum { IsFitSum sig.now f sum.now }
    requires places { (i < j) × (j < length (args_of sum.now)) }
    ensures { IfOk result (IsPairAt f (args_of sum.now) i j) }
{
    sig.recall_good();
    let ts = sum.args();
    let mut two = Vec::new(alloc);
    two.push(ts[i].copy(alloc)?)?;
    two.push(ts[j].copy(alloc)?)?;
    let pair = Flat::app(alloc, sig, f, two)?;
    Ok(pair)
}

// All summands but two.
fn others_of(alloc: Global, ts: &[Flat], i: usize, j: usize) -> Result<Vec<Flat>, NoMemory>
    requires places { (i < j) × (j < length ts.now) }
    ensures { IfOk result (λ others. AreOthers ts.now i j others.items) }
{
    let first = add_copies(alloc, Vec::new(alloc), &ts[..i])?;
    let second = add_copies(alloc, first, &ts[i + 1..j])?;
    let all = add_copies(alloc, second, &ts[j + 1..])?;
    Ok(all)
}

// The children at two of the summands.
fn at_pair<S: Solves>(
    tools: &Tools<'_, '_, S>,
    alloc: Global,
    start: &Start,
    sum: &Part<'_>,
    f: OpId,
    i: usize,
    j: usize,
) -> Result<Expansion, NoMemory>
    requires ready { IsReady tools.now.rewriter.now start.now.variant start.now.next }
    requires sum { IsSumAt tools.now.rewriter.now start.now.variant sum.now.member sum.now.path.now f
        sum.now.at.now }
    requires places { (i < j) × (j < length (args_of sum.now.at.now)) }
    ensures { IfOk result (AreFound tools.now.rewriter.now (S.most_unifiers tools.now.solver.now)
        (S.drawn tools.now.solver.now) start.now.variant
        (ForEach (TryLifts tools.now.rewriter.now (S.most_unifiers tools.now.solver.now)
        start.now.variant) (IsTryAt f (args_of sum.now.at.now)
        (headed tools.now.rewriter.now.rules f) (i, j)))) }
{
    tools.rewriter.recall();
    let at = pair_of(alloc, tools.rewriter.signature(), f, sum.at, i, j)?;
    let others = others_of(alloc, sum.at.args(), i, j)?;
    let pair = Part {
        member: sum.member,
        path: sum.path,
        at: &at,
        beside: Some((f, Seq::from_vec(others))),
    };
    let e = by_rules(
        tools,
        alloc,
        start,
        &pair,
        tools.rewriter.rules().headed(f),
        false,
    )?;
    Ok(e)
}

// Whether the summand at a place is the one before it, from the first place on. Summands stand in order, so that those
// that are one form stand side by side.
fn stands_again(ts: &[Flat], first: usize, place: usize) -> bool
    requires { place < length ts.now }
    ensures { IsTrue result → StandsAgain ts.now first place }
{
    if place <= first {
        return false;
    }
    ts[place - 1].same(&ts[place])
}

// The children at one of the summands with each behind it, up to the first that stops; with one that stands there again
// they are the same.
fn at_pairs_from<S: Solves>(
    tools: &Tools<'_, '_, S>,
    alloc: Global,
    start: &Start,
    sum: &Part<'_>,
    f: OpId,
    i: usize,
) -> Result<Expansion, NoMemory>
    requires ready { IsReady tools.now.rewriter.now start.now.variant start.now.next }
    requires sum { IsSumAt tools.now.rewriter.now start.now.variant sum.now.member sum.now.path.now f
        sum.now.at.now }
    requires place { i < length (args_of sum.now.at.now) }
    ensures { IfOk result (AreFound tools.now.rewriter.now (S.most_unifiers tools.now.solver.now)
        (S.drawn tools.now.solver.now) start.now.variant
        (ForEach (TryLifts tools.now.rewriter.now (S.most_unifiers tools.now.solver.now)
        start.now.variant) (IsTryFrom f (args_of sum.now.at.now)
        (headed tools.now.rewriter.now.rules f) (i, length (args_of sum.now.at.now))))) }
{
    let ts = sum.at.args();
    let mut children = Vec::new(alloc);
    for j in i + 1..ts.len() {
        let again = stands_again(ts, i + 1, j);
        if again {
            continue;
        }
        let next = at_pair(tools, alloc, start, sum, f, i, j)?;
        let (all, end) = with_more(children, next)?;
        children = all;
        if !is_whole(&end) {
            return Ok(Expansion {
                children: Seq::from_vec(children),
                end,
            });
        }
    }
    Ok(Expansion {
        children: Seq::from_vec(children),
        end: ExpandEnd::Whole,
    })
}

// The children at all pairs of summands, up to the first that stops; those of a summand that stands there again are the
// same.
pub(crate) fn at_pairs<S: Solves>(
    tools: &Tools<'_, '_, S>,
    alloc: Global,
    start: &Start,
    sum: &Part<'_>,
    f: OpId,
) -> Result<Expansion, NoMemory>
    requires ready { IsReady tools.now.rewriter.now start.now.variant start.now.next }
    requires sum { IsSumAt tools.now.rewriter.now start.now.variant sum.now.member sum.now.path.now f
        sum.now.at.now }
    ensures { IfOk result (AreFound tools.now.rewriter.now (S.most_unifiers tools.now.solver.now)
        (S.drawn tools.now.solver.now) start.now.variant
        (ForEach (TryLifts tools.now.rewriter.now (S.most_unifiers tools.now.solver.now)
        start.now.variant) (IsTryBefore f (args_of sum.now.at.now)
        (headed tools.now.rewriter.now.rules f) (length (args_of sum.now.at.now))))) }
{
    let ts = sum.at.args();
    let mut children = Vec::new(alloc);
    for i in 0..ts.len() {
        let again = stands_again(ts, 0, i);
        if again {
            continue;
        }
        let next = at_pairs_from(tools, alloc, start, sum, f, i)?;
        let (all, end) = with_more(children, next)?;
        children = all;
        if !is_whole(&end) {
            return Ok(Expansion {
                children: Seq::from_vec(children),
                end,
            });
        }
    }
    Ok(Expansion {
        children: Seq::from_vec(children),
        end: ExpandEnd::Whole,
    })
}
