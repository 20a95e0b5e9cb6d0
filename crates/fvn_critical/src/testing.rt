//! The test of all overlaps.
ghost use Rattle.std.specs.Prelude.{◌≡◌, length, All, Contains, IfOk};
ghost use Rattle.fvn_places.specs.Paths.{paths};
ghost use Rattle.fvn_theory.specs.Equations.{IsReadableEquation};
ghost use Rattle.fvn_rewrite.specs.Usable.{AreUsable};
ghost use Rattle.fvn_critical.specs.Faults.{rewriting_of, IsAnswer, TellsFirstLoss, IsOnlyLimited};
ghost use Rattle.fvn_critical.specs.inner.Choosing.{AreAmong};
ghost use Rattle.fvn_critical.specs.inner.Testing.{IsNewRule, IsPartAt, TestedAs, Each, JoinWith, inner_rules, IsJoinedAt, IsJoinedAlong, AreJoinedUpTo, AreJoinedBySome};

use crate::choosing::chosen_rules;
use crate::fault::CriticalFault;
use crate::heading::heads;
use crate::overlapping::overlap_fault;
use crate::pairing::Meeting;
use crate::renewing::{New, renewed};
use crate::tester::Tester;
use fvn_base::Seq;
use fvn_cohere::sort_loss;
use fvn_critical_pairs::{divergence_excludes_confluence, overlaps_of_rules_decide_confluence};
use fvn_flat::{AxiomSolver, Flat};
use fvn_places::{form_at, paths};
use fvn_rewrite_laws::rules_are_lawful;
use fvn_rewrite_rules::{Rule, Rules};
use fvn_signature::Signature;
use fvn_terms::{NoMemory, OpId};
use fvn_theory::Bounds;
use std::alloc::Global;

// A part of a left side, the path to it, and its head.
#[derive(Drop)]
pub(crate) struct Part<'p> {
    pub(crate) path: &'p [usize],
    pub(crate) at: &'p Flat,
    pub(crate) head: OpId,
}

// The overlap of a part with a rule, where the left side has its head.
fn fault_with<A: AxiomSolver>(
    tester: &Tester<'_, A>,
    alloc: Global,
    new: &New,
    part: &Part<'_>,
    inner: &Rule,
) -> Result<Option<CriticalFault>, NoMemory>
    requires outer { IsNewRule tester.now.rewriter new.now }
    requires part { IsPartAt new.now part.now }
    requires inner { Contains tester.now.rewriter.rules.rules inner.now }
    ensures { IfOk result (TestedAs tester.now.rewriter (A.drawn tester.now.solver.now)
        (A.most_unifiers tester.now.solver.now)
        (JoinWith tester.now.rewriter new.now.rule part.now.path.now inner.now)) }
{
    if !heads(part.head, &inner.left) {
        return Ok(None);
    }
    let meeting = Meeting {
        outer: &new.rule,
        next: new.next,
        path: part.path,
        at: part.at,
        inner,
    };
    let fault = overlap_fault(tester, alloc, &meeting)?;
    Ok(fault)
}

// The overlaps of a part with these rules, up to the first that shows a fault.
fn fault_by<A: AxiomSolver>(
    tester: &Tester<'_, A>,
    alloc: Global,
    new: &New,
    part: &Part<'_>,
    rules: &[Rule],
) -> Result<Option<CriticalFault>, NoMemory>
    requires outer { IsNewRule tester.now.rewriter new.now }
    requires part { IsPartAt new.now part.now }
    requires inner { AreAmong rules.now tester.now.rewriter.rules.rules }
    ensures { IfOk result (TestedAs tester.now.rewriter (A.drawn tester.now.solver.now)
        (A.most_unifiers tester.now.solver.now)
        (Each (JoinWith tester.now.rewriter new.now.rule part.now.path.now) rules.now)) }
{
    for inner in rules {
        let fault = fault_with(tester, alloc, new, part, inner)?;
        if let Some(wrong) = fault {
            return Ok(Some(wrong));
        }
    }
    Ok(None)
}

// The inner rules of overlaps at a path.
fn inner_at<'c>(chosen: &'c [Rule], later: &'c [Rule], path: &[usize]) -> &'c [Rule]
    ensures { result.now ≡ inner_rules chosen.now later.now path.now }
{
    if path.is_empty() {
        return later;
    }
    chosen
}

// The overlaps at the part to which a path leads.
fn fault_at<A: AxiomSolver>(
    tester: &Tester<'_, A>,
    alloc: Global,
    new: &New,
    later: &[Rule],
    path: &[usize],
) -> Result<Option<CriticalFault>, NoMemory>
    requires outer { IsNewRule tester.now.rewriter new.now }
    requires chosen { AreAmong tester.now.chosen.now tester.now.rewriter.rules.rules }
    requires later { AreAmong later.now tester.now.chosen.now }
    requires path { Contains (paths new.now.rule.left) path.now }
    ensures { IfOk result (TestedAs tester.now.rewriter (A.drawn tester.now.solver.now)
        (A.most_unifiers tester.now.solver.now)
        (IsJoinedAt tester.now.rewriter tester.now.chosen.now later.now new.now.rule path.now)) }
{
    let Some(at) = form_at(&new.rule.left, path) else {
        return Ok(None);
    };
    let Some(head) = at.head() else {
        return Ok(None);
    };
    let part = Part { path, at, head };
    let inner = inner_at(tester.chosen, later, path);
    let fault = fault_by(tester, alloc, new, &part, inner)?;
    Ok(fault)
}

// The overlaps at these paths, up to the first that shows a fault.
fn fault_along<A: AxiomSolver>(
    tester: &Tester<'_, A>,
    alloc: Global,
    new: &New,
    later: &[Rule],
    list: &[Seq<usize>],
) -> Result<Option<CriticalFault>, NoMemory>
    requires outer { IsNewRule tester.now.rewriter new.now }
    requires chosen { AreAmong tester.now.chosen.now tester.now.rewriter.rules.rules }
    requires later { AreAmong later.now tester.now.chosen.now }
    requires list { list.now ≡ paths new.now.rule.left }
    ensures { IfOk result (TestedAs tester.now.rewriter (A.drawn tester.now.solver.now)
        (A.most_unifiers tester.now.solver.now)
        (Each (IsJoinedAt tester.now.rewriter tester.now.chosen.now later.now new.now.rule)
        list.now)) }
{
    for path in list {
        let fault = fault_at(tester, alloc, new, later, path.as_slice())?;
        if let Some(wrong) = fault {
            return Ok(Some(wrong));
        }
    }
    Ok(None)
}

// All overlaps in the left side of a rule, whose variables are renamed to new ones first; where whole left sides overlap,
// those with the later rules.
fn fault_of<A: AxiomSolver>(
    tester: &Tester<'_, A>,
    alloc: Global,
    rule: &Rule,
    later: &[Rule],
) -> Result<Option<CriticalFault>, NoMemory>
    requires rule { Contains tester.now.rewriter.rules.rules rule.now }
    requires chosen { AreAmong tester.now.chosen.now tester.now.rewriter.rules.rules }
    requires later { AreAmong later.now tester.now.chosen.now }
    ensures { IfOk result (TestedAs tester.now.rewriter (A.drawn tester.now.solver.now)
        (A.most_unifiers tester.now.solver.now)
        (IsJoinedAlong tester.now.rewriter tester.now.chosen.now later.now rule.now)) }
{
    tester.rewriter.recall();
    rules_are_lawful();
    let new = renewed(alloc, tester.rewriter.signature(), rule)?;
    let list = paths(alloc, &new.rule.left)?;
    let fault = fault_along(tester, alloc, &new, later, list.as_slice())?;
    Ok(fault)
}

// All overlaps, up to the first that shows a fault.
fn first_fault<A: AxiomSolver>(
    tester: &Tester<'_, A>,
    alloc: Global,
) -> Result<Option<CriticalFault>, NoMemory>
    requires chosen { AreAmong tester.now.chosen.now tester.now.rewriter.rules.rules }
    ensures { IfOk result (TestedAs tester.now.rewriter (A.drawn tester.now.solver.now)
        (A.most_unifiers tester.now.solver.now)
        (AreJoinedUpTo tester.now.rewriter tester.now.chosen.now (length tester.now.chosen.now))) }
{
    let chosen = tester.chosen;
    for i in 0..chosen.len() {
        let fault = fault_of(tester, alloc, &chosen[i], &chosen[i..])?;
        if let Some(wrong) = fault {
            return Ok(Some(wrong));
        }
    }
    Ok(None)
}

// The overlaps of rules that subsume all, up to the first that shows a fault.
fn fault_of_all<A: AxiomSolver>(
    alloc: Global,
    sig: &Signature,
    rules: &Rules,
    solver: &A,
    bounds: Bounds,
) -> Result<Option<CriticalFault>, NoMemory>
    requires rules { AreUsable sig.now rules.now }
    requires signature { A.signature solver.now ≡ sig.now }
    requires size { A.most_symbols solver.now ≡ bounds.size }
    ensures { IfOk result (TestedAs (rewriting_of sig.now rules.now bounds) (A.drawn solver.now)
        (A.most_unifiers solver.now)
        (AreJoinedBySome (rewriting_of sig.now rules.now bounds))) }
{
    sig.recall_good();
    sig.recall_completed();
    rules_are_lawful();
    let chosen = chosen_rules(alloc, sig, rules.rules())?;
    let tester = Tester::new(alloc, sig, rules, solver, bounds, chosen.as_slice());
    let fault = first_fault(&tester, alloc)?;
    Ok(fault)
}

/// Why it is not shown that the equations are confluent where they terminate; nothing where it is shown.
///
/// First it is told which equation loses a sort. Then each rule's left side is unified with each part of each rule's
/// left side that has its head, with the whole of it too, which is done once for two rules, and a rule with itself too;
/// and what both rules make of it is brought to normal form. A rule is left out where both its sides are instances of those of another one by one
/// substitution: that its left side is one is not enough.
pub fn critical_fault<A: AxiomSolver>(
    alloc: Global,
    sig: &Signature,
    rules: &Rules,
    solver: &A,
    bounds: Bounds,
) -> Result<Option<CriticalFault>, NoMemory>
    requires rules { AreUsable sig.now rules.now }
    requires readable { All (IsReadableEquation sig.now) rules.now.equations }
    requires signature { A.signature solver.now ≡ sig.now }
    requires size { A.most_symbols solver.now ≡ bounds.size }
    // Nothing shows confluence where the equations terminate, and each fault shows itself.
    ensures told { IfOk result
        (IsAnswer (rewriting_of sig.now rules.now bounds) (A.drawn solver.now)
        (A.most_unifiers solver.now)) }
    // The first equation that loses a sort comes before all else.
    ensures sorts { IfOk result (TellsFirstLoss (rewriting_of sig.now rules.now bounds)) }
    // Confluent equations that lose no sort have no fault but that a limit was met.
    ensures limited { IfOk result (IsOnlyLimited (rewriting_of sig.now rules.now bounds)) }
{
    sig.recall_good();
    sig.recall_completed();
    rules_are_lawful();
    overlaps_of_rules_decide_confluence();
    divergence_excludes_confluence();
    let loss = sort_loss(alloc, sig, rules.equations())?;
    match loss {
        Some(n) => Ok(Some(CriticalFault::Sorts(n))),
        None => {
            let fault = fault_of_all(alloc, sig, rules, solver, bounds)?;
            Ok(fault)
        }
    }
}
