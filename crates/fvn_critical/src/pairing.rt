//! The critical pairs of one overlap.
ghost use Rattle.std.specs.Prelude.{All, IfOk};
ghost use Rattle.fvn_flat.specs.Bindings.{Bindings};
ghost use Rattle.fvn_places.specs.Putting.{PutAs};
ghost use Rattle.fvn_rewrite.specs.Usable.{equations_by};
ghost use Rattle.fvn_flat.specs.Solving.{substitution};
ghost use Rattle.fvn_critical_pairs.specs.Overlaps.{JoinsUnder};
ghost use Rattle.fvn_critical.specs.inner.Testing.{overlap_in, IsTestable, IsDrawnFor, TestedAs, AllJoin};

use crate::comparing::{Numbers, against};
use crate::fault::CriticalFault;
use crate::tester::Tester;
use fvn_critical_pairs::overlaps_are_steps;
use fvn_flat::{AxiomSolver, Flat, Normal, SizeCause, Subst};
use fvn_rewrite_laws::{rules_are_lawful, sequences_are_lawful};
use fvn_rewrite_rules::Rule;
use fvn_terms::NoMemory;
use std::alloc::Global;

// An overlap, and the number after the last one of the outer rule's variables.
#[derive(Drop)]
pub(crate) struct Meeting<'m> {
    pub(crate) outer: &'m Rule,
    pub(crate) next: u32,
    pub(crate) path: &'m [usize],
    pub(crate) at: &'m Flat,
    pub(crate) inner: &'m Rule,
}

// Whether what both rules make of the outer left side under a unifier has one normal form; forms that are one at once
// are not rewritten.
fn tried<A: AxiomSolver>(
    tester: &Tester<'_, A>,
    alloc: Global,
    meeting: &Meeting<'_>,
    whole: &Flat,
    s: &Subst,
) -> Result<Option<CriticalFault>, NoMemory>
    requires overlap { IsTestable tester.now.rewriter meeting.now }
    requires whole { PutAs tester.now.rewriter.signature meeting.now.path.now
        meeting.now.outer.now.left
        meeting.now.inner.now.right whole.now }
    requires unifier { IsDrawnFor tester.now.rewriter (A.drawn tester.now.solver.now)
        (overlap_in meeting.now) s.now }
    ensures { IfOk result (TestedAs tester.now.rewriter (A.drawn tester.now.solver.now)
        (A.most_unifiers tester.now.solver.now)
        (JoinsUnder tester.now.rewriter.signature (equations_by tester.now.rewriter)
        (overlap_in meeting.now)
        (substitution s.now))) }
{
    tester.rewriter.recall();
    rules_are_lawful();
    sequences_are_lawful();
    overlaps_are_steps();
    let sig = tester.rewriter.signature();
    let first = s.apply(alloc, sig, &meeting.outer.right)?;
    let second = s.apply(alloc, sig, whole)?;
    let same = first.same(&second);
    if same {
        return Ok(None);
    }
    let found = tester.rewriter.normal(&first)?;
    match found {
        Normal::Form(left) => {
            let numbers = Numbers {
                outer: meeting.outer.equation,
                inner: meeting.inner.equation,
            };
            let fault = against(&tester.rewriter, numbers, left, &second)?;
            Ok(fault)
        }
        Normal::Steps(start, end) => Ok(Some(CriticalFault::Steps(start, end))),
        Normal::Size(u) => Ok(Some(CriticalFault::Size(SizeCause::Term(u)))),
    }
}

// The same for each of the unifiers, up to the first that shows a fault.
pub(crate) fn all_tried<A: AxiomSolver>(
    tester: &Tester<'_, A>,
    alloc: Global,
    meeting: &Meeting<'_>,
    whole: &Flat,
    unifiers: &[Subst],
) -> Result<Option<CriticalFault>, NoMemory>
    requires overlap { IsTestable tester.now.rewriter meeting.now }
    requires whole { PutAs tester.now.rewriter.signature meeting.now.path.now
        meeting.now.outer.now.left
        meeting.now.inner.now.right whole.now }
    requires unifiers { All (IsDrawnFor tester.now.rewriter (A.drawn tester.now.solver.now)
        (overlap_in meeting.now))
        unifiers.now }
    ensures { IfOk result (TestedAs tester.now.rewriter (A.drawn tester.now.solver.now)
        (A.most_unifiers tester.now.solver.now)
        (AllJoin tester.now.rewriter
        (overlap_in meeting.now)
        unifiers.now)) }
{
    for s in unifiers {
        let fault = tried(tester, alloc, meeting, whole, s)?;
        if let Some(wrong) = fault {
            return Ok(Some(wrong));
        }
    }
    Ok(None)
}
