//! The test of one overlap: its problem is given to the solver.
ghost use Rattle.std.specs.Prelude.{IfOk};
ghost use Rattle.fvn_rewrite.specs.Usable.{equations_by};
ghost use Rattle.fvn_critical_pairs.specs.Overlaps.{Joins};
ghost use Rattle.fvn_critical.specs.inner.Testing.{overlap_in, IsTestable, TestedAs};

use crate::fault::CriticalFault;
use crate::pairing::{Meeting, all_tried};
use crate::posing::{problem, solver_fault};
use crate::tester::Tester;
use fvn_critical_pairs::unifiers_decide_overlaps;
use fvn_flat::AxiomSolver;
use fvn_places::{clash, put};
use fvn_rewrite_laws::rules_are_lawful;
use fvn_terms::NoMemory;
use std::alloc::Global;

// Whether both results of an overlap have one normal form under each unifier of its problem. The solver is not asked
// where part and left side clash.
pub(crate) fn overlap_fault<A: AxiomSolver>(
    tester: &Tester<'_, A>,
    alloc: Global,
    meeting: &Meeting<'_>,
) -> Result<Option<CriticalFault>, NoMemory>
    requires overlap { IsTestable tester.now.rewriter meeting.now }
    ensures { IfOk result (TestedAs tester.now.rewriter (A.drawn tester.now.solver.now)
        (A.most_unifiers tester.now.solver.now)
        (Joins tester.now.rewriter.signature (equations_by tester.now.rewriter)
        (overlap_in meeting.now))) }
{
    tester.rewriter.recall();
    rules_are_lawful();
    unifiers_decide_overlaps();
    let sig = tester.rewriter.signature();
    let clashing = clash(sig, meeting.at, &meeting.inner.left);
    if clashing {
        return Ok(None);
    }
    let given = problem(alloc, meeting.at, &meeting.inner.left)?;
    let solved = tester.solver.solve(alloc, &given, meeting.next)?;
    let whole = put(
        alloc,
        sig,
        &meeting.outer.left,
        meeting.path,
        &meeting.inner.right,
    )?;
    let fault = all_tried(tester, alloc, meeting, &whole, solved.unifiers.as_slice())?;
    match fault {
        Some(wrong) => Ok(Some(wrong)),
        None => Ok(solver_fault(given, solved)),
    }
}
