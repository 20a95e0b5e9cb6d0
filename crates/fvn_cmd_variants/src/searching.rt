//! The search for variants of forms in a module.
ghost use Rattle.std.specs.Prelude.{◌≡◌, Some, IfOk};
ghost use Rattle.fvn_fold.specs.Starts.{IsStartable};
ghost use Rattle.fvn_module.specs.Contents.{Contents};
ghost use Rattle.fvn_cmd_words.specs.declared.reach.Reach.{Reach};
ghost use Rattle.fvn_cmd_exploring.specs.Searches.{IsExploredBy, IsModuleSolver, IsSearchable, IsSearched};

use fvn_base::limits::{TERM_SYMBOLS, UNIFIERS};
use fvn_closure::explorations_are_lawful;
use fvn_cmd_exploring::{Named, Narrower, Remembering, Search};
use fvn_cmd_unify::{AxiomUnify, SolveLimits};
use fvn_cover::Gate;
use fvn_exploring::Explored;
use fvn_flat::{AxiomSolver, Flat};
use fvn_fold::explore;
use fvn_terms::NoMemory;
use fvn_theory::Bounds;
use std::alloc::Global;
use std::marker::Brand;
use std::thread::Threads;

// What is found of the variants of forms by any solver modulo the axioms.
fn searched_by<R: Threads + Sync, G: Gate, A: AxiomSolver>(
    rt: &R,
    gate: &G,
    search: &Search<'_>,
    solver: &A,
    start: &[Flat],
) -> Result<Explored, NoMemory>
    requires search { IsSearchable
        search.now.declared.now search.now.rules.now search.now.reach search.now.workers }
    requires start { IsStartable search.now.declared.now.signature start.now }
    requires solver { IsModuleSolver search.now.declared.now
        (A.signature solver.now) (A.most_unifiers solver.now) (A.most_symbols solver.now) }
    ensures { IfOk result (IsExploredBy search.now.declared.now search.now.reach
        (A.drawn solver.now) start.now) }
{
    let signature = search.declared.signature();
    let bounds = Bounds {
        steps: search.reach.steps,
        size: TERM_SYMBOLS,
    };
    let narrower = Narrower::new(search.alloc, signature, search.rules, solver, bounds);
    explorations_are_lawful(&narrower);
    let x = explore(
        rt,
        search.alloc,
        signature,
        &narrower,
        start,
        search.limits(),
        gate,
    )?;
    Ok(x)
}

// What is searched in, for steps that hand it on and need not see it.
trait Searching {
    ghost contents: { Self → Contents };

    ghost reach: { Self → Reach };

    // That it is fit to be searched in.
    ghost ready: { Self → Type 0 };

    fn at_hand(&self) -> Search<'_>
        requires { ready self.now }
        ensures contents { result.declared.now ≡ contents self.now }
        ensures reach { result.reach ≡ reach self.now }
        ensures searchable { IsSearchable
            result.declared.now result.rules.now result.reach result.workers };
}

impl Searching for Search<'_> {
    ghost contents = { λ s. s.declared.now };

    ghost reach = { λ s. s.reach };

    ghost ready = { λ s. IsSearchable s.declared.now s.rules.now s.reach s.workers };

    fn at_hand(&self) -> Search<'_> {
        *self
    }
}

// The same, of what is searched in by its trait.
fn searched_over<T: Searching, R: Threads + Sync, G: Gate, A: AxiomSolver>(
    rt: &R,
    gate: &G,
    searching: &T,
    solver: &A,
    start: &[Flat],
) -> Result<Explored, NoMemory>
    requires ready { T.ready searching.now }
    requires start { IsStartable (T.contents searching.now).signature start.now }
    requires solver { IsModuleSolver (T.contents searching.now)
        (A.signature solver.now) (A.most_unifiers solver.now) (A.most_symbols solver.now) }
    ensures { IfOk result (IsExploredBy (T.contents searching.now) (T.reach searching.now)
        (A.drawn solver.now) start.now) }
{
    let own = searching.at_hand();
    let x = searched_by(rt, gate, &own, solver, start)?;
    Ok(x)
}

// The same, by what keeps answers: that it may be shared is shown where the module is not seen.
fn searched_with<
    T: Searching,
    N: Named<A> + Send + Sync,
    R: Threads + Sync,
    G: Gate,
    A: AxiomSolver,
>(
    rt: &R,
    gate: &G,
    searching: &T,
    keeping: &Remembering<'_, A, N>,
    start: &[Flat],
) -> Result<Explored, NoMemory>
    requires ready { T.ready searching.now }
    requires start { IsStartable (T.contents searching.now).signature start.now }
    requires solver { IsModuleSolver (T.contents searching.now)
        (A.signature keeping.now.solver.now) (A.most_unifiers keeping.now.solver.now)
        (A.most_symbols keeping.now.solver.now) }
    ensures { IfOk result (IsExploredBy (T.contents searching.now) (T.reach searching.now)
        (A.drawn keeping.now.solver.now) start.now) }
{
    let x = searched_over(rt, gate, searching, keeping, start)?;
    Ok(x)
}

// The same, by a solver whose answers are kept meanwhile.
fn searched_keeping<
    T: Searching,
    N: Named<A> + Send + Sync,
    R: Threads + Sync,
    G: Gate,
    A: AxiomSolver,
>(
    rt: &R,
    gate: &G,
    alloc: Global,
    searching: &T,
    solver: &A,
    start: &[Flat],
) -> Result<Explored, NoMemory>
    requires named { N.value ≡ Some solver.now }
    requires ready { T.ready searching.now }
    requires start { IsStartable (T.contents searching.now).signature start.now }
    requires solver { IsModuleSolver (T.contents searching.now)
        (A.signature solver.now) (A.most_unifiers solver.now) (A.most_symbols solver.now) }
    ensures { IfOk result (IsExploredBy (T.contents searching.now) (T.reach searching.now)
        (A.drawn solver.now) start.now) }
{
    let keeping = Remembering::<A, N>::new(alloc, solver)?;
    let x = searched_with(rt, gate, searching, &keeping, start)?;
    Ok(x)
}

// What is found of the variants of forms, and what is known of it.
pub(crate) fn searched<R: Threads + Sync, G: Gate>(
    rt: &R,
    gate: &G,
    search: &Search<'_>,
    start: &[Flat],
) -> Result<Explored, NoMemory>
    requires search { IsSearchable
        search.now.declared.now search.now.rules.now search.now.reach search.now.workers }
    requires start { IsStartable search.now.declared.now.signature start.now }
    ensures { IfOk result (IsSearched search.now.declared.now search.now.reach start.now) }
{
    let kept = SolveLimits {
        unifiers: UNIFIERS,
        size: TERM_SYMBOLS,
    };
    let solver = AxiomUnify::new(search.declared.signature(), kept);
    let x = searched_keeping::<_, Brand, R, G, _>(rt, gate, search.alloc, search, &solver, start)?;
    Ok(x)
}
