//! The search for unifiers in the theory of a module.
ghost use Rattle.std.specs.Prelude.{◌≡◌, Some, IfOk};
ghost use Rattle.fvn_module.specs.Contents.{Contents};
ghost use Rattle.fvn_cmd_words.specs.declared.reach.Reach.{Reach};
ghost use Rattle.fvn_cmd_exploring.specs.Searches.{IsModuleSolver, IsSearchable};
ghost use Rattle.fvn_cmd_vunify.specs.inner.Steps.{AreSides, IsSolvedBy, IsSolvedIn};

use fvn_base::limits::{TERM_SYMBOLS, UNIFIERS};
use fvn_closure::explorations_are_lawful;
use fvn_cmd_exploring::{Named, Narrower, Remembering, Search};
use fvn_cmd_unify::{AxiomUnify, SolveLimits};
use fvn_cover::Gate;
use fvn_flat::{AxiomSolver, Pairs};
use fvn_fold::explore;
use fvn_terms::NoMemory;
use fvn_theory::Bounds;
use fvn_vunify::{SolvedModulo, sides_of, unify_at_once, variant_unify};
use std::alloc::Global;
use std::marker::Brand;
use std::thread::Threads;

// What is found of the unifiers of pairs by any solver modulo the axioms.
fn solved_by<R: Threads + Sync, G: Gate, A: AxiomSolver>(
    rt: &R,
    gate: &G,
    search: &Search<'_>,
    solver: &A,
    given: Pairs,
) -> Result<SolvedModulo, NoMemory>
    requires search { IsSearchable
        search.now.declared.now search.now.rules.now search.now.reach search.now.workers }
    requires given { AreSides search.now.declared.now.signature given.pairs }
    requires solver { IsModuleSolver search.now.declared.now
        (A.signature solver.now) (A.most_unifiers solver.now) (A.most_symbols solver.now) }
    ensures { IfOk result (IsSolvedBy search.now.declared.now search.now.reach
        (A.drawn solver.now) given.pairs) }
{
    let signature = search.declared.signature();
    let bounds = Bounds {
        steps: search.reach.steps,
        size: TERM_SYMBOLS,
    };
    let narrower = Narrower::new(search.alloc, signature, search.rules, solver, bounds);
    explorations_are_lawful(&narrower);
    let sides = sides_of(search.alloc, given)?;
    if let Some(solved) = unify_at_once(search.alloc, signature, &narrower, sides.as_slice())? {
        return Ok(solved);
    }
    let x = explore(
        rt,
        search.alloc,
        signature,
        &narrower,
        sides.as_slice(),
        search.limits(),
        gate,
    )?;
    let r = variant_unify(search.alloc, signature, &narrower, solver, x)?;
    Ok(r)
}

// What is searched in, for steps that hand it on and need not see it.
trait Searching {
    ghost contents: { Self → Contents };

    ghost reach: { Self → Reach };

    // That it is fit to be searched in.
    ghost ready: { Self → Type 0 };

    fn at_hand(&self) -> Search<'_>
        requires { ready self.now }
        ensures contents { result.declared.now ≡ contents self.now }
        ensures reach { result.reach ≡ reach self.now }
        ensures searchable { IsSearchable
            result.declared.now result.rules.now result.reach result.workers };
}

impl Searching for Search<'_> {
    ghost contents = { λ s. s.declared.now };

    ghost reach = { λ s. s.reach };

    ghost ready = { λ s. IsSearchable s.declared.now s.rules.now s.reach s.workers };

    fn at_hand(&self) -> Search<'_> {
        *self
    }
}

// The same, of what is searched in by its trait.
fn solved_over<T: Searching, R: Threads + Sync, G: Gate, A: AxiomSolver>(
    rt: &R,
    gate: &G,
    searching: &T,
    solver: &A,
    given: Pairs,
) -> Result<SolvedModulo, NoMemory>
    requires ready { T.ready searching.now }
    requires given { AreSides (T.contents searching.now).signature given.pairs }
    requires solver { IsModuleSolver (T.contents searching.now)
        (A.signature solver.now) (A.most_unifiers solver.now) (A.most_symbols solver.now) }
    ensures { IfOk result (IsSolvedBy (T.contents searching.now) (T.reach searching.now)
        (A.drawn solver.now) given.pairs) }
{
    let own = searching.at_hand();
    let r = solved_by(rt, gate, &own, solver, given)?;
    Ok(r)
}

// The same, by what keeps answers: that it may be shared is shown where the module is not seen.
fn solved_with<T: Searching, N: Named<A> + Send + Sync, R: Threads + Sync, G: Gate, A: AxiomSolver>(
    rt: &R,
    gate: &G,
    searching: &T,
    keeping: &Remembering<'_, A, N>,
    given: Pairs,
) -> Result<SolvedModulo, NoMemory>
    requires ready { T.ready searching.now }
    requires given { AreSides (T.contents searching.now).signature given.pairs }
    requires solver { IsModuleSolver (T.contents searching.now)
        (A.signature keeping.now.solver.now) (A.most_unifiers keeping.now.solver.now)
        (A.most_symbols keeping.now.solver.now) }
    ensures { IfOk result (IsSolvedBy (T.contents searching.now) (T.reach searching.now)
        (A.drawn keeping.now.solver.now) given.pairs) }
{
    let r = solved_over(rt, gate, searching, keeping, given)?;
    Ok(r)
}

// The same, by a solver whose answers are kept meanwhile.
fn solved_keeping<
    T: Searching,
    N: Named<A> + Send + Sync,
    R: Threads + Sync,
    G: Gate,
    A: AxiomSolver,
>(
    rt: &R,
    gate: &G,
    alloc: Global,
    searching: &T,
    solver: &A,
    given: Pairs,
) -> Result<SolvedModulo, NoMemory>
    requires named { N.value ≡ Some solver.now }
    requires ready { T.ready searching.now }
    requires given { AreSides (T.contents searching.now).signature given.pairs }
    requires solver { IsModuleSolver (T.contents searching.now)
        (A.signature solver.now) (A.most_unifiers solver.now) (A.most_symbols solver.now) }
    ensures { IfOk result (IsSolvedBy (T.contents searching.now) (T.reach searching.now)
        (A.drawn solver.now) given.pairs) }
{
    let keeping = Remembering::<A, N>::new(alloc, solver)?;
    let r = solved_with(rt, gate, searching, &keeping, given)?;
    Ok(r)
}

// What is found of the unifiers of pairs in the theory of the module.
pub(crate) fn solved<R: Threads + Sync, G: Gate>(
    rt: &R,
    gate: &G,
    search: &Search<'_>,
    given: Pairs,
) -> Result<SolvedModulo, NoMemory>
    requires search { IsSearchable
        search.now.declared.now search.now.rules.now search.now.reach search.now.workers }
    requires given { AreSides search.now.declared.now.signature given.pairs }
    ensures { IfOk result (IsSolvedIn search.now.declared.now search.now.reach given.pairs) }
{
    let kept = SolveLimits {
        unifiers: UNIFIERS,
        size: TERM_SYMBOLS,
    };
    let solver = AxiomUnify::new(search.declared.signature(), kept);
    let r = solved_keeping::<_, Brand, R, G, _>(rt, gate, search.alloc, search, &solver, given)?;
    Ok(r)
}
