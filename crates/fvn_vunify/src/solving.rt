//! What is found for one variant.
ghost use Rattle.std.specs.Prelude.{◌≡◌, IfOk};
ghost use Rattle.fvn_vunify.specs.Solved.{IsSolverFor, DrawsWithin};
ghost use Rattle.fvn_vunify.specs.inner.Attempts.{IsSolvable, IsAttempt};

use crate::attempts::{Attempt, tested};
use crate::ends::{end_of_pairs, first_end};
use crate::meeting::some_never_meet;
use crate::names::fresh_names;
use crate::pairs::pairs_under;
use fvn_cover::Variant;
use fvn_exploring::{ExpandEnd, Expander};
use fvn_flat::AxiomSolver;
use fvn_rewrite_laws::{agreement_is_lawful, sequences_are_lawful};
use fvn_signature::Signature;
use fvn_terms::{NoMemory, Var};
use std::alloc::Global;

// What is found for the pairs of a variant, its variables renamed; nothing, unasked, where one pair never meets.
pub(crate) fn solve_variant<E: Expander, A: AxiomSolver>(
    alloc: Global,
    sig: &Signature,
    expander: &E,
    solver: &A,
    vars: &[Var],
    v: &Variant,
) -> Result<Attempt, NoMemory>
    requires sig { sig.now ≡ (E.setting expander.now).declarations }
    requires solver { IsSolverFor (E.setting expander.now) (A.signature solver.now)
        (A.most_unifiers solver.now) (A.most_symbols solver.now) }
    requires draws { DrawsWithin (A.drawn solver.now) (E.drawn expander.now) }
    requires solvable { IsSolvable (E.setting expander.now) vars.now v.now }
    ensures { IfOk result (λ a. IsAttempt (E.setting expander.now) (E.drawn expander.now)
        vars.now v.now a.found.items a.end) }
{
    sequences_are_lawful();
    agreement_is_lawful();
    sig.recall_good();
    let apart = some_never_meet(sig, v.terms.as_slice());
    if apart {
        return Ok(Attempt {
            found: Vec::new(alloc),
            end: ExpandEnd::Whole,
        });
    }
    let (names, next) = fresh_names(alloc, v)?;
    let given = pairs_under(alloc, sig, &names, v.terms.as_slice())?;
    let solved = solver.solve(alloc, &given, next)?;
    let renamed = v.subst.compose(alloc, sig, &names)?;
    let unifiers = solved.unifiers.as_slice();
    let attempt = tested(alloc, sig, expander, vars, &renamed, unifiers)?;
    let stop = end_of_pairs(given, solved.unifiers, solved.end);
    Ok(Attempt {
        found: attempt.found,
        end: first_end(stop, attempt.end),
    })
}
