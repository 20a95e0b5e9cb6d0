//! The problem of a part and a left side, and the fault to which the solver's answer leads.
ghost use Rattle.std.specs.Prelude.{◌≡◌, ◌∷◌, [], IfOk};
ghost use Rattle.fvn_critical.specs.inner.Ends.{solver_fault};

use crate::fault::CriticalFault;
use fvn_base::Seq;
use fvn_flat::{Flat, Pairs, SolveEnd, Solved};
use fvn_terms::NoMemory;
use std::alloc::Global;

// The problem whose one pair these are.
pub(crate) fn problem(alloc: Global, at: &Flat, left: &Flat) -> Result<Pairs, NoMemory>
    ensures { IfOk result (λ given. given.pairs ≡ (at.now, left.now) ∷ []) }
{
    let mut pairs = Vec::new(alloc);
    let first = at.copy(alloc)?;
    let second = left.copy(alloc)?;
    pairs.push((first, second))?;
    Ok(Pairs {
        pairs: Seq::from_vec(pairs),
    })
}

// The fault to which the answer to a problem leads.
pub(crate) fn solver_fault(given: Pairs, solved: Solved) -> Option<CriticalFault>
    ensures { result ≡ solver_fault given solved }
{
    let Solved {
        unifiers,
        next_fresh: _,
        end,
    } = solved;
    match end {
        SolveEnd::Complete => None,
        SolveEnd::Basis(f, system) => Some(CriticalFault::Basis(f, system)),
        SolveEnd::Unifiers => Some(CriticalFault::Unifiers(given, unifiers)),
        SolveEnd::Size(cause) => Some(CriticalFault::Size(cause)),
    }
}
