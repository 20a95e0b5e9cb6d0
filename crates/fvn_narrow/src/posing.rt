//! The problem of a part and a left side, and the end that its answer leads to.
ghost use Rattle.std.specs.Prelude.{◌≡◌, ◌↔◌, ◌∷◌, [], IsTrue, IfOk};
ghost use Rattle.fvn_exploring.specs.declared.ends.ExpandEnd.TheVariants.{Whole};
ghost use Rattle.fvn_narrow.specs.inner.Ends.{AreEnded, solver_end};

use fvn_base::Seq;
use fvn_exploring::{ExpandEnd, Expansion};
use fvn_flat::{Flat, Pairs, SolveEnd, Solved};
use fvn_terms::NoMemory;
use std::alloc::Global;

// The problem whose one pair these are.
pub(crate) fn problem(alloc: Global, at: &Flat, left: &Flat) -> Result<Pairs, NoMemory>
    ensures { IfOk result (λ given. given.pairs ≡ (at.now, left.now) ∷ []) }
{
    let mut pairs = Vec::new(alloc);
    let first = at.copy(alloc)?;
    let second = left.copy(alloc)?;
    pairs.push((first, second))?;
    Ok(Pairs {
        pairs: Seq::from_vec(pairs),
    })
}

// The end that the answer to a problem leads to.
fn end_of(given: Pairs, solved: Solved) -> ExpandEnd
    ensures { result ≡ solver_end given solved }
{
    let Solved {
        unifiers,
        next_fresh: _,
        end,
    } = solved;
    match end {
        SolveEnd::Complete => ExpandEnd::Whole,
        SolveEnd::Basis(f, system) => ExpandEnd::Basis(f, system),
        SolveEnd::Unifiers => ExpandEnd::Unifiers(given, unifiers),
        SolveEnd::Size(cause) => ExpandEnd::Size(cause),
    }
}

// Whether it is the end of what did not stop.
pub(crate) fn is_whole(end: &ExpandEnd) -> bool
    ensures { IsTrue result ↔ (end.now ≡ Whole) }
{
    match end {
        ExpandEnd::Whole => true,
        ExpandEnd::Steps(_, _) => false,
        ExpandEnd::Size(_) => false,
        ExpandEnd::Basis(_, _) => false,
        ExpandEnd::Unifiers(_, _) => false,
    }
}

// The children with the end at which they stopped, or else that to which the answer leads.
pub(crate) fn ended(given: Pairs, solved: Solved, grown: Expansion) -> Expansion
    ensures { AreEnded given solved grown result }
{
    let (children, end) = grown.into_parts();
    if is_whole(&end) {
        return Expansion {
            children,
            end: end_of(given, solved),
        };
    }
    Expansion { children, end }
}
