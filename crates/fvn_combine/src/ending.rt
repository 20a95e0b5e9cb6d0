//! Why no more unifiers come.
ghost use Rattle.std.specs.Prelude.{◌≡◌, IfOk};
ghost use Rattle.fvn_combine.specs.Endings.{IsToldBy};

use fvn_base::Seq;
use fvn_combine_drawing::copied_system;
use fvn_flat::{Flat, SolvedList};
use fvn_lindio::System;
use fvn_terms::{NoMemory, OpId, Var};
use std::alloc::Global;

/// Why a search has ended.
pub(crate) enum Ended {
    /// The sum system of an operator is refused.
    Basis(OpId, System),
    /// A solved list unfolds to a term with too many symbols.
    Size(SolvedList),
}

impl Drop for Ended {
    fn drop(self) {
        match self {
            Ended::Basis(_, _) => {}
            Ended::Size(_) => {}
        }
    }
}

/// Why a combiner gives no more unifiers.
#[derive(Drop)]
pub enum CombineEnd {
    /// The sum system of an operator has too many minimal solutions, or too large ones.
    Basis(OpId, System),
    /// The list unfolds to a term with more symbols than were allowed.
    Size(SolvedList),
    /// Memory was refused; the combiner stands where it was.
    NoMemory,
}

impl From<NoMemory> for CombineEnd {
    ghost use Rattle.std.specs.Prelude.{◌≡◌};
    ghost use Rattle.fvn_combine.specs.declared.ending.CombineEnd.TheVariants.{NoMemory as OutOfMemory};

    ghost from_gives = { λ _ end. end ≡ OutOfMemory };

    fn from(_error: NoMemory) -> CombineEnd {
        CombineEnd::NoMemory
    }
}

// The bindings, in memory of their own.
fn copied_bindings(alloc: Global, bindings: &[(Var, Flat)]) -> Result<Vec<(Var, Flat)>, NoMemory>
    ensures { IfOk result (λ v. v.items ≡ bindings.now) }
{
    let mut copies = Vec::new(alloc);
    for (x, t) in bindings {
        let term = t.copy(alloc)?;
        copies.push((*x, term))?;
    }
    Ok(copies)
}

// The list, in memory of its own.
fn copied_list(alloc: Global, list: &SolvedList) -> Result<SolvedList, NoMemory>
    ensures { IfOk result (λ l. l ≡ list.now) }
{
    let bindings = copied_bindings(alloc, list.bindings.as_slice())?;
    Ok(SolvedList {
        bindings: Seq::from_vec(bindings),
    })
}

// What is told of the cause.
pub(crate) fn told(alloc: Global, ended: &Ended) -> Result<CombineEnd, NoMemory>
    ensures { IfOk result (IsToldBy ended.now) }
{
    match ended {
        Ended::Basis(f, system) => {
            let copy = copied_system(alloc, system)?;
            Ok(CombineEnd::Basis(*f, copy))
        }
        Ended::Size(list) => {
            let copy = copied_list(alloc, list)?;
            Ok(CombineEnd::Size(copy))
        }
    }
}
