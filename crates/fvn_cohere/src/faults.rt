//! Left sides that are at fault.
ghost use Rattle.std.specs.Prelude.{◌≡◌, All, MatchOption, IfOk};
ghost use Rattle.fvn_terms.specs.Plain.{term};
ghost use Rattle.fvn_theory.specs.Equations.{IsReadableEquation, equations_of};
ghost use Rattle.fvn_cohere.specs.Promises.{IsNumberIn, OfEquation};
ghost use Rattle.fvn_cohere.specs.LeftFaults.{IsHarmless, AreHarmless, IsLeftFault, IsFirstLeftFault};
ghost use Rattle.fvn_cohere.specs.inner.Collapsing.{fault_of_collapse};

use crate::collapsing::{Collapse, left_collapses};
use crate::fitting::instances_fit;
use fvn_signature::Signature;
use fvn_terms::NoMemory;
use fvn_theory::Equation;
use std::alloc::Global;

/// What is wrong with the left side of an equation, by the number of the equation from 1.
#[derive(Debug, Clone, Copy, PartialEq, Eq)]
pub enum LeftFault {
    TooManyInstances(usize),
    BecomesVariable(usize),
    BecomesIdentity(usize),
}

// What is wrong where the left side of the equation of this number collapses so.
fn fault_of_collapse(number: usize, collapse: Option<Collapse>) -> Option<LeftFault>
    ensures { result ≡ fault_of_collapse number collapse }
{
    match collapse {
        None => None,
        Some(c) => match c {
            Collapse::Variable => Some(LeftFault::BecomesVariable(number)),
            Collapse::Identity => Some(LeftFault::BecomesIdentity(number)),
        },
    }
}

// What is wrong with the left side of the equation of this number.
fn left_fault(
    alloc: Global,
    sig: &Signature,
    equations: &[Equation],
    number: usize,
) -> Result<Option<LeftFault>, NoMemory>
    requires number { IsNumberIn equations.now number }
    requires readable { All (IsReadableEquation sig.now) equations.now }
    ensures { IfOk result (λ f. OfEquation equations.now number (λ e. MatchOption f
        (IsHarmless sig.now (term e.left))
        (IsLeftFault sig.now number (term e.left)))) }
{
    let fit = instances_fit(alloc, sig, equations, number)?;
    if !fit {
        return Ok(Some(LeftFault::TooManyInstances(number)));
    }
    let collapse = left_collapses(alloc, sig, equations, number)?;
    Ok(fault_of_collapse(number, collapse))
}

/// What is wrong with the first left side that is at fault: it has too many instances, or becomes a
/// variable, or becomes an identity, where some, perhaps none, of its variables are identities. None
/// where no left side is.
///
/// Of each equation it is asked in this order, so that collapses are sought among few instances.
pub fn first_left_fault(
    alloc: Global,
    sig: &Signature,
    equations: &[Equation],
) -> Result<Option<LeftFault>, NoMemory>
    requires { All (IsReadableEquation sig.now) equations.now }
    ensures { IfOk result (λ f. MatchOption f
        (AreHarmless sig.now (equations_of equations.now))
        (IsFirstLeftFault sig.now (equations_of equations.now))) }
{
    for i in 0..equations.len() {
        let fault = left_fault(alloc, sig, equations, i + 1)?;
        if let Some(wrong) = fault {
            return Ok(Some(wrong));
        }
    }
    Ok(None)
}
