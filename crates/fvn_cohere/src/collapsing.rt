//! Left sides that collapse.
ghost use Rattle.std.specs.Prelude.{All, IfOk};
ghost use Rattle.fvn_terms.specs.Plain.{term};
ghost use Rattle.fvn_terms.specs.Signature.{IsTerm};
ghost use Rattle.fvn_theory.specs.Equations.{IsReadableEquation};
ghost use Rattle.fvn_cohere.specs.Promises.{IsNumberIn, OfEquation, CollapsesAs};

use crate::choosing::unchosen;
use crate::equations::equation_at;
use crate::identities::identities;
use crate::searching::{Search, Sought};
use crate::shapes::Chosen;
use crate::variables::distinct_variables;
use fvn_signature::Signature;
use fvn_terms::{NoMemory, Plain};
use fvn_theory::Equation;
use std::alloc::Global;

/// What a left side collapses to where some, perhaps none, of its variables are identities.
#[derive(Debug, Clone, Copy, PartialEq, Eq)]
pub enum Collapse {
    Variable,
    Identity,
}

// What a left side collapses to.
fn collapses(alloc: Global, sig: &Signature, left: &Plain) -> Result<Option<Collapse>, NoMemory>
    requires { IsTerm sig.now (term left.now) }
    ensures { IfOk result (CollapsesAs sig.now (term left.now)) }
{
    sig.recall_good();
    sig.recall_completed();
    let es = identities(alloc, sig)?;
    let ids = es.as_slice();
    let vars = distinct_variables(alloc, left)?;
    let list = vars.as_slice();
    let all = unchosen(alloc, sig, ids, Sought::ToVariable, list)?;
    let left_over = all.as_slice();
    let search = Search {
        sig,
        identities: ids,
        sought: Sought::ToVariable,
        left,
        right: left,
        unchosen: left_over,
    };
    if search.find(0, &Chosen::Nothing) {
        return Ok(Some(Collapse::Variable));
    }
    let again = Search {
        sig,
        identities: ids,
        sought: Sought::ToIdentity,
        left,
        right: left,
        unchosen: left_over,
    };
    if again.find(0, &Chosen::Nothing) {
        return Ok(Some(Collapse::Identity));
    }
    Ok(None)
}

/// What the left side of an equation, by its number from 1, collapses to: to a variable, or else to an
/// identity.
///
/// It goes through the choices of identities for its variables, and leaves a branch where the left side
/// can be neither in it; `instances_fit` says whether they are few enough at worst.
pub fn left_collapses(
    alloc: Global,
    sig: &Signature,
    equations: &[Equation],
    number: usize,
) -> Result<Option<Collapse>, NoMemory>
    requires number { IsNumberIn equations.now number }
    requires readable { All (IsReadableEquation sig.now) equations.now }
    ensures { IfOk result (λ c.
        OfEquation equations.now number (λ e. CollapsesAs sig.now (term e.left) c)) }
{
    let e = equation_at(equations, number);
    let collapse = collapses(alloc, sig, &e.left)?;
    Ok(collapse)
}
