//! The variables of patterns, and whether there are any.
ghost use Rattle.std.specs.Prelude.{◌≡◌, ◌++◌, map, IsTrue, IfOk};
ghost use Rattle.fvn_terms.specs.Substitution.{Occurs};
ghost use Rattle.fvn_terms.specs.Variants.{OccursInSome};
ghost use Rattle.fvn_forms.specs.Flat.{plain};
ghost use Rattle.fvn_match.specs.inner.Variables.{AreOnce, Collects, AreVariablesOf, IsClosed};

use fvn_flat::{Flat, is_listed};
use fvn_terms::{NoMemory, Var};
use std::alloc::Global;

// The variables with one more at the end, if it is not there yet.
fn with_variable(vars: Vec<Var>, x: Var) -> Result<Vec<Var>, NoMemory>
    requires { AreOnce vars.items }
    ensures { IfOk result (λ all. Collects vars.items (λ y. y ≡ x) all.items) }
{
    let mut all = vars;
    if is_listed(all.as_slice(), x) {
        return Ok(all);
    }
    all.push(x)?;
    Ok(all)
}

// The variables with those of a term that are not there yet.
fn with_variables(t: &Flat, vars: Vec<Var>) -> Result<Vec<Var>, NoMemory>
    requires { AreOnce vars.items }
    ensures { IfOk result (λ all. Collects vars.items (λ y. Occurs y (plain t.now)) all.items) }
{
    match t.as_var() {
        Some(x) => {
            let all = with_variable(vars, x)?;
            Ok(all)
        }
        None => {
            let mut all = vars;
            for u in t.args() {
                all = with_variables(u, all)?;
            }
            Ok(all)
        }
    }
}

// The variables with those of the patterns that are not there yet.
fn with_all_variables(vars: Vec<Var>, patterns: &[Flat]) -> Result<Vec<Var>, NoMemory>
    requires { AreOnce vars.items }
    ensures { IfOk result (λ all. Collects vars.items (λ y. OccursInSome y
        (map plain patterns.now)) all.items) }
{
    let mut all = vars;
    for p in patterns {
        all = with_variables(p, all)?;
    }
    Ok(all)
}

// The variables of the patterns of two lists, each once.
pub(crate) fn variables(
    alloc: Global,
    patterns: &[Flat],
    others: &[Flat],
) -> Result<Vec<Var>, NoMemory>
    ensures { IfOk result (λ all. AreVariablesOf (patterns.now ++ others.now) all.items) }
{
    let none = Vec::new(alloc);
    let some = with_all_variables(none, patterns)?;
    let all = with_all_variables(some, others)?;
    Ok(all)
}

// Whether no variable stands in the term.
pub(crate) fn is_closed(t: &Flat) -> bool
    ensures { IsTrue result → IsClosed t.now }
{
    match t.as_var() {
        Some(_) => false,
        None => {
            for u in t.args() {
                if !is_closed(u) {
                    return false;
                }
            }
            true
        }
    }
}
