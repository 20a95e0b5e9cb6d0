//! The variables of a term, each once.
ghost use Rattle.std.specs.Prelude.{◌≡◌, fold, IfOk};
ghost use Rattle.fvn_terms.specs.Plain.{term};
ghost use Rattle.fvn_flat.specs.Variables.{with_variable};
ghost use Rattle.fvn_flat.specs.Problems.{variables, variables_among};
ghost use Rattle.fvn_rewrite_laws.specs.Choices.{distinct_variables_of};

use fvn_flat::with_variable;
use fvn_terms::{Args, NoMemory, Plain, Var};
use std::alloc::Global;

// The variables with those of a term that are not there yet.
#[cycle(with_variables)]
fn with_variables(vars: Vec<Var>, t: &Plain) -> Result<Vec<Var>, NoMemory>
    ensures { IfOk result (λ all. all.items ≡
        fold with_variable vars.items (variables (term t.now))) }
{
    match t {
        Plain::Var(x) => {
            let all = with_variable(vars, *x)?;
            Ok(all)
        }
        Plain::App(_, us) => {
            let all = with_variables_among(vars, us)?;
            Ok(all)
        }
    }
}

// The same for arguments, one after another.
#[cycle(with_variables)]
fn with_variables_among(vars: Vec<Var>, us: &Args) -> Result<Vec<Var>, NoMemory>
    ensures { IfOk result (λ all. all.items ≡
        fold with_variable vars.items (variables_among us.now)) }
{
    let mut all = vars;
    for u in &us.items {
        all = with_variables(all, u)?;
    }
    Ok(all)
}

/// The variables of a term, each once, in order of first occurrence.
pub fn distinct_variables(alloc: Global, t: &Plain) -> Result<Vec<Var>, NoMemory>
    ensures { IfOk result (λ all. all.items ≡ distinct_variables_of (term t.now)) }
{
    let all = with_variables(Vec::new(alloc), t)?;
    Ok(all)
}

// The variables of two terms, each once, those of the first term first.
pub(crate) fn variables_of_both(
    alloc: Global,
    first: &Plain,
    second: &Plain,
) -> Result<Vec<Var>, NoMemory>
    ensures { IfOk result (λ all. all.items ≡
        fold with_variable (distinct_variables_of (term first.now)) (variables (term second.now))) }
{
    let own = distinct_variables(alloc, first)?;
    let all = with_variables(own, second)?;
    Ok(all)
}
