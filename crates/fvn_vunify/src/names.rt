//! Fresh names for the variables of a variant.
ghost use Rattle.std.specs.Prelude.{◌≡◌, IfOk};
ghost use Rattle.fvn_flat.specs.Bindings.{value};
ghost use Rattle.fvn_flat.specs.Variables.{with_variables};
ghost use Rattle.fvn_vunify.specs.inner.Names.{variables_of_values, AreFreshNames};

use fvn_base::limits::FIRST_FRESH;
use fvn_cover::Variant;
use fvn_flat::{Subst, fresh_variables, with_variable};
use fvn_terms::{NoMemory, Var};
use std::alloc::Global;

// The variables with those of what the substitution makes of one more.
fn with_value(subst: &Subst, x: Var, vars: Vec<Var>) -> Result<Vec<Var>, NoMemory>
    ensures { IfOk result (λ all. all.items ≡ with_variables (value subst.now x) vars.items) }
{
    match subst.get(x) {
        Some(t) => {
            let all = t.with_variables(vars)?;
            Ok(all)
        }
        None => {
            let all = with_variable(vars, x)?;
            Ok(all)
        }
    }
}

// The variables of what a variant makes of its variables, each once.
fn variables_of_values(alloc: Global, v: &Variant) -> Result<Vec<Var>, NoMemory>
    ensures { IfOk result (λ vars. vars.items ≡ variables_of_values v.now) }
{
    let mut vars = Vec::new(alloc);
    for x in v.vars.as_slice() {
        vars = with_value(&v.subst, *x, vars)?;
    }
    Ok(vars)
}

// Fresh variables for all variables of a variant, and the next number; no memory for too many.
pub(crate) fn fresh_names(alloc: Global, v: &Variant) -> Result<(Subst, u32), NoMemory>
    ensures { IfOk result (λ r. AreFreshNames v.now r.0 r.1) }
{
    let vars = variables_of_values(alloc, v)?;
    if vars.len() > FIRST_FRESH as usize {
        return Err(NoMemory);
    }
    let (names, next) = fresh_variables(alloc, vars.as_slice(), 0)?;
    Ok((names, next))
}
