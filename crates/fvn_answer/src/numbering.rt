//! Numberings of the variables of values.
ghost use Rattle.std.specs.Prelude.{◌≡◌, [], ◌∷◌, IfOk, OnOk};
ghost use Rattle.fvn_flat.specs.Variables.{with_variable, with_variables};
ghost use Rattle.fvn_answer.specs.Numberings.{IsNumbering};
ghost use Rattle.fvn_answer.specs.Lines.{forms_in};
ghost use Rattle.fvn_answer.specs.inner.Shown.{shown, with_values};

use crate::printed::Printed;
use fvn_flat::{Flat, Subst, is_listed};
use fvn_terms::{NoMemory, Var};
use std::alloc::Global;

/// The most variables of a line for which the numbering is the one that gives the least text.
pub const FEW_VARIABLES: usize = 6;

// Puts a variable at the end where it is new.
fn add_variable(vars: &mut Vec<Var>, x: Var) -> Result<(), NoMemory>
    ensures { OnOk result (vars.new.items ≡ with_variable vars.old.items x) }
{
    if !is_listed(vars.as_slice(), x) {
        vars.push(x)?;
    }
    Ok(())
}

// Puts the new variables of a term at the end.
fn add_variables(vars: &mut Vec<Var>, t: &Flat) -> Result<(), NoMemory>
    ensures { OnOk result (vars.new.items ≡ with_variables t.now vars.old.items) }
{
    match t.as_var() {
        Some(x) => add_variable(vars, x),
        None => {
            for u in t.args() {
                add_variables(vars, u)?;
            }
            Ok(())
        }
    }
}

// Puts the new variables of a variable's value at the end.
fn add_value(vars: &mut Vec<Var>, subst: &Subst, x: Var) -> Result<(), NoMemory>
    ensures { OnOk result (vars.new.items ≡ with_values subst.now (x ∷ []) vars.old.items) }
{
    match subst.get(x) {
        Some(t) => add_variables(vars, t),
        None => add_variable(vars, x),
    }
}

// Puts the new variables of the values of variables at the end.
fn add_values(vars: &mut Vec<Var>, subst: &Subst, list: &[Var]) -> Result<(), NoMemory>
    ensures { OnOk result (vars.new.items ≡ with_values subst.now list.now vars.old.items) }
{
    for x in list {
        add_value(vars, subst, *x)?;
    }
    Ok(())
}

/// The variables of what is printed, in order of first occurrence.
pub(crate) fn variables(alloc: Global, printed: &Printed<'_>) -> Result<Vec<Var>, NoMemory>
    ensures { IfOk result (λ vars. IsNumbering (forms_in (shown printed.now)) vars.items) }
{
    let mut vars = Vec::new(alloc);
    match printed {
        Printed::Alone(t) => {
            add_variables(&mut vars, t)?;
            Ok(vars)
        }
        Printed::Values(subst, list) => {
            add_values(&mut vars, subst, list)?;
            Ok(vars)
        }
        Printed::Variant(t, subst, list) => {
            add_variables(&mut vars, t)?;
            add_values(&mut vars, subst, list)?;
            Ok(vars)
        }
    }
}
