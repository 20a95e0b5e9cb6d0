//! The variables of a term, in order of first occurrence.
ghost use Rattle.std.specs.Prelude.{◌≡◌, OnOk};
ghost use Rattle.std.specs.List.{list_any};
ghost use Rattle.fvn_terms.specs.Plain.{term};
ghost use Rattle.fvn_terms.specs.Substitution.{same_var};
ghost use Rattle.fvn_problems.specs.Variables.{with_variable, with_variables, with_all};

use fvn_terms::{Args, NoMemory, Plain, Var};

// Whether the two variables are one.
fn is_same(x: Var, y: Var) -> bool
    ensures { result ≡ same_var x y }
{
    let fresh = (x.fresh && y.fresh) || (!x.fresh && !y.fresh);
    x.name == y.name && x.sort.0 == y.sort.0 && fresh
}

// Whether the variable is among these.
fn has_variable(vars: &[Var], x: Var) -> bool
    ensures { result ≡ list_any (same_var x) vars.now }
{
    vars.iter().any(|y| is_same(x, *y))
}

// Puts a variable at the end where it is new.
fn add_variable(vars: &mut Vec<Var>, x: Var) -> Result<(), NoMemory>
    ensures { OnOk result (vars.new.items ≡ with_variable vars.old.items x) }
{
    if !has_variable(vars.as_slice(), x) {
        vars.push(x)?;
    }
    Ok(())
}

/// Puts the new variables of a term at the end, from left to right.
#[cycle(variables)]
pub fn add_variables(vars: &mut Vec<Var>, t: &Plain) -> Result<(), NoMemory>
    ensures { OnOk result (vars.new.items ≡ with_variables vars.old.items (term t.now)) }
{
    match t {
        Plain::Var(x) => add_variable(vars, *x)?,
        Plain::App(_, us) => add_all(vars, us)?,
    }
    Ok(())
}

// The variables of all the terms behind those that are there.
#[cycle(variables)]
fn add_all(vars: &mut Vec<Var>, us: &Args) -> Result<(), NoMemory>
    ensures { OnOk result (vars.new.items ≡ with_all vars.old.items us.now) }
{
    for u in &us.items {
        add_variables(vars, u)?;
    }
    Ok(())
}
