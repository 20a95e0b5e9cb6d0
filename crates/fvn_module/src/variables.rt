//! The variables of terms.
ghost use Rattle.std.specs.Prelude.{IsTrue, ◌↔◌};
ghost use Rattle.fvn_terms.specs.Plain.{term};
ghost use Rattle.fvn_terms.specs.Substitution.{Occurs, OccursAmong};
ghost use Rattle.fvn_module.specs.inner.Sides.{AllOccur, AllOfAllOccur};

use fvn_terms::{Args, Plain, Var};

// Whether the variable is one of the term.
#[cycle(occurs)]
fn occurs(t: &Plain, x: Var) -> bool
    ensures { IsTrue result ↔ Occurs x (term t.now) }
{
    match t {
        Plain::Var(y) => x == *y,
        Plain::App(_, us) => occurs_among(us, x),
    }
}

// Whether the variable occurs in one of the terms.
#[cycle(occurs)]
fn occurs_among(us: &Args, x: Var) -> bool
    ensures { IsTrue result ↔ OccursAmong x us.now }
{
    for u in &us.items {
        if occurs(u, x) {
            return true;
        }
    }
    false
}

/// Whether each variable of the first term is one of the second.
#[cycle(brings)]
pub fn brings_none(right: &Plain, left: &Plain) -> bool
    ensures { IsTrue result ↔ AllOccur (term left.now) (term right.now) }
{
    match right {
        Plain::Var(x) => occurs(left, *x),
        Plain::App(_, us) => all_bring_none(us, left),
    }
}

// Whether all variables of all the terms occur in the left side.
#[cycle(brings)]
fn all_bring_none(us: &Args, left: &Plain) -> bool
    ensures { IsTrue result ↔ AllOfAllOccur (term left.now) us.now }
{
    for u in &us.items {
        if !brings_none(u, left) {
            return false;
        }
    }
    true
}
