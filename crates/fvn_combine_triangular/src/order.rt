//! Bindings in an order in which no variable comes again once it was replaced.
ghost use Rattle.std.specs.Prelude.{◌≡◌, ◌≢◌, ◌↔◌, All, AllPairs, Contains, IfOk, OnOk, IsTrue, MatchOption};
ghost use Rattle.fvn_terms.specs.Substitution.{Occurs};
ghost use Rattle.fvn_forms.specs.Flat.{plain};
ghost use Rattle.fvn_combine_triangular.specs.inner.Ordering.{
  IsSourceAt,
  HasNoSource,
  HasNoOrder,
  IsOrderOf,
  HasListed,
  AreVarsOf,
  AreNotes,
};

use fvn_base::Seq;
use fvn_flat::Flat;
use fvn_terms::{NoMemory, Var};
use std::alloc::Global;

// Whether the variable is in the list.
fn is_listed(vars: &[Var], x: Var) -> bool
    ensures { IsTrue result ↔ Contains vars.now x }
{
    for y in vars {
        if *y == x {
            return true;
        }
    }
    false
}

// Adds a variable that is not listed yet.
fn add_var(vars: &mut Vec<Var>, x: Var) -> Result<(), NoMemory>
    ensures { OnOk result (HasListed vars.old.items vars.new.items (λ y. y ≡ x)) }
{
    if is_listed(vars.as_slice(), x) {
        return Ok(());
    }
    vars.push(x)?;
    Ok(())
}

// Adds the variables of a form.
fn add_vars(vars: &mut Vec<Var>, t: &Flat) -> Result<(), NoMemory>
    ensures { OnOk result (HasListed vars.old.items vars.new.items
        (λ y. Occurs y (plain t.now))) }
{
    if let Some(x) = t.as_var() {
        add_var(vars, x)?;
        return Ok(());
    }
    for u in t.args() {
        add_vars(vars, u)?;
    }
    Ok(())
}

// The variables of a form, each once.
fn vars_of(alloc: Global, t: &Flat) -> Result<Vec<Var>, NoMemory>
    ensures { IfOk result (λ v. AreVarsOf t.now v.items) }
{
    let mut vars = Vec::new(alloc);
    add_vars(&mut vars, t)?;
    Ok(vars)
}

// The variables of each form.
fn notes_of(alloc: Global, bindings: &[(Var, Flat)]) -> Result<Vec<Seq<Var>>, NoMemory>
    ensures { IfOk result (λ v. AreNotes bindings.now v.items) }
{
    let mut notes = Vec::with_capacity(alloc, bindings.len())?;
    for (_, t) in bindings {
        let vars = vars_of(alloc, t)?;
        notes.push(Seq::from_vec(vars))?;
    }
    Ok(notes)
}

// Whether the variable is in none of the lists.
fn is_in_none(notes: &[Seq<Var>], x: Var) -> bool
    ensures { IsTrue result ↔ All (λ w. Contains w x → ⊥) notes.now }
{
    for note in notes {
        if is_listed(note.as_slice(), x) {
            return false;
        }
    }
    true
}

// The last place at which a variable is bound that occurs in no form of the list.
fn source_of(bindings: &[(Var, Flat)], notes: &[Seq<Var>]) -> Option<usize>
    requires { AreNotes bindings.now notes.now }
    ensures { MatchOption result (HasNoSource bindings.now) (IsSourceAt bindings.now) }
{
    let mut i = bindings.len();
    while i > 0 {
        i -= 1;
        let (x, _) = &bindings[i];
        if is_in_none(notes, *x) {
            return Some(i);
        }
    }
    None
}

// The bindings in an order in which no variable that was replaced comes again; none where there is
// no such order.
pub(crate) fn in_order(
    alloc: Global,
    bindings: Vec<(Var, Flat)>,
) -> Result<Option<Vec<(Var, Flat)>>, NoMemory>
    requires { AllPairs (λ a b. a.0 ≢ b.0) bindings.items }
    ensures { IfOk result (λ o. MatchOption o (HasNoOrder bindings.items)
        (λ v. IsOrderOf bindings.items v.items)) }
{
    // A value may have thousands of summands, so its variables are listed once.
    let mut notes = notes_of(alloc, bindings.as_slice())?;
    let mut rest = bindings;
    let mut placed = Vec::with_capacity(alloc, rest.len())?;
    while let Some(i) = source_of(rest.as_slice(), notes.as_slice()) {
        let binding = rest.remove(i);
        let _note = notes.remove(i);
        placed.push(binding)?;
    }
    if rest.is_empty() {
        return Ok(Some(placed));
    }
    Ok(None)
}
