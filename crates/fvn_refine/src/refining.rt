//! All maximal ways to give sorts to the variables of a substitution.
ghost use Rattle.std.specs.Prelude.{◌≡◌, ◌↔◌, [], map, IfOk, IsSome, IsTrue, All};
ghost use Rattle.fvn_terms.specs.Signature.{kind, IsSort};
ghost use Rattle.fvn_forms.specs.Flat.{fvar};
ghost use Rattle.fvn_flat.specs.Bindings.{bound, value, BindingsFit};
ghost use Rattle.fvn_flat.specs.Fits.{Fits};
ghost use Rattle.fvn_refine.specs.Refinements.{AreBound, AreRefinements, HasNoWay, HaveTheirSorts};
ghost use Rattle.fvn_refine.specs.inner.Rows.{IsRow, HasAbove, IsAntichain};
ghost use Rattle.fvn_refine.specs.inner.Found.{AreRows, Finds, IsUnder, AreAllUnder, HaveSorts};

use crate::direct::greatest;
use crate::lowering::Search;
use crate::ordering::all_in_place;
use crate::places::beside;
use crate::resorting::all_resorted;
use crate::rows::alone;
use crate::variables::variables_of_terms;
use fvn_base::Seq;
use fvn_flat::{Flat, Subst};
use fvn_signature::Signature;
use fvn_terms::{NoMemory, SortId, Var};
use std::alloc::Global;

// The kinds of the variables.
fn kinds(alloc: Global, sig: &Signature, vars: &[Var]) -> Result<Vec<SortId>, NoMemory>
    ensures { IfOk result (λ row. row.items ≡ map (λ x. kind sig.now x.sort) vars.now) }
{
    let mut row = Vec::with_capacity(alloc, vars.len())?;
    for x in vars {
        row.push(sig.kind(x.sort))?;
    }
    Ok(row)
}

// Whether the row gives the variable the sort or one below it.
fn is_under(search: &Search, row: &[SortId], y: Var, s: SortId) -> bool
    requires { IsRow search.now.sig.now search.now.vars.now row.now }
    ensures { IsTrue result → IsUnder search.now.sig.now search.now.vars.now (fvar y) s row.now }
{
    let kind = search.sig.kind(y.sort);
    let here = beside(search.vars, row, y, kind);
    search.sig.leq(here, s)
}

// Whether each of the rows does.
fn are_under(search: &Search, rows: &[Seq<SortId>], y: Var, s: SortId) -> bool
    requires { AreRows search.now.sig.now search.now.vars.now rows.now }
    ensures { IsTrue result → AreAllUnder search.now.sig.now search.now.vars.now (fvar y) s
        rows.now }
{
    for row in rows {
        if !is_under(search, row.as_slice(), y, s) {
            return false;
        }
    }
    true
}

// Whether the term is a variable to which each of the rows gives the sort or one below it.
fn are_kept(search: &Search, rows: &[Seq<SortId>], t: &Flat, s: SortId) -> bool
    requires { AreRows search.now.sig.now search.now.vars.now rows.now }
    ensures { IsTrue result → AreAllUnder search.now.sig.now search.now.vars.now t.now s rows.now }
{
    match t.as_var() {
        Some(y) => are_under(search, rows, y, s),
        None => false,
    }
}

// The rows at or below one of these at which the term has the sort or one below it; these themselves where
// it is a variable to which they give that.
fn lower_term(
    search: &Search,
    rows: Vec<Seq<SortId>>,
    t: &Flat,
    s: SortId,
) -> Result<Vec<Seq<SortId>>, NoMemory>
    requires rows { AreRows search.now.sig.now search.now.vars.now rows.items }
    requires apart { IsAntichain search.now.sig.now rows.items }
    requires term { Fits search.now.sig.now t.now }
    ensures { let d = search.now.sig.now in let xs = search.now.vars.now in IfOk result (λ all.
        Finds d xs (λ m. HasAbove d rows.items m × IsUnder d xs t.now s m) all.items) }
{
    if are_kept(search, rows.as_slice(), t, s) {
        return Ok(rows);
    }
    let all = search.lower_rows(rows.as_slice(), t, s)?;
    Ok(all)
}

// The rows at or below one of these at which the variable has a value of its sort.
fn lower_value(
    search: &Search,
    rows: Vec<Seq<SortId>>,
    subst: &Subst,
    x: Var,
) -> Result<Vec<Seq<SortId>>, NoMemory>
    requires rows { AreRows search.now.sig.now search.now.vars.now rows.items }
    requires apart { IsAntichain search.now.sig.now rows.items }
    requires fits { BindingsFit search.now.sig.now subst.now }
    requires sort { IsSort search.now.sig.now x.sort }
    requires bound { IsSome (bound subst.now x) }
    ensures { let d = search.now.sig.now in let xs = search.now.vars.now in
        IfOk result (λ all. Finds d xs (λ m. HasAbove d rows.items m
        × IsUnder d xs (value subst.now x) x.sort m) all.items) }
{
    match subst.get(x) {
        Some(t) => {
            let all = lower_term(search, rows, t, x.sort)?;
            Ok(all)
        }
        None => Ok(rows),
    }
}

// The largest rows at which each of the variables has a value of its sort, of all that are below the row of kinds.
fn all_largest(search: &Search, subst: &Subst, vars: &[Var]) -> Result<Vec<Seq<SortId>>, NoMemory>
    requires fits { BindingsFit search.now.sig.now subst.now }
    requires bound { AreBound search.now.sig.now vars.now subst.now }
    ensures { let d = search.now.sig.now in let xs = search.now.vars.now in
        IfOk result (λ rows. Finds d xs (HaveSorts d xs subst.now vars.now) rows.items) }
{
    search.sig.recall_good();
    let start = kinds(search.alloc, search.sig, search.vars)?;
    let mut rows = alone(search.alloc, start.as_slice())?;
    for x in vars {
        rows = lower_value(search, rows, subst, *x)?;
    }
    Ok(rows)
}

// The largest rows at which each of the variables has a value of its sort: one alone where it is found without a search.
fn largest(search: &Search, subst: &Subst, vars: &[Var]) -> Result<Vec<Seq<SortId>>, NoMemory>
    requires fits { BindingsFit search.now.sig.now subst.now }
    requires bound { AreBound search.now.sig.now vars.now subst.now }
    ensures { let d = search.now.sig.now in let xs = search.now.vars.now in
        IfOk result (λ rows. Finds d xs (HaveSorts d xs subst.now vars.now) rows.items) }
{
    let start = kinds(search.alloc, search.sig, search.vars)?;
    match greatest(search, start, subst, vars) {
        Some(row) => {
            let mut rows = Vec::new(search.alloc);
            rows.push(Seq::from_vec(row))?;
            Ok(rows)
        }
        None => {
            let rows = all_largest(search, subst, vars)?;
            Ok(rows)
        }
    }
}

/// The substitution once for each maximal way to put sorts on its variables such that each of the listed variables
/// is bound to a term of its sort.
pub fn refine(
    alloc: Global,
    sig: &Signature,
    subst: &Subst,
    vars: &[Var],
) -> Result<Vec<Subst>, NoMemory>
    requires fits { BindingsFit sig.now subst.now }
    requires bound { AreBound sig.now vars.now subst.now }
    // Once for each maximal way, and for no other, in lexicographic order of the sorts' numbers.
    ensures exact { IfOk result (λ rs. AreRefinements sig.now vars.now subst.now rs.items) }
    ensures none { IfOk result (λ rs. (rs.items ≡ []) ↔ HasNoWay sig.now vars.now subst.now) }
    // Each is flat and well-kinded, and each of the variables has a value of its sort.
    ensures fit { IfOk result (λ rs. All (BindingsFit sig.now) rs.items) }
    ensures sorts { IfOk result (λ rs. All (HaveTheirSorts sig.now vars.now) rs.items) }
{
    sig.recall_good();
    let ys = variables_of_terms(alloc, subst)?;
    let variables = ys.as_slice();
    let search = Search {
        alloc,
        sig,
        vars: variables,
    };
    let rows = largest(&search, subst, vars)?;
    let ordered = all_in_place(alloc, rows)?;
    let placed = ordered.as_slice();
    let all = all_resorted(alloc, sig, subst, variables, placed)?;
    Ok(all)
}
