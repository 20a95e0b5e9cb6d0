//! Substitutions with their variables at the sorts of a row.
ghost use Rattle.std.specs.Prelude.{◌≡◌, IfOk, All, is_some};
ghost use Rattle.std.specs.List.{AllZip};
ghost use Rattle.fvn_flat.specs.Bindings.{bound, BindingsFit};
ghost use Rattle.fvn_refine.specs.Refinements.{variables_of_terms, IsAtSorts};
ghost use Rattle.fvn_refine.specs.inner.Rows.{IsRow, way_of};
ghost use Rattle.fvn_refine.specs.inner.Found.{AreRows};
ghost use Rattle.fvn_refine.specs.inner.Resorting.{with_resorted, resorting};

use fvn_base::Seq;
use fvn_flat::{Flat, Subst};
use fvn_signature::Signature;
use fvn_terms::{NoMemory, SortId, Var};
use std::alloc::Global;

// Whether the variable has a pair.
fn is_bound(subst: &Subst, y: Var) -> bool
    ensures { result ≡ is_some (bound subst.now y) }
{
    subst.get(y).is_some()
}

// The substitution with the variable at the sort, if it binds it not yet.
fn with_resorted(resorting: Subst, y: Var, w: SortId) -> Result<Subst, NoMemory>
    ensures { IfOk result (λ all. all ≡ with_resorted resorting y w) }
{
    if is_bound(&resorting, y) {
        return Ok(resorting);
    }
    let there = Flat::var(Var {
        name: y.name,
        sort: w,
        fresh: y.fresh,
    });
    let all = resorting.with_pair(y, there)?;
    Ok(all)
}

// The substitution of each variable by the same one at the sort beside it.
fn resorting(alloc: Global, vars: &[Var], row: &[SortId]) -> Result<Subst, NoMemory>
    ensures { IfOk result (λ all. all ≡ resorting vars.now row.now) }
{
    let mut all = Subst::empty(alloc);
    for (y, w) in vars.iter().zip(row.iter()) {
        all = with_resorted(all, *y, *w)?;
    }
    Ok(all)
}

// The substitution with its variables at the sorts of the row.
pub(crate) fn resorted(
    alloc: Global,
    sig: &Signature,
    subst: &Subst,
    vars: &[Var],
    row: &[SortId],
) -> Result<Subst, NoMemory>
    requires fits { BindingsFit sig.now subst.now }
    requires vars { vars.now ≡ variables_of_terms subst.now }
    requires row { IsRow sig.now vars.now row.now }
    ensures at { IfOk result (IsAtSorts sig.now subst.now (way_of sig.now vars.now row.now)) }
    ensures fit { IfOk result (BindingsFit sig.now) }
{
    sig.recall_good();
    let places = resorting(alloc, vars, row)?;
    let all = subst.changed_by(alloc, sig, &places)?;
    Ok(all)
}

// The substitution at the sorts of each of the rows in turn.
pub(crate) fn all_resorted(
    alloc: Global,
    sig: &Signature,
    subst: &Subst,
    vars: &[Var],
    rows: &[Seq<SortId>],
) -> Result<Vec<Subst>, NoMemory>
    requires fits { BindingsFit sig.now subst.now }
    requires vars { vars.now ≡ variables_of_terms subst.now }
    requires rows { AreRows sig.now vars.now rows.now }
    ensures at { IfOk result (λ rs. AllZip (λ row r. IsAtSorts sig.now subst.now
        (way_of sig.now vars.now row) r) rows.now rs.items) }
    ensures fit { IfOk result (λ rs. All (BindingsFit sig.now) rs.items) }
{
    let mut all = Vec::new(alloc);
    for row in rows {
        let one = resorted(alloc, sig, subst, vars, row.as_slice())?;
        all.push(one)?;
    }
    Ok(all)
}
