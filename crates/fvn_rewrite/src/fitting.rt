//! Which terms the left side of a rule has as instances, by symbols alone.
ghost use Rattle.std.specs.Prelude.{◌≡◌, None, Some, [], IsTrue, MatchOption, IfOk, IfSome};
ghost use Rattle.fvn_forms.specs.Flat.{fvar};
ghost use Rattle.fvn_flat.specs.Fits.{Fits, AllFit};
ghost use Rattle.fvn_rewrite.specs.inner.Trying.{AllSidesFit};
ghost use Rattle.fvn_rewrite.specs.inner.SortedTerms.{operator_of, IsValue};
ghost use Rattle.fvn_rewrite.specs.inner.Fitting.{sorted_bound, IsFreeHead, AreBindings, AreValues, IsFitted, AreFitted, IsFound};

use crate::shared::Shared;
use fvn_flat::Flat;
use fvn_rewrite_rules::Rule;
use fvn_signature::Signature;
use fvn_terms::{Axioms, NoMemory, OpId, Var};
use std::alloc::Global;

// Whether an operator with these axioms has none.
fn is_free(axioms: Axioms) -> bool
    ensures { IsTrue result → axioms ≡ Axioms.Free }
{
    axioms.is_free()
}

// The operator that heads a form, where it has no axioms.
pub(crate) fn free_head(sig: &Signature, t: &Flat) -> Option<OpId>
    ensures { IfSome result (IsFreeHead sig.now t.now) }
{
    match t.head() {
        Some(f) => {
            let free = is_free(sig.axioms(f));
            if free { Some(f) } else { None }
        }
        None => None,
    }
}

// What the variable is bound to.
pub(crate) fn look(bound: &[(Var, Shared)], x: Var) -> Option<&Shared>
    ensures { MatchOption result
        (sorted_bound bound.now x ≡ None) (λ v. sorted_bound bound.now x ≡ Some v.now) }
{
    for (y, v) in bound {
        if *y == x {
            return Some(v);
        }
    }
    None
}

// Whether the variable is bound to this term; nothing where it is not bound.
fn is_bound_to(bound: &[(Var, Shared)], x: Var, v: &Shared) -> Option<bool>
    ensures { MatchOption result
        (sorted_bound bound.now x ≡ None)
        (λ same. IsTrue same → sorted_bound bound.now x ≡ Some v.now) }
{
    match look(bound, x) {
        Some(w) => {
            let same = w.same(v);
            Some(same)
        }
        None => None,
    }
}

// The variable bound to the term too, where it is not bound to another and the term has its sort.
fn bind(
    sig: &Signature,
    x: Var,
    v: &Shared,
    bound: Vec<(Var, Shared)>,
) -> Result<Option<Vec<(Var, Shared)>>, NoMemory>
    requires value { IsValue sig.now v.now }
    requires bindings { AreBindings sig.now bound.items }
    ensures { IfOk result (λ o. IfSome o (λ all.
        IsFitted sig.now (fvar x) v.now bound.items all.items)) }
{
    let known = is_bound_to(bound.as_slice(), x, v);
    match known {
        Some(same) => { if same { Ok(Some(bound)) } else { Ok(None) } }
        None => {
            let below = sig.leq(v.sort(), x.sort);
            if !below {
                return Ok(None);
            }
            let mut all = bound;
            let w = v.share()?;
            all.push((x, w))?;
            Ok(Some(all))
        }
    }
}

// Whether the operator heads the term.
fn is_headed_by(v: &Shared, f: OpId) -> bool
    ensures { IsTrue result → operator_of v.now ≡ Some f }
{
    match v.head() {
        Some(g) => f == g,
        None => false,
    }
}

// The bindings that make the pattern the term, besides these.
#[cycle(fit)]
fn fit(
    alloc: Global,
    sig: &Signature,
    p: &Flat,
    v: &Shared,
    bound: Vec<(Var, Shared)>,
) -> Result<Option<Vec<(Var, Shared)>>, NoMemory>
    requires pattern { Fits sig.now p.now }
    requires value { IsValue sig.now v.now }
    requires bindings { AreBindings sig.now bound.items }
    ensures { IfOk result (λ o. IfSome o (λ all.
        IsFitted sig.now p.now v.now bound.items all.items)) }
{
    match p.as_var() {
        Some(x) => {
            let all = bind(sig, x, v, bound)?;
            Ok(all)
        }
        None => {
            sig.recall_good();
            let Some(f) = free_head(sig, p) else {
                return Ok(None);
            };
            let headed = is_headed_by(v, f);
            if !headed {
                return Ok(None);
            }
            let all = fit_all(alloc, sig, p.args(), v.args(), bound)?;
            Ok(all)
        }
    }
}

// The same of lists.
#[cycle(fit)]
fn fit_all(
    alloc: Global,
    sig: &Signature,
    ps: &[Flat],
    vs: &[Shared],
    bound: Vec<(Var, Shared)>,
) -> Result<Option<Vec<(Var, Shared)>>, NoMemory>
    requires patterns { AllFit sig.now ps.now }
    requires values { AreValues sig.now vs.now }
    requires bindings { AreBindings sig.now bound.items }
    ensures { IfOk result (λ o. IfSome o (λ all.
        AreFitted sig.now ps.now vs.now bound.items all.items)) }
{
    let count = ps.len();
    if vs.len() != count {
        return Ok(None);
    }
    let mut all = bound;
    for i in 0..count {
        let next = fit(alloc, sig, &ps[i], &vs[i], all)?;
        match next {
            Some(more) => all = more,
            None => return Ok(None),
        }
    }
    Ok(Some(all))
}

// A right side, and what its variables stand for.
#[derive(Drop)]
pub(crate) struct Found<'a> {
    pub(crate) right: &'a Flat,
    pub(crate) bound: Vec<(Var, Shared)>,
}

// The right side of the first rule whose left side has the term as an instance.
pub(crate) fn first_found<'a>(
    alloc: Global,
    sig: &Signature,
    rules: &'a [Rule],
    v: &Shared,
) -> Result<Option<Found<'a>>, NoMemory>
    requires rules { AllSidesFit sig.now rules.now }
    requires value { IsValue sig.now v.now }
    ensures { IfOk result (λ o. IfSome o (IsFound sig.now rules.now v.now)) }
{
    for rule in rules {
        let fitted = fit(alloc, sig, &rule.left, v, Vec::new(alloc))?;
        match fitted {
            Some(bound) => {
                return Ok(Some(Found {
                    right: &rule.right,
                    bound,
                }));
            }
            None => {}
        }
    }
    Ok(None)
}
