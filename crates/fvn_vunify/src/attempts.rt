//! What is found for one variant, from what the solver gives for its pairs.
ghost use Rattle.std.specs.Prelude.{◌≡◌, All, IfOk};
ghost use Rattle.fvn_terms.specs.Signature.{IsSort};
ghost use Rattle.fvn_flat.specs.Bindings.{BindingsFit, composed, IsRestriction};
ghost use Rattle.fvn_vunify.specs.inner.Attempts.{candidate_of, AreTested};

use crate::ends::first_end;
use crate::testing::{Test, test_kept};
use fvn_base::Seq;
use fvn_cover::Variant;
use fvn_exploring::{ExpandEnd, Expander};
use fvn_flat::Subst;
use fvn_signature::Signature;
use fvn_terms::{NoMemory, Var};
use std::alloc::Global;

// Unifiers, as variants without terms, and why there are no more.
#[derive(Drop)]
pub(crate) struct Attempt {
    pub(crate) found: Vec<Variant>,
    pub(crate) end: ExpandEnd,
}

// What the variables become under a substitution and then a unifier.
fn joined(
    alloc: Global,
    sig: &Signature,
    vars: &[Var],
    renamed: &Subst,
    s: &Subst,
) -> Result<Subst, NoMemory>
    requires first { BindingsFit sig.now renamed.now }
    requires then { BindingsFit sig.now s.now }
    ensures made { IfOk result (IsRestriction vars.now (composed sig.now renamed.now s.now)) }
    ensures fits { IfOk result (BindingsFit sig.now) }
{
    let whole = renamed.compose(alloc, sig, s)?;
    let made = whole.restrict(alloc, vars)?;
    Ok(made)
}

// The substitution as a variant without terms.
fn candidate_of(alloc: Global, vars: &[Var], subst: Subst) -> Result<Variant, NoMemory>
    ensures { IfOk result (λ u. u ≡ candidate_of vars.now subst) }
{
    let vars = Seq::from_slice(alloc, vars)?;
    Ok(Variant {
        terms: Seq::new(alloc),
        subst,
        vars,
    })
}

// The substitution followed by each of the unifiers, where that has irreducible values and the fixed terms stay so.
pub(crate) fn tested<E: Expander>(
    alloc: Global,
    sig: &Signature,
    expander: &E,
    vars: &[Var],
    renamed: &Subst,
    unifiers: &[Subst],
) -> Result<Attempt, NoMemory>
    requires sig { sig.now ≡ (E.setting expander.now).declarations }
    requires sorts { All (λ x. IsSort sig.now x.sort) vars.now }
    requires renamed { BindingsFit sig.now renamed.now }
    requires unifiers { All (BindingsFit sig.now) unifiers.now }
    ensures { IfOk result (λ a.
        AreTested (E.setting expander.now) vars.now renamed.now unifiers.now a.found.items a.end) }
{
    let mut found = Vec::new(alloc);
    let mut end = ExpandEnd::Whole;
    for s in unifiers {
        let subst = joined(alloc, sig, vars, renamed, s)?;
        match test_kept(alloc, sig, expander, &subst, vars)? {
            Test::Irreducible => {
                let u = candidate_of(alloc, vars, subst)?;
                found.push(u)?;
            }
            Test::Reducible => {}
            Test::Stopped(stop) => end = first_end(end, stop),
        }
    }
    Ok(Attempt { found, end })
}
