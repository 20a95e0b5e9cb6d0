//! Pairs taken apart as far as there is nothing to choose.
ghost use Rattle.std.specs.Prelude.{◌≡◌, ◌+◌, true, false, [], ◌∷◌, length, Some, IsTrue, IfOk, IfSome, OnOk};
ghost use Rattle.std.specs.List.{AllZip};
ghost use Rattle.fvn_terms.specs.Signature.{axioms};
ghost use Rattle.fvn_terms.specs.declared.declarations.Axioms.TheVariants.{Free, Comm};
ghost use Rattle.fvn_forms.specs.Flat.{fvar};
ghost use Rattle.fvn_forms.specs.Canon.{inst};
ghost use Rattle.fvn_flat.specs.Bindings.{value};
ghost use Rattle.fvn_flat.specs.Forms.{head_of};
ghost use Rattle.fvn_match.specs.inner.Summands.{references};
ghost use Rattle.fvn_match.specs.inner.Candidates.{IsCandidate};
ghost use Rattle.fvn_match.specs.inner.Goals.{AllMake, IsPair, bindings_of, with_bindings, weight, weight_of};
ghost use Rattle.fvn_match.specs.inner.Heads.{IsLost};
ghost use Rattle.fvn_match.specs.inner.Refusing.{NeverMakes};
ghost use Rattle.fvn_match.specs.inner.Searching.{IsCrossing};
ghost use Rattle.fvn_match.specs.inner.Apart.{
  IsUntouched,
  values_with,
  ApartFits,
  TakesApart,
  HasOther,
  NeverMakeAll,
  IsOnlyOrder,
};

use crate::goals::{Binding, Bound, Latest, newest};
use crate::heads::heads_allow;
use crate::instances::{are_bound, instance};
use crate::pairing::has_sort_of;
use crate::summands::is_headed;
use crate::variables::is_closed;
use fvn_flat::Flat;
use fvn_signature::Signature;
use fvn_terms::{NoMemory, OpId, Var};
use std::alloc::Global;

// Variables with their values, and patterns of which some part is to be chosen, with their targets.
#[derive(Drop)]
pub(crate) struct Apart<'a> {
    pub(crate) alloc: Global,
    pub(crate) values: Vec<Binding<'a>>,
    pub(crate) patterns: Vec<&'a Flat>,
    pub(crate) targets: Vec<&'a Flat>,
}

// Two targets in an order.
#[derive(Clone, Copy)]
pub(crate) struct Ordered<'a> {
    pub(crate) first: &'a Flat,
    pub(crate) second: &'a Flat,
}

// Nothing yet.
pub(crate) fn untouched<'a>(alloc: Global) -> Apart<'a>
    ensures { IsUntouched result }
{
    Apart {
        alloc,
        values: Vec::new(alloc),
        patterns: Vec::new(alloc),
        targets: Vec::new(alloc),
    }
}

// Whether the operator is neither commutative nor associative.
fn is_free(sig: &Signature, f: OpId) -> bool
    ensures { IsTrue result → axioms sig.now f ≡ Free }
{
    let axioms = sig.axioms(f);
    if axioms.is_sum() {
        return false;
    }
    if axioms.is_commutative() {
        return false;
    }
    true
}

// Whether the operator is commutative, and not associative.
fn has_two_orders(sig: &Signature, f: OpId) -> bool
    ensures { IsTrue result → axioms sig.now f ≡ Comm }
{
    let axioms = sig.axioms(f);
    if axioms.is_sum() {
        return false;
    }
    axioms.is_commutative()
}

// Whether heads tell that the term is no instance of the pattern, or the pattern has no variables and is another form.
fn is_other(sig: &Signature, p: &Flat, t: &Flat) -> bool
    requires { IsPair sig.now p.now t.now }
    ensures { IsTrue result → IsLost sig.now p.now t.now }
{
    let may = heads_allow(sig, p, t);
    if !may {
        return true;
    }
    let closed = is_closed(p);
    if !closed {
        return false;
    }
    !p.same(t)
}

impl<'a> Apart<'a> {
    // The value of a variable, which is compared with the one that it has, or is bound.
    fn variable(
        &mut self,
        sig: &Signature,
        bound: &Bound<'_>,
        x: Var,
        t: &'a Flat,
    ) -> Result<bool, NoMemory>
        requires pair { IsPair sig.now (fvar x) t.now }
        requires fits { ApartFits sig.now (bindings_of bound.now) self.old }
        ensures { IfOk result (TakesApart sig.now (bindings_of bound.now) self.old self.new
            (λ c. inst sig.now c (fvar x) ≡ t.now) (weight (fvar x) + 2)) }
    {
        match newest(self.values.as_slice(), x, bound.get(x)) {
            Some(v) => {
                let is = v.same(t);
                Ok(is)
            }
            None => {
                if !has_sort_of(sig, x, t) {
                    return Ok(false);
                }
                let one = Binding { name: x, value: t };
                self.values.push(one)?;
                Ok(true)
            }
        }
    }

    // A pair of which some part is to be chosen.
    fn keep(
        &mut self,
        sig: &Signature,
        bound: &Bound<'_>,
        p: &'a Flat,
        t: &'a Flat,
    ) -> Result<(), NoMemory>
        requires pair { IsPair sig.now p.now t.now }
        requires fits { ApartFits sig.now (bindings_of bound.now) self.old }
        ensures { OnOk result (TakesApart sig.now (bindings_of bound.now) self.old self.new
            (λ c. inst sig.now c p.now ≡ t.now) (weight p.now + 2) true) }
    {
        self.patterns.push(p)?;
        self.targets.push(t)?;
        Ok(())
    }

    // Whether the pattern makes the target, where each of its variables has a value.
    fn made<'x>(
        &'x self,
        sig: &Signature,
        bound: &'x Bound<'x>,
        p: &Flat,
        t: &Flat,
    ) -> Result<Option<bool>, NoMemory>
        requires pair { IsPair sig.now p.now t.now }
        requires fits { ApartFits sig.now (bindings_of bound.now) self.now }
        ensures { IfOk result (λ found. IfSome found (TakesApart sig.now
            (bindings_of bound.now) self.now self.now
            (λ c. inst sig.now c p.now ≡ t.now) (weight p.now + 2))) }
    {
        let values = Latest {
            pairs: self.values.as_slice(),
        };
        let more = Bound::Several(values, &*bound);
        let known = are_bound(&more, p);
        if !known {
            return Ok(None);
        }
        let u = instance(self.alloc, sig, &more, p)?;
        let is = u.same(t);
        Ok(Some(is))
    }

    // A pair of which some part is to be chosen, unless each variable has a value.
    fn keep_open(
        &mut self,
        sig: &Signature,
        bound: &Bound<'_>,
        p: &'a Flat,
        t: &'a Flat,
    ) -> Result<bool, NoMemory>
        requires pair { IsPair sig.now p.now t.now }
        requires fits { ApartFits sig.now (bindings_of bound.now) self.old }
        ensures { IfOk result (TakesApart sig.now (bindings_of bound.now) self.old self.new
            (λ c. inst sig.now c p.now ≡ t.now) (weight p.now + 2)) }
    {
        let made = self.made(sig, &*bound, p, t)?;
        match made {
            Some(equal) => Ok(equal),
            None => {
                self.keep(sig, bound, p, t)?;
                Ok(true)
            }
        }
    }

    // Whether the variable has another value, from before or found here.
    fn has_other(&self, bound: &Bound<'_>, x: Var, t: &Flat) -> bool
        ensures { IsTrue result →
            HasOther (with_bindings (bindings_of bound.now) self.now.values.items) x t.now }
    {
        let before = bound.get(x);
        match newest(self.values.as_slice(), x, before) {
            Some(v) => !v.same(t),
            None => false,
        }
    }

    // Whether no values make the pattern the term, as far as one look tells.
    fn refuses(&self, sig: &Signature, bound: &Bound<'_>, p: &Flat, t: &Flat) -> bool
        requires { IsPair sig.now p.now t.now }
        ensures { IsTrue result → NeverMakes sig.now
            (values_with sig.now (bindings_of bound.now) self.now) p.now t.now }
    {
        match p.as_var() {
            Some(x) => self.has_other(bound, x, t),
            None => is_other(sig, p, t),
        }
    }

    // The same of two pairs together.
    fn refuses_two(
        &self,
        sig: &Signature,
        bound: &Bound<'_>,
        p: &Flat,
        t: &Flat,
        q: &Flat,
        u: &Flat,
    ) -> bool
        requires first { IsPair sig.now p.now t.now }
        requires second { IsPair sig.now q.now u.now }
        ensures { IsTrue result → NeverMakeAll sig.now
            (values_with sig.now (bindings_of bound.now) self.now)
            (p.now ∷ q.now ∷ []) (t.now ∷ u.now ∷ []) }
    {
        let first = self.refuses(sig, bound, p, t);
        if first {
            return true;
        }
        self.refuses(sig, bound, q, u)
    }

    // The order of two targets under a commutative operator, where there is nothing to choose.
    fn only_order(
        &self,
        sig: &Signature,
        bound: &Bound<'_>,
        ps: &[Flat],
        ts: &'a [Flat],
    ) -> Option<Ordered<'a>>
        requires patterns { length ps.now ≡ 2 }
        requires targets { length ts.now ≡ 2 }
        requires pairs { IsCrossing sig.now ps.now ts.now }
        ensures { IfSome result (λ o. IsOnlyOrder sig.now
            (values_with sig.now (bindings_of bound.now) self.now)
            ps.now ts.now (o.first.now ∷ o.second.now ∷ [])) }
    {
        let p = &ps[0];
        let q = &ps[1];
        let t = &ts[0];
        let u = &ts[1];
        let equal = t.same(u);
        if equal {
            return Some(Ordered {
                first: t,
                second: u,
            });
        }
        let across = self.refuses_two(sig, bound, p, u, q, t);
        if across {
            return Some(Ordered {
                first: t,
                second: u,
            });
        }
        let straight = self.refuses_two(sig, bound, p, t, q, u);
        if straight {
            return Some(Ordered {
                first: u,
                second: t,
            });
        }
        None
    }

    // A pair; whether it leaves a choice, or none at all is needed.
    #[cycle(apart)]
    fn take(
        &mut self,
        sig: &Signature,
        bound: &Bound<'_>,
        p: &'a Flat,
        t: &'a Flat,
    ) -> Result<bool, NoMemory>
        requires pair { IsPair sig.now p.now t.now }
        requires fits { ApartFits sig.now (bindings_of bound.now) self.old }
        ensures { IfOk result (TakesApart sig.now (bindings_of bound.now) self.old self.new
            (λ c. inst sig.now c p.now ≡ t.now) (weight p.now + 2)) }
    {
        if let Some(x) = p.as_var() {
            let can = self.variable(sig, bound, x, t)?;
            return Ok(can);
        }
        let f = match p.head() {
            None => return Ok(false),
            Some(f) => f,
        };
        sig.recall_good();
        let two = has_two_orders(sig, f);
        if two {
            let made = self.take_either(sig, bound, f, p, t)?;
            return Ok(made);
        }
        let free = is_free(sig, f);
        if !free {
            let kept = self.keep_open(sig, bound, p, t)?;
            return Ok(kept);
        }
        let headed = is_headed(t, f);
        if !headed {
            return Ok(false);
        }
        let all = self.take_all(sig, bound, p.args(), t.args())?;
        Ok(all)
    }

    // A pair under a commutative operator: it is kept where either order of the targets is left.
    #[cycle(apart)]
    fn take_either(
        &mut self,
        sig: &Signature,
        bound: &Bound<'_>,
        f: OpId,
        p: &'a Flat,
        t: &'a Flat,
    ) -> Result<bool, NoMemory>
        requires commutative { axioms sig.now f ≡ Comm }
        requires head { head_of p.now ≡ Some f }
        requires pair { IsPair sig.now p.now t.now }
        requires fits { ApartFits sig.now (bindings_of bound.now) self.old }
        ensures { IfOk result (TakesApart sig.now (bindings_of bound.now) self.old self.new
            (λ c. inst sig.now c p.now ≡ t.now) (weight p.now + 2)) }
    {
        sig.recall_good();
        let shared = is_headed(t, f);
        if !shared {
            return Ok(false);
        }
        let ps = p.args();
        let ts = t.args();
        let order = match self.only_order(sig, bound, ps, ts) {
            None => {
                let kept = self.keep_open(sig, bound, p, t)?;
                return Ok(kept);
            }
            Some(order) => order,
        };
        let both = self.take_both(sig, bound, ps, order.first, order.second)?;
        Ok(both)
    }

    // Two pairs, one after the other; false where no values make them.
    #[cycle(apart)]
    pub(crate) fn take_both(
        &mut self,
        sig: &Signature,
        bound: &Bound<'_>,
        ps: &'a [Flat],
        t: &'a Flat,
        u: &'a Flat,
    ) -> Result<bool, NoMemory>
        requires two { length ps.now ≡ 2 }
        requires pairs { AllZip (IsPair sig.now) ps.now (t.now ∷ u.now ∷ []) }
        requires fits { ApartFits sig.now (bindings_of bound.now) self.old }
        ensures { IfOk result (TakesApart sig.now (bindings_of bound.now) self.old self.new
            (AllMake sig.now ps.now (t.now ∷ u.now ∷ [])) (weight_of ps.now)) }
    {
        let p = &ps[0];
        let q = &ps[1];
        let can = self.take(sig, bound, p, t)?;
        if !can {
            return Ok(false);
        }
        let both = self.take(sig, bound, q, u)?;
        Ok(both)
    }

    // Pairs place by place; false where no values make them.
    #[cycle(apart)]
    pub(crate) fn take_all(
        &mut self,
        sig: &Signature,
        bound: &Bound<'_>,
        ps: &'a [Flat],
        ts: &'a [Flat],
    ) -> Result<bool, NoMemory>
        requires lengths { length ps.now ≡ length ts.now }
        requires pairs { AllZip (IsPair sig.now) ps.now ts.now }
        requires fits { ApartFits sig.now (bindings_of bound.now) self.old }
        ensures { IfOk result (TakesApart sig.now (bindings_of bound.now) self.old self.new
            (AllMake sig.now ps.now ts.now) (weight_of ps.now)) }
    {
        for i in 0..ps.len() {
            let can = self.take(sig, bound, &ps[i], &ts[i])?;
            if !can {
                return Ok(false);
            }
        }
        Ok(true)
    }

    // The same of references.
    pub(crate) fn take_each(
        &mut self,
        sig: &Signature,
        bound: &Bound<'_>,
        ps: &[&'a Flat],
        ts: &[&'a Flat],
    ) -> Result<bool, NoMemory>
        requires lengths { length ps.now ≡ length ts.now }
        requires pairs { AllZip (IsPair sig.now) (references ps.now) (references ts.now) }
        requires fits { ApartFits sig.now (bindings_of bound.now) self.old }
        ensures { IfOk result (TakesApart sig.now (bindings_of bound.now) self.old self.new
            (AllMake sig.now (references ps.now) (references ts.now))
            (weight_of (references ps.now))) }
    {
        for i in 0..ts.len() {
            let can = self.take(sig, bound, ps[i], ts[i])?;
            if !can {
                return Ok(false);
            }
        }
        Ok(true)
    }
}

// Whether what was bound leaves it open that the pattern makes the target, which is asked where a free operator
// heads the pattern.
#[inline(never)]
pub(crate) fn may_make(
    alloc: Global,
    sig: &Signature,
    bound: &Bound<'_>,
    p: &Flat,
    t: &Flat,
) -> Result<bool, NoMemory>
    requires pair { IsPair sig.now p.now t.now }
    requires values { IsCandidate sig.now (value (bindings_of bound.now)) }
    ensures { IfOk result (λ may. may ≡ false →
        NeverMakes sig.now (bindings_of bound.now) p.now t.now) }
{
    let f = match p.head() {
        None => return Ok(true),
        Some(f) => f,
    };
    let free = is_free(sig, f);
    if !free {
        return Ok(true);
    }
    let mut parts = untouched(alloc);
    let may = parts.take(sig, bound, p, t)?;
    Ok(may)
}
