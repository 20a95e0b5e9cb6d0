//! Substitutions of flat terms.
ghost use Rattle.std.specs.Prelude.{◌≡◌, ◌<◌, ◌++◌, ◌∷◌, [], length, slice_get, is_some, Some, None, MatchOption, IfOk};
ghost use Rattle.fvn_forms.specs.Canon.{inst};
ghost use Rattle.fvn_forms.specs.Settled.{SettledValues};
ghost use Rattle.fvn_flat.specs.Fits.{Fits};
ghost use Rattle.fvn_flat.specs.Bindings.{bound, value, BindsOnce, BindingsFit, IsInstanceBy, changed, chosen, is_free, composed, IsOneThenOther, IsRestriction};

use crate::flat::Flat;
use crate::renaming::is_listed;
use fvn_signature::Signature;
use fvn_terms::{NoMemory, Var};
use std::alloc::Global;
use std::marker::Model;

/// Flat terms for some variables, seen as the list of its pairs; other variables stay as they are.
#[derive(Drop)]
pub struct Subst {
    pub(crate) pairs: Vec<(Var, Flat)>,
}

impl Model for Subst {
    ghost use Rattle.std.specs.Coded.{coded×, coded_list};
    ghost use Rattle.fvn_terms.specs.Coded.{coded_var};
    ghost use Rattle.fvn_flat.specs.inner.FlatCode.{coded_flat};
    ghost use Rattle.fvn_flat.specs.Bindings.{Bindings, BindsOnce};

    ghost Value = { Bindings };

    ghost coded = { coded_list (coded× coded_var coded_flat) };

    ghost view = { λ s. s.pairs.items };

    ghost invariant = { λ s. BindsOnce s.pairs.items };
}

impl Subst {
    /// Tells that each variable has one pair; it does nothing.
    pub fn recall_bindings(&self)
        ensures { BindsOnce self.now }
    {
        let _pairs = &self.pairs;
    }

    /// The substitution that binds nothing.
    pub fn empty(alloc: Global) -> Subst
        ensures { result ≡ [] }
    {
        Subst {
            pairs: Vec::new(alloc),
        }
    }

    /// The number of variables that are bound.
    pub fn len(&self) -> usize
        ensures { result ≡ length self.now }
    {
        self.pairs.len()
    }

    /// One of the pairs.
    pub fn pair(&self, i: usize) -> (Var, &Flat)
        requires { i < length self.now }
        ensures { slice_get self.now i ≡ Some (result.0, result.1.now) }
    {
        let (x, t) = &self.pairs[i];
        (*x, t)
    }

    /// What the variable is bound to.
    pub fn get(&self, v: Var) -> Option<&Flat>
        ensures { MatchOption result (bound self.now v ≡ None) (λ t.
            bound self.now v ≡ Some t.now) }
    {
        for (x, t) in self.pairs.as_slice() {
            if *x == v {
                return Some(t);
            }
        }
        None
    }

    // The pairs, in memory of their own.
    fn copied(&self, alloc: Global) -> Result<Vec<(Var, Flat)>, NoMemory>
        ensures { IfOk result (λ pairs. pairs.items ≡ self.now) }
    {
        let mut pairs = Vec::with_capacity(alloc, self.pairs.len())?;
        for (x, t) in &self.pairs {
            let copy = t.copy(alloc)?;
            pairs.push((*x, copy))?;
        }
        Ok(pairs)
    }

    /// This substitution with one more variable bound.
    pub fn bind(&self, alloc: Global, v: Var, t: &Flat) -> Result<Subst, NoMemory>
        requires { bound self.now v ≡ None }
        ensures { IfOk result (λ s. s ≡ self.now ++ (v, t.now) ∷ []) }
    {
        self.recall_bindings();
        let mut pairs = self.copied(alloc)?;
        let copy = t.copy(alloc)?;
        pairs.push((v, copy))?;
        Ok(Subst { pairs })
    }

    /// The same; neither this substitution nor the term is copied.
    pub fn with_pair(self, v: Var, t: Flat) -> Result<Subst, NoMemory>
        requires { bound self v ≡ None }
        ensures { IfOk result (λ s. s ≡ self ++ (v, t) ∷ []) }
    {
        self.recall_bindings();
        let Subst { pairs } = self;
        let mut more = pairs;
        more.push((v, t))?;
        Ok(Subst { pairs: more })
    }

    /// The flat form of the term with all bound variables replaced at once.
    pub fn apply(&self, alloc: Global, sig: &Signature, t: &Flat) -> Result<Flat, NoMemory>
        requires subst { BindingsFit sig.now self.now }
        requires term { Fits sig.now t.now }
        // The flat form, which is equal modulo the axioms to the instance of the plain term.
        ensures exact { IfOk result (λ u. u ≡ inst sig.now (value self.now) t.now) }
        ensures equal { IfOk result (IsInstanceBy sig.now self.now t.now) }
        ensures fits { IfOk result (Fits sig.now) }
    {
        sig.recall_good();
        let u = self.instance(alloc, sig, t)?;
        Ok(u)
    }

    // Whether the variable has a pair.
    fn is_bound(&self, v: Var) -> bool
        ensures { result ≡ is_some (bound self.now v) }
    {
        self.get(v).is_some()
    }

    // The pairs with another substitution applied to their terms.
    fn changed(
        &self,
        alloc: Global,
        sig: &Signature,
        later: &Subst,
    ) -> Result<Vec<(Var, Flat)>, NoMemory>
        requires once { BindsOnce self.now }
        requires first { SettledValues sig.now (value self.now) }
        requires then { SettledValues sig.now (value later.now) }
        ensures { IfOk result (λ pairs.
            pairs.items ≡ changed (inst sig.now (value later.now)) self.now) }
    {
        let mut pairs = Vec::with_capacity(alloc, self.pairs.len())?;
        for (x, t) in &self.pairs {
            let u = later.instance(alloc, sig, t)?;
            pairs.push((*x, u))?;
        }
        Ok(pairs)
    }

    /// This substitution with the other one applied to its terms.
    pub fn changed_by(
        &self,
        alloc: Global,
        sig: &Signature,
        later: &Subst,
    ) -> Result<Subst, NoMemory>
        requires first { BindingsFit sig.now self.now }
        requires then { BindingsFit sig.now later.now }
        ensures exact { IfOk result (λ s. s ≡ changed (inst sig.now (value later.now)) self.now) }
        ensures fits { IfOk result (BindingsFit sig.now) }
    {
        sig.recall_good();
        self.recall_bindings();
        let pairs = self.changed(alloc, sig, later)?;
        let s = Subst { pairs };
        Ok(s)
    }

    // The pairs of another substitution for variables that are free here, at the end of some pairs.
    fn with_free(
        &self,
        alloc: Global,
        later: &Subst,
        pairs: Vec<(Var, Flat)>,
    ) -> Result<Vec<(Var, Flat)>, NoMemory>
        ensures { IfOk result (λ all.
            all.items ≡ pairs.items ++ chosen (is_free self.now) later.now) }
    {
        let mut all = pairs;
        for (x, t) in &later.pairs {
            if self.is_bound(*x) {
                continue;
            }
            let copy = t.copy(alloc)?;
            all.push((*x, copy))?;
        }
        Ok(all)
    }

    /// This substitution, and then the other.
    pub fn compose(&self, alloc: Global, sig: &Signature, later: &Subst) -> Result<Subst, NoMemory>
        requires first { BindingsFit sig.now self.now }
        requires then { BindingsFit sig.now later.now }
        // On every term this is one and then the other.
        ensures exact { IfOk result (λ s. s ≡ composed sig.now self.now later.now) }
        ensures both { IfOk result (IsOneThenOther sig.now self.now later.now) }
        ensures fits { IfOk result (BindingsFit sig.now) }
    {
        sig.recall_good();
        self.recall_bindings();
        later.recall_bindings();
        let changed = self.changed(alloc, sig, later)?;
        let pairs = self.with_free(alloc, later, changed)?;
        let s = Subst { pairs };
        Ok(s)
    }

    /// The substitution with just the pairs of the listed variables.
    pub fn restrict(&self, alloc: Global, vars: &[Var]) -> Result<Subst, NoMemory>
        ensures { IfOk result (IsRestriction vars.now self.now) }
    {
        self.recall_bindings();
        let mut pairs = Vec::new(alloc);
        for (x, t) in &self.pairs {
            if !is_listed(vars, *x) {
                continue;
            }
            let copy = t.copy(alloc)?;
            pairs.push((*x, copy))?;
        }
        let s = Subst { pairs };
        Ok(s)
    }
}

// Tells that the type may be sent and shared.
pub(crate) fn shared<T: Send + Sync>(_value: &T) {}

/// Flat terms and substitutions may be sent to and shared between threads.
pub fn all_shared(term: &Flat, subst: &Subst) {
    shared(term);
    shared(subst);
}
