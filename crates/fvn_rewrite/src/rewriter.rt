//! What rewrites: a signature, the rules of admissible equations, and limits.
ghost use Rattle.std.specs.Prelude.{◌≡◌, false, None, IsTrue, IfOk, IfSome};
ghost use Rattle.fvn_terms.specs.Plain.{term};
ghost use Rattle.fvn_terms.specs.Signature.{IsTerm};
ghost use Rattle.fvn_terms.specs.Equality.{BEqual};
ghost use Rattle.fvn_terms.specs.Rewriting.{IsReducible};
ghost use Rattle.fvn_forms.specs.Flat.{plain};
ghost use Rattle.fvn_forms.specs.Canon.{canon};
ghost use Rattle.fvn_forms.specs.Good.{IsGood};
ghost use Rattle.fvn_signature.specs.Queries.{IsCompleted};
ghost use Rattle.fvn_flat.specs.Fits.{Fits};
ghost use Rattle.fvn_rewrite_laws.specs.Normalised.{StepsTo, IsNormalForm, IsNormalised};
ghost use Rattle.fvn_rewrite.specs.Usable.{AreUsable, equations_by};

use crate::normalising::normal;
use crate::stepping::step;
use crate::testing::is_reducible;
use fvn_flat::{Flat, Normal, flatten};
use fvn_rewrite_rules::Rules;
use fvn_signature::Signature;
use fvn_terms::{NoMemory, Plain};
use fvn_theory::Bounds;
use std::alloc::Global;
use std::marker::Model;

/// What rewrites: a signature, the rules of admissible equations over it, and limits on steps and symbols. Its calls ask
/// nothing of the rules.
#[derive(Drop)]
pub struct Rewriter<'r> {
    alloc: Global,
    sig: &'r Signature,
    rules: &'r Rules,
    bounds: Bounds,
}

impl<'r> Model for Rewriter<'r> {
    ghost use Rattle.fvn_rewrite.specs.Usable.{Rewriting, AreUsable};

    ghost Value = { Rewriting };

    ghost use Rattle.fvn_terms.specs.contracts.plain.Args as args;
    ghost use Rattle.fvn_flat.specs.contracts.flat.Flat as flat;
    ghost use Rattle.std.specs.Coded.{codes};

    ghost coded = { Prim.hlevel (codes, args.the_row.coded, flat.the_row.coded) };

    ghost view = { λ r. record { signature = r.sig.now; rules = r.rules.now; bounds = r.bounds } };

    ghost invariant = { λ r. AreUsable r.sig.now r.rules.now };
}

impl<'r> Rewriter<'r> {
    /// These rules, over this signature and under these limits.
    pub fn new(alloc: Global, sig: &'r Signature, rules: &'r Rules, bounds: Bounds) -> Rewriter<'r>
        requires { AreUsable sig.now rules.now }
        ensures { result ≡ record { signature = sig.now; rules = rules.now; bounds = bounds } }
    {
        Rewriter {
            alloc,
            sig,
            rules,
            bounds,
        }
    }

    /// Tells what holds of whatever rewrites; it does nothing.
    pub fn recall(&self)
        ensures good { IsGood self.now.signature }
        ensures completed { IsCompleted self.now.signature }
        ensures usable { AreUsable self.now.signature self.now.rules }
    {
        self.sig.recall_good();
        self.sig.recall_completed();
    }

    /// The signature.
    pub fn signature(&self) -> &'r Signature
        ensures { result.now ≡ self.now.signature }
    {
        self.sig
    }

    /// The rules.
    pub fn rules(&self) -> &'r Rules
        ensures { result.now ≡ self.now.rules }
    {
        self.rules
    }

    /// The flat form of a term.
    pub fn flat(&self, t: &Plain) -> Result<Flat, NoMemory>
        requires { IsTerm self.now.signature (term t.now) }
        ensures exact { IfOk result (λ u. u ≡ canon self.now.signature (term t.now)) }
        ensures equal { IfOk result (λ u. BEqual self.now.signature (term t.now) (plain u)) }
        ensures fits { IfOk result (Fits self.now.signature) }
    {
        let form = flatten(self.alloc, self.sig, t)?;
        Ok(form)
    }

    /// A form that one step leads to; nothing exactly where the term is irreducible modulo the axioms.
    pub fn step(&self, t: &Flat) -> Result<Option<Flat>, NoMemory>
        requires { Fits self.now.signature t.now }
        ensures some { IfOk result (λ o.
            IfSome o (StepsTo self.now.signature (equations_by self.now) t.now)) }
        ensures fits { IfOk result (λ o. IfSome o (Fits self.now.signature)) }
        ensures none { IfOk result (λ o.
            o ≡ None → IsNormalForm self.now.signature (equations_by self.now) t.now) }
    {
        let found = step(self.alloc, self.sig, self.rules, t)?;
        Ok(found)
    }

    /// Whether the term is reducible modulo the axioms; what a step leads to is not made.
    pub fn is_reducible(&self, t: &Flat) -> Result<bool, NoMemory>
        requires { Fits self.now.signature t.now }
        ensures yes { IfOk result (λ is. IsTrue is
            → IsReducible self.now.signature (equations_by self.now) (plain t.now)) }
        ensures no { IfOk result (λ is. is ≡ false
            → IsNormalForm self.now.signature (equations_by self.now) t.now) }
    {
        let is = is_reducible(self.alloc, self.sig, self.rules, t)?;
        Ok(is)
    }

    /// A normal form within the limits, or what so many steps lead to, or a form that is too large.
    pub fn normal(&self, t: &Flat) -> Result<Normal, NoMemory>
        requires { Fits self.now.signature t.now }
        ensures { IfOk result
            (IsNormalised self.now.signature (equations_by self.now) t.now self.now.bounds) }
    {
        let found = normal(self.alloc, self.sig, self.rules, t, self.bounds)?;
        Ok(found)
    }
}
