//! Instances of flat terms: what holds no bound variable is neither rebuilt nor, but for an answer, copied.
ghost use Rattle.std.specs.Prelude.{◌≡◌, unwrap_or, IfOk};
ghost use Rattle.fvn_forms.specs.Canon.{inst};
ghost use Rattle.fvn_forms.specs.Settled.{Settled, SettledValues};
ghost use Rattle.fvn_flat.specs.Bindings.{value};
ghost use Rattle.fvn_flat.specs.inner.SoFar.{so_far, HasOneMore};

use crate::building::built;
use crate::flat::{Flat, Node};
use crate::substitution::Subst;
use fvn_signature::Signature;
use fvn_terms::NoMemory;
use std::alloc::Global;

// The terms, in memory of their own.
fn copied(alloc: Global, ts: &[Flat]) -> Result<Vec<Flat>, NoMemory>
    ensures { IfOk result (λ copies. copies.items ≡ ts.now) }
{
    let mut copies = Vec::new(alloc);
    for t in ts {
        copies.push(t.copy(alloc)?)?;
    }
    Ok(copies)
}

// Copies of the arguments so far, made where none has changed yet.
fn begun(alloc: Global, copies: Vec<Flat>, before: &[Flat]) -> Result<Vec<Flat>, NoMemory>
    ensures { IfOk result (λ all. all.items ≡ so_far copies.items before.now) }
{
    if !copies.is_empty() {
        return Ok(copies);
    }
    let all = copied(alloc, before)?;
    Ok(all)
}

// The arguments so far with one more, and with what it has changed to.
fn with_argument(
    alloc: Global,
    copies: Vec<Flat>,
    before: &[Flat],
    t: &Flat,
    changed: Option<Flat>,
) -> Result<Vec<Flat>, NoMemory>
    ensures { IfOk result (λ all. HasOneMore copies.items before.now t.now changed all.items) }
{
    match changed {
        Some(u) => {
            let mut all = begun(alloc, copies, before)?;
            all.push(u)?;
            Ok(all)
        }
        None => {
            let mut all = copies;
            if !all.is_empty() {
                all.push(t.copy(alloc)?)?;
            }
            Ok(all)
        }
    }
}

impl Subst {
    // The instance, where the term holds a bound variable.
    pub(crate) fn changed_term(
        &self,
        alloc: Global,
        sig: &Signature,
        t: &Flat,
    ) -> Result<Option<Flat>, NoMemory>
        requires values { SettledValues sig.now (value self.now) }
        requires flat { Settled sig.now t.now }
        ensures { IfOk result (λ o. unwrap_or o t.now ≡ inst sig.now (value self.now) t.now) }
    {
        match &t.node {
            Node::Var(x) => match self.get(*x) {
                Some(u) => {
                    let copy = u.copy(alloc)?;
                    Ok(Some(copy))
                }
                None => Ok(None),
            },
            Node::App(f, _, ts) => {
                let mut copies = Vec::new(alloc);
                let mut i: usize = 0;
                for u in ts {
                    let changed = self.changed_term(alloc, sig, u)?;
                    copies = with_argument(alloc, copies, &ts[..i], u, changed)?;
                    i += 1;
                }
                if copies.is_empty() {
                    return Ok(None);
                }
                let whole = built(alloc, sig, *f, copies)?;
                Ok(Some(whole))
            }
        }
    }

    // The instance, in memory of its own.
    pub(crate) fn instance(
        &self,
        alloc: Global,
        sig: &Signature,
        t: &Flat,
    ) -> Result<Flat, NoMemory>
        requires values { SettledValues sig.now (value self.now) }
        requires flat { Settled sig.now t.now }
        ensures { IfOk result (λ u. u ≡ inst sig.now (value self.now) t.now) }
    {
        match self.changed_term(alloc, sig, t)? {
            Some(u) => Ok(u),
            None => {
                let copy = t.copy(alloc)?;
                Ok(copy)
            }
        }
    }
}
