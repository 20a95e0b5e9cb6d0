//! Plain terms in flat form, and back.
ghost use Rattle.std.specs.Prelude.{◌≡◌, ◌++◌, ◌∷◌, [], MatchOption, IfOk, OnOk};
ghost use Rattle.fvn_terms.specs.Plain.{term, terms};
ghost use Rattle.fvn_terms.specs.Signature.{IsTerm};
ghost use Rattle.fvn_terms.specs.Equality.{two, BEqual};
ghost use Rattle.fvn_forms.specs.Flat.{plain, nest_all};
ghost use Rattle.fvn_forms.specs.Canon.{canon};
ghost use Rattle.fvn_flat.specs.Fits.{Fits};
ghost use Rattle.fvn_flat.specs.inner.Gathered.{gathered_of, gathered, IsNested};

use crate::building::built;
use crate::flat::{Flat, Node};
use fvn_signature::Signature;
use fvn_terms::{Args, NoMemory, OpId, Plain};
use std::alloc::Global;

// The arguments of a nested sum of the operator.
fn nested_args<'a>(sig: &Signature, f: OpId, t: &'a Plain) -> Option<&'a Args>
    ensures { MatchOption result
        (gathered_of sig.now f (term t.now) ≡ canon sig.now (term t.now) ∷ [])
        (λ us. IsNested sig.now f (term t.now) us.now) }
{
    match t {
        Plain::Var(_) => None,
        Plain::App(g, us) => {
            if us.items.is_empty() {
                return None;
            }
            if f != *g {
                return None;
            }
            if sig.axioms(f).is_sum() {
                Some(us)
            } else {
                None
            }
        }
    }
}

// The flat form, also of what is no well-kinded term.
#[cycle(flat_form)]
fn flat_form(alloc: Global, sig: &Signature, t: &Plain) -> Result<Flat, NoMemory>
    ensures { IfOk result (λ u. u ≡ canon sig.now (term t.now)) }
{
    match t {
        Plain::Var(x) => Ok(Flat::var(*x)),
        Plain::App(f, us) => {
            let mut forms = Vec::new(alloc);
            add_forms(alloc, sig, *f, &mut forms, us)?;
            let whole = built(alloc, sig, *f, forms)?;
            Ok(whole)
        }
    }
}

// Adds the flat forms of the arguments; of a nested sum, in place of its own form, those of its arguments,
// so that all summands are put in order once.
#[cycle(flat_form)]
fn add_forms(
    alloc: Global,
    sig: &Signature,
    f: OpId,
    forms: &mut Vec<Flat>,
    us: &Args,
) -> Result<(), NoMemory>
    ensures { OnOk result (forms.new.items ≡ forms.old.items ++ gathered sig.now f us.now) }
{
    for u in &us.items {
        match nested_args(sig, f, u) {
            Some(vs) => add_forms(alloc, sig, f, forms, vs)?,
            None => {
                let form = flat_form(alloc, sig, u)?;
                forms.push(form)?;
            }
        }
    }
    Ok(())
}

/// The flat form of a term.
pub fn flatten(alloc: Global, sig: &Signature, t: &Plain) -> Result<Flat, NoMemory>
    requires { IsTerm sig.now (term t.now) }
    ensures exact { IfOk result (λ u. u ≡ canon sig.now (term t.now)) }
    ensures equal { IfOk result (λ u. BEqual sig.now (term t.now) (plain u)) }
    ensures fits { IfOk result (Fits sig.now) }
{
    sig.recall_good();
    let u = flat_form(alloc, sig, t)?;
    Ok(u)
}

// The operator over two terms.
fn pair(alloc: Global, f: OpId, t: Plain, u: Plain) -> Result<Plain, NoMemory>
    ensures { IfOk result (λ v. term v ≡ two f (term t) (term u)) }
{
    let mut items = Vec::new(alloc);
    items.push(t)?;
    items.push(u)?;
    Ok(Plain::App(f, Args::from_vec(items)))
}

// The operator used between the terms, nested to the right.
fn nested(alloc: Global, f: OpId, mut ts: Vec<Plain>) -> Result<Plain, NoMemory>
    ensures { IfOk result (λ u. term u ≡ nest_all f (terms ts.items)) }
{
    let mut rest = match ts.pop() {
        Some(t) => t,
        None => return Ok(Plain::App(f, Args::from_vec(ts))),
    };
    while let Some(t) = ts.pop() {
        rest = pair(alloc, f, t, rest)?;
    }
    Ok(rest)
}

impl Flat {
    /// The plain term; a sum is nested to the right.
    pub fn to_plain(&self, alloc: Global) -> Result<Plain, NoMemory>
        ensures { IfOk result (λ t. term t ≡ plain self.now) }
    {
        match &self.node {
            Node::Var(x) => Ok(Plain::Var(*x)),
            Node::App(f, joined, ts) => {
                let mut items = Vec::new(alloc);
                for t in ts {
                    items.push(t.to_plain(alloc)?)?;
                }
                if *joined {
                    let whole = nested(alloc, *f, items)?;
                    return Ok(whole);
                }
                Ok(Plain::App(*f, Args::from_vec(items)))
            }
        }
    }
}
