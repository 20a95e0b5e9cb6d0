//! Operators over flat terms, flat again.
ghost use Rattle.std.specs.Prelude.{◌≡◌, ◌++◌, false, IfOk, OnOk};
ghost use Rattle.fvn_terms.specs.Equality.{BEqual};
ghost use Rattle.fvn_forms.specs.Flat.{fapp, fpack, plain};
ghost use Rattle.fvn_forms.specs.InOrder.{sort};
ghost use Rattle.fvn_forms.specs.Canon.{as_constant, parts, all_parts, joined, sum, build};
ghost use Rattle.fvn_flat.specs.Forms.{args_of};
ghost use Rattle.fvn_flat.specs.Fits.{Fits, AllFit, Takes, plain_over};
ghost use Rattle.fvn_flat.specs.inner.Summands.{is_sum_of};

use crate::flat::{Flat, Node};
use fvn_signature::Signature;
use fvn_terms::{NoMemory, OpId};
use std::alloc::Global;

impl Flat {
    // Whether the term is a sum of the operator.
    fn is_sum_of(&self, f: OpId) -> bool
        ensures { result ≡ is_sum_of f self.now }
    {
        match &self.node {
            Node::Var(_) => false,
            Node::App(g, joined, _) => { if *joined { f == *g } else { false } }
        }
    }

    // The operator of a constant.
    fn as_constant(&self) -> Option<OpId>
        ensures { result ≡ as_constant self.now }
    {
        match &self.node {
            Node::Var(_) => None,
            Node::App(g, joined, ts) => {
                if *joined {
                    return None;
                }
                if ts.is_empty() { Some(*g) } else { None }
            }
        }
    }

    /// The arguments, taken out of the form; a variable and a constant have none.
    pub fn into_args(self, alloc: Global) -> Vec<Flat>
        ensures { result.items ≡ args_of self }
    {
        let Flat { node } = self;
        match node {
            Node::Var(_) => Vec::new(alloc),
            Node::App(_, _, ts) => ts,
        }
    }

    // The operator over the arguments as they are.
    pub(crate) fn unjoined(f: OpId, args: Vec<Flat>) -> Flat
        ensures { result ≡ fapp f false (fpack args.items) }
    {
        Flat {
            node: Node::App(f, false, args),
        }
    }
}

// Adds the summands of a term.
fn add_summands(
    alloc: Global,
    sig: &Signature,
    f: OpId,
    summands: &mut Vec<Flat>,
    t: Flat,
) -> Result<(), NoMemory>
    ensures { OnOk result (summands.new.items ≡ summands.old.items ++ parts sig.now f t) }
{
    if t.is_sum_of(f) {
        let mut more = t.into_args(alloc);
        summands.append(&mut more)?;
        return Ok(());
    }
    let identity = sig.axioms(f).identity();
    match t.as_constant() {
        Some(g) => match identity {
            Some(e) => {
                if e != g {
                    summands.push(t)?;
                }
            }
            None => summands.push(t)?,
        },
        None => summands.push(t)?,
    }
    Ok(())
}

// The terms in order.
fn sorted(mut ts: Vec<Flat>) -> Result<Vec<Flat>, NoMemory>
    ensures { IfOk result (λ us. us.items ≡ sort ts.items) }
{
    ts.sort()?;
    Ok(ts)
}

// The sum of summands that stand in order.
fn joined(alloc: Global, sig: &Signature, f: OpId, mut summands: Vec<Flat>) -> Flat
    ensures { result ≡ joined sig.now f summands.items }
{
    if summands.len() == 1 {
        if let Some(t) = summands.pop() {
            return t;
        }
    }
    if summands.is_empty() {
        if let Some(e) = sig.axioms(f).identity() {
            return Flat::unjoined(e, Vec::new(alloc));
        }
    }
    Flat {
        node: Node::App(f, true, summands),
    }
}

// The sum of all summands of the arguments.
fn summed(alloc: Global, sig: &Signature, f: OpId, args: Vec<Flat>) -> Result<Flat, NoMemory>
    ensures { IfOk result (λ t. t ≡ sum sig.now f (all_parts sig.now f args.items)) }
{
    let mut summands = Vec::with_capacity(alloc, args.len())?;
    for t in args {
        add_summands(alloc, sig, f, &mut summands, t)?;
    }
    Ok(joined(alloc, sig, f, sorted(summands)?))
}

// The operator over the arguments, flat again.
pub(crate) fn built(
    alloc: Global,
    sig: &Signature,
    f: OpId,
    args: Vec<Flat>,
) -> Result<Flat, NoMemory>
    ensures { IfOk result (λ t. t ≡ build sig.now f args.items) }
{
    if args.is_empty() {
        return Ok(Flat::unjoined(f, args));
    }
    let axioms = sig.axioms(f);
    if axioms.is_sum() {
        let sum = summed(alloc, sig, f, args)?;
        return Ok(sum);
    }
    if axioms.is_commutative() {
        return Ok(Flat::unjoined(f, sorted(args)?));
    }
    Ok(Flat::unjoined(f, args))
}

impl Flat {
    /// The flat form of the operator over the arguments.
    pub fn app(alloc: Global, sig: &Signature, op: OpId, args: Vec<Flat>) -> Result<Flat, NoMemory>
        requires fit { AllFit sig.now args.items }
        requires takes { Takes sig.now op args.items }
        // The flat form, which is equal modulo the axioms to the operator over the plain terms.
        ensures exact { IfOk result (λ t. t ≡ build sig.now op args.items) }
        ensures equal { IfOk result (λ t.
            BEqual sig.now (plain_over sig.now op args.items) (plain t)) }
        ensures fits { IfOk result (Fits sig.now) }
    {
        sig.recall_good();
        let t = built(alloc, sig, op, args)?;
        Ok(t)
    }
}
