//! The first place of a form at which a step is possible, arguments first.
ghost use Rattle.std.specs.Prelude.{◌≡◌, ◌<◌, ◌+◌, ◌++◌, ◌∷◌, take, drop, length, Some, IfOk};
ghost use Rattle.fvn_flat.specs.Forms.{head_of, args_of};
ghost use Rattle.fvn_flat.specs.Fits.{Fits};
ghost use Rattle.fvn_theory.specs.Equations.{equations_of};
ghost use Rattle.fvn_rewrite.specs.inner.Walking.{WalkAs, ArgumentSteps, IsNext};
ghost use Rattle.fvn_rewrite.specs.Usable.{AreUsable};

use crate::root::root_step;
use fvn_flat::Flat;
use fvn_rewrite_laws::kinded_theories_are_lawful;
use fvn_rewrite_rules::Rules;
use fvn_signature::Signature;
use fvn_terms::{NoMemory, OpId, rewriting_is_lawful};
use std::alloc::Global;

// Adds copies of the forms.
fn add_copies(alloc: Global, copies: Vec<Flat>, ts: &[Flat]) -> Result<Vec<Flat>, NoMemory>
    ensures { IfOk result (λ all. all.items ≡ copies.items ++ ts.now) }
{
    let mut all = copies;
    for t in ts {
        all.push(t.copy(alloc)?)?;
    }
    Ok(all)
}

// The forms with another one at this place.
fn with_one_replaced(
    alloc: Global,
    ts: &[Flat],
    place: usize,
    u: Flat,
) -> Result<Vec<Flat>, NoMemory>
    requires { place < length ts.now }
    ensures { IfOk result (λ all. all.items ≡ take place ts.now ++ u ∷ drop (place + 1) ts.now) }
{
    let mut all = add_copies(alloc, Vec::new(alloc), &ts[..place])?;
    all.push(u)?;
    let whole = add_copies(alloc, all, &ts[place + 1..])?;
    Ok(whole)
}

// The form with another one in place of an argument.
fn with_argument(
    alloc: Global,
    sig: &Signature,
    rules: &Rules,
    f: OpId,
    t: &Flat,
    place: usize,
    u: Flat,
) -> Result<Flat, NoMemory>
    requires rules { AreUsable sig.now rules.now }
    requires term { Fits sig.now t.now }
    requires head { head_of t.now ≡ Some f }
    requires within { place < length (args_of t.now) }
    requires step { ArgumentSteps sig.now (equations_of rules.now.equations) t.now place u }
    ensures { IfOk result (IsNext sig.now (equations_of rules.now.equations) t.now) }
{
    sig.recall_good();
    rewriting_is_lawful();
    kinded_theories_are_lawful();
    let args = with_one_replaced(alloc, t.args(), place, u)?;
    let whole = Flat::app(alloc, sig, f, args)?;
    Ok(whole)
}

// One step at the first place at which one is possible; the places of an argument come before those of the next, and all
// of them before the form itself.
pub(crate) fn walk(
    alloc: Global,
    sig: &Signature,
    rules: &Rules,
    t: &Flat,
) -> Result<Option<Flat>, NoMemory>
    requires rules { AreUsable sig.now rules.now }
    requires term { Fits sig.now t.now }
    ensures { IfOk result (WalkAs sig.now (equations_of rules.now.equations) t.now) }
{
    match t.head() {
        None => Ok(None),
        Some(f) => {
            sig.recall_good();
            let ts = t.args();
            let count = ts.len();
            for i in 0..count {
                let found = walk(alloc, sig, rules, &ts[i])?;
                if let Some(u) = found {
                    let whole = with_argument(alloc, sig, rules, f, t, i, u)?;
                    return Ok(Some(whole));
                }
            }
            let given = root_step(alloc, sig, rules, f, t)?;
            Ok(given)
        }
    }
}
