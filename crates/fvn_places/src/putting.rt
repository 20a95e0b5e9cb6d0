//! Forms with another form in the place of one within.
ghost use Rattle.std.specs.Prelude.{◌≡◌, ◌<◌, ◌+◌, ◌++◌, ◌∷◌, [], take, drop, length, Some, MatchOption, IfOk};
ghost use Rattle.fvn_forms.specs.Canon.{build};
ghost use Rattle.fvn_flat.specs.Forms.{head_of, args_of};
ghost use Rattle.fvn_flat.specs.Fits.{Fits};
ghost use Rattle.fvn_places.specs.Putting.{CanPut, PutAs};
ghost use Rattle.fvn_places.specs.inner.Arguments.{MayStandFor};

use fvn_flat::Flat;
use fvn_signature::Signature;
use fvn_terms::{NoMemory, OpId};
use std::alloc::Global;

/// The list with copies of the forms behind it.
pub fn add_copies(alloc: Global, copies: Vec<Flat>, ts: &[Flat]) -> Result<Vec<Flat>, NoMemory>
    ensures { IfOk result (λ all. all.items ≡ copies.items ++ ts.now) }
{
    let mut all = copies;
    for t in ts {
        all.push(t.copy(alloc)?)?;
    }
    Ok(all)
}

/// The forms with another one at this place.
pub fn with_one_replaced(
    alloc: Global,
    ts: &[Flat],
    place: usize,
    u: Flat,
) -> Result<Vec<Flat>, NoMemory>
    requires { place < length ts.now }
    ensures { IfOk result (λ all. all.items ≡ take place ts.now ++ u ∷ drop (place + 1) ts.now) }
{
    let mut all = add_copies(alloc, Vec::new(alloc), &ts[..place])?;
    all.push(u)?;
    let whole = add_copies(alloc, all, &ts[place + 1..])?;
    Ok(whole)
}

// The form with another one in place of an argument, flat again.
fn with_argument(
    alloc: Global,
    sig: &Signature,
    f: OpId,
    t: &Flat,
    place: usize,
    u: Flat,
) -> Result<Flat, NoMemory>
    requires term { Fits sig.now t.now }
    requires head { head_of t.now ≡ Some f }
    requires argument { MayStandFor sig.now t.now place u }
    ensures { IfOk result (λ whole.
        whole ≡ build sig.now f
        (take place (args_of t.now) ++ u ∷ drop (place + 1) (args_of t.now))) }
{
    sig.recall_good();
    let args = with_one_replaced(alloc, t.args(), place, u)?;
    let whole = Flat::app(alloc, sig, f, args)?;
    Ok(whole)
}

// The first argument that the path takes, and the rest of the path.
fn first_step(path: &[usize]) -> Option<(usize, &[usize])>
    ensures { MatchOption result (path.now ≡ []) (λ p. path.now ≡ p.0 ∷ p.1.now) }
{
    match path.split_first() {
        Some((i, rest)) => Some((*i, rest)),
        None => None,
    }
}

/// The form with another one in the place of that to which the path leads, flat again.
pub fn put(
    alloc: Global,
    sig: &Signature,
    t: &Flat,
    path: &[usize],
    given: &Flat,
) -> Result<Flat, NoMemory>
    requires term { Fits sig.now t.now }
    requires given { CanPut sig.now path.now t.now given.now }
    ensures { IfOk result (PutAs sig.now path.now t.now given.now) }
{
    sig.recall_good();
    let Some((i, rest)) = first_step(path) else {
        let whole = given.copy(alloc)?;
        return Ok(whole);
    };
    let Some(f) = t.head() else {
        let whole = t.copy(alloc)?;
        return Ok(whole);
    };
    let ts = t.args();
    let u = put(alloc, sig, &ts[i], rest, given)?;
    let whole = with_argument(alloc, sig, f, t, i, u)?;
    Ok(whole)
}
