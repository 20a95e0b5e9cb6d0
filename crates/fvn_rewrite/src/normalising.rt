//! Normal forms.
ghost use Rattle.std.specs.Prelude.{IfOk};
ghost use Rattle.fvn_flat.specs.Fits.{Fits};
ghost use Rattle.fvn_theory.specs.Equations.{equations_of};
ghost use Rattle.fvn_rewrite_laws.specs.Normalised.{IsNormalised};
ghost use Rattle.fvn_rewrite.specs.Usable.{AreUsable};
ghost use Rattle.fvn_rewrite.specs.declared.normalising.Turn.TheVariants.{Next};
ghost use Rattle.fvn_rewrite.specs.inner.Turns.{TurnAs};

use crate::quick::begin;
use crate::stepping::step;
use fvn_flat::{Flat, Normal};
use fvn_rewrite_rules::Rules;
use fvn_signature::Signature;
use fvn_terms::{NoMemory, rewriting_is_lawful};
use fvn_theory::Bounds;
use std::alloc::Global;

// What comes of one turn: the form is too large, or irreducible, or one step leads on.
#[derive(Drop)]
pub(crate) enum Turn {
    Large,
    Irreducible,
    Next(Flat),
}

// One turn.
fn take_turn(
    alloc: Global,
    sig: &Signature,
    rules: &Rules,
    t: &Flat,
    size: u64,
) -> Result<Turn, NoMemory>
    requires term { Fits sig.now t.now }
    requires rules { AreUsable sig.now rules.now }
    ensures { IfOk result (TurnAs sig.now (equations_of rules.now.equations) t.now size) }
{
    let large = t.size() > size;
    if large {
        return Ok(Turn::Large);
    }
    let next = step(alloc, sig, rules, t)?;
    match next {
        Some(u) => Ok(Turn::Next(u)),
        None => Ok(Turn::Irreducible),
    }
}

// What comes of a form from which one step leads on.
fn reduced(
    alloc: Global,
    sig: &Signature,
    rules: &Rules,
    t: &Flat,
    next: Flat,
    bounds: Bounds,
) -> Result<Normal, NoMemory>
    requires term { Fits sig.now t.now }
    requires rules { AreUsable sig.now rules.now }
    requires next { TurnAs sig.now (equations_of rules.now.equations) t.now bounds.size
        (Next next) }
    ensures { IfOk result
        (IsNormalised sig.now (equations_of rules.now.equations) t.now bounds) }
{
    rewriting_is_lawful();
    let none = bounds.steps == 0;
    if none {
        let start = t.copy(alloc)?;
        let end = t.copy(alloc)?;
        return Ok(Normal::Steps(start, end));
    }
    let begun = begin(alloc, sig, rules, t, next, bounds)?;
    let mut left = begun.left;
    let mut reached = begun.form;
    loop {
        let now = take_turn(alloc, sig, rules, &reached, bounds.size)?;
        match now {
            Turn::Large => return Ok(Normal::Size(reached)),
            Turn::Irreducible => return Ok(Normal::Form(reached)),
            Turn::Next(u) => {
                let spent = left == 0;
                if spent {
                    let start = t.copy(alloc)?;
                    return Ok(Normal::Steps(start, reached));
                }
                left -= 1;
                reached = u;
            }
        }
    }
}

/// A normal form to which at most `bounds.steps` steps lead; or what just so many lead to, where it is reducible; or
/// what at most so many lead to, where it has over `bounds.size` symbols.
pub fn normal(
    alloc: Global,
    sig: &Signature,
    rules: &Rules,
    t: &Flat,
    bounds: Bounds,
) -> Result<Normal, NoMemory>
    requires term { Fits sig.now t.now }
    requires rules { AreUsable sig.now rules.now }
    ensures { IfOk result
        (IsNormalised sig.now (equations_of rules.now.equations) t.now bounds) }
{
    // Each form is tested for its size before a step is sought, the first one too.
    let first = take_turn(alloc, sig, rules, t, bounds.size)?;
    match first {
        Turn::Large => {
            let form = t.copy(alloc)?;
            Ok(Normal::Size(form))
        }
        Turn::Irreducible => {
            let form = t.copy(alloc)?;
            Ok(Normal::Form(form))
        }
        Turn::Next(next) => {
            let found = reduced(alloc, sig, rules, t, next, bounds)?;
            Ok(found)
        }
    }
}
