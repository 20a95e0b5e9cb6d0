//! The cursor over the splits of a problem: each is given once.
ghost use Rattle.std.specs.Prelude.{◌≡◌, ◌-◌, ◌<◌, ◌++◌, length, take, IfOk, OnOk, OnErr, IfSome};
ghost use Rattle.fvn_purify.specs.Parts.{outline};
ghost use Rattle.fvn_purify.specs.Splits.{HasOneFree};
ghost use Rattle.fvn_purify.specs.Cursor.{HasSamePending, IsGivenFrom};
ghost use Rattle.fvn_purify.specs.inner.Choices.{IsKept};
ghost use Rattle.fvn_purify.specs.inner.Founds.{cursor, IsFoundFrom};
ghost use Rattle.fvn_purify.specs.Weight.{cursor_weight};
ghost use Rattle.fvn_purify.specs.declared.split.Split.{Split as InSplit};

use crate::choosing::Partial;
use crate::classes::Classes;
use crate::split::Split;
use crate::stepping::{Step, take_step};
use fvn_base::Seq;
use fvn_signature::Signature;
use fvn_terms::NoMemory;
use std::alloc::Global;
use std::marker::Model;

/// What is found in one step.
#[derive(Drop)]
enum Found {
    Nothing,
    More,
    Split(Split),
}

/// A cursor over the splits of a problem's parts. It is seen as what is decided of those to come.
#[derive(Drop)]
pub struct Splits<'a> {
    pub(crate) alloc: Global,
    pub(crate) sig: &'a Signature,
    pub(crate) classes: &'a Classes,
    pub(crate) partials: Vec<Partial>,
}

impl<'a> Model for Splits<'a> {
    ghost use Rattle.fvn_purify.specs.Parts.{outline};
    ghost use Rattle.fvn_purify.specs.Cursor.{Cursor};
    ghost use Rattle.fvn_purify.specs.inner.Choices.{IsKept};

    ghost Value = { Cursor };

    ghost view = { λ s. record {
      declarations = s.sig.now;
      outline = outline s.classes.now;
      partials = s.partials.items;
    } };

    ghost invariant = { λ s. IsKept (record {
      declarations = s.sig.now;
      outline = outline s.classes.now;
      partials = s.partials.items;
    }) };
}

// Puts these in place of the last one.
fn replace_last(partials: &mut Vec<Partial>, parts: Seq<Partial>) -> Result<(), NoMemory>
    requires { 0 < length partials.old.items }
    ensures ok { OnOk result
        (partials.new.items ≡ take (length partials.old.items - 1) partials.old.items ++ parts) }
    ensures no_memory { OnErr result (partials.new.items ≡ partials.old.items) }
{
    let last = partials.len() - 1;
    let mut parts = parts.into_vec();
    partials.append(&mut parts)?;
    let _last = partials.remove(last);
    Ok(())
}

// Takes one step; a split where one is found, and no more where there is none.
fn advance_once(
    alloc: Global,
    sig: &Signature,
    classes: &Classes,
    partials: &mut Vec<Partial>,
) -> Result<Found, NoMemory>
    requires kept { IsKept (cursor sig.now (outline classes.now) partials.old.items) }
    ensures kept { IsKept (cursor sig.now (outline classes.now) partials.new.items) }
    ensures found { IfOk result (IsFoundFrom
        (cursor sig.now (outline classes.now) partials.old.items)
        (cursor sig.now (outline classes.now) partials.new.items)) }
    ensures no_memory { OnErr result (partials.new.items ≡ partials.old.items) }
{
    let given = match partials.as_slice().last() {
        None => return Ok(Found::Nothing),
        Some(top) => take_step(alloc, sig, classes, top)?,
    };
    match given {
        Step::More(parts) => {
            replace_last(partials, parts)?;
            Ok(Found::More)
        }
        Step::Whole(split) => {
            let _top = partials.pop();
            Ok(Found::Split(split))
        }
    }
}

// Takes steps until a split is found, or none is to come.
fn next_split(
    alloc: Global,
    sig: &Signature,
    classes: &Classes,
    partials: &mut Vec<Partial>,
) -> Result<Option<Split>, NoMemory>
    requires kept { IsKept (cursor sig.now (outline classes.now) partials.old.items) }
    ensures kept { IsKept (cursor sig.now (outline classes.now) partials.new.items) }
    ensures given { IfOk result (IsGivenFrom
        (cursor sig.now (outline classes.now) partials.old.items)
        (cursor sig.now (outline classes.now) partials.new.items)) }
    ensures falls { IfOk result (λ r. IfSome r (λ s.
        cursor_weight (cursor sig.now (outline classes.now) partials.new.items)
        < cursor_weight (cursor sig.now (outline classes.now) partials.old.items))) }
    ensures no_memory { OnErr result (HasSamePending
        (cursor sig.now (outline classes.now) partials.old.items)
        (cursor sig.now (outline classes.now) partials.new.items)) }
{
    'steps: loop {
        match advance_once(alloc, sig, classes, partials)? {
            Found::Nothing => return Ok(None),
            Found::More => {}
            Found::Split(split) => return Ok(Some(split)),
        }
    }
}

impl<'a> Splits<'a> {
    /// The next split, or none where all are given. At want of memory the same are to come as
    /// before.
    pub fn advance(&mut self) -> Result<Option<Split>, NoMemory>
        ensures of { (self.new.declarations ≡ self.old.declarations)
            × (self.new.outline ≡ self.old.outline) }
        ensures given { IfOk result (IsGivenFrom self.old self.new) }
        ensures one_free { IfOk result (λ r.
            IfSome r (HasOneFree self.old.declarations self.old.outline)) }
        ensures falls { IfOk result (λ r.
            IfSome r (λ s. cursor_weight self.new < cursor_weight self.old)) }
        ensures no_memory { OnErr result (HasSamePending self.old self.new) }
    {
        let found = next_split(self.alloc, self.sig, self.classes, &mut self.partials)?;
        Ok(found)
    }
}
