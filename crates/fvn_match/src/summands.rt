//! Summands of flat terms, as different pieces with their numbers.
ghost use Rattle.std.specs.Prelude.{◌≡◌, ◌≤◌, ◌<◌, ◌↔◌, [], ◌∷◌, length, take, drop, Some, IsTrue, IfOk};
ghost use Rattle.fvn_terms.specs.Signature.{axioms};
ghost use Rattle.fvn_terms.specs.Equality.{IsAssociative, identity};
ghost use Rattle.fvn_forms.specs.InOrder.{InOrder};
ghost use Rattle.fvn_forms.specs.Canon.{is_identity, parts};
ghost use Rattle.fvn_forms.specs.Settled.{Settled};
ghost use Rattle.fvn_flat.specs.Forms.{head_of};
ghost use Rattle.fvn_match.specs.inner.Summands.{references, IsTakenAway, IsCounted, IsRun};

use fvn_flat::Flat;
use fvn_signature::Signature;
use fvn_terms::{NoMemory, OpId};
use std::alloc::Global;
use std::slice;

// Whether the operator heads the term.
pub(crate) fn is_headed(t: &Flat, f: OpId) -> bool
    ensures { IsTrue result ↔ (head_of t.now ≡ Some f) }
{
    match t.head() {
        Some(g) => g == f,
        None => false,
    }
}

// Whether the constant of the second operator is the identity of the first.
fn is_identity_of(sig: &Signature, f: OpId, g: OpId) -> bool
    ensures { result ≡ is_identity (identity (axioms sig.now f)) g }
{
    match sig.identity(f) {
        Some(e) => e == g,
        None => false,
    }
}

// The summands of the term under an associative operator.
pub(crate) fn summands<'a>(sig: &Signature, f: OpId, t: &'a Flat) -> &'a [Flat]
    requires settled { Settled sig.now t.now }
    requires associative { IsAssociative (axioms sig.now f) }
    ensures { result.now ≡ parts sig.now f t.now }
{
    let g = match t.head() {
        None => return slice::from_ref(t),
        Some(g) => g,
    };
    let args = t.args();
    if args.is_empty() {
        if is_identity_of(sig, f, g) {
            return &[];
        }
        return slice::from_ref(t);
    }
    if g == f {
        return args;
    }
    slice::from_ref(t)
}

// Different pieces with their numbers.
#[derive(Drop)]
pub(crate) struct Counted<'a> {
    pub(crate) pieces: Vec<&'a Flat>,
    pub(crate) left: Vec<usize>,
}

// How many terms at the front are the first one.
fn run(ts: &[Flat]) -> usize
    requires { 1 ≤ length ts.now }
    ensures { IsRun ts.now result }
{
    let first = &ts[0];
    for i in 1..ts.len() {
        if !ts[i].same(first) {
            return i;
        }
    }
    ts.len()
}

// The different terms of a list in order, with their numbers.
#[inline(never)]
pub(crate) fn count_pieces<'a>(alloc: Global, ts: &'a [Flat]) -> Result<Counted<'a>, NoMemory>
    requires { InOrder ts.now }
    ensures { IfOk result (IsCounted ts.now) }
{
    let mut pieces = Vec::new(alloc);
    let mut left = Vec::new(alloc);
    let mut rest = ts;
    while !rest.is_empty() {
        let k = run(rest);
        pieces.push(&rest[0])?;
        left.push(k)?;
        rest = &rest[k..];
    }
    Ok(Counted { pieces, left })
}

// Whether the piece is the term, and some are left.
fn is_left(piece: &Flat, n: usize, u: &Flat) -> bool
    ensures { IsTrue result ↔ ((piece.now ≡ u.now) × (0 < n)) }
{
    if n == 0 {
        return false;
    }
    piece.same(u)
}

// Takes one piece away, if one is left.
fn take_one(u: &Flat, pieces: &[&Flat], left: &mut Vec<usize>) -> bool
    requires { length left.old.items ≡ length pieces.now }
    ensures { IsTakenAway (references pieces.now) left.old.items left.new.items
        (u.now ∷ []) result }
{
    for i in 0..pieces.len() {
        if is_left(pieces[i], left[i], u) {
            left[i] -= 1;
            return true;
        }
    }
    false
}

// Takes the summands of a term away, if they are left.
pub(crate) fn take(
    sig: &Signature,
    f: OpId,
    v: &Flat,
    pieces: &[&Flat],
    left: &mut Vec<usize>,
) -> bool
    requires settled { Settled sig.now v.now }
    requires associative { IsAssociative (axioms sig.now f) }
    requires long { length left.old.items ≡ length pieces.now }
    ensures { IsTakenAway (references pieces.now) left.old.items left.new.items
        (parts sig.now f v.now) result }
{
    for u in summands(sig, f, v) {
        if !take_one(u, pieces, left) {
            return false;
        }
    }
    true
}

// How many patterns at the front are the first one.
pub(crate) fn alike(patterns: &[&Flat]) -> usize
    requires { 1 ≤ length patterns.now }
    ensures { IsRun (references patterns.now) result }
{
    let first = patterns[0];
    for i in 1..patterns.len() {
        if !patterns[i].same(first) {
            return i;
        }
    }
    patterns.len()
}

// The patterns behind so many at the front.
pub(crate) fn after<'a>(patterns: &'a [&'a Flat], k: usize) -> &'a [&'a Flat]
    requires { k ≤ length patterns.now }
    ensures { result.now ≡ drop k patterns.now }
{
    &patterns[k..]
}
