//! Whether heads leave it open that a pattern has a term as an instance.
ghost use Rattle.std.specs.Prelude.{◌≡◌, false, [], ◌∷◌, IsTrue, None, IfSome};
ghost use Rattle.fvn_terms.specs.Signature.{axioms};
ghost use Rattle.fvn_terms.specs.Equality.{identity};
ghost use Rattle.fvn_flat.specs.Forms.{head_of};
ghost use Rattle.fvn_flat.specs.Fits.{Fits, AllFit};
ghost use Rattle.fvn_match.specs.Matching.{HasNoMatcher};
ghost use Rattle.fvn_match.specs.inner.Heads.{is_head, headed_in, KeepsHead, IsLost, IsLostAmong};

use crate::summands::is_headed;
use fvn_flat::Flat;
use fvn_signature::Signature;
use fvn_terms::OpId;

// Whether the operator has no identity.
pub(crate) fn has_no_identity(sig: &Signature, f: OpId) -> bool
    ensures { IsTrue result → identity (axioms sig.now f) ≡ None }
{
    match sig.identity(f) {
        None => true,
        Some(_) => false,
    }
}

// The operator that heads the pattern, where it has no identity: it heads each instance too.
fn kept_head(sig: &Signature, p: &Flat) -> Option<OpId>
    ensures { IfSome result (KeepsHead sig.now p.now) }
{
    match p.head() {
        Some(f) => {
            let kept = has_no_identity(sig, f);
            if kept { Some(f) } else { None }
        }
        None => None,
    }
}

// Whether the operator heads the term.
fn is_head(t: &Flat, f: OpId) -> bool
    ensures { result ≡ is_head f (head_of t.now) }
{
    match t.head() {
        Some(g) => g == f,
        None => false,
    }
}

// How many of the terms the operator heads.
fn count_headed(ts: &[Flat], f: OpId) -> usize
    ensures { result ≡ headed_in f ts.now }
{
    let mut n: usize = 0;
    for t in ts {
        if is_head(t, f) {
            n += 1;
        }
    }
    n
}

// Whether the pattern, which keeps this head, may make the term.
#[cycle(keep)]
fn may_keep(sig: &Signature, f: OpId, p: &Flat, t: &Flat) -> bool
    requires kept { KeepsHead sig.now p.now f }
    requires pattern { Fits sig.now p.now }
    requires target { Fits sig.now t.now }
    ensures { result ≡ false → IsLost sig.now p.now t.now }
{
    sig.recall_good();
    let headed = is_headed(t, f);
    if !headed {
        return false;
    }
    let ps = p.args();
    let ts = t.args();
    for q in ps {
        let stays = may_stand(sig, ps, q, ts);
        if !stays {
            return false;
        }
    }
    true
}

// Whether a pattern, one of several, may make one of the terms; one that keeps no head may. Those that keep the same
// head have as many terms with that head.
#[cycle(keep)]
fn may_stand(sig: &Signature, ps: &[Flat], q: &Flat, ts: &[Flat]) -> bool
    requires pattern { Fits sig.now q.now }
    requires targets { AllFit sig.now ts.now }
    ensures { result ≡ false → IsLostAmong sig.now ps.now q.now ts.now }
{
    match kept_head(sig, q) {
        None => true,
        Some(g) => {
            let few = count_headed(ts, g) < count_headed(ps, g);
            if few {
                return false;
            }
            for u in ts {
                let may = may_keep(sig, g, q, u);
                if may {
                    return true;
                }
            }
            false
        }
    }
}

// Whether heads leave it open that the pattern has the term as an instance.
pub(crate) fn heads_allow(sig: &Signature, p: &Flat, t: &Flat) -> bool
    requires pattern { Fits sig.now p.now }
    requires target { Fits sig.now t.now }
    ensures { result ≡ false → IsLost sig.now p.now t.now }
{
    match kept_head(sig, p) {
        None => true,
        Some(f) => may_keep(sig, f, p, t),
    }
}

/// Whether heads leave it open that the pattern has the target as an instance.
///
/// An operator without an identity heads each instance of what it heads. So it heads the target as well, and what such
/// an operator heads among its arguments has an instance among those of the target, which is asked in the same way, and
/// of these there are as many.
pub fn may_match(sig: &Signature, pattern: &Flat, target: &Flat) -> bool
    requires pattern { Fits sig.now pattern.now }
    requires target { Fits sig.now target.now }
    // Where it is false, no well-sorted substitution makes the pattern the target.
    ensures { result ≡ false → HasNoMatcher sig.now (pattern.now ∷ []) (target.now ∷ []) }
{
    sig.recall_good();
    heads_allow(sig, pattern, target)
}
