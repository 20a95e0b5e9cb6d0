//! Which classes may be constants of an operator, which are noted as sums by it, which are one summand in its sums, and
//! which have different heads.
ghost use Rattle.std.specs.Prelude.{◌≡◌, ◌↔◌, ◌<◌, length, slice_index_or, None, Some, All, IsTrue};
ghost use Rattle.fvn_combine_leaves.specs.Users.{IsWholeSums, IsWhole, CanBeConstant, HaveHeads};
ghost use Rattle.fvn_combine_questions.specs.inner.Touched.{
  IsNotedIn,
  HasOtherHead,
  HasNotedUser,
  IsOneSummandIn,
};

use fvn_combine_leaves::{Reading, Sums, has_two_users, is_shared, is_user};
use fvn_combine_nodes::has_no_identity;
use fvn_signature::Signature;
use fvn_terms::OpId;

// Whether class k may be a constant of the operator.
pub(crate) fn may_be_constant(reading: &Reading, n: usize, sums: &Sums, k: usize) -> bool
    requires whole { IsWhole n reading.now }
    requires sums { IsWholeSums n sums.now }
    requires within { k < n }
    ensures { IsTrue result ↔ CanBeConstant reading.now sums.now k }
{
    if !is_user(sums, k) {
        return false;
    }
    match reading.heads.as_slice()[k] {
        None => has_two_users(reading.sums.as_slice(), n, k),
        Some(g) => g != sums.operator,
    }
}

// The operator that is noted of class k: as what heads it, or as what it is taken as a sum by.
pub(crate) fn noted_head(heads: &[Option<OpId>], k: usize) -> Option<OpId>
    ensures { result ≡ slice_index_or heads.now k None }
{
    match heads.get(k) {
        None => None,
        Some(head) => *head,
    }
}

// Whether f is noted of class k.
pub(crate) fn is_noted(heads: &[Option<OpId>], f: OpId, k: usize) -> bool
    ensures { IsTrue result → slice_index_or heads.now k None ≡ Some f }
{
    match noted_head(heads, k) {
        None => false,
        Some(g) => g == f,
    }
}

// Whether the operator, which has an identity, is noted of class k.
pub(crate) fn is_noted_sum(sig: &Signature, heads: &[Option<OpId>], f: OpId, k: usize) -> bool
    ensures { IsTrue result → IsNotedIn sig.now heads.now f k }
{
    match noted_head(heads, k) {
        None => false,
        Some(g) => {
            if g != f {
                return false;
            }
            !has_no_identity(sig.axioms(f))
        }
    }
}

// Whether another operator than that of the sums heads the class.
fn has_other_head(reading: &Reading, n: usize, sums: &Sums, k: usize) -> bool
    requires whole { IsWhole n reading.now }
    requires within { k < n }
    ensures { IsTrue result → HasOtherHead reading.now sums.now k }
{
    let _nodes = n;
    match reading.heads.as_slice()[k] {
        None => false,
        Some(own) => own != sums.operator,
    }
}

// Whether another operator than f of these sums uses class k, and is noted of it as a sum.
fn has_noted_user(
    sig: &Signature,
    sums: &[Sums],
    heads: &[Option<OpId>],
    n: usize,
    f: OpId,
    k: usize,
) -> bool
    requires whole { All (IsWholeSums n) sums.now }
    ensures { IsTrue result → HasNotedUser sums.now f (IsNotedIn sig.now heads.now) k }
{
    let _nodes = n;
    for s in sums {
        if s.operator == f {
            continue;
        }
        if !is_user(s, k) {
            continue;
        }
        if is_noted_sum(sig, heads, s.operator, k) {
            return true;
        }
    }
    false
}

// Whether another operator than that of the sums heads the class, or it is shared, and another one that uses it is noted of
// it as a sum.
pub(crate) fn is_one_summand(
    sig: &Signature,
    reading: &Reading,
    heads: &[Option<OpId>],
    n: usize,
    sums: &Sums,
    k: usize,
) -> bool
    requires whole { IsWhole n reading.now }
    requires within { k < n }
    ensures { IsTrue result
        → IsOneSummandIn reading.now sums.now (IsNotedIn sig.now heads.now) k }
{
    if has_other_head(reading, n, sums, k) {
        return true;
    }
    if !is_shared(reading, n, k) {
        return false;
    }
    has_noted_user(sig, reading.sums.as_slice(), heads, n, sums.operator, k)
}

// Whether different operators head the classes.
pub(crate) fn have_two_heads(reading: &Reading, k: usize, l: usize) -> bool
    requires left { k < length reading.now.heads }
    requires right { l < length reading.now.heads }
    ensures { IsTrue result → HaveHeads reading.now k l }
{
    let heads = reading.heads.as_slice();
    match heads[k] {
        None => false,
        Some(f) => match heads[l] {
            None => false,
            Some(g) => f != g,
        },
    }
}
