//! Whether a sort admits sums, and whether it admits an identity.
ghost use Rattle.std.specs.Prelude.{◌↔◌, [], Any, IsTrue};
ghost use Rattle.fvn_terms.specs.Signature.{axioms, AtOrBelow};
ghost use Rattle.fvn_terms.specs.Equality.{IsAssociative};
ghost use Rattle.fvn_forms.specs.Ranks.{result as least_result};
ghost use Rattle.fvn_sort_bounds.specs.Admitting.{AdmitsSum, AdmitsIdentity};

use fvn_signature::Signature;
use fvn_terms::{OpId, Rank, SortId};

// Whether one of the ranks gives the sort, or one below it.
fn some_gives(sig: &Signature, ranks: &[Rank], s: SortId) -> bool
    ensures { IsTrue result ↔ Any (λ r. AtOrBelow sig.now r.result s) ranks.now }
{
    for rank in ranks {
        if sig.leq(rank.result, s) {
            return true;
        }
    }
    false
}

/// Whether some sum by the operator has the sort, or one below it.
///
/// It costs one comparison for each declared rank, since a sum over the sorts of a rank has what the rank gives, or less.
pub fn admits_sum(sig: &Signature, f: OpId, s: SortId) -> bool
    requires { IsAssociative (axioms sig.now f) }
    ensures { IsTrue result ↔ AdmitsSum sig.now f s }
{
    sig.recall_good();
    match sig.declarations().declared(f) {
        None => false,
        Some(entry) => some_gives(sig, entry.ranks.as_slice(), s),
    }
}

// Whether the constant has the sort.
fn has_sort(sig: &Signature, e: OpId, s: SortId) -> bool
    ensures { IsTrue result ↔ AtOrBelow sig.now (least_result sig.now e []) s }
{
    let least = sig.result(e, &[]);
    sig.leq(least, s)
}

/// Whether the operator has an identity, and this has the sort.
pub fn admits_identity(sig: &Signature, f: OpId, s: SortId) -> bool
    ensures { IsTrue result ↔ AdmitsIdentity sig.now f s }
{
    match sig.identity(f) {
        None => false,
        Some(e) => has_sort(sig, e, s),
    }
}
