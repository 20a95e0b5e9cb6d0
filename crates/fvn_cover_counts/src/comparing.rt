//! How rows are compared.
ghost use Rattle.std.specs.Prelude.{◌≡◌, ◌↔◌, IsTrue, Any, All};
ghost use Rattle.fvn_cover_counts.specs.inner.Comparing.{after_one, is_part, IsOwn, AllowsOperator, is_below, is_above_some, allows_variable};

use crate::kept::is_kept;
use crate::rows::Row;
use crate::symbols::{Symbol, is_same};
use fvn_signature::Signature;

// What is left of the places after one of the others.
fn after_one<'a>(places: &'a [u64], other: u64) -> &'a [u64]
    ensures { result.now ≡ after_one places.now other }
{
    if places.is_empty() {
        return places;
    }
    if places[0] == other {
        return &places[1..];
    }
    places
}

// Whether the places are some of the others, in their order.
fn is_part(places: &[u64], others: &[u64]) -> bool
    ensures { result ≡ is_part places.now others.now }
{
    if places.len() > others.len() {
        return false;
    }
    let mut left = places;
    for other in others {
        left = after_one(left, *other);
    }
    left.is_empty()
}

// Whether the other row is of the same symbol, which stands there wherever it does here.
fn is_own(row: &Row, other: &Row) -> bool
    ensures { IsTrue result ↔ IsOwn row.now other.now }
{
    is_same(row.symbol, other.symbol) && is_part(row.places.as_slice(), other.places.as_slice())
}

// Whether some row is such a one.
fn has_own(row: &Row, others: &[Row]) -> bool
    ensures { IsTrue result ↔ Any (IsOwn row.now) others.now }
{
    for other in others {
        if is_own(row, other) {
            return true;
        }
    }
    false
}

// Whether the row, if it is of an operator that the axioms keep, has such a row among the others.
fn allows_operator(sig: &Signature, row: &Row, others: &[Row]) -> bool
    ensures { IsTrue result ↔ AllowsOperator sig.now others.now row.now }
{
    match row.symbol {
        Symbol::Variable(_) => true,
        Symbol::Operator(f) => {
            if has_own(row, others) {
                return true;
            }
            !is_kept(sig, f)
        }
    }
}

// Whether all rows of operators allow it.
pub(crate) fn operators_allow(sig: &Signature, rows: &[Row], others: &[Row]) -> bool
    ensures { IsTrue result ↔ All (AllowsOperator sig.now others.now) rows.now }
{
    for row in rows {
        if !allows_operator(sig, row, others) {
            return false;
        }
    }
    true
}

// Whether the row is of a variable, and its places are some of those of the other.
fn is_below(row: &Row, other: &Row) -> bool
    ensures { result ≡ is_below other.now row.now }
{
    match row.symbol {
        Symbol::Variable(_) => is_part(row.places.as_slice(), other.places.as_slice()),
        Symbol::Operator(_) => false,
    }
}

// Whether some row of a variable, before the first with more places, has only places of the other.
fn is_above_some(rows: &[Row], other: &Row) -> bool
    ensures { result ≡ is_above_some other.now rows.now }
{
    for row in rows {
        if row.places.len() > other.places.len() {
            return false;
        }
        if is_below(row, other) {
            return true;
        }
    }
    false
}

// Whether the other row, if it is of a variable, is above some row of a variable.
fn allows_variable(rows: &[Row], other: &Row) -> bool
    ensures { result ≡ allows_variable rows.now other.now }
{
    match other.symbol {
        Symbol::Variable(_) => is_above_some(rows, other),
        Symbol::Operator(_) => true,
    }
}

// Whether all other rows of variables allow it.
pub(crate) fn variables_allow(rows: &[Row], others: &[Row]) -> bool
    ensures { IsTrue result ↔ All (λ o. IsTrue (allows_variable rows.now o)) others.now }
{
    for other in others {
        if !allows_variable(rows, other) {
            return false;
        }
    }
    true
}
