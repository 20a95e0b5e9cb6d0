//! On which of 64 bits facts fall, and words that gain bits.
ghost use Rattle.std.specs.Prelude.{◌≡◌, ◌<◌, ◌%◌};
ghost use Rattle.fvn_terms.specs.Equality.{identity};
ghost use Rattle.fvn_cover_counts.specs.inner.Bits.{operator_bit, has_operator, place_bit, pair_bit, with_bit, with_places, with_symbol_places, with_operators, are_among, with_pair, with_pairs, with_first_pairs, with_symbol_pairs, with_variables, with_identity, with_identities};

use crate::rows::Row;
use crate::symbols::Symbol;
use fvn_terms::{Axioms, OpDecl, OpId};

// The word with one bit more.
fn with_bit(word: u64, k: u64) -> u64
    requires { k < 64 }
    ensures { result ≡ with_bit k word }
{
    word | (1u64 << k)
}

// The bit of an operator.
fn operator_bit(f: OpId) -> u64
    ensures exact { result ≡ operator_bit f }
    ensures small { result < 64 }
{
    u64::from(f.0) % 64
}

// Whether the word has the bit of the operator.
fn has_operator(word: u64, f: OpId) -> bool
    ensures { result ≡ has_operator word f }
{
    (word >> operator_bit(f)) & 1 == 1
}

// The bit of an operator at a place.
fn place_bit(f: OpId, i: u64) -> u64
    ensures exact { result ≡ place_bit f i }
    ensures small { result < 64 }
{
    (operator_bit(f) * 9 + i % 64) % 64
}

// The bit of two places, in either order.
fn pair_bit(i: u64, j: u64) -> u64
    ensures exact { result ≡ pair_bit i j }
    ensures small { result < 64 }
{
    (i.min(j) % 64 * 11 + i.max(j) % 64) % 64
}

// The word with the bits of the operator at these places.
fn with_places(word: u64, f: OpId, places: &[u64]) -> u64
    ensures { result ≡ with_places f places.now word }
{
    let mut more = word;
    for i in places {
        more = with_bit(more, place_bit(f, *i));
    }
    more
}

// The same for a row, if it is of an operator that is not left out.
fn with_operator(word: u64, out: u64, row: &Row) -> u64
    ensures { result ≡ with_symbol_places out row.now.symbol row.now.places word }
{
    match row.symbol {
        Symbol::Variable(_) => word,
        Symbol::Operator(f) => {
            if has_operator(out, f) {
                return word;
            }
            with_places(word, f, row.places.as_slice())
        }
    }
}

// The bits of all operators that are not left out, each at its places.
pub(crate) fn operators_word(out: u64, rows: &[Row]) -> u64
    ensures { result ≡ with_operators out rows.now 0 }
{
    let mut word = 0;
    for row in rows {
        word = with_operator(word, out, row);
    }
    word
}

// Whether each of the places is one of two.
fn are_among(places: &[u64], i: u64, j: u64) -> bool
    ensures { result ≡ are_among i j places.now }
{
    for p in places {
        if !(*p == i || *p == j) {
            return false;
        }
    }
    true
}

// The word with the bits of a place and each below a number, where the places are among these two.
fn with_pairs(word: u64, i: u64, places: &[u64], count: usize) -> u64
    ensures { result ≡ with_pairs i places.now count word }
{
    let mut more = word;
    for j in 0..count {
        more = with_pair(more, i, j as u64, places);
    }
    more
}

// The word with the bit of two places, if all of these are among them.
fn with_pair(word: u64, i: u64, j: u64, places: &[u64]) -> u64
    ensures { result ≡ with_pair i j places.now word }
{
    if are_among(places, i, j) {
        return with_bit(word, pair_bit(i, j));
    }
    word
}

// The same for a row, with the first of its places, if it is of a variable.
fn with_variable(word: u64, row: &Row, count: usize) -> u64
    ensures { result ≡ with_symbol_pairs count row.now.symbol row.now.places word }
{
    match row.symbol {
        Symbol::Operator(_) => word,
        Symbol::Variable(_) => with_first_pairs(word, row.places.as_slice(), count),
    }
}

// The same for the first of the places, if there is one.
fn with_first_pairs(word: u64, places: &[u64], count: usize) -> u64
    ensures { result ≡ with_first_pairs count places.now word }
{
    if places.is_empty() {
        return word;
    }
    with_pairs(word, places[0], places, count)
}

// The bits of all pairs of places, below a number, to which some variable keeps.
pub(crate) fn variables_word(rows: &[Row], count: usize) -> u64
    ensures { result ≡ with_variables count rows.now 0 }
{
    let mut word = 0;
    for row in rows {
        word = with_variable(word, row, count);
    }
    word
}

// The word with the bits of an operator and its identity, if it has one.
fn with_identity(word: u64, g: usize, axioms: Axioms) -> u64
    ensures { result ≡ with_identity g (identity axioms) word }
{
    match axioms.identity() {
        None => word,
        Some(e) => with_bit(with_bit(word, (g % 64) as u64), operator_bit(e)),
    }
}

// The bits of all operators that have an identity, and of these identities.
pub(crate) fn identities_word(ops: &[OpDecl]) -> u64
    ensures { result ≡ with_identities 0 ops.now 0 }
{
    let mut word = 0;
    for (g, o) in ops.iter().enumerate() {
        word = with_identity(word, g, o.axioms);
    }
    word
}
