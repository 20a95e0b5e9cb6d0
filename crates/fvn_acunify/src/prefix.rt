//! The highest bits of a number that already rule out every choice which begins with them.
ghost use Rattle.std.specs.Prelude.{◌≡◌, ◌↔◌, ℕ, ◌+◌, ◌^◌, ◌<◌, ◌≤◌, length, slice_index, slice_index_or, true, false, All, IsTrue, IfSome, IfNone};
ghost use Rattle.fvn_lindio.specs.Systems.{vectors_of};
ghost use Rattle.fvn_acunify.specs.ValidChoice.{IsListed, touched};
ghost use Rattle.fvn_acunify.specs.inner.Prefix.{AreBoundsOpen, CanBeFilled, CanBeOne, IsBounded, IsChanged, IsAsked, IsDead, IsOpen, share, useful_part};

use crate::theory::ColumnBounds;
use fvn_base::Seq;
use fvn_lindio::Solution;

/// The highest place from which on the bits of the number rule out every choice, or None where the
/// number is a choice that is listed. `sums` is room for a sum a column.
pub fn dead_place(
    full: &Option<Seq<usize>>,
    constants: &[usize],
    may_be_zero: &[bool],
    bounds: &ColumnBounds,
    basis: &[Solution],
    number: u128,
    sums: &mut [u64],
) -> Option<usize>
    requires bounded { IsBounded (length may_be_zero.now) constants.now basis.now }
    requires room { length sums.old ≡ length may_be_zero.now }
    requires within { number < 2 ^ length basis.now }

    ensures place { IfSome result (λ place. place ≤ length basis.now) }
    ensures dead { IfSome result (IsDead (IsListed full.now constants.now may_be_zero.now
        bounds.now (vectors_of basis.now)) number) }
    ensures listed { IfNone result (IsListed full.now constants.now may_be_zero.now
        bounds.now (vectors_of basis.now) number) }
{
    sums.fill(0);
    let mut place = basis.len();
    if !is_open(constants, may_be_zero, bounds, basis, sums, &[]) {
        return Some(place);
    }
    while place > 0 {
        place -= 1;
        let parts = basis[place].parts.as_slice();
        if (number >> place) % 2 == 1 {
            if uses_two(constants, parts) {
                return Some(place);
            }
            add(sums, parts);
        } else if is_asked(full, constants, parts) {
            return Some(place);
        }
        if !is_open(constants, may_be_zero, bounds, &basis[..place], sums, parts) {
            return Some(place);
        }
    }
    None
}

/// Whether a solution has more than 1 in the constant columns, all together: two constants, or one
/// twice. It is looked no further than that.
fn uses_two(constants: &[usize], parts: &[u32]) -> bool
    requires { All (λ c. c < length parts.now) constants.now }
    ensures { IsTrue result ↔ (1 < share constants.now parts.now) }
{
    let mut left: u32 = 1;
    for c in constants {
        let part = parts[*c];
        if part > left {
            return true;
        }
        left -= part;
    }
    false
}

/// What a solution has in a column; in one that there is not, 0.
fn part_in(parts: &[u32], j: usize) -> u32
    ensures { result ≡ slice_index parts.now j }
{
    if j < parts.len() {
        return parts[j];
    }
    0
}

/// Whether a solution is zero in these columns.
fn is_zero_in(columns: &[usize], parts: &[u32]) -> bool
    ensures { IsTrue result ↔ (touched columns.now parts.now ≡ 0) }
{
    for c in columns {
        let part = part_in(parts, *c);
        if part > 0 {
            return false;
        }
    }
    true
}

/// Whether full choices alone are listed, and the solution is zero in all constant columns, and in
/// the others.
fn is_asked(full: &Option<Seq<usize>>, constants: &[usize], parts: &[u32]) -> bool
    ensures { IsTrue result ↔ IsAsked full.now constants.now parts.now }
{
    match full {
        None => false,
        Some(others) => {
            if !is_zero_in(constants, parts) {
                return false;
            }
            is_zero_in(others.as_slice(), parts)
        }
    }
}

/// Adds a solution to the column sums.
fn add(sums: &mut [u64], parts: &[u32])
    requires sized { length parts.now ≡ length sums.old }
    requires fits { (j : ℕ) → slice_index sums.old j + slice_index parts.now j < 2 ^ 64 }
    ensures { (j : ℕ) → slice_index sums.new j ≡ slice_index sums.old j + slice_index parts.now j }
{
    for (j, part) in parts.iter().enumerate() {
        sums[j] += u64::from(*part);
    }
}

/// Whether every column can still get what is asked, with any of the lower solutions. What it has to
/// reach is looked at where `changed` is above zero, or has no such column.
fn is_open(
    constants: &[usize],
    may_be_zero: &[bool],
    bounds: &ColumnBounds,
    lower: &[Solution],
    sums: &[u64],
    changed: &[u32],
) -> bool
    requires bounded { IsBounded (length may_be_zero.now) constants.now lower.now }
    requires room { length sums.now ≡ length may_be_zero.now }
    requires short { length changed.now ≤ length sums.now }
    ensures { IsTrue result
        ↔ IsOpen changed.now constants.now may_be_zero.now bounds.now lower.now sums.now }
{
    if !are_bounds_open(bounds, constants, lower, sums, changed) {
        return false;
    }
    are_constants_open(constants, lower, sums, changed)
        && are_columns_open(may_be_zero, constants, lower, sums, changed)
}

/// Whether the bounds can still be kept, with any of the lower solutions.
fn are_bounds_open(
    bounds: &ColumnBounds,
    constants: &[usize],
    lower: &[Solution],
    sums: &[u64],
    changed: &[u32],
) -> bool
    requires among { All (λ c. c < length sums.now) constants.now }
    requires sized { All (λ v. length v.parts ≡ length sums.now) lower.now }
    requires short { length changed.now ≤ length sums.now }
    ensures { IsTrue result
        ↔ AreBoundsOpen bounds.now changed.now constants.now lower.now sums.now }
{
    if !are_within(bounds.at_most_one.as_slice(), sums) {
        return false;
    }
    are_reached(
        bounds.at_least_one.as_slice(),
        constants,
        lower,
        sums,
        changed,
    )
}

/// Whether each of these columns has at most 1.
fn are_within(at_most_one: &[usize], sums: &[u64]) -> bool
    ensures { IsTrue result ↔ All (λ j. slice_index sums.now j ≤ 1) at_most_one.now }
{
    for j in at_most_one {
        let sum = sum_in(sums, *j);
        if sum > 1 {
            return false;
        }
    }
    true
}

/// Whether each of these columns is above zero, or can be with one of the lower solutions.
fn are_reached(
    at_least_one: &[usize],
    constants: &[usize],
    lower: &[Solution],
    sums: &[u64],
    changed: &[u32],
) -> bool
    requires among { All (λ c. c < length sums.now) constants.now }
    requires sized { All (λ v. length v.parts ≡ length sums.now) lower.now }
    requires short { length changed.now ≤ length sums.now }
    ensures { IsTrue result
        ↔ All (CanBeFilled changed.now constants.now lower.now sums.now) at_least_one.now }
{
    for j in at_least_one {
        if !is_reached(constants, lower, sums, changed, *j) {
            return false;
        }
    }
    true
}

/// The same of one column; one that there is not cannot be.
fn is_reached(
    constants: &[usize],
    lower: &[Solution],
    sums: &[u64],
    changed: &[u32],
    j: usize,
) -> bool
    requires among { All (λ c. c < length sums.now) constants.now }
    requires sized { All (λ v. length v.parts ≡ length sums.now) lower.now }
    requires short { length changed.now ≤ length sums.now }
    ensures { IsTrue result ↔ CanBeFilled changed.now constants.now lower.now sums.now j }
{
    if j >= sums.len() {
        return false;
    }
    is_fillable(constants, lower, sums, changed, j)
}

/// The sum in a column; where there is none, 0.
fn sum_in(sums: &[u64], j: usize) -> u64
    ensures { result ≡ slice_index sums.now j }
{
    if j < sums.len() {
        return sums[j];
    }
    0
}

/// Whether every constant column has at most 1, and has or can get it.
fn are_constants_open(
    constants: &[usize],
    lower: &[Solution],
    sums: &[u64],
    changed: &[u32],
) -> bool
    requires among { All (λ c. c < length sums.now) constants.now }
    requires sized { All (λ v. length v.parts ≡ length sums.now) lower.now }
    ensures { IsTrue result
        ↔ All (CanBeOne changed.now constants.now lower.now sums.now) constants.now }
{
    for c in constants {
        let sum = sums[*c];
        if sum > 1 || !is_fillable(constants, lower, sums, changed, *c) {
            return false;
        }
    }
    true
}

/// Whether every column that may not be zero is above zero, or can be.
fn are_columns_open(
    may_be_zero: &[bool],
    constants: &[usize],
    lower: &[Solution],
    sums: &[u64],
    changed: &[u32],
) -> bool
    requires room { length sums.now ≡ length may_be_zero.now }
    requires among { All (λ c. c < length sums.now) constants.now }
    requires sized { All (λ v. length v.parts ≡ length sums.now) lower.now }
    ensures { IsTrue result ↔ ((j : ℕ) → slice_index_or may_be_zero.now j true ≡ false
        → CanBeFilled changed.now constants.now lower.now sums.now j) }
{
    for (j, may) in may_be_zero.iter().enumerate() {
        if !*may && !is_fillable(constants, lower, sums, changed, j) {
            return false;
        }
    }
    true
}

/// Whether a column is above zero, or can be with one of the lower solutions; one that is not asked
/// is taken to be.
fn is_fillable(
    constants: &[usize],
    lower: &[Solution],
    sums: &[u64],
    changed: &[u32],
    j: usize,
) -> bool
    requires among { All (λ c. c < length sums.now) constants.now }
    requires column { j < length sums.now }
    requires sized { All (λ v. length v.parts ≡ length sums.now) lower.now }
    ensures { IsTrue result ↔ CanBeFilled changed.now constants.now lower.now sums.now j }
{
    if !is_changed(changed, j) {
        return true;
    }
    if sums[j] > 0 {
        return true;
    }
    for solution in lower {
        if is_useful(constants, solution.parts.as_slice(), j) {
            return true;
        }
    }
    false
}

/// Whether a vector is above zero in a column, or has no such column.
fn is_changed(changed: &[u32], j: usize) -> bool
    ensures { IsTrue result ↔ IsChanged changed.now j }
{
    if j < changed.len() {
        let part = changed[j];
        return part > 0;
    }
    true
}

/// Whether a solution is above zero in a column, and may be taken; it may not with two constants,
/// or with one twice.
fn is_useful(constants: &[usize], parts: &[u32], j: usize) -> bool
    requires among { All (λ c. c < length parts.now) constants.now }
    requires column { j < length parts.now }
    ensures { IsTrue result ↔ (0 < useful_part constants.now j parts.now) }
{
    let part = parts[j];
    if part == 0 {
        return false;
    }
    !uses_two(constants, parts)
}
