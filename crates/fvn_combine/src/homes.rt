//! Tags that leave a class without a home.
//!
//! A shared class is a single summand in the sums of each operator that uses it and is not its tag. One of the minimal
//! solutions that are taken has it then, and once, and no other single summand beside it: that is its home.
ghost use Rattle.std.specs.Prelude.{◌≡◌, ◌≢◌, ◌<◌, length, slice_index, All, Some, IsTrue, IsFalse, IfSome};
ghost use Rattle.fvn_combine_leaves.specs.Users.{IsWholeSums, IsWhole};
ghost use Rattle.fvn_combine.specs.inner.Homes.{
  IsMarkedAt,
  HasOtherHead,
  HasOtherTag,
  HasConstant,
  HasConstantBeside,
  IsNoHome,
  IsHomeless,
  HasHomeless,
  LeaveHomeless,
};

use fvn_base::Seq;
use fvn_combine_drawing::SharedClass;
use fvn_combine_leaves::{Reading, Sums};
use fvn_lindio::Solution;
use fvn_terms::OpId;

// Whether the tag is another one than g, or none.
pub(crate) fn is_other(tag: Option<OpId>, g: OpId) -> bool
    ensures { IsTrue result → (tag ≢ Some g) }
{
    match tag {
        None => true,
        Some(f) => f != g,
    }
}

// The first column of class k that is marked as used.
fn used_column(entry: &Sums, k: usize) -> Option<usize>
    requires { length entry.now.used ≡ length entry.now.columns }
    ensures { IfSome result (IsMarkedAt entry.now k) }
{
    let columns = entry.columns.as_slice();
    let used = entry.used.as_slice();
    for j in 0..columns.len() {
        if columns[j] != k {
            continue;
        }
        if used[j] {
            return Some(j);
        }
    }
    None
}

// What a solution has in column j; past its end, zero.
fn part_at(v: &Solution, j: usize) -> u32
    ensures { result ≡ slice_index v.now.parts j }
{
    match v.parts.as_slice().get(j) {
        Some(n) => *n,
        None => 0,
    }
}

// Whether another operator than f is read as what heads class k.
fn has_other_head(reading: &Reading, f: OpId, k: usize) -> bool
    requires { k < length reading.now.heads }
    ensures { IsTrue result → HasOtherHead reading.now f k }
{
    match reading.heads.as_slice()[k] {
        None => false,
        Some(g) => g != f,
    }
}

// Whether class k is one of these, and f is not its tag.
fn has_other_tag(decided: &[SharedClass], tags: &[Option<OpId>], f: OpId, k: usize) -> bool
    requires { All (λ c. c.class < length tags.now) decided.now }
    ensures { IsTrue result → HasOtherTag decided.now tags.now f k }
{
    for c in decided {
        if c.class != k {
            continue;
        }
        return is_other(tags[c.class], f);
    }
    false
}

// Whether the solution has the class of column i, which is a single summand.
fn has_constant(
    decided: &[SharedClass],
    tags: &[Option<OpId>],
    reading: &Reading,
    entry: &Sums,
    v: &Solution,
    i: usize,
) -> bool
    requires tags { All (λ c. c.class < length tags.now) decided.now }
    requires sums { IsWholeSums (length reading.now.heads) entry.now }
    requires within { i < length entry.now.columns }
    ensures { IsTrue result →
        HasConstant decided.now tags.now reading.now entry.now v.now.parts i }
{
    let columns = entry.columns.as_slice();
    let used = entry.used.as_slice();
    if part_at(v, i) == 0 {
        return false;
    }
    if !used[i] {
        return false;
    }
    if has_other_head(reading, entry.operator, columns[i]) {
        return true;
    }
    has_other_tag(decided, tags, entry.operator, columns[i])
}

// Whether the solution has a single summand in another column than j.
fn has_constant_beside(
    decided: &[SharedClass],
    tags: &[Option<OpId>],
    reading: &Reading,
    entry: &Sums,
    v: &Solution,
    j: usize,
) -> bool
    requires tags { All (λ c. c.class < length tags.now) decided.now }
    requires sums { IsWholeSums (length reading.now.heads) entry.now }
    ensures { IsTrue result →
        HasConstantBeside decided.now tags.now reading.now entry.now v.now.parts j }
{
    for i in 0..entry.columns.len() {
        if i == j {
            continue;
        }
        if has_constant(decided, tags, reading, entry, v, i) {
            return true;
        }
    }
    false
}

// Whether the solution has column j once, and no single summand beside it.
fn is_home(
    decided: &[SharedClass],
    tags: &[Option<OpId>],
    reading: &Reading,
    entry: &Sums,
    v: &Solution,
    j: usize,
) -> bool
    requires tags { All (λ c. c.class < length tags.now) decided.now }
    requires sums { IsWholeSums (length reading.now.heads) entry.now }
    ensures { IsFalse result → IsNoHome decided.now tags.now reading.now entry.now j v.now }
{
    if part_at(v, j) != 1 {
        return false;
    }
    !has_constant_beside(decided, tags, reading, entry, v, j)
}

// Whether some solution has column j once, and no single summand beside it.
fn has_home(
    decided: &[SharedClass],
    tags: &[Option<OpId>],
    reading: &Reading,
    entry: &Sums,
    basis: &[Solution],
    j: usize,
) -> bool
    requires tags { All (λ c. c.class < length tags.now) decided.now }
    requires sums { IsWholeSums (length reading.now.heads) entry.now }
    ensures { IsFalse result →
        All (IsNoHome decided.now tags.now reading.now entry.now j) basis.now }
{
    for v in basis {
        if is_home(decided, tags, reading, entry, v, j) {
            return true;
        }
    }
    false
}

// Whether the class is a single summand of the operator, and has no home.
fn is_homeless(
    decided: &[SharedClass],
    tags: &[Option<OpId>],
    reading: &Reading,
    entry: &Sums,
    basis: &[Solution],
    c: &SharedClass,
) -> bool
    requires tags { All (λ c. c.class < length tags.now) decided.now }
    requires within { c.now.class < length tags.now }
    requires sums { IsWholeSums (length reading.now.heads) entry.now }
    ensures { IsTrue result →
        IsHomeless decided.now tags.now reading.now entry.now basis.now c.now }
{
    if !is_other(tags[c.class], entry.operator) {
        return false;
    }
    match used_column(entry, c.class) {
        None => false,
        Some(j) => !has_home(decided, tags, reading, entry, basis, j),
    }
}

// Whether some class is a single summand of the operator, and has no home.
fn has_homeless(
    decided: &[SharedClass],
    tags: &[Option<OpId>],
    reading: &Reading,
    entry: &Sums,
    basis: &[Solution],
) -> bool
    requires tags { All (λ c. c.class < length tags.now) decided.now }
    requires sums { IsWholeSums (length reading.now.heads) entry.now }
    ensures { IsTrue result →
        HasHomeless decided.now tags.now reading.now entry.now basis.now }
{
    for c in decided {
        if is_homeless(decided, tags, reading, entry, basis, c) {
            return true;
        }
    }
    false
}

/// Whether the tags of these shared classes leave one of them without a home, whatever the tags of the others.
pub(crate) fn leave_homeless(
    decided: &[SharedClass],
    tags: &[Option<OpId>],
    reading: &Reading,
    bases: &[Seq<Solution>],
) -> bool
    requires tags { All (λ c. c.class < length tags.now) decided.now }
    requires whole { IsWhole (length reading.now.heads) reading.now }
    requires bases { length bases.now ≡ length reading.now.sums }
    ensures { IsTrue result → LeaveHomeless decided.now tags.now reading.now bases.now }
{
    let sums = reading.sums.as_slice();
    for i in 0..sums.len() {
        let entry = &sums[i];
        if has_homeless(decided, tags, reading, entry, bases[i].as_slice()) {
            return true;
        }
    }
    false
}
