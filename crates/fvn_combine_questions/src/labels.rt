//! Which candidates stay noted of shared classes: those for which the classes have room.
//!
//! A class has room for an operator where this heads a member, and each of the two classes that the member adds is a single
//! summand, or some minimal solution has it and else no constant but classes that are noted as sums by the operator. No
//! shared class of which another operator is noted, and which a minimal solution has with the class, may be one with it.
ghost use Rattle.std.specs.Prelude.{◌≡◌, ◌<◌, length, set, None, MatchOption, IfSome, All, IsTrue};
ghost use Rattle.fvn_combine_nodes.specs.States.{IsClosed, IsNaming, class_of};
ghost use Rattle.fvn_combine_leaves.specs.Bases.{AreBases, HaveAlive};
ghost use Rattle.fvn_combine_leaves.specs.Leaves.{AreLabels};
ghost use Rattle.fvn_combine_leaves.specs.Readings.{IsReading};
ghost use Rattle.fvn_combine_leaves.specs.Users.{IsWholeSums, IsWhole};
ghost use Rattle.fvn_combine_questions.specs.inner.Touched.{AreWide, AreAllWide};
ghost use Rattle.fvn_combine_questions.specs.inner.Labels.{
  IsFreeAt,
  IsFreeBut,
  HasFreeAt,
  HasFree,
  IsSingleClass,
  HasSpaceIn,
  IsOtherLabel,
  CompetesIn,
  IsToldFrom,
  AreToldFrom,
  StandsApartAt,
  StandsApart,
  AreClassesOf,
  IsMember,
  HasMember,
  IsRoom,
  HasRoomIn,
  IsRoomFor,
  IsSomeAt,
  AreKept,
  IsWithin,
};

use crate::standing::{is_noted, may_be_constant, noted_head};
use crate::touched::{are_told, has_column};
use fvn_base::Seq;
use fvn_combine_leaves::{Reading, Sums, is_shared, is_user};
use fvn_combine_nodes::{Node, State, Table, has_no_identity};
use fvn_lindio::Solution;
use fvn_signature::Signature;
use fvn_terms::OpId;

// Whether another operator than f is noted of class k.
fn is_other_label(labels: &[Option<OpId>], f: OpId, k: usize) -> bool
    ensures { IsOtherLabel labels.now f k → IsTrue result }
{
    match noted_head(labels, k) {
        None => false,
        Some(g) => g != f,
    }
}

// Whether the solution has column i, whose class is shared, and of which another operator is noted.
fn competes(
    reading: &Reading,
    labels: &[Option<OpId>],
    n: usize,
    sums: &Sums,
    v: &Solution,
    i: usize,
) -> bool
    requires whole { IsWhole n reading.now }
    requires sums { IsWholeSums n sums.now }
    requires wide { length v.now.parts ≡ length sums.now.columns }
    requires within { i < length sums.now.columns }
    ensures { CompetesIn reading.now sums.now labels.now v.now i → IsTrue result }
{
    let columns = sums.columns.as_slice();
    if !has_column(v, i) {
        return false;
    }
    if !is_other_label(labels, sums.operator, columns[i]) {
        return false;
    }
    is_shared(reading, n, columns[i])
}

// Whether the class of column i is told apart from each shared class that the solution has, and of which another operator
// is noted.
fn is_told(
    state: &State,
    reading: &Reading,
    labels: &[Option<OpId>],
    sums: &Sums,
    v: &Solution,
    i: usize,
) -> bool
    requires naming { IsNaming state.now }
    requires reading { IsWhole (length state.now.names) reading.now }
    requires sums { IsWholeSums (length state.now.names) sums.now }
    requires wide { length v.now.parts ≡ length sums.now.columns }
    requires within { i < length sums.now.columns }
    ensures { IsTrue result → IsToldFrom reading.now sums.now labels.now state.now v.now i }
{
    let n = state.names.len();
    for j in 0..sums.columns.len() {
        if !competes(reading, labels, n, sums, v, j) {
            continue;
        }
        if are_told(state, reading, sums, i, j) {
            continue;
        }
        return false;
    }
    true
}

// So it is with all solutions that have column i.
fn are_all_told(
    state: &State,
    reading: &Reading,
    labels: &[Option<OpId>],
    sums: &Sums,
    basis: &[Solution],
    i: usize,
) -> bool
    requires naming { IsNaming state.now }
    requires reading { IsWhole (length state.now.names) reading.now }
    requires sums { IsWholeSums (length state.now.names) sums.now }
    requires wide { AreWide (length sums.now.columns) basis.now }
    requires within { i < length sums.now.columns }
    ensures { IsTrue result
        → AreToldFrom reading.now sums.now labels.now state.now i basis.now }
{
    for v in basis {
        if !has_column(v, i) {
            continue;
        }
        if !is_told(state, reading, labels, sums, v, i) {
            return false;
        }
    }
    true
}

// Whether the class of column i is shared and told apart from these.
fn stands_apart_at(
    state: &State,
    reading: &Reading,
    labels: &[Option<OpId>],
    sums: &Sums,
    basis: &[Solution],
    i: usize,
) -> bool
    requires naming { IsNaming state.now }
    requires reading { IsWhole (length state.now.names) reading.now }
    requires sums { IsWholeSums (length state.now.names) sums.now }
    requires wide { AreWide (length sums.now.columns) basis.now }
    requires within { i < length sums.now.columns }
    ensures { IsTrue result
        → StandsApartAt reading.now sums.now labels.now state.now basis.now i }
{
    let columns = sums.columns.as_slice();
    if !is_shared(reading, state.names.len(), columns[i]) {
        return false;
    }
    are_all_told(state, reading, labels, sums, basis, i)
}

// Whether a column of class k is so.
fn stands_apart(
    state: &State,
    reading: &Reading,
    labels: &[Option<OpId>],
    sums: &Sums,
    basis: &[Solution],
    k: usize,
) -> bool
    requires naming { IsNaming state.now }
    requires reading { IsWhole (length state.now.names) reading.now }
    requires sums { IsWholeSums (length state.now.names) sums.now }
    requires wide { AreWide (length sums.now.columns) basis.now }
    ensures { IsTrue result
        → StandsApart reading.now sums.now labels.now state.now basis.now k }
{
    let columns = sums.columns.as_slice();
    for i in 0..columns.len() {
        if columns[i] != k {
            continue;
        }
        if stands_apart_at(state, reading, labels, sums, basis, i) {
            return true;
        }
    }
    false
}

// Whether the solution lacks column i, or its class is no constant of the operator, or is shared and noted as a sum by it.
fn is_free_at(
    reading: &Reading,
    labels: &[Option<OpId>],
    n: usize,
    sums: &Sums,
    v: &Solution,
    i: usize,
) -> bool
    requires whole { IsWhole n reading.now }
    requires sums { IsWholeSums n sums.now }
    requires wide { length v.now.parts ≡ length sums.now.columns }
    requires within { i < length sums.now.columns }
    ensures { IsTrue result → IsFreeAt reading.now sums.now labels.now v.now i }
{
    let columns = sums.columns.as_slice();
    if !has_column(v, i) {
        return true;
    }
    if !may_be_constant(reading, n, sums, columns[i]) {
        return true;
    }
    if !is_noted(labels, sums.operator, columns[i]) {
        return false;
    }
    is_shared(reading, n, columns[i])
}

// Whether it is so in each column other than i.
fn is_free_but(
    reading: &Reading,
    labels: &[Option<OpId>],
    n: usize,
    sums: &Sums,
    v: &Solution,
    i: usize,
) -> bool
    requires whole { IsWhole n reading.now }
    requires sums { IsWholeSums n sums.now }
    requires wide { length v.now.parts ≡ length sums.now.columns }
    ensures { IsTrue result → IsFreeBut reading.now sums.now labels.now v.now i }
{
    for j in 0..sums.columns.len() {
        if j == i {
            continue;
        }
        if !is_free_at(reading, labels, n, sums, v, j) {
            return false;
        }
    }
    true
}

// Whether a solution that has column i is so.
fn has_free_at(
    reading: &Reading,
    labels: &[Option<OpId>],
    n: usize,
    sums: &Sums,
    basis: &[Solution],
    i: usize,
) -> bool
    requires whole { IsWhole n reading.now }
    requires sums { IsWholeSums n sums.now }
    requires wide { AreWide (length sums.now.columns) basis.now }
    requires within { i < length sums.now.columns }
    ensures { IsTrue result → HasFreeAt reading.now sums.now labels.now basis.now i }
{
    for v in basis {
        if !has_column(v, i) {
            continue;
        }
        if is_free_but(reading, labels, n, sums, v, i) {
            return true;
        }
    }
    false
}

// Whether a column of class z is so.
fn has_free(
    reading: &Reading,
    labels: &[Option<OpId>],
    n: usize,
    sums: &Sums,
    basis: &[Solution],
    z: usize,
) -> bool
    requires whole { IsWhole n reading.now }
    requires sums { IsWholeSums n sums.now }
    requires wide { AreWide (length sums.now.columns) basis.now }
    ensures { IsTrue result → HasFree reading.now sums.now labels.now basis.now z }
{
    let columns = sums.columns.as_slice();
    for i in 0..columns.len() {
        if columns[i] != z {
            continue;
        }
        if has_free_at(reading, labels, n, sums, basis, i) {
            return true;
        }
    }
    false
}

// Whether the operator uses class z, and another one heads it.
fn is_single_class(reading: &Reading, sums: &Sums, z: usize) -> bool
    requires { length sums.now.used ≡ length sums.now.columns }
    ensures { IsTrue result → IsSingleClass reading.now sums.now z }
{
    if !is_user(sums, z) {
        return false;
    }
    match noted_head(reading.heads.as_slice(), z) {
        None => false,
        Some(g) => g != sums.operator,
    }
}

// Whether class z is a single summand of the operator, or there is such a solution.
fn has_space(
    reading: &Reading,
    labels: &[Option<OpId>],
    n: usize,
    sums: &Sums,
    basis: &[Solution],
    z: usize,
) -> bool
    requires whole { IsWhole n reading.now }
    requires sums { IsWholeSums n sums.now }
    requires wide { AreWide (length sums.now.columns) basis.now }
    ensures { IsTrue result → HasSpaceIn reading.now sums.now labels.now basis.now z }
{
    if is_single_class(reading, sums, z) {
        return true;
    }
    has_free(reading, labels, n, sums, basis, z)
}

// The classes of two nodes.
fn two_classes(state: &State, ks: &[usize]) -> Option<(usize, usize)>
    requires { All (λ k. k < length state.now.names) ks.now }
    ensures { IfSome result (AreClassesOf state.now ks.now) }
{
    if ks.len() != 2 {
        return None;
    }
    Some((state.class_of(ks[0]), state.class_of(ks[1])))
}

// The two classes that node i adds to class k by f, where it is a member of this.
fn added_classes(
    table: &Table,
    state: &State,
    f: OpId,
    k: usize,
    i: usize,
) -> Option<(usize, usize)>
    requires whole { length state.now.names ≡ length table.now.nodes }
    requires within { i < length table.now.nodes }
    ensures { IfSome result (IsMember table.now state.now f k i) }
{
    table.recall_well_made();
    if state.class_of(i) != k {
        return None;
    }
    match table.node(i) {
        Node::Var(_) => None,
        Node::App(g, ks) => {
            if *g != f {
                return None;
            }
            two_classes(state, ks.as_slice())
        }
    }
}

// Whether a member of class k adds classes that have space.
fn has_member(
    table: &Table,
    state: &State,
    reading: &Reading,
    labels: &[Option<OpId>],
    sums: &Sums,
    basis: &[Solution],
    k: usize,
) -> bool
    requires whole { length state.now.names ≡ length table.now.nodes }
    requires reading { IsWhole (length state.now.names) reading.now }
    requires sums { IsWholeSums (length state.now.names) sums.now }
    requires wide { AreWide (length sums.now.columns) basis.now }
    ensures { IsTrue result
        → HasMember table.now state.now sums.now.operator k
        (HasSpaceIn reading.now sums.now labels.now basis.now) }
{
    let n = state.names.len();
    for i in 0..table.nodes().len() {
        match added_classes(table, state, sums.operator, k, i) {
            None => {}
            Some((left, right)) => {
                if !has_space(reading, labels, n, sums, basis, left) {
                    continue;
                }
                if has_space(reading, labels, n, sums, basis, right) {
                    return true;
                }
            }
        }
    }
    false
}

// Whether class k stands apart, and has such a member.
fn has_room_of(
    table: &Table,
    state: &State,
    reading: &Reading,
    labels: &[Option<OpId>],
    sums: &Sums,
    basis: &[Solution],
    k: usize,
) -> bool
    requires whole { length state.now.names ≡ length table.now.nodes }
    requires naming { IsNaming state.now }
    requires reading { IsWhole (length state.now.names) reading.now }
    requires sums { IsWholeSums (length state.now.names) sums.now }
    requires wide { AreWide (length sums.now.columns) basis.now }
    ensures { IsTrue result
        → IsRoom table.now state.now reading.now labels.now sums.now basis.now k }
{
    if !stands_apart(state, reading, labels, sums, basis, k) {
        return false;
    }
    has_member(table, state, reading, labels, sums, basis, k)
}

// Whether class k has room for f.
fn has_room(
    table: &Table,
    state: &State,
    reading: &Reading,
    labels: &[Option<OpId>],
    bases: &[Seq<Solution>],
    k: usize,
    f: OpId,
) -> bool
    requires whole { length state.now.names ≡ length table.now.nodes }
    requires naming { IsNaming state.now }
    requires reading { IsWhole (length state.now.names) reading.now }
    requires as_many { length bases.now ≡ length reading.now.sums }
    requires wide { AreAllWide reading.now.sums bases.now }
    ensures { IsTrue result → HasRoomIn reading.now bases.now
        (IsRoom table.now state.now reading.now labels.now) f k }
{
    let sums = reading.sums.as_slice();
    for i in 0..sums.len() {
        let entry = &sums[i];
        if entry.operator != f {
            continue;
        }
        if has_room_of(table, state, reading, labels, entry, bases[i].as_slice(), k) {
            return true;
        }
    }
    false
}

// The first class with an operator that heads do not note of it, and that has no identity or for which there is no room.
fn without_room(
    sig: &Signature,
    table: &Table,
    state: &State,
    reading: &Reading,
    heads: &[Option<OpId>],
    labels: &[Option<OpId>],
    bases: &[Seq<Solution>],
) -> Option<usize>
    requires whole { length state.now.names ≡ length table.now.nodes }
    requires naming { IsNaming state.now }
    requires reading { IsWhole (length state.now.names) reading.now }
    requires as_many { length bases.now ≡ length reading.now.sums }
    requires wide { AreAllWide reading.now.sums bases.now }
    ensures { MatchOption result (AreKept (IsRoomFor sig.now (HasRoomIn reading.now bases.now
        (IsRoom table.now state.now reading.now labels.now)))
        heads.now labels.now) (IsSomeAt labels.now) }
{
    for k in 0..labels.len() {
        match noted_head(labels, k) {
            None => {}
            Some(f) => {
                if is_noted(heads, f, k) {
                    continue;
                }
                if has_no_identity(sig.axioms(f)) {
                    return Some(k);
                }
                if !has_room(table, state, reading, labels, bases, k, f) {
                    return Some(k);
                }
            }
        }
    }
    None
}

// Takes out what is noted of class k.
fn take_out(labels: &mut Vec<Option<OpId>>, k: usize)
    requires { k < length labels.old.items }
    ensures { labels.new.items ≡ set labels.old.items k None }
{
    labels[k] = None;
}

// Takes out operators for which their classes have no room until there is none.
fn sieve(
    sig: &Signature,
    table: &Table,
    state: &State,
    reading: &Reading,
    heads: &[Option<OpId>],
    labels: &mut Vec<Option<OpId>>,
    bases: &[Seq<Solution>],
)
    requires whole { length state.now.names ≡ length table.now.nodes }
    requires naming { IsNaming state.now }
    requires reading { IsWhole (length state.now.names) reading.now }
    requires as_many { length bases.now ≡ length reading.now.sums }
    requires wide { AreAllWide reading.now.sums bases.now }
    ensures kept { AreKept (IsRoomFor sig.now (HasRoomIn reading.now bases.now
        (IsRoom table.now state.now reading.now labels.new.items)))
        heads.now labels.new.items }
    ensures within { IsWithin labels.new.items labels.old.items }
    ensures as_many { length labels.new.items ≡ length labels.old.items }
{
    while let Some(k) = without_room(sig, table, state, reading, heads, labels.as_slice(), bases) {
        take_out(labels, k);
    }
}

/// Takes out of labels each operator that heads do not note of its class, and for which the class has no room.
///
/// What is taken out may leave others without room, so that each round takes out one and looks at all again.
pub fn sieve_labels(
    sig: &Signature,
    table: &Table,
    state: &State,
    reading: &Reading,
    heads: &[Option<OpId>],
    labels: &mut Vec<Option<OpId>>,
    bases: &[Seq<Solution>],
)
    requires closed { IsClosed sig.now table.now state.now }
    requires reading { IsReading sig.now table.now (class_of state.now) reading.now }
    requires bases { AreBases reading.now.sums bases.now }
    requires alive { HaveAlive sig.now table.now state.now reading.now.sums bases.now }
    ensures labels { AreLabels sig.now table.now state.now heads.now
        labels.old.items labels.new.items }
    ensures as_many { length labels.new.items ≡ length labels.old.items }
{
    table.recall_well_made();
    sieve(sig, table, state, reading, heads, labels, bases);
}
