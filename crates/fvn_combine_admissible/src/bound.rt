//! Which classes are bound to a sum of an operator.
ghost use Rattle.std.specs.Prelude.{◌≡◌, ◌↔◌, ◌<◌, length, Some, Contains, IsTrue};
ghost use Rattle.fvn_combine_nodes.specs.States.{IsClosed, class_of};
ghost use Rattle.fvn_combine_leaves.specs.Readings.{IsReading};
ghost use Rattle.fvn_combine_leaves.specs.Users.{IsWholeSums, IsWhole};
ghost use Rattle.fvn_combine_choices.specs.Binding.{IsBound};
ghost use Rattle.fvn_combine_admissible.specs.Listed.{tag_in};
ghost use Rattle.fvn_combine_admissible.specs.inner.Reads.{IsBoundIn};

use fvn_combine_leaves::{Reading, Sums, has_two_users, is_user};
use fvn_combine_nodes::{State, Table};
use fvn_signature::Signature;
use fvn_terms::OpId;

// Whether the tag of class k is the operator.
fn has_tag(tags: &[Option<OpId>], k: usize, f: OpId) -> bool
    ensures { IsTrue result ↔ (tag_in tags.now k ≡ Some f) }
{
    match tags.get(k) {
        None => false,
        Some(tag) => match *tag {
            None => false,
            Some(g) => g == f,
        },
    }
}

// Whether class k is bound to a sum of the operator, by what is read.
pub(crate) fn is_bound_in(
    reading: &Reading,
    n: usize,
    tags: &[Option<OpId>],
    sums: &Sums,
    k: usize,
) -> bool
    requires whole { IsWhole n reading.now }
    requires sums { IsWholeSums n sums.now }
    requires within { k < n }
    ensures { IsTrue result ↔ IsBoundIn reading.now tags.now sums.now k }
{
    match reading.heads.as_slice()[k] {
        Some(g) => g == sums.operator,
        None => {
            if !is_user(sums, k) {
                return false;
            }
            if !has_two_users(reading.sums.as_slice(), n, k) {
                return true;
            }
            has_tag(tags, k, sums.operator)
        }
    }
}

/// Whether class k is bound to a sum of the operator; each class may have a sum operator as its tag.
pub fn is_bound(
    sig: &Signature,
    table: &Table,
    state: &State,
    reading: &Reading,
    tags: &[Option<OpId>],
    sums: &Sums,
    k: usize,
) -> bool
    requires closed { IsClosed sig.now table.now state.now }
    requires reading { IsReading sig.now table.now (class_of state.now) reading.now }
    requires listed { Contains reading.now.sums sums.now }
    requires within { k < length table.now.nodes }
    ensures { IsTrue result
        ↔ IsBound sig.now table.now (class_of state.now) (tag_in tags.now) sums.now.operator k }
{
    let _sig = sig;
    let _state = state;
    table.recall_well_made();
    let n = table.nodes().len();
    is_bound_in(reading, n, tags, sums, k)
}
