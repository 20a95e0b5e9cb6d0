//! The shared classes of a state.
ghost use Rattle.std.specs.Prelude.{◌↔◌, ◌<◌, ◌≤◌, length, All, Contains, IfOk, IsTrue};
ghost use Rattle.fvn_combine_nodes.specs.States.{IsClosed, class_of};
ghost use Rattle.fvn_combine_leaves.specs.Readings.{IsReading};
ghost use Rattle.fvn_combine_candidates.specs.Sharing.{MayBeSum, AreSharedClasses};
ghost use Rattle.fvn_combine_candidates.specs.inner.Walking.{AreUsersBelow};

use fvn_base::Seq;
use fvn_combine_admissible::{is_shared_class, uses};
use fvn_combine_bounds::{is_narrow, is_never_identity};
use fvn_combine_leaves::{Reading, Sums};
use fvn_combine_nodes::{State, Table};
use fvn_signature::Signature;
use fvn_terms::{NoMemory, OpId};
use std::alloc::Global;

/// A class that several sum operators use, and that no operator without an identity heads.
#[derive(Drop)]
pub struct SharedClass {
    /// The node that names it.
    pub class: usize,
    /// The sum operators that use it, of which its value may be a sum or the identity, each once.
    pub users: Seq<OpId>,
}

// Whether the operator uses class k, and the value of the class may be a sum by it, or its identity.
fn may_be_sum(
    sig: &Signature,
    table: &Table,
    state: &State,
    reading: &Reading,
    sums: &Sums,
    k: usize,
    sorted: bool,
) -> bool
    requires closed { IsClosed sig.now table.now state.now }
    requires reading { IsReading sig.now table.now (class_of state.now) reading.now }
    requires listed { Contains reading.now.sums sums.now }
    ensures { IsTrue result ↔ MayBeSum sig.now table.now
        (class_of state.now) sorted sums.now.operator k }
{
    if !uses(sig, table, state, reading, sums, k) {
        return false;
    }
    if !sorted {
        return true;
    }
    if !is_narrow(sig, table, state, sums.operator, k) {
        return true;
    }
    !is_never_identity(sig, table, state, sums.operator, k)
}

// The sum operators that use class k, of which its value may be a sum or the identity, each once.
fn users_of(
    alloc: Global,
    sig: &Signature,
    table: &Table,
    state: &State,
    reading: &Reading,
    k: usize,
    sorted: bool,
) -> Result<Vec<OpId>, NoMemory>
    requires closed { IsClosed sig.now table.now state.now }
    requires reading { IsReading sig.now table.now (class_of state.now) reading.now }
    ensures { IfOk result (λ v. AreUsersBelow sig.now table.now (class_of state.now) sorted
        reading.now.sums k (length reading.now.sums) v.items) }
{
    let mut users = Vec::new(alloc);
    let sums = reading.sums.as_slice();
    for i in 0..sums.len() {
        let entry = &sums[i];
        if !may_be_sum(sig, table, state, reading, entry, k, sorted) {
            continue;
        }
        users.push(entry.operator)?;
    }
    Ok(users)
}

/// Exactly the shared classes, each once, with the operators that use them; where sorts are heeded, those alone of
/// which their values may be sums or the identity.
pub fn shared(
    alloc: Global,
    sig: &Signature,
    table: &Table,
    state: &State,
    reading: &Reading,
    sorted: bool,
) -> Result<Vec<SharedClass>, NoMemory>
    requires closed { IsClosed sig.now table.now state.now }
    requires reading { IsReading sig.now table.now (class_of state.now) reading.now }
    ensures exact { IfOk result (λ v.
        AreSharedClasses sig.now table.now (class_of state.now) sorted v.items) }
    ensures few { IfOk result (λ v. All (λ c. length c.users ≤ length reading.now.sums) v.items) }
{
    table.recall_well_made();
    let n = table.nodes().len();
    let mut list = Vec::new(alloc);
    for k in 0..n {
        if !is_shared_class(sig, table, state, reading, k) {
            continue;
        }
        let users = users_of(alloc, sig, table, state, reading, k, sorted)?;
        list.push(SharedClass {
            class: k,
            users: Seq::from_vec(users),
        })?;
    }
    Ok(list)
}
