//! Questions whether shared classes have identities.
ghost use Rattle.std.specs.Prelude.{◌≡◌, ℕ, ◌<◌, length, All, IsTrue};
ghost use Rattle.fvn_combine_nodes.specs.States.{IsNaming};
ghost use Rattle.fvn_combine_questions.specs.inner.Past.{IsOpenPairOr, IsPastIdentity, ArePastIdentities};
ghost use Rattle.fvn_combine_leaves.specs.Users.{IsWholeSums, IsWhole, IsSharedIn, HasTwinIn};

use fvn_combine_leaves::{Reading, Sums, has_twin, is_shared, is_user};
use fvn_combine_nodes::{State, Table};
use fvn_signature::Signature;
use fvn_terms::OpId;

// A question whether class k has f's identity.
fn open_identity(table: &Table, state: &State, f: OpId, k: usize) -> Option<(usize, usize)>
    requires naming { IsNaming state.now }
    requires whole { length state.now.names ≡ length table.now.nodes }
    requires within { k < length state.now.names }
    ensures { IsOpenPairOr state.now (IsPastIdentity table.now state.now f k) result }
{
    table.recall_well_made();
    for (g, n) in table.units() {
        if *g != f {
            continue;
        }
        if state.is_open(k, *n) {
            return Some((k, *n));
        }
    }
    None
}

// Whether it is asked if class k has f's identity: where another operator that uses the class has it too, or of all.
fn is_asked_of(sig: &Signature, sums: &[Sums], n: usize, f: OpId, k: usize, all: bool) -> bool
    requires whole { All (IsWholeSums n) sums.now }
    ensures { HasTwinIn sig.now sums.now f k → IsTrue result }
{
    if all {
        return true;
    }
    has_twin(sig, sums, n, f, k)
}

// A question whether class k has the identity of an operator that uses it, where another one has it too, or of each.
fn open_of_class(
    sig: &Signature,
    table: &Table,
    state: &State,
    sums: &[Sums],
    k: usize,
    all: bool,
) -> Option<(usize, usize)>
    requires naming { IsNaming state.now }
    requires whole { length state.now.names ≡ length table.now.nodes }
    requires sums { All (IsWholeSums (length state.now.names)) sums.now }
    requires within { k < length state.now.names }
    ensures { IsOpenPairOr state.now (ArePastIdentities sig.now table.now state.now sums.now k) result }
{
    let n = state.names.len();
    for s in sums {
        if !is_user(s, k) {
            continue;
        }
        if !is_asked_of(sig, sums, n, s.operator, k, all) {
            continue;
        }
        match open_identity(table, state, s.operator, k) {
            None => {}
            Some(pair) => return Some(pair),
        }
    }
    None
}

// A question whether a shared class has the identity of an operator that uses it, where another one has it too, or of
// each.
pub(crate) fn identity_question(
    sig: &Signature,
    table: &Table,
    state: &State,
    reading: &Reading,
    all: bool,
) -> Option<(usize, usize)>
    requires naming { IsNaming state.now }
    requires whole { length state.now.names ≡ length table.now.nodes }
    requires reading { IsWhole (length state.now.names) reading.now }
    ensures { IsOpenPairOr state.now ((k : ℕ) → k < length state.now.names
        → IsSharedIn reading.now k
        → ArePastIdentities sig.now table.now state.now reading.now.sums k) result }
{
    let n = state.names.len();
    for k in 0..n {
        if !is_shared(reading, n, k) {
            continue;
        }
        match open_of_class(sig, table, state, reading.sums.as_slice(), k, all) {
            None => {}
            Some(pair) => return Some(pair),
        }
    }
    None
}
