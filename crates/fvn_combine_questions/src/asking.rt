//! The next question of a state that is no leaf yet.
ghost use Rattle.fvn_combine_nodes.specs.States.{IsClosed, class_of};
ghost use Rattle.fvn_combine_leaves.specs.Bases.{AreBases, HaveAlive};
ghost use Rattle.fvn_combine_leaves.specs.Leaves.{IsNearLeaf, IsFirstQuestion, IsQuestion, IsFullQuestion};
ghost use Rattle.fvn_combine_leaves.specs.Readings.{IsReading};

use crate::best::{Asking, touched_question};
use crate::constants::constants_question;
use crate::identities::identity_question;
use crate::swaps::undecided;
use fvn_base::Seq;
use fvn_combine_leaves::Reading;
use fvn_combine_nodes::{State, Table};
use fvn_lindio::Solution;
use fvn_signature::Signature;
use fvn_terms::OpId;

/// Two nodes of which it is open whether they are in one class, and on which it rests what classes are
/// bound to, whatever sums have in common; none where all that is left to ask is whether classes are one
/// that may be constants of one operator.
///
/// Commutative nodes come first, so that the classes are a partition before anything else is asked. Whether a shared class
/// has the identity of an operator that uses it has to be asked where another one has it too; with `all` it is asked of each,
/// which parts a state sooner.
pub fn first_question(
    sig: &Signature,
    table: &Table,
    state: &State,
    reading: &Reading,
    all: bool,
) -> Option<(usize, usize)>
    requires closed { IsClosed sig.now table.now state.now }
    requires reading { IsReading sig.now table.now (class_of state.now) reading.now }
    ensures { IsFirstQuestion sig.now table.now state.now result }
{
    table.recall_well_made();
    match undecided(sig, table, state) {
        Some(pair) => Some(pair),
        None => identity_question(sig, table, state, reading, all),
    }
}

/// A question on two classes that may be constants of one operator, whatever its minimal solutions are;
/// none only where the state is a leaf. For operators whose minimal solutions are not known.
pub fn question_on_all(
    sig: &Signature,
    table: &Table,
    state: &State,
    reading: &Reading,
) -> Option<(usize, usize)>
    requires near { IsNearLeaf sig.now table.now state.now }
    requires reading { IsReading sig.now table.now (class_of state.now) reading.now }
    ensures { IsFullQuestion sig.now table.now state.now result }
{
    table.recall_well_made();
    let _sig = sig;
    constants_question(state, reading)
}

/// A question on two classes that may be constants of one operator, and that one of its minimal
/// solutions has both of that may stand for a summand; none only where the state is a leaf. Of classes that are noted
/// as sums by the operator nothing is asked: they are never constants of it.
pub fn question_on_touched(
    sig: &Signature,
    table: &Table,
    state: &State,
    reading: &Reading,
    ranks: &[usize],
    heads: &[Option<OpId>],
    bases: &[Seq<Solution>],
) -> Option<(usize, usize)>
    requires near { IsNearLeaf sig.now table.now state.now }
    requires reading { IsReading sig.now table.now (class_of state.now) reading.now }
    requires bases { AreBases reading.now.sums bases.now }
    requires alive { HaveAlive sig.now table.now state.now reading.now.sums bases.now }
    ensures { IsQuestion sig.now table.now heads.now state.now result }
{
    table.recall_well_made();
    let asking = Asking {
        sig,
        state,
        reading,
        heads,
        ranks,
    };
    touched_question(&asking, bases)
}
