//! What a search has gone through so far.
//!
//! It is no part of what is searched: no clause speaks of it, and no answer depends on it.

use fvn_combine_drawing::SolvedSystems;
use std::alloc::Global;

// From how many states on a search asks of all shared classes whether they have identities, where no system was refused. These
// questions part a state also where nothing looks into the class: towers whose variables stand in two levels take two to six
// times as long with them. So they are asked where so many states did not do.
const MANY_STATES: u64 = 4096;

// How often it is tried hard to solve a refused system in another order of its rows: where that did not do, it hardly does later,
// and each try takes some hundredths of a second.
const HARD_TRIES: u64 = 8;

// How often in a row a refused system is solved in another order too, at each state: from then on at each 32nd state alone.
const TRIES: u64 = 64;

const TURN: u64 = 32;

/// Sum systems that were solved, whether one was refused, how often one was not solved in another order either, how many states
/// were asked, and how many choices were tried.
#[derive(Drop)]
pub(crate) struct Effort {
    pub(crate) solved: SolvedSystems,
    pub(crate) refused: bool,
    pub(crate) failed: u64,
    pub(crate) states: u64,
    pub(crate) choices: u64,
}

impl Effort {
    // Nothing yet.
    pub(crate) fn new(alloc: Global) -> Effort {
        Effort {
            solved: SolvedSystems::new(alloc),
            refused: false,
            failed: 0,
            states: 0,
            choices: 0,
        }
    }

    // One state more is asked.
    pub(crate) fn count_state(&mut self) {
        self.states = self.states.saturating_add(1);
    }

    // Whether a system was refused, or many states were asked: then all identities are asked of. A state with fewer open has
    // smaller systems, and that there is no unifier is seen sooner.
    pub(crate) fn is_long(&self) -> bool {
        if self.refused {
            return true;
        }
        self.states >= MANY_STATES
    }

    // Whether it is tried hard to solve a refused system.
    pub(crate) fn is_wide(&self) -> bool {
        self.failed < HARD_TRIES
    }

    // Whether it is not tried at this state to solve a refused system in another order, but where no question is open.
    pub(crate) fn is_passed_over(&self) -> bool {
        if self.failed < TRIES {
            return false;
        }
        self.failed % TURN != 0
    }

    // A refused system was not solved in another order either.
    pub(crate) fn count_failure(&mut self) {
        self.failed = self.failed.saturating_add(1);
    }

    // One choice more is tried.
    pub(crate) fn count_choice(&mut self) {
        self.choices = self.choices.saturating_add(1);
    }
}
