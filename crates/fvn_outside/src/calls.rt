//! The calls of an object in memory, of which some are to fail.
ghost use Rattle.std.specs.Prelude.{◌≡◌, ◌≤◌, ◌↔◌, IsTrue, if◌then◌else◌};
ghost use Rattle.fvn_outside.specs.Calls.{CallLog, NextFails, after_call, after_fault, no_calls};

use std::marker::Model;

/// Which calls are to fail, and how many calls and faults there were.
#[derive(Drop)]
pub(crate) struct Calls {
    failing: Vec<u64>,
    made: u64,
    faults: u64,
}

impl Model for Calls {
    ghost Value = { CallLog };

    ghost view = { λ c. record { failing = c.failing.items; made = c.made; faults = c.faults } };
}

impl Calls {
    /// No call was made yet; those with these numbers are to fail.
    pub(crate) fn new(failing: Vec<u64>) -> Calls
        ensures { result ≡ no_calls failing.items }
    {
        Calls {
            failing,
            made: 0,
            faults: 0,
        }
    }

    /// Whether the next call is one of those that fail. Past the last number that can be listed,
    /// none is.
    fn is_next_listed(&self) -> bool
        ensures { IsTrue result ↔ NextFails self.now }
    {
        let failing = self.failing.as_slice();
        match self.made.checked_add(1) {
            Some(number) => failing.contains(&number),
            None => false,
        }
    }

    /// Counts one more call, and says whether it fails. A failing call is one more fault.
    pub(crate) fn next_fails(&mut self) -> bool
        ensures fails { IsTrue result ↔ NextFails self.old }
        ensures after { self.new ≡
            (if result then after_fault (after_call self.old) else after_call self.old) }
        ensures never_falls { self.old.faults ≤ self.new.faults }
    {
        let fails = self.is_next_listed();
        self.made = self.made.saturating_add(1);
        if fails {
            self.faults = self.faults.saturating_add(1);
        }
        fails
    }

    /// Counts one more fault.
    pub(crate) fn fault(&mut self)
        ensures after { self.new ≡ after_fault self.old }
        ensures never_falls { self.old.faults ≤ self.new.faults }
    {
        self.faults = self.faults.saturating_add(1);
    }
}
