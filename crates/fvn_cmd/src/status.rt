//! How a run of the program ends.
ghost use Rattle.std.specs.Prelude.{◌≡◌};
ghost use Rattle.fvn_cmd.specs.Statuses.{exit_number};

/// The status that the program ends with.
#[derive(Clone, Copy, Debug, PartialEq, Eq)]
pub enum Status {
    /// Something was found, and printed.
    Solved = 0,
    /// There is nothing to be found.
    Nothing = 1,
    /// The words of the command line are no command.
    Usage = 2,
    /// The text of the module is refused.
    ModuleRefused = 3,
    /// The text of the problem is refused.
    ProblemRefused = 4,
    /// The search ended at a limit.
    Ended = 5,
    /// Reading failed.
    ReadFault = 6,
    /// Writing failed.
    WriteFault = 7,
    /// Memory was refused.
    NoMemory = 8,
}

impl Status {
    /// The number that the program exits with.
    pub fn exit_number(self) -> u8
        ensures { result ≡ exit_number self }
    {
        self as u8
    }
}
