//! Laws of supports, each the contract of a function that does nothing.
ghost use Rattle.fvn_combine_supports.specs.Laws.{
  CountsAreMadeUp,
  PiecesChoose,
  MadeUpByTaken,
  CombinationsSolve,
  MinimalHasColumn,
};

use fvn_lindio::minimal_below;

/// Counts that solve a system are made up of pieces for the minimal solutions at or below them.
pub fn counts_are_made_up()
    ensures { CountsAreMadeUp }
{
    minimal_below();
}

/// The solutions that have pieces are a valid choice.
pub fn pieces_choose()
    ensures { PiecesChoose }
{}

/// Solutions without pieces may be left out.
pub fn made_up_by_taken()
    ensures { MadeUpByTaken }
{}

/// Solutions, each so many times, are together a solution.
pub fn combinations_solve()
    ensures { CombinationsSolve }
{}

/// At or below a solution that has a column stands a minimal one that has it.
pub fn minimal_has_column()
    ensures { MinimalHasColumn }
{
    minimal_below();
}
