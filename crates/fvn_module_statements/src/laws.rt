//! What is proved of all statements, each law carried by a function that does nothing.
ghost use Rattle.fvn_module_statements.specs.Laws.{StatementsAreDetermined};

/// Tokens are one written statement at most, or one left-out form at most stands first in them, and not both.
pub fn statements_are_determined()
    ensures { StatementsAreDetermined }
{}
