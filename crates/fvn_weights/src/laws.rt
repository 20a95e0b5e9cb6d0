//! What is proved of all weights, each law carried by a function that does nothing.
ghost use Rattle.fvn_weights.specs.Laws.{NumbersAreComparedUpTo, WeightsThatFitShowTermination};

/// Where weights fit the axioms and each equation falls under them, every sequence of steps is bounded.
pub fn weights_that_fit_show_termination()
    ensures { WeightsThatFitShowTermination }
{}

/// Numbers of a value are compared up to 2^63 - 1.
pub fn numbers_are_compared_up_to()
    ensures { NumbersAreComparedUpTo }
{}
