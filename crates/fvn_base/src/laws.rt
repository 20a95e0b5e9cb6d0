//! What the limits are, as a law.
ghost use Rattle.fvn_base.specs.Laws.{LimitsAreNumbers};

/// Each limit of the product is the number that `AreLimits` writes out.
pub fn limits_are()
    ensures { LimitsAreNumbers }
{}
