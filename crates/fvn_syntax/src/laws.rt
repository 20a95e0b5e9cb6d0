//! What is proved of all written terms.
ghost use Rattle.fvn_syntax.specs.Laws.{TermsAreWellKinded};

/// A term that a written term stands for is well-kinded, and has the kind that is told.
pub fn terms_are_well_kinded()
    ensures { TermsAreWellKinded }
{}
