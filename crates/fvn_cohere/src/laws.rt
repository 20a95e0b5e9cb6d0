//! Laws of equations that are checked, each the contract of a function that does nothing.
ghost use Rattle.fvn_cohere.specs.Laws.{HarmlessEquationsAreAdmissible};

/// Readable equations none of whose left sides is at fault are admissible.
pub fn harmless_equations_are_admissible()
    ensures { HarmlessEquationsAreAdmissible }
{}
