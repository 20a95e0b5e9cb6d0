//! What is proved of all lines, each law carried by a function that does nothing.
ghost use Rattle.std.specs.Prelude.{◌≡◌};
ghost use Rattle.fvn_answer.specs.declared.numbering.TheConstants.{FEW_VARIABLES};
ghost use Rattle.fvn_answer.specs.Laws.{LinesDenoteOneSubstitution, LinesDenoteOneVariant, EqualLinesAreInstances, EqualLinesCover};

use fvn_problems::bindings_are_spelled_once;

/// A line denotes one substitution on the variables.
pub fn lines_denote_one_substitution()
    ensures { LinesDenoteOneSubstitution }
{
    bindings_are_spelled_once();
}

/// A line denotes one variant.
pub fn lines_denote_one_variant()
    ensures { LinesDenoteOneVariant }
{
    bindings_are_spelled_once();
}

/// Substitutions with one line are instances of each other.
pub fn equal_lines_are_instances()
    ensures { EqualLinesAreInstances }
{
    bindings_are_spelled_once();
}

/// Variants with one line cover each other.
pub fn equal_lines_cover()
    ensures { EqualLinesCover }
{
    bindings_are_spelled_once();
}

/// Lines with at most six new variables have the least text.
pub fn six_variables_are_few()
    ensures { FEW_VARIABLES ≡ 6 }
{}
