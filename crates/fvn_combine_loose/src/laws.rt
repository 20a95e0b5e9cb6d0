//! Laws of loose classes, each the contract of a function that does nothing.
ghost use Rattle.fvn_combine_loose.specs.Laws.{LooseClassesPart, LooseClassesAreVariables, MoreGeneralIsAPreorder};

use fvn_combine_inferring::sorted_unifiers_go_with;

/// Where for each of some pairs a loose class stands in one of its two classes alone, each unifier of the state, which keeps
/// sorts where these are heeded, has a more general one under which the two classes of each pair are apart.
pub fn loose_classes_part()
    ensures { LooseClassesPart }
{
    sorted_unifiers_go_with();
}

/// Where nodes are of loose classes, each unifier of the state has a more general one under which the values of all of them
/// are variables.
pub fn loose_classes_are_variables()
    ensures { LooseClassesAreVariables }
{
    sorted_unifiers_go_with();
}

/// Being more general is a preorder.
pub fn more_general_is_a_preorder()
    ensures { MoreGeneralIsAPreorder }
{}
