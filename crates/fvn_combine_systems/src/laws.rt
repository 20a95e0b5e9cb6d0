//! Laws of sum systems and of values of classes, each the contract of a function that does nothing.
ghost use Rattle.fvn_combine_systems.specs.Laws.{
  TablesHoldArguments,
  TablesAreSmall,
  NodeSystemsAreSumSystems,
  CountsSolve,
  UnifiersHaveValues,
  ValuesAreGiven,
  ValuesUnify,
};

use fvn_combine_nodes::unifiers_partition;

/// In the table of a problem, the arguments of subterms are subterms.
pub fn tables_hold_arguments()
    ensures { TablesHoldArguments }
{}

/// The table of a problem has no more subterms than the problem has symbols.
pub fn tables_are_small()
    ensures { TablesAreSmall }
{}

/// Sum systems over the nodes of a problem's table are those of the problem.
pub fn node_systems_are_sum_systems()
    ensures { NodeSystemsAreSumSystems }
{}

/// The sums by an operator add up exactly where the counts of each flat form solve its sum system.
pub fn counts_solve()
    ensures { CountsSolve }
{}

/// A unifier gives values to the classes of a state that admits its partition.
pub fn unifiers_have_values()
    ensures { UnifiersHaveValues }
{
    unifiers_partition();
}

/// What gives the variables the values of their classes gives each node the value of its class.
pub fn values_are_given()
    ensures { ValuesAreGiven }
{}

/// Values of classes make a unifier, where the sides of each pair are in one class.
pub fn values_unify()
    ensures { ValuesUnify }
{}
