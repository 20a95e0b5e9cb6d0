//! Laws of partitions of nodes, each the contract of a function that does nothing.
ghost use Rattle.fvn_combine_nodes.specs.Laws.{NodePartitionsArePartitions, UnifiersPartition};

/// A unifier on kinds makes a partition of the nodes.
pub fn unifiers_partition()
    ensures { UnifiersPartition }
{}

/// Partitions of the nodes are those of the problem.
pub fn node_partitions_are_partitions()
    ensures { NodePartitionsArePartitions }
{}
