//! The unifier of a choice.
ghost use Rattle.std.specs.Prelude.{◌-◌, ◌^◌, ◌<◌, IfOk};
ghost use Rattle.fvn_combine_nodes.specs.States.{class_of};
ghost use Rattle.fvn_combine_leaves.specs.Readings.{IsReading};
ghost use Rattle.fvn_combine_triangular.specs.CombineAdmissibleListed.{systems_of, choice_of};
ghost use Rattle.fvn_combine_leaves.specs.Bases.{AreBases};
ghost use Rattle.fvn_combine_triangular.specs.Ready.{IsReady, AreListed, AreVariablesOf};
ghost use Rattle.fvn_combine_drawing.specs.Choices.{IsListedChoice};
ghost use Rattle.fvn_combine_drawing.specs.Drawn.{IsDrawnBy};

use crate::unfolding::unfold_within;
use fvn_base::Seq;
use fvn_combine_candidates::{bases_make_systems, leave_no_alias, listed_choices_are_possible};
use fvn_combine_choices::{
    planned_bindings_are_solved, planned_bindings_unfold_to_new, sizes_add_up,
};
use fvn_combine_leaves::Reading;
use fvn_combine_nodes::{State, Table, node_partitions_are_partitions};
use fvn_combine_triangular::bindings;
use fvn_flat::{Pairs, SolvedList, Subst};
use fvn_lindio::Solution;
use fvn_signature::Signature;
use fvn_terms::{NoMemory, OpId, Var};
use std::alloc::Global;

/// What a choice gives.
#[derive(Drop)]
pub enum Drawn {
    /// No unifier: a shared class would be a sum of one class alone, or some class would reach itself.
    Nothing,
    /// Bindings that unfold to a term with too many symbols.
    TooLarge(SolvedList),
    /// A unifier on kinds.
    Unifier(Subst),
}

/// What the choice of these tags and numbers gives, with new variables from `first` on and at most
/// `size` symbols for each variable of the problem.
pub fn draw(
    alloc: Global,
    sig: &Signature,
    problem: &Pairs,
    table: &Table,
    state: &State,
    reading: &Reading,
    bases: &[Seq<Solution>],
    tags: &[Option<OpId>],
    numbers: &[u128],
    variables: &[Var],
    first: u32,
    size: u64,
) -> Result<Drawn, NoMemory>
    requires ready { IsReady sig.now problem.now first table.now state.now }
    requires reading { IsReading sig.now table.now (class_of state.now) reading.now }
    requires bases { AreBases reading.now.sums bases.now }
    requires listed { AreListed table.now reading.now bases.now numbers.now }
    requires choice { IsListedChoice sig.now table.now (class_of state.now)
        reading.now bases.now tags.now numbers.now }
    requires variables { AreVariablesOf table.now variables.now }
    requires size { size < 2 ^ 64 - 1 }
    ensures { IfOk result (IsDrawnBy sig.now problem.now first size table.now state.now
        (systems_of reading.now bases.now) (choice_of reading.now tags.now numbers.now)) }
{
    sig.recall_good();
    table.recall_well_made();
    bases_make_systems();
    listed_choices_are_possible();
    planned_bindings_are_solved();
    planned_bindings_unfold_to_new();
    sizes_add_up();
    node_partitions_are_partitions();
    if !leave_no_alias(alloc, sig, table, state, reading, bases, tags, numbers)? {
        return Ok(Drawn::Nothing);
    }
    let planned = bindings(
        alloc, sig, problem, table, state, reading, bases, tags, numbers, first,
    )?;
    match planned {
        None => Ok(Drawn::Nothing),
        Some(list) => {
            let drawn = unfold_within(alloc, sig, list, variables, size)?;
            Ok(drawn)
        }
    }
}
