//! What a combination of solvers is asked.
ghost use Rattle.std.specs.Prelude.{◌≡◌, ◌≤◌, ◌<◌, ◌-◌, ◌^◌, IfOk};
ghost use Rattle.fvn_base.specs.declared.limits.TheConstants.{TERM_SYMBOLS};
ghost use Rattle.fvn_flat.specs.Solving.{IsGiven, symbols_of_pairs};
ghost use Rattle.fvn_combine.specs.Tasks.{IsCombining};

use crate::ranks::node_ranks;
use fvn_combine_drawing::variables;
use fvn_combine_nodes::Table;
use fvn_combine_tree::table_of;
use fvn_flat::Pairs;
use fvn_signature::Signature;
use fvn_terms::{NoMemory, Var};
use std::alloc::Global;
use std::marker::Model;

/// A problem in its signature, with its table and the sizes of its nodes, the limits on its answers, whether sorts are heeded,
/// and whether of each unifier a more general one is enough.
#[derive(Drop)]
pub(crate) struct Task<'a> {
    pub(crate) alloc: Global,
    pub(crate) sig: &'a Signature,
    pub(crate) problem: &'a Pairs,
    pub(crate) table: Table,
    pub(crate) variables: Vec<Var>,
    pub(crate) sizes: Vec<usize>,
    pub(crate) first: u32,
    pub(crate) size: u64,
    pub(crate) sorted: bool,
    pub(crate) general: bool,
}

impl<'a> Model for Task<'a> {
    ghost use Rattle.fvn_flat.specs.contracts.flat.Flat as flat;
    ghost use Rattle.std.specs.Coded.{codes};
    ghost use Rattle.fvn_combine.specs.Tasks.{Combining, IsCombining};

    ghost Value = { Combining };

    ghost coded = { Prim.hlevel (codes, flat.the_row.coded) };

    ghost view = { λ t. record {
      declarations = t.sig.now;
      given = t.problem.now;
      first = t.first;
      size = t.size;
      sorted = t.sorted;
      general = t.general;
      table = t.table;
      variables = t.variables.items;
    } };

    ghost invariant = { λ t. IsCombining (record {
      declarations = t.sig.now;
      given = t.problem.now;
      first = t.first;
      size = t.size;
      sorted = t.sorted;
      general = t.general;
      table = t.table;
      variables = t.variables.items;
    }) };
}

impl<'a> Task<'a> {
    // The task of a problem.
    pub(crate) fn new(
        alloc: Global,
        sig: &'a Signature,
        problem: &'a Pairs,
        first: u32,
        size: u64,
        sorted: bool,
        general: bool,
    ) -> Result<Task<'a>, NoMemory>
        requires given { IsGiven sig.now problem.now first }
        requires small { symbols_of_pairs problem.now.pairs ≤ TERM_SYMBOLS }
        requires limit { size < 2 ^ 64 - 1 }
        ensures declarations { IfOk result (λ t. t.declarations ≡ sig.now) }
        ensures given { IfOk result (λ t. t.given ≡ problem.now) }
        ensures first { IfOk result (λ t. t.first ≡ first) }
        ensures size { IfOk result (λ t. t.size ≡ size) }
        ensures sorted { IfOk result (λ t. t.sorted ≡ sorted) }
        ensures general { IfOk result (λ t. t.general ≡ general) }
    {
        sig.recall_good();
        let table = table_of(alloc, sig, problem)?;
        table.recall_well_made();
        let variables = variables(alloc, &table)?;
        let sizes = node_ranks(alloc, table.nodes())?;
        Ok(Task {
            alloc,
            sig,
            problem,
            table,
            variables,
            sizes,
            first,
            size,
            sorted,
            general,
        })
    }

    // What belongs together.
    pub(crate) fn recall(&self)
        ensures { IsCombining self.now }
    {
        let _ = &self.alloc;
    }
}
