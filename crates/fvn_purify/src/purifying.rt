//! The parts of a problem.
ghost use Rattle.std.specs.Prelude.{◌≡◌, ◌++◌, IfOk};
ghost use Rattle.fvn_flat.specs.Problems.{IsProblem};
ghost use Rattle.fvn_flat.specs.Solving.{problem_of};
ghost use Rattle.fvn_purify.specs.Parts.{ArePlaces, AreClassesOf};

use crate::classes::{Classes, Places};
use crate::forming::{forms, pair_forms};
use crate::listing::{abstracted, collapsing, operators, pairs, shared};
use fvn_base::Seq;
use fvn_combine_nodes::Table;
use fvn_combine_tree::table_of;
use fvn_flat::Pairs;
use fvn_signature::Signature;
use fvn_terms::NoMemory;
use std::alloc::Global;

// The numbers of both lists.
fn joined(alloc: Global, first: &[usize], second: &[usize]) -> Result<Seq<usize>, NoMemory>
    ensures { IfOk result (λ list. list ≡ first.now ++ second.now) }
{
    let mut list = Vec::new(alloc);
    list.extend_from_slice(first)?;
    list.extend_from_slice(second)?;
    Ok(Seq::from_vec(list))
}

// The nodes that splits speak of.
fn places(alloc: Global, sig: &Signature, table: &Table) -> Result<Places, NoMemory>
    ensures { IfOk result (ArePlaces sig.now table.now) }
{
    let listed = abstracted(alloc, sig, table)?;
    let variables = shared(alloc, sig, table)?;
    let parts = joined(alloc, listed.as_slice(), variables.as_slice())?;
    let collapsing = collapsing(alloc, sig, table, listed.as_slice())?;
    let headed = joined(alloc, collapsing.as_slice(), variables.as_slice())?;
    let pairs = pairs(alloc, sig, table)?;
    Ok(Places {
        parts,
        headed,
        pairs: Seq::from_vec(pairs),
    })
}

/// The parts of a problem, its operators with axioms, and its pairs of subterms that one
/// commutative operator heads.
///
/// A part is a subterm at which two theories meet, or a variable that two theories share. First
/// stand the subterms and then the variables; of a pair the lower node comes first.
pub fn purify(alloc: Global, sig: &Signature, problem: &Pairs) -> Result<Classes, NoMemory>
    requires kinds { IsProblem sig.now (problem_of problem.now) }
    ensures { IfOk result (AreClassesOf sig.now (problem_of problem.now)) }
{
    sig.recall_good();
    let table = table_of(alloc, sig, problem)?;
    let places = places(alloc, sig, &table)?;
    let ops = operators(alloc, sig, &table)?;
    let parts = forms(alloc, sig, &table, places.parts.as_slice())?;
    let pairs = pair_forms(alloc, sig, &table, places.pairs.as_slice())?;
    Ok(Classes {
        parts: Seq::from_vec(parts),
        ops: Seq::from_vec(ops),
        pairs: Seq::from_vec(pairs),
        table,
        places,
    })
}
