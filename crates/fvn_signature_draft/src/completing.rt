//! What was collected, completed: what its ranks mean, and what each operator declares.
ghost use Rattle.std.specs.Prelude.{◌≡◌, IfOk};
ghost use Rattle.fvn_signature_draft.specs.Collected.{
  kinds,
  meant,
  meant_or_kind,
  rank_meant,
  operator_meant,
  first_axioms,
  declarations_of,
  completed,
};

use crate::collected::{Collected, Declaration};
use fvn_base::Seq;
use fvn_base::limits::FIRST_KIND;
use fvn_terms::{Axioms, Declarations, NoMemory, OpDecl, OpId, Rank, SortId};
use std::alloc::Global;

/// The sort that a number in a rank names.
fn meant(collected: &Collected, list: &[SortId], s: SortId) -> SortId
    requires { list.now ≡ kinds collected.now }
    ensures { result ≡ meant collected.now s }
{
    if s.0 < FIRST_KIND {
        return s;
    }
    match list.get(usize::from(s.0 - FIRST_KIND)) {
        Some(kind) => *kind,
        None => s,
    }
}

/// The sort that a number in a rank names, or in a partial declaration its kind.
pub fn meant_or_kind(collected: &Collected, list: &[SortId], partial: bool, s: SortId) -> SortId
    requires { list.now ≡ kinds collected.now }
    ensures { result ≡ meant_or_kind collected.now partial s }
{
    let sort = meant(collected, list, s);
    if !partial {
        return sort;
    }
    match list.get(usize::from(sort.0)) {
        Some(kind) => *kind,
        None => sort,
    }
}

/// The rank that a declaration stands for.
fn rank_meant(
    alloc: Global,
    collected: &Collected,
    list: &[SortId],
    declaration: &Declaration,
) -> Result<Rank, NoMemory>
    requires { list.now ≡ kinds collected.now }
    ensures { IfOk result (λ r. r ≡ rank_meant collected.now declaration.now) }
{
    let mut args = Vec::new(alloc);
    for s in declaration.rank.args.as_slice() {
        args.push(meant_or_kind(collected, list, declaration.partial, *s))?;
    }
    let result_sort = meant_or_kind(
        collected,
        list,
        declaration.partial,
        declaration.rank.result,
    );
    Ok(Rank {
        args: Seq::from_vec(args),
        result: result_sort,
    })
}

/// The axioms of the first of an operator's declarations.
pub fn first_axioms(collected: &Collected, op: OpId) -> Axioms
    ensures { result ≡ first_axioms (declarations_of collected.now op) }
{
    for declaration in collected.declarations.as_slice() {
        if declaration.op == op {
            return declaration.axioms;
        }
    }
    Axioms::Free
}

/// What an operator declares.
fn operator(
    alloc: Global,
    collected: &Collected,
    list: &[SortId],
    op: OpId,
) -> Result<OpDecl, NoMemory>
    requires { list.now ≡ kinds collected.now }
    ensures { IfOk result (λ o.
        o ≡ operator_meant collected.now (declarations_of collected.now op)) }
{
    let mut ranks = Vec::new(alloc);
    for declaration in collected.declarations.as_slice() {
        if declaration.op == op {
            ranks.push(rank_meant(alloc, collected, list, declaration)?)?;
        }
    }
    Ok(OpDecl {
        axioms: first_axioms(collected, op),
        ranks: Seq::from_vec(ranks),
    })
}

/// The signature: what was collected, with kinds.
pub fn completed(
    alloc: Global,
    collected: &Collected,
    list: Vec<SortId>,
) -> Result<Declarations, NoMemory>
    requires { list.items ≡ kinds collected.now }
    ensures { IfOk result (λ d. d ≡ completed collected.now) }
{
    let mut ops = Vec::new(alloc);
    for op in 0..collected.operators {
        ops.push(operator(alloc, collected, list.as_slice(), OpId(op))?)?;
    }
    let below = Vec::from_slice(alloc, collected.below.as_slice())?;
    Ok(Declarations {
        sorts: collected.sorts,
        kinds: Seq::from_vec(list),
        below: Seq::from_vec(below),
        ops: Seq::from_vec(ops),
    })
}
