//! The ranks that serve each operator.
ghost use Rattle.std.specs.Prelude.{◌≡◌, ◌++◌, [], map, length, IfOk, slice_index_or};
ghost use Rattle.fvn_terms.specs.declared.plain.OpId.{OpId};
ghost use Rattle.fvn_terms.specs.Signature.{declared};
ghost use Rattle.fvn_forms.specs.Ranks.{kind_rank, swapped_ranks, ranks_of};

use fvn_base::Seq;
use fvn_terms::{Declarations, NoMemory, OpId, Rank};
use std::alloc::Global;

/// The same rank, in memory of its own.
pub fn copied(alloc: Global, rank: &Rank) -> Result<Rank, NoMemory>
    ensures { IfOk result (λ r. r ≡ rank.now) }
{
    Ok(Rank {
        args: Seq::from_slice(alloc, rank.args.as_slice())?,
        result: rank.result,
    })
}

/// The rank on kinds.
fn kind_rank(alloc: Global, declarations: &Declarations, rank: &Rank) -> Result<Rank, NoMemory>
    ensures { IfOk result (λ r. r ≡ kind_rank declarations.now rank.now) }
{
    let mut args = Vec::new(alloc);
    for s in rank.args.as_slice() {
        args.push(declarations.kind(*s))?;
    }
    Ok(Rank {
        args: Seq::from_vec(args),
        result: declarations.kind(rank.result),
    })
}

/// Adds the same ranks on kinds.
fn add_kind_ranks(
    alloc: Global,
    declarations: &Declarations,
    ranks: &[Rank],
    list: Vec<Rank>,
) -> Result<Vec<Rank>, NoMemory>
    ensures { IfOk result (λ v.
        v.items ≡ list.items ++ map (kind_rank declarations.now) ranks.now) }
{
    let mut all = list;
    for rank in ranks {
        all.push(kind_rank(alloc, declarations, rank)?)?;
    }
    Ok(all)
}

/// The same ranks, in memory of their own.
fn copies(alloc: Global, ranks: &[Rank]) -> Result<Vec<Rank>, NoMemory>
    ensures { IfOk result (λ v. v.items ≡ ranks.now) }
{
    let mut all = Vec::new(alloc);
    for rank in ranks {
        all.push(copied(alloc, rank)?)?;
    }
    Ok(all)
}

/// The ranks of two arguments with these swapped.
fn swapped(alloc: Global, ranks: &[Rank]) -> Result<Vec<Rank>, NoMemory>
    ensures { IfOk result (λ v. v.items ≡ swapped_ranks ranks.now) }
{
    let mut all = Vec::new(alloc);
    for rank in ranks {
        let args = rank.args.as_slice();
        if args.len() == 2 {
            let turned = vec![in alloc; args[1], args[0]]?;
            all.push(Rank {
                args: Seq::from_vec(turned),
                result: rank.result,
            })?;
        }
    }
    Ok(all)
}

/// The ranks, and the others after them.
pub fn appended(list: Vec<Rank>, more: Vec<Rank>) -> Result<Vec<Rank>, NoMemory>
    ensures { IfOk result (λ v. v.items ≡ list.items ++ more.items) }
{
    let mut all = list;
    for rank in more {
        all.push(rank)?;
    }
    Ok(all)
}

/// The declared ranks, these on kinds, and for a commutative operator each with its arguments swapped.
fn ranks_of(alloc: Global, declarations: &Declarations, op: OpId) -> Result<Vec<Rank>, NoMemory>
    ensures { IfOk result (λ v. v.items ≡ ranks_of declarations.now op) }
{
    let declared = match declarations.declared(op) {
        Some(declared) => declared,
        None => return Ok(Vec::new(alloc)),
    };
    let copies = copies(alloc, declared.ranks.as_slice())?;
    let written = add_kind_ranks(alloc, declarations, declared.ranks.as_slice(), copies)?;
    if !declared.axioms.is_commutative() {
        return Ok(written);
    }
    let turned = swapped(alloc, written.as_slice())?;
    appended(written, turned)
}

/// The ranks that serve each operator.
pub fn all_ranks(
    alloc: Global,
    declarations: &Declarations,
    operators: u16,
) -> Result<Vec<Seq<Rank>>, NoMemory>
    requires { length declarations.now.ops ≡ operators }
    ensures { IfOk result (λ v. (f : OpId)
        → slice_index_or v.items f.0 [] ≡ ranks_of declarations.now f) }
{
    let mut all = Vec::new(alloc);
    for op in 0..operators {
        all.push(Seq::from_vec(ranks_of(alloc, declarations, OpId(op))?))?;
    }
    Ok(all)
}
