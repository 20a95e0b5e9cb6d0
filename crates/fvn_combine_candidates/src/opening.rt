//! The minimal solutions of all sum operators at a state.
ghost use Rattle.std.specs.Prelude.{◌≡◌, ◌≤◌, length, All, IfOk, IfErr};
ghost use Rattle.fvn_base.specs.declared.limits.TheConstants.{MINIMAL_SOLUTIONS};
ghost use Rattle.fvn_lindio.specs.Systems.{IsSystem};
ghost use Rattle.fvn_flat.specs.Solving.{IsRefused};
ghost use Rattle.fvn_combine_nodes.specs.States.{class_of};
ghost use Rattle.fvn_combine_leaves.specs.Bases.{AreBases, HaveAlive};
ghost use Rattle.fvn_combine_leaves.specs.Readings.{IsReading};
ghost use Rattle.fvn_combine_choices.specs.Choosing.{AreSystems};
ghost use Rattle.fvn_combine_admissible.specs.Listed.{systems_of};
ghost use Rattle.fvn_combine_candidates.specs.Refusals.{IsOpenFault};
ghost use Rattle.fvn_combine_candidates.specs.inner.Walking.{IsFaultOf, IsKeptBasis, AreKeptBases};

use crate::laws::bases_make_systems;
use crate::solving::{SolvedSystems, copied_basis};
use fvn_base::Seq;
use fvn_base::limits::MINIMAL_SOLUTIONS;
use fvn_combine_admissible::copied_system;
use fvn_combine_leaves::{Reading, Sums};
use fvn_combine_nodes::{State, Table};
use fvn_lindio::{LinFault, Solution, System, basis};
use fvn_signature::Signature;
use fvn_terms::{NoMemory, OpId};
use std::alloc::{AllocFailed, Global};

/// Why there are no minimal solutions of all sum operators.
#[derive(Drop)]
pub enum OpenFault {
    /// The system of the sum operator has too many minimal solutions, or too large ones.
    Basis(OpId, System),
    /// Memory was refused.
    NoMemory,
}

impl<T: Drop> From<AllocFailed<T>> for OpenFault {
    ghost use Rattle.std.specs.Prelude.{◌≡◌};
    ghost use Rattle.fvn_combine_candidates.specs.declared.opening.OpenFault.TheVariants.{NoMemory};

    ghost from_gives = { λ _ fault. fault ≡ NoMemory };

    fn from(_refused: AllocFailed<T>) -> OpenFault {
        OpenFault::NoMemory
    }
}

impl From<NoMemory> for OpenFault {
    ghost use Rattle.std.specs.Prelude.{◌≡◌};
    ghost use Rattle.fvn_combine_candidates.specs.declared.opening.OpenFault.TheVariants.{NoMemory as OutOfMemory};

    ghost from_gives = { λ _ fault. fault ≡ OutOfMemory };

    fn from(_error: NoMemory) -> OpenFault {
        OpenFault::NoMemory
    }
}

// The operator with its system, as the cause.
fn cause(alloc: Global, sums: &Sums) -> OpenFault
    requires { IsRefused sums.now.system }
    ensures { IsFaultOf sums.now result }
{
    match copied_system(alloc, &sums.system) {
        Ok(system) => OpenFault::Basis(sums.operator, system),
        Err(_) => OpenFault::NoMemory,
    }
}

// The minimal solutions of a sum operator's system, by a search.
fn basis_of(alloc: Global, sums: &Sums) -> Result<Seq<Solution>, OpenFault>
    requires { IsSystem sums.now.system }
    ensures exact { IfOk result (IsKeptBasis sums.now.system) }
    ensures refused { IfErr result (IsFaultOf sums.now) }
{
    match basis(alloc, &sums.system, MINIMAL_SOLUTIONS) {
        Ok(solutions) => Ok(solutions),
        Err(LinFault::TooMany(_)) => Err(cause(alloc, sums)),
        Err(LinFault::TooWide(_)) => Err(cause(alloc, sums)),
        Err(LinFault::NoMemory) => Err(OpenFault::NoMemory),
    }
}

// The same, without a search where the system was solved before; else it is held from now on.
fn held_basis(
    alloc: Global,
    sums: &Sums,
    solved: &mut SolvedSystems,
) -> Result<Seq<Solution>, OpenFault>
    requires { IsSystem sums.now.system }
    ensures exact { IfOk result (IsKeptBasis sums.now.system) }
    ensures refused { IfErr result (IsFaultOf sums.now) }
{
    if let Some(held) = solved.basis(&sums.system) {
        let copy = copied_basis(alloc, held)?;
        return Ok(Seq::from_vec(copy));
    }
    let basis = basis_of(alloc, sums)?;
    solved.hold(alloc, &sums.system, basis.as_slice())?;
    Ok(basis)
}

// The minimal solutions of these sum operators.
fn all_bases(
    alloc: Global,
    sums: &[Sums],
    solved: &mut SolvedSystems,
) -> Result<Vec<Seq<Solution>>, OpenFault>
    requires { All (λ e. IsSystem e.system) sums.now }
    ensures exact { IfOk result (λ v. AreKeptBases sums.now v.items) }
    ensures refused { IfErr result (IsOpenFault sums.now) }
{
    let mut bases = Vec::new(alloc);
    for i in 0..sums.len() {
        let basis = held_basis(alloc, &sums[i], solved)?;
        bases.push(basis)?;
    }
    Ok(bases)
}

/// All minimal solutions of each sum operator of a reading, in the reading's order; or the first
/// operator whose system is refused.
///
/// A system that was solved before is not solved again.
pub fn bases(
    alloc: Global,
    sig: &Signature,
    table: &Table,
    state: &State,
    reading: &Reading,
    solved: &mut SolvedSystems,
) -> Result<Vec<Seq<Solution>>, OpenFault>
    requires { IsReading sig.now table.now (class_of state.now) reading.now }
    ensures bases { IfOk result (λ v. AreBases reading.now.sums v.items) }
    ensures alive { IfOk result (λ v.
        HaveAlive sig.now table.now state.now reading.now.sums v.items) }
    ensures systems { IfOk result (λ v. AreSystems sig.now table.now (class_of state.now)
        (systems_of reading.now v.items)) }
    ensures as_many { IfOk result (λ v. length v.items ≡ length reading.now.sums) }
    ensures few { IfOk result (λ v. All (λ basis. length basis ≤ MINIMAL_SOLUTIONS) v.items) }
    ensures kept { IfOk result (λ v. All (λ e. IsRefused e.system → ⊥) reading.now.sums) }
    ensures refused { IfErr result (IsOpenFault reading.now.sums) }
{
    let _sig = sig;
    let _table = table;
    let _state = state;
    bases_make_systems();
    let all = all_bases(alloc, reading.sums.as_slice(), solved)?;
    Ok(all)
}
