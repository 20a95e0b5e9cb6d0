//! The choices of a theory, from its system or from its minimal solutions.
ghost use Rattle.std.specs.Prelude.{None, ◌≡◌, ◌≢◌, ◌↔◌, ◌≤◌, ℕ, List, IfOk, IfErr, length, All, AllPairs, Contains};
ghost use Rattle.fvn_base.specs.Order.{IsBefore};
ghost use Rattle.fvn_lindio.specs.Systems.{IsMinimal, rows_of, vectors_of};
ghost use Rattle.fvn_lindio.specs.declared.system.LinFault.{LinFault as Refusal};
ghost use Rattle.fvn_acunify.specs.Theory.{IsOneTheory, IsRefusal};
ghost use Rattle.fvn_acunify.specs.ValidChoice.{IsValid};
ghost use Rattle.fvn_acunify.specs.Cursor.{Pending, unbounded};

use crate::choices::Choices;
use crate::limits::LISTED_SOLUTIONS;
use crate::theory::{OneFault, OneTheory};
use fvn_base::Seq;
use fvn_base::limits::{COMPONENT, MINIMAL_SOLUTIONS};
use fvn_lindio::{Solution, basis};
use std::alloc::{AllocError, Global};

/// The valid choices among the minimal solutions of the theory's system, of which there may be at
/// most 24.
pub fn solve_one(alloc: Global, theory: &OneTheory) -> Result<Choices, OneFault>
    requires { IsOneTheory theory.now }

    ensures exact { IfOk result (λ c. (v : List ℕ) → Contains (vectors_of c.basis) v
        ↔ IsMinimal theory.now.system.columns (rows_of theory.now.system) v) }
    ensures ordered { IfOk result (λ c. AllPairs IsBefore (vectors_of c.basis)) }
    ensures few { IfOk result (λ c. length c.basis ≤ MINIMAL_SOLUTIONS) }
    ensures narrow { IfOk result (λ c. All (All (λ a. a ≤ COMPONENT)) (vectors_of c.basis)) }
    ensures constants { IfOk result (λ c. c.constants ≡ theory.now.constants) }
    ensures may_be_zero { IfOk result (λ c. c.may_be_zero ≡ theory.now.may_be_zero) }
    ensures every_valid { IfOk result (λ c. c.full ≡ None) }
    ensures bounds { IfOk result (λ c. c.bounds ≡ unbounded) }
    ensures all_pending { IfOk result (λ c. (b : ℕ) →
        IsValid theory.now.constants theory.now.may_be_zero (vectors_of c.basis) b → Pending c b) }

    // Where memory does not run out, the system's refusal is handed on, and nothing else is an error.
    ensures refused { result ≢ Err OneFault.NoMemory → (fault : Refusal) →
        (result ≡ Err (OneFault.Basis fault))
        ↔ IsRefusal theory.now.system.columns (rows_of theory.now.system) MINIMAL_SOLUTIONS fault }
{
    let solutions = basis(alloc, &theory.system, MINIMAL_SOLUTIONS)?;
    Choices::over(alloc, theory, solutions)
}

// The same solution, in memory of its own.
fn copied_solution(alloc: Global, solution: &Solution) -> Result<Solution, AllocError>
    ensures { IfOk result (λ s. s ≡ solution.now) }
{
    let parts = Vec::from_slice(alloc, solution.parts.as_slice())?;
    Ok(Solution {
        parts: Seq::from_vec(parts),
    })
}

// The same solutions, in memory of their own.
fn copied(alloc: Global, solutions: &[Solution]) -> Result<Vec<Solution>, AllocError>
    ensures { IfOk result (λ v. v.items ≡ solutions.now) }
{
    let mut all = Vec::new(alloc);
    for solution in solutions {
        all.push(copied_solution(alloc, solution)?)?;
    }
    Ok(all)
}

/// The valid choices among these minimal solutions of the theory's system, of which there may be at
/// most 127.
pub fn choices_among(
    alloc: Global,
    theory: &OneTheory,
    solutions: &[Solution],
) -> Result<Choices, OneFault>
    requires theory { IsOneTheory theory.now }
    requires minimal { (v : List ℕ) → Contains (vectors_of solutions.now) v →
        IsMinimal theory.now.system.columns (rows_of theory.now.system) v }
    requires few { length solutions.now ≤ LISTED_SOLUTIONS }
    requires narrow { All (All (λ a. a ≤ COMPONENT)) (vectors_of solutions.now) }

    ensures basis { IfOk result (λ c. c.basis ≡ solutions.now) }
    ensures constants { IfOk result (λ c. c.constants ≡ theory.now.constants) }
    ensures may_be_zero { IfOk result (λ c. c.may_be_zero ≡ theory.now.may_be_zero) }
    ensures every_valid { IfOk result (λ c. c.full ≡ None) }
    ensures bounds { IfOk result (λ c. c.bounds ≡ unbounded) }
    ensures all_pending { IfOk result (λ c. (b : ℕ) →
        IsValid theory.now.constants theory.now.may_be_zero (vectors_of c.basis) b → Pending c b) }
    ensures only_memory { IfErr result (λ fault. fault ≡ OneFault.NoMemory) }
{
    let own = copied(alloc, solutions)?;
    Choices::over(alloc, theory, Seq::from_vec(own))
}
