//! Systems that were solved before, with their minimal solutions.
//!
//! A state that the answer "apart" leaves has the classes of the state before, so that its sum systems are the same; and a
//! sum system rests on the classes that one operator adds alone, so that it comes again in other states.
ghost use Rattle.std.specs.Prelude.{◌≡◌, length, All, IfOk, IfSome, IsTrue};
ghost use Rattle.fvn_combine_candidates.specs.inner.Walking.{IsKeptBasis};
ghost use Rattle.fvn_combine_candidates.specs.inner.Solved.{IsSolved};

use fvn_base::Seq;
use fvn_combine_admissible::copied_system;
use fvn_lindio::{Row, Solution, System};
use fvn_terms::NoMemory;
use std::alloc::Global;
use std::marker::Model;

/// The most systems that are held.
const SYSTEMS: usize = 32;

/// A system that is not refused, with its minimal solutions.
#[derive(Drop)]
pub struct SolvedSystem {
    pub(crate) system: System,
    pub(crate) basis: Seq<Solution>,
}

/// Systems that were solved before, with their minimal solutions; where there are 32 of them, all are given up for the next.
#[derive(Drop)]
pub struct SolvedSystems {
    list: Vec<SolvedSystem>,
}

impl Model for SolvedSystems {
    ghost use Rattle.std.specs.Prelude.{List, All};
    ghost use Rattle.fvn_combine_candidates.specs.declared.solving.SolvedSystem.{SolvedSystem};
    ghost use Rattle.fvn_combine_candidates.specs.inner.Solved.{IsSolved};

    ghost Value = { List SolvedSystem };

    ghost view = { λ s. s.list.items };

    ghost invariant = { λ s. All IsSolved s.list.items };
}

// Whether both lists have the same numbers in the same order.
fn are_same(xs: &[i32], ys: &[i32]) -> bool
    ensures { IsTrue result → (xs.now ≡ ys.now) }
{
    if xs.len() != ys.len() {
        return false;
    }
    for i in 0..xs.len() {
        if xs[i] != ys[i] {
            return false;
        }
    }
    true
}

// Whether both rows have the same coefficients.
pub(crate) fn is_same_row(x: &Row, y: &Row) -> bool
    ensures { IsTrue result → (x.now ≡ y.now) }
{
    are_same(x.coefficients.as_slice(), y.coefficients.as_slice())
}

// Whether both lists have the same rows in the same order.
fn are_same_rows(xs: &[Row], ys: &[Row]) -> bool
    ensures { IsTrue result → (xs.now ≡ ys.now) }
{
    if xs.len() != ys.len() {
        return false;
    }
    for i in 0..xs.len() {
        if !is_same_row(&xs[i], &ys[i]) {
            return false;
        }
    }
    true
}

// Whether both systems have as many columns, and the same rows in the same order.
fn is_same_system(x: &System, y: &System) -> bool
    ensures { IsTrue result → (x.now ≡ y.now) }
{
    if x.columns != y.columns {
        return false;
    }
    are_same_rows(x.rows.as_slice(), y.rows.as_slice())
}

// The minimal solutions of the system, where it is one of the list.
fn basis_among<'a>(list: &'a [SolvedSystem], system: &System) -> Option<&'a [Solution]>
    requires { All IsSolved list.now }
    ensures { IfSome result (λ basis. IsKeptBasis system.now basis.now) }
{
    for solved in list {
        if is_same_system(&solved.system, system) {
            return Some(solved.basis.as_slice());
        }
    }
    None
}

// The same solution, in memory of its own.
pub(crate) fn copied_solution(alloc: Global, solution: &Solution) -> Result<Solution, NoMemory>
    ensures { IfOk result (λ s. s ≡ solution.now) }
{
    let parts = Vec::from_slice(alloc, solution.parts.as_slice())?;
    Ok(Solution {
        parts: Seq::from_vec(parts),
    })
}

// The same solutions, in memory of their own.
pub(crate) fn copied_basis(alloc: Global, basis: &[Solution]) -> Result<Vec<Solution>, NoMemory>
    ensures { IfOk result (λ v. v.items ≡ basis.now) }
{
    let mut all = Vec::with_capacity(alloc, basis.len())?;
    for solution in basis {
        all.push(copied_solution(alloc, solution)?)?;
    }
    Ok(all)
}

// The system with its minimal solutions, in memory of their own.
fn solved_system(
    alloc: Global,
    system: &System,
    basis: &[Solution],
) -> Result<SolvedSystem, NoMemory>
    requires { IsKeptBasis system.now basis.now }
    ensures { IfOk result IsSolved }
{
    let rows = copied_system(alloc, system)?;
    let solutions = copied_basis(alloc, basis)?;
    Ok(SolvedSystem {
        system: rows,
        basis: Seq::from_vec(solutions),
    })
}

// Gives up all systems, where there are as many as are held.
fn make_room(list: &mut Vec<SolvedSystem>)
    requires { All IsSolved list.old.items }
    ensures { All IsSolved list.new.items }
{
    if list.len() >= SYSTEMS {
        list.clear();
    }
}

impl SolvedSystems {
    /// None yet.
    pub fn new(alloc: Global) -> SolvedSystems {
        SolvedSystems {
            list: Vec::new(alloc),
        }
    }

    // The minimal solutions of the system, where they are held.
    pub(crate) fn basis(&self, system: &System) -> Option<&[Solution]>
        ensures { IfSome result (λ basis. IsKeptBasis system.now basis.now) }
    {
        basis_among(self.list.as_slice(), system)
    }

    // Holds the system with its minimal solutions.
    pub(crate) fn hold(
        &mut self,
        alloc: Global,
        system: &System,
        basis: &[Solution],
    ) -> Result<(), NoMemory>
        requires { IsKeptBasis system.now basis.now }
    {
        let entry = solved_system(alloc, system, basis)?;
        make_room(&mut self.list);
        self.list.push(entry)?;
        Ok(())
    }
}
