//! What the words ask.
use crate::reach::Reach;

/// What the words ask.
#[derive(Clone, Copy)]
pub enum Command<'a> {
    /// To tell how much a module declares.
    Check,
    /// To unify the sides of each pair of a problem.
    Unify(&'a [u8]),
    /// To tell whether bindings solve a problem, with a limit on the steps from each side.
    Verify(&'a [u8], &'a [u8], u64),
    /// To tell whether weights show that the equations terminate.
    Terminates(&'a [u8]),
    /// To find the variants of a term, so far and with so many workers.
    Variants(&'a [u8], Reach, u64),
    /// To unify the sides of each pair of a problem modulo the equations.
    Vunify(&'a [u8], Reach, u64),
    /// To solve a sum of two variables against one of so many.
    Work(u64),
}
