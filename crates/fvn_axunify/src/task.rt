//! What a search for unifiers is given.
use crate::solver::SolveLimits;
use fvn_flat::Pairs;
use fvn_signature::Signature;
use fvn_terms::Var;
use std::alloc::Global;

// A problem with its variables, each once, in its signature, the first number of a new variable, and limits.
#[derive(Clone, Copy)]
pub(crate) struct Task<'t> {
    pub(crate) alloc: Global,
    pub(crate) sig: &'t Signature,
    pub(crate) problem: &'t Pairs,
    pub(crate) vars: &'t [Var],
    pub(crate) first: u32,
    pub(crate) limits: SolveLimits,
}
