//! Shapes: what the least sort of a term is computed from, and whether it collapses.
use fvn_terms::{OpId, SortId};

/// What a flat form is at its root: a variable, a constant, or an operator over arguments.
#[derive(Debug, Clone, Copy, PartialEq, Eq)]
pub enum Root {
    Variable,
    Constant(OpId),
    Compound,
}

/// The root of the flat form of a term, and the term's least sort.
#[derive(Debug, Clone, Copy, PartialEq, Eq)]
pub struct Shape {
    pub root: Root,
    pub sort: SortId,
}
