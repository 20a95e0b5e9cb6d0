//! Equations as pairs of terms, what is asked of them, and the limits of rewriting with them.
#![tactic(auto)]

mod bounds;
mod equation;

pub use bounds::Bounds;
pub use equation::Equation;
