//! Rewriting with rules: one step, and normal forms.
#![tactic(auto)]

mod fitting;
mod inside;
mod making;
mod normalising;
mod quick;
mod rewriter;
mod root;
mod shared;
mod short;
mod stepping;
mod testing;
mod twins;
mod walking;

pub use normalising::normal;
pub use rewriter::Rewriter;
pub use stepping::step;
