//! Plain terms, what a module declares, and the definitions that every contract above speaks in.
#![tactic(auto)]

mod declarations;
mod laws;
mod plain;
mod substitution;

pub use declarations::{Axioms, Declarations, OpDecl, Rank};
pub use fvn_base::NoMemory;
pub use laws::{
    all_shared, complete_sets_that_are_apart_are_shortest, covering_is_reflexive_and_transitive,
    equality_is_a_congruence, equality_is_an_equivalence, equality_is_kept_by_substitution,
    free_terms_are_equal, instances_are_transitive, rewriting_is_lawful, theory_equality_is_lawful,
    what_follows_a_unifier_is_a_unifier,
};
pub use plain::{Args, OpId, Plain, SortId, Var};
pub use substitution::PlainSubst;
