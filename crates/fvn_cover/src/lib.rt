//! Variants in flat form: which covers which, lists without covered members, and the marks of candidates.
#![tactic(auto)]

mod covering;
mod gate;
mod heads;
mod keeping;
mod laws;
mod marking;
mod pieces;
mod pruning;
mod reach;
mod sieve;
mod values;
mod variant;

pub use covering::covers;
pub use gate::{Gate, OpenGate};
pub use keeping::{Kept, all_kept};
pub use laws::{
    at_most_sixteen_workers, covering_of_unifiers_is_instance, covering_of_variants_is_a_preorder,
};
pub use marking::{WORKERS, marks};
pub use pieces::{piece_count, piece_start};
pub use pruning::{prune, prune_folded, prune_kept, with_member};
pub use sieve::Sieve;
pub use variant::{Variant, all_shared};
