//! What is decided of splits that are still to come.
use crate::classes::Head;
use fvn_base::Seq;
use fvn_combine_nodes::State;

/// A state with the heads and the ways that are chosen so far.
#[derive(Drop)]
pub struct Leaf {
    pub state: State,
    pub heads: Seq<Head>,
    pub swaps: Seq<bool>,
}

/// A state that may still be asked a question, or one in which all questions are answered.
#[derive(Drop)]
pub enum Partial {
    Asking(State),
    Choosing(Leaf),
}
