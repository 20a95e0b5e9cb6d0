//! The tokens of a text, exactly.
#![tactic(auto)]

mod cut;
mod laws;
mod token;

pub use cut::tokens;
pub use laws::{
    fault_is_the_first, lex_join, pieces_are_the_cut, pieces_by_form, pieces_stand_alone,
    spaces_are_needed, texts_are_slices, tokens_are_the_cut, trailing_white_space,
};
pub use token::{Class, LexFault, Token};
