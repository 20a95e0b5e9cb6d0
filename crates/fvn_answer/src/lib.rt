//! Lines and answer texts.
#![tactic(auto)]

mod answer;
mod end;
mod front;
mod laws;
mod line;
mod line_front;
mod numbering;
mod printed;
mod search;
mod texts;
mod twins;

pub use answer::{Line, answer_text};
pub use end::End;
pub use laws::{
    equal_lines_are_instances, equal_lines_cover, lines_denote_one_substitution,
    lines_denote_one_variant, six_variables_are_few,
};
pub use line::{line_of, variant_line};
pub use numbering::FEW_VARIABLES;
