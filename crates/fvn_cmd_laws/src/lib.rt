//! What is promised of all commands follows from their answers.
#![tactic(auto)]

mod laws;

pub use fvn_cmd_check::check_reply;
pub use fvn_cmd_variants::variants_reply;
pub use fvn_cmd_verify::verify_reply;
pub use fvn_cmd_vunify::{unify_reply, vunify_reply};
pub use laws::{
    ample_limits_are_not_told, answers_are_exact, explored_answers_are_exact, sorts_are_told_once,
    verdicts_are_exact, weighings_are_exact,
};
