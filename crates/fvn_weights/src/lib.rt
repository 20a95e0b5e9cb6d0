//! Whether weights of operators show that equations terminate.
#![tactic(auto)]

mod comparing;
mod fault;
mod fitting;
mod forms;
mod laws;
mod limits;
mod numbers;
mod slots;
mod weighing;
mod weights;

pub use fault::WeighFault;
pub use laws::{numbers_are_compared_up_to, weights_that_fit_show_termination};
pub use weighing::weigh;
pub use weights::{Weight, Weights};
