//! The conditions on a signature, and the first fault.

pub mod brackets;
pub mod cycles;
pub mod fault;
pub mod finish;
pub mod pairs;
pub mod preregular;
pub mod shapes;
pub mod sizes;
pub mod stages;
pub mod twins;
