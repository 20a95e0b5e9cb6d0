//! The reader of modules.
#![tactic(auto)]

mod equations;
mod fault;
mod laws;
mod module;
mod reading;
mod sides;
mod signing;
mod variables;

pub use fault::{ModuleFault, Place};
pub use laws::{
    modules_are_determined, modules_are_good, refusals_are_determined,
    refused_texts_declare_nothing,
};
pub use module::Module;
pub use reading::read_module;
