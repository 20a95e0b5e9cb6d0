//! The loader of modules: a text is read, and its left sides are judged.
#![tactic(auto)]

mod checks;
mod laws;
mod loading;

pub use checks::{first_left_fault, instances_fit, left_collapses, sort_loss};
pub use laws::{
    faulty_texts_are_not_loaded, load_faults_are_determined, loaded_modules_are_determined,
    loaded_modules_are_good, losses_are_determined,
};
pub use loading::load;
