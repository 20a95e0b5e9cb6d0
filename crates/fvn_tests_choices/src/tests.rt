//! Systems, choices and odometers, each with what is given.
mod kept;
mod odometers;
mod systems;
mod theories;
