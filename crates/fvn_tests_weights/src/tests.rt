//! Weights of the operators of modules, and the texts that give them.
mod reading;
mod telling;
mod weighing;
