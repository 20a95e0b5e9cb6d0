//! Explorations of small signatures, and expansions of several members at once.
mod explored;
mod meetings;
mod rows;
mod theories;
