//! Rows of texts, each with what is found of it.
mod given;
mod parts;
mod searches;
mod searching;
mod solving;
mod splits;
mod unifiers;
