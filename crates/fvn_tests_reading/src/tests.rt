//! Tables of texts, each with what is read of it.
mod answers;
mod modules;
mod problems;
mod reading;
mod rows;
mod statements;
mod writing;
