//! Rows of texts, each with what is shown of it.
mod comparing;
mod forms;
mod matching;
mod patterns;
mod refinements;
mod refining;
mod rows;
mod terms;
mod variants;
