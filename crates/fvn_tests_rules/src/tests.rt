//! What left sides become and which equations lose sorts, the rules that are needed, and normal forms.
mod losses;
mod normal_forms;
mod rules;
mod texts;
