//! Terms and their replacement, texts with their tokens, and streams that fail in turn.
mod cutting;
mod plain_terms;
mod streams;
