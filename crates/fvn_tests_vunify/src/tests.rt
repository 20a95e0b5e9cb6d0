//! Tests of unifiers in theories.

mod fixed;
mod replies;
