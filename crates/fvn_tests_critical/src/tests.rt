//! Tests of the test of confluence.

mod telling;
mod testing;
