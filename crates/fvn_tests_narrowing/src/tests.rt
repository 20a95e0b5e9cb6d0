//! Tests of narrowing.

mod expanding;
mod handing;
mod texts;
