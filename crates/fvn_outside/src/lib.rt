//! The outside of a program: where bytes come from and go to, with each failure counted.
#![tactic(auto)]

mod calls;
mod failures;
mod memory;
mod reading;
mod standard;
mod sure;
mod writing;

pub use failures::{ReadAll, ReadFailed, WriteFailed};
pub use memory::{MemSink, MemSource};
pub use reading::{Source, read_all};
pub use standard::{StdSink, StdSource};
pub use sure::{SureSink, SureSource};
pub use writing::{Sink, write_all};
