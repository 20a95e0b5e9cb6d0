//! Good signatures and their queries.

pub mod signature;
pub mod subsorts;
