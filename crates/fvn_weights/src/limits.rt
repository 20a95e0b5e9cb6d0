//! The greatest number of a value that is compared, and into how many slots variables go.

/// Numbers up to this one are compared.
pub const MOST: u64 = 9_223_372_036_854_775_807;

/// Variables are found by as many slots.
pub(crate) const SLOTS: usize = 256;
