//! How long a number may be.

/// The most digits of a number.
pub const NUMBER_DIGITS: usize = 9;
