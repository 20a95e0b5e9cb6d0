//! How many solutions a number can choose among.

/// The most solutions among which choices are listed: a number of 128 bits is below 2 to this power.
pub const LISTED_SOLUTIONS: usize = 127;
