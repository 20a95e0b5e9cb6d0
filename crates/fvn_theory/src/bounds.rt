//! Limits of rewriting.

/// How many steps a sequence may have, and how many symbols a form that it reaches.
#[derive(Debug, Clone, Copy, PartialEq, Eq)]
pub struct Bounds {
    pub steps: u64,
    pub size: u64,
}
