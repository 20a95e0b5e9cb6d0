//! Limits of an exploration.

/// How far an exploration goes: levels, kept variants, steps to a normal form, symbols of a term, and pieces at once.
#[derive(Debug, Clone, Copy, PartialEq, Eq)]
pub struct Limits {
    pub levels: u32,
    pub variants: u32,
    pub steps: u64,
    pub size: u64,
    pub workers: u32,
}
