//! How far variants are searched for.

/// How far variants are searched for: levels, variants that are kept, and steps to a normal form.
#[derive(Debug, Clone, Copy, PartialEq, Eq)]
pub struct Reach {
    pub levels: u32,
    pub variants: u32,
    pub steps: u64,
}
