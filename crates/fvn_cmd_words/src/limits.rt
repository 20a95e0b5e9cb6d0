//! The numbers that options take.

/// Levels, where the words tell no number.
pub const LEVELS: u64 = 100;

/// The most levels.
pub const MOST_LEVELS: u64 = 1_000;

/// Variants that are kept, where the words tell no number.
pub const VARIANTS: u64 = 1_000;

/// The most variants.
pub const MOST_VARIANTS: u64 = 10_000;

/// Steps, where the words tell no number.
pub const STEPS: u64 = 10_000;

/// The most steps.
pub const MOST_STEPS: u64 = 1_000_000;

/// Workers, where the words tell no number.
pub const USUAL_WORKERS: u64 = 1;

/// The most workers.
pub const MOST_WORKERS: u64 = 16;

/// The least number of `work`.
pub const LEAST_WORK: u64 = 2;

/// The greatest number of `work`.
pub const MOST_WORK: u64 = 6;
