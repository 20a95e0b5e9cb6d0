//! The limits of the product, each the last value that is allowed.

/// Bytes of a module's text.
pub const MODULE_BYTES: usize = 1_048_576;

/// Declared sorts of a module.
pub const SORTS: u16 = 64;

/// Declared operators of a module.
pub const OPERATORS: u16 = 256;

/// Arguments of an operator.
pub const ARGUMENTS: usize = 8;

/// Equations of a module.
pub const EQUATIONS: usize = 256;

/// Identity instances of an equation.
pub const IDENTITY_INSTANCES: u64 = 4_096;

/// Sort instances of an equation.
pub const SORT_INSTANCES: u64 = 16_777_216;

/// Symbols of a side of an equation, and of all sides of a problem or a term text together.
pub const TEXT_SYMBOLS: usize = 400;

/// Symbols of a term, of a binding, and of a problem that is solved.
pub const TERM_SYMBOLS: u64 = 1_000;

/// Minimal solutions of a system.
pub const MINIMAL_SOLUTIONS: usize = 24;

/// A component of a minimal solution, and a coefficient of a system.
pub const COMPONENT: u64 = 65_535;

/// Columns of a system.
pub const COLUMNS: usize = 1_000;

/// Unifiers of one problem: with so many of them the search ends.
pub const UNIFIERS: u32 = 4_096;

/// The first number of a new variable that a solver may be given, or a renaming.
pub const FIRST_FRESH: u32 = 1_000_000;

/// The number after the last new variable of a solver.
pub const NEXT_FRESH: u32 = 2_000_000;

/// The first number of a new variable that the expansion of a variant may be given.
pub const EXPANDED_FRESH: u32 = 2_000_000_000;

/// Sorts, and operators, that a text may name: a number of 16 bits stands for each.
pub const NAMES: usize = 65_536;

/// From here on a number in a rank names a kind, and not a sort.
pub const FIRST_KIND: u16 = 32_768;

/// Bytes that are asked for at most in one read: a buffer of so many stands on the stack.
pub const PIECE: usize = 4_096;

/// How deep the first pass of normal forms goes into a term, so that the stack holds it.
pub const DEPTH: u64 = 1_000;
