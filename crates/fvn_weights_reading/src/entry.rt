//! What is written of one operator.
use fvn_syntax::{Row, Text};

/// What is written of one operator: its name, and its numbers.
#[derive(Drop)]
pub struct Entry<'a> {
    pub name: Text<'a>,
    pub numbers: Row<'a>,
}
