//! What came of reading some tokens.
use fvn_module_syntax::Feature;

/// What was read of some tokens: they are of a form, or a left-out form stands in them, or they are of none.
#[derive(Drop)]
pub enum Reading<T> {
    Read(T),
    LeftOut(Feature),
    NoForm,
}
