//! Gates, through which pieces of work go.

/// Is told of each piece of work before it begins.
pub trait Gate: Sync {
    /// The piece of this number begins, in the thread that does it.
    fn enter(&self, piece: u32);
}

/// Lets each piece go on at once.
#[derive(Clone, Copy)]
pub struct OpenGate;

impl Gate for OpenGate {
    fn enter(&self, _piece: u32) {}
}
