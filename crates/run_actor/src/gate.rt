//! What stands before each event of a worker.

/// Is passed before each event of a worker; a test's gate may hold its caller for a while.
pub trait Gate {
    /// Lets the actor of that number go on with its call of that number. It always returns.
    fn pass(&self, actor: usize, call: usize);
}

/// A gate that holds nobody.
#[derive(Clone, Copy, Debug)]
pub struct FreeGate;

impl Gate for FreeGate {
    fn pass(&self, _actor: usize, _call: usize) {}
}
