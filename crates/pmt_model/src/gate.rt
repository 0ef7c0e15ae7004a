//! Gates, by which a test holds threads in an order.

/// What each recorder enters before its first append and after each append that succeeds: tests hold threads there.
pub trait Gate {
    /// Called by the recorder with this number, from 0.
    fn enter(&self, worker: usize);
}

/// A gate that holds nobody.
#[derive(Clone, Copy, Debug)]
pub struct NoGate;

impl Gate for NoGate {
    fn enter(&self, _worker: usize) {}
}
