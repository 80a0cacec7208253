//! What is told of the numbers that workers draw.

/// Is passed by a worker each time that it has drawn a number, before it looks at the item.
pub trait Gate {
    /// The worker, counted from 0, and the number that it drew. It may hold the worker for a while.
    fn pass(&self, worker: u32, number: u64);
}

/// A gate that holds nobody.
#[derive(Clone, Copy, Drop)]
pub struct NoGate;

impl Gate for NoGate {
    fn pass(&self, _worker: u32, _number: u64) {}
}
