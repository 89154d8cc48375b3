// Gates, which stand before and behind each visitor.

/// A gate. A worker enters it before it serves a visitor and leaves it afterwards; a gate may make it wait there. Worker and turn are
/// numbered from 0.
pub trait Gate: Sync {
    /// Before the visitor of this turn is served.
    fn enter(&self, worker: u32, turn: u32);

    /// Once the visitor of this turn was served.
    fn leave(&self, worker: u32, turn: u32);
}

/// A gate at which nobody waits.
#[derive(Clone, Copy, Debug)]
pub struct NoGate;

impl Gate for NoGate {
    fn enter(&self, _worker: u32, _turn: u32) {}

    fn leave(&self, _worker: u32, _turn: u32) {}
}
