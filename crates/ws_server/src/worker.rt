// Workers.
use crate::report::Report;

/// A worker: the door whose visitors it serves, its number, and what came of it.
#[derive(Drop)]
pub struct Worker<D> {
    pub door: D,
    pub number: u32,
    pub report: Report,
}
