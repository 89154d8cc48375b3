// What answering a message comes to.

/// What answering a message comes to.
#[derive(Clone, Copy, Debug, PartialEq, Eq)]
pub enum Answer {
    /// The frames of its answer were sent.
    Sent,
    /// It closed the visit, which has no answer.
    Closed,
}
