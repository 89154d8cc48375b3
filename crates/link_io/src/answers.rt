// What the calls of links, doors and porches answer.

/// What a link gave.
#[derive(Debug, Drop)]
pub enum Received {
    /// The next message, a text.
    Text(Vec<u8>),
    /// The next message, which is no text.
    Other,
    /// No message is left.
    End,
    /// The link failed.
    Failed,
    /// Memory was wanting.
    Memory,
}

/// What became of a text that was to be sent.
#[derive(Clone, Copy, Debug, PartialEq, Eq)]
pub enum Sent {
    /// It was sent, or waits to be.
    Done,
    /// The link failed.
    Failed,
    /// Memory was wanting.
    Memory,
}

/// What a door gave.
#[derive(Debug, Drop)]
pub enum Accepted<V> {
    /// The next visitor's link.
    Visitor(V),
    /// No visitor is left to come.
    NoMore,
    /// The door failed.
    Failed,
    /// Memory was wanting.
    Memory,
}

/// Why a porch gave no doors.
#[derive(Clone, Copy, Debug, PartialEq, Eq)]
pub enum PorchFault {
    /// The porch failed.
    Failed,
    /// Memory was wanting.
    Memory,
}
