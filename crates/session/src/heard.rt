// What is heard of a visitor.

/// What a link gave to a session.
#[derive(Debug, Drop)]
pub enum Heard {
    /// A message, by the bytes that a kernel is given for it.
    Message(Vec<u8>),
    /// No message is left.
    End,
    /// The link failed.
    Failed,
    /// Memory was wanting.
    Memory,
}
