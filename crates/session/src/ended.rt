// How sessions end.

/// How a session ended.
#[derive(Clone, Copy, Debug, PartialEq, Eq)]
pub enum Ended {
    /// The link was read to its end, or a message closed the visit; all frames were sent.
    Closed,
    /// The link failed.
    LinkFault,
    /// As many messages were answered as one call answers, and no more was read.
    TooMany,
    /// Memory was wanting.
    Memory,
}
