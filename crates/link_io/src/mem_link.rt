// Links in memory: their data.
use std::alloc::Global;

/// A link in memory. A call of `recv` fails where its number among these calls, the first being 1, is in `failing_recvs`, whether or not
/// there is a message; and so does a call of `send` by `failing_sends`.
#[derive(Debug, Drop)]
pub struct MemLink {
    pub alloc: Global,
    /// All messages of the visitor: each a text, or none where it is no text.
    pub messages: Vec<Option<Vec<u8>>>,
    /// How many of the messages were taken.
    pub taken: usize,
    /// The texts that were sent.
    pub sent: Vec<Vec<u8>>,
    /// The numbers of the calls of `recv` that fail.
    pub failing_recvs: Vec<u64>,
    /// The numbers of the calls of `send` that fail.
    pub failing_sends: Vec<u64>,
    /// How often `recv` was called.
    pub recvs: u64,
    /// How often `send` was called.
    pub sends: u64,
    /// How often a call failed.
    pub faults: u64,
}
