// What a kernel answers.
use frames::Frame;

/// What a delivery came to.
#[derive(Clone, Copy, Debug, PartialEq, Eq)]
pub enum Delivered {
    /// The message is taken; the frames of its answer are to come.
    Taken,
    /// The message closes the visit, or an earlier one did; no answer is given.
    Closed,
    /// Frames of an earlier answer are still to come, so many; nothing was changed.
    Busy { pending: u32 },
}

/// What a step gave.
#[derive(Debug, Drop)]
pub enum Stepped {
    /// The next frame of the answer.
    Frame(Frame),
    /// No frame is to come.
    Idle,
}
