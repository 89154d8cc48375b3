// Links to visitors.
ghost use Rattle.std.specs.Prelude.{◌≡◌, ◌≤◌, ℕ, Option};
ghost use Rattle.link_io.specs.Links.{Told, Receives, Sends};
ghost use Rattle.link_io.specs.Outside.{Rose};

use crate::answers::{Received, Sent};

/// A link to a visitor: the visitor's messages come over it, and texts are sent to the visitor.
pub trait Link: Drop {
    /// The messages that were taken and those that are left, and the texts that were sent, where they are told.
    ghost told: { Self → Option Told };

    /// How often a call failed. It stands still at 2^64 - 1.
    ghost faults: { Self → ℕ };

    /// Takes the next message. Where messages are told, it is `End` exactly where none is left, unless the link fails or memory is
    /// wanting; `End`, `Failed` and `Memory` take none. No call changes the texts that were sent.
    fn recv(&mut self) -> Received
        ensures took { Receives (told self.old) (told self.new) result }
        ensures later { faults self.old ≤ faults self.new }
        ensures failed { result ≡ Received.Failed → Rose (faults self.old) (faults self.new) };

    /// Sends a text. It may wait until the next message is asked for, so that the texts of an answer go out together. Where texts are told, it
    /// is appended at `Done`; `Failed` and `Memory` send nothing of it. No call takes a message.
    fn send(&mut self, text: &[u8]) -> Sent
        ensures sent { Sends (told self.old) (told self.new) text.now result }
        ensures later { faults self.old ≤ faults self.new }
        ensures failed { result ≡ Sent.Failed → Rose (faults self.old) (faults self.new) };
}
