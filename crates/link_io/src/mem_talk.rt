// Links in memory: what their calls do.
ghost use Rattle.std.specs.Prelude.{◌≡◌, [], Some};
ghost use Rattle.link_io.specs.MemLinks.{IsFresh, told_of};

use crate::answers::{Received, Sent};
use crate::link::Link;
use crate::mem_link::MemLink;
use std::alloc::Global;

impl MemLink {
    /// The link of a visitor who sends these messages. No call is listed as failing.
    pub fn new(alloc: Global, messages: Vec<Option<Vec<u8>>>) -> MemLink
        ensures fresh { IsFresh result }
        ensures messages { result.messages ≡ messages }
        ensures sound { (result.failing_recvs.items ≡ []) × (result.failing_sends.items ≡ []) }
    {
        MemLink {
            alloc,
            messages,
            taken: 0,
            sent: Vec::new(alloc),
            failing_recvs: Vec::new(alloc),
            failing_sends: Vec::new(alloc),
            recvs: 0,
            sends: 0,
            faults: 0,
        }
    }
}

impl Link for MemLink {
    ghost told = { λ link. Some (told_of link) };

    ghost faults = { λ link. link.faults };

    fn recv(&mut self) -> Received {
        self.recvs = self.recvs.saturating_add(1);
        if self.failing_recvs.contains(&self.recvs) {
            self.faults = self.faults.saturating_add(1);
            return Received::Failed;
        }
        let messages = self.messages.as_slice();
        if self.taken >= messages.len() {
            return Received::End;
        }
        match &messages[self.taken] {
            None => {
                self.taken += 1;
                Received::Other
            }
            Some(bytes) => match Vec::from_slice(self.alloc, bytes.as_slice()) {
                Ok(copy) => {
                    self.taken += 1;
                    Received::Text(copy)
                }
                Err(_) => Received::Memory,
            },
        }
    }

    fn send(&mut self, text: &[u8]) -> Sent {
        self.sends = self.sends.saturating_add(1);
        if self.failing_sends.contains(&self.sends) {
            self.faults = self.faults.saturating_add(1);
            return Sent::Failed;
        }
        let Ok(copy) = Vec::from_slice(self.alloc, text) else {
            return Sent::Memory;
        };
        match self.sent.push(copy) {
            Ok(()) => Sent::Done,
            Err(_) => Sent::Memory,
        }
    }
}
