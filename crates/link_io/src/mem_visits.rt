// Doors in memory: what their calls do.
ghost use Rattle.std.specs.Prelude.{◌≡◌, [], All, Some, IfOk};
ghost use Rattle.link_io.specs.MemDoors.{IsNewDoor, row_of};
ghost use Rattle.link_io.specs.MemLinks.{IsFresh};

use crate::answers::Accepted;
use crate::door::Door;
use crate::mem_door::MemDoor;
use crate::mem_link::MemLink;
use std::alloc::{AllocError, Global};

impl MemDoor {
    /// A door to which these visitors come, and of which no call fails. Memory may be wanting for the list of those who will be
    /// parted.
    pub fn new(alloc: Global, waiting: Vec<MemLink>) -> Result<MemDoor, AllocError>
        requires { All IsFresh waiting.items }
        ensures new { IfOk result (λ door. IsNewDoor door) }
        ensures waiting { IfOk result (λ door. door.waiting ≡ waiting) }
        ensures sound { IfOk result (λ door. door.failing.items ≡ []) }
    {
        let mut parted = Vec::new(alloc);
        parted.reserve(waiting.len())?;
        Ok(MemDoor {
            failing: Vec::new(alloc),
            calls: 0,
            faults: 0,
            waiting,
            parted,
            has_visitor: false,
        })
    }

    /// The visitors who are still to come, the next one first.
    pub fn waiting(&self) -> &[MemLink]
        ensures { result.now ≡ self.now.waiting.items }
    {
        self.waiting.as_slice()
    }

    /// The visitors who were parted, the last one at the end.
    pub fn parted(&self) -> &[MemLink]
        ensures { result.now ≡ self.now.parted.items }
    {
        self.parted.as_slice()
    }
}

impl Door for MemDoor {
    type Visitor = MemLink;

    ghost queue = { λ door. Some (row_of door) };

    ghost out = { λ door. door.has_visitor };

    ghost faults = { λ door. door.faults };

    fn accept(&mut self) -> Accepted<MemLink> {
        self.calls = self.calls.saturating_add(1);
        if self.failing.contains(&self.calls) {
            self.faults = self.faults.saturating_add(1);
            return Accepted::Failed;
        }
        if self.waiting.is_empty() {
            return Accepted::NoMore;
        }
        let link = self.waiting.remove(0);
        self.has_visitor = true;
        Accepted::Visitor(link)
    }

    fn part(&mut self, link: MemLink) {
        self.parted.push_reserved(link);
        self.has_visitor = false;
    }
}
