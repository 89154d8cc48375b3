// Porches in memory.
ghost use Rattle.std.specs.Prelude.{◌≡◌, ◌≤◌, [], All, map, Some};
ghost use Rattle.link_io.specs.MemDoors.{IsNewDoor, seen_of};
ghost use Rattle.link_io.specs.Outside.{Rose};

use crate::answers::PorchFault;
use crate::mem_door::MemDoor;
use crate::porch::Porch;
use std::alloc::Global;
use std::mem;

/// A porch in memory. It fails where it is asked for more doors than it still has to give, whatever the port is, and keeps the port.
#[derive(Debug, Drop)]
pub struct MemPorch {
    /// How often a call failed, or took back doors of which one had failed.
    pub faults: u64,
    ahead: Vec<MemDoor>,
    returned: Vec<MemDoor>,
    port: Option<u16>,
    // nobody came yet through the doors that are to be given
    ghost unvisited: { All IsNewDoor ahead.items },
}

impl MemPorch {
    /// A porch that has these doors to give.
    pub fn new(alloc: Global, ahead: Vec<MemDoor>) -> MemPorch
        requires { All IsNewDoor ahead.items }
        ensures ahead { result.ahead ≡ ahead }
        ensures returned { result.returned.items ≡ [] }
        ensures faults { result.faults ≡ 0 }
    {
        MemPorch {
            faults: 0,
            ahead,
            returned: Vec::new(alloc),
            port: None,
        }
    }

    /// The doors that are still to be given, in their order.
    pub fn ahead(&self) -> &[MemDoor]
        ensures { result.now ≡ self.now.ahead.items }
    {
        self.ahead.as_slice()
    }

    /// The port for which doors were given last.
    pub fn port(&self) -> Option<u16>
        ensures { result ≡ self.now.port }
    {
        self.port
    }

    /// The doors that were given back last, in the order in which they were given back.
    pub fn returned(&self) -> &[MemDoor]
        ensures { result.now ≡ self.now.returned.items }
    {
        self.returned.as_slice()
    }
}

impl Porch for MemPorch {
    type Way = MemDoor;

    ghost told = { λ porch. Some (record { ahead = map seen_of porch.ahead.items; returned = map seen_of porch.returned.items; port = porch.port }) };

    ghost faults = { λ porch. porch.faults };

    fn doors(&mut self, port: u16, n: u32) -> Result<Vec<MemDoor>, PorchFault> {
        let count = n as usize;
        if self.ahead.len() < count {
            self.faults = self.faults.saturating_add(1);
            return Err(PorchFault::Failed);
        }
        match self.ahead.split_off(count) {
            Ok(rest) => {
                self.port = Some(port);
                Ok(mem::replace(&mut self.ahead, rest))
            }
            Err(_) => Err(PorchFault::Memory),
        }
    }

    fn back(&mut self, doors: Vec<MemDoor>)
        ensures ahead { self.new.ahead ≡ self.old.ahead }
        ensures returned { self.new.returned ≡ doors }
        ensures port { self.new.port ≡ self.old.port }
        ensures quiet { All (λ d. d.faults ≡ 0) doors.items → self.new.faults ≡ self.old.faults }
        ensures rose { (All (λ d. d.faults ≡ 0) doors.items → ⊥) → Rose self.old.faults self.new.faults }
        ensures later { self.old.faults ≤ self.new.faults }
    {
        if doors.iter().any(|door| door.faults > 0) {
            self.faults = self.faults.saturating_add(1);
        }
        self.returned = doors;
    }
}
