// The porch of the machine.
ghost use Rattle.std.specs.Prelude.{◌≡◌, ◌≤◌, None, All};
ghost use Rattle.link_io.specs.Outside.{Rose};

use crate::answers::PorchFault;
use crate::porch::Porch;
use crate::tcp_door::TcpDoor;
use std::alloc::Global;
use std::net::{Ipv4Addr, Net, TcpListener, TcpStream};

/// The porch of the machine. Its doors share one listening socket on the loopback address 127.0.0.1, so visitors come from the machine
/// itself alone, and each through the door that is free first.
#[derive(Drop)]
pub struct TcpPorch<N> {
    alloc: Global,
    net: N,
    faults: u64,
}

impl<N: Net<Listener = TcpListener, Stream = TcpStream>> TcpPorch<N> {
    /// A porch on this network. No call has failed.
    pub fn new(alloc: Global, net: N) -> Self
        ensures { result.faults ≡ 0 }
    {
        TcpPorch {
            alloc,
            net,
            faults: 0,
        }
    }

    /// How often a call failed, or took back doors of which one had failed. It stands still at 2^64 - 1.
    pub fn faults(&self) -> u64
        ensures { result ≡ self.now.faults }
    {
        self.faults
    }
}

impl<N: Net<Listener = TcpListener, Stream = TcpStream>> Porch for TcpPorch<N> {
    type Way = TcpDoor;

    ghost told = { λ porch. None };

    ghost faults = { λ porch. porch.faults };

    fn doors(&mut self, port: u16, n: u32) -> Result<Vec<TcpDoor>, PorchFault> {
        let mut doors = Vec::new(self.alloc);
        if n == 0 {
            return Ok(doors);
        }
        if doors.reserve(n as usize).is_err() {
            return Err(PorchFault::Memory);
        }
        let Ok(first) = TcpListener::bind(&self.net, (Ipv4Addr::LOCALHOST, port)) else {
            self.faults = self.faults.saturating_add(1);
            return Err(PorchFault::Failed);
        };
        for _ in 1..n {
            let Ok(listener) = first.try_clone() else {
                self.faults = self.faults.saturating_add(1);
                return Err(PorchFault::Failed);
            };
            doors.push_reserved(TcpDoor::new(self.alloc, listener));
        }
        doors.push_reserved(TcpDoor::new(self.alloc, first));
        Ok(doors)
    }

    fn back(&mut self, doors: Vec<TcpDoor>)
        ensures quiet { All (λ d. d.faults ≡ 0) doors.items → self.new.faults ≡ self.old.faults }
        ensures rose { (All (λ d. d.faults ≡ 0) doors.items → ⊥) → Rose self.old.faults self.new.faults }
        ensures later { self.old.faults ≤ self.new.faults }
    {
        if doors.iter().any(|door| door.faults() > 0) {
            self.faults = self.faults.saturating_add(1);
        }
    }
}
