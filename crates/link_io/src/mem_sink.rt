// A sink in memory.
ghost use Rattle.std.specs.Prelude.{Some};

use crate::files::Failed;
use crate::sink::Sink;

/// A sink in memory. It takes as many bytes as it has room for, and then fails. Want of memory for what it took is a fault of
/// it, too.
#[derive(Debug, Drop)]
pub struct MemSink {
    pub bytes: Vec<u8>,
    pub room: usize,
    pub faults: u64,
}

impl Sink for MemSink {
    ghost taken = { λ s. Some s.bytes.items };

    ghost faults = { λ s. s.faults };

    fn write(&mut self, piece: &[u8]) -> Result<usize, Failed> {
        let count = piece.len().min(self.room);
        if count == 0 && !piece.is_empty() {
            self.faults = self.faults.saturating_add(1);
            return Err(Failed);
        }
        match self.bytes.extend_from_slice(&piece[..count]) {
            Ok(()) => {
                self.room -= count;
                Ok(count)
            }
            Err(_) => {
                self.faults = self.faults.saturating_add(1);
                Err(Failed)
            }
        }
    }
}
