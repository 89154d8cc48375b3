// The standard output.
ghost use Rattle.std.specs.Prelude.{◌≡◌, ◌<◌, ◌≤◌, None, length, IfOk};

use crate::files::Failed;
use crate::sink::Sink;
use std::io::{ErrorKind, Print};

/// The standard output, with no buffer of our own before it.
#[derive(Drop)]
pub struct RealOut<R> {
    runtime: R,
    faults: u64,
}

impl<R: Print> RealOut<R> {
    /// The standard output of a program.
    pub fn new(runtime: R) -> Self
        ensures { result.faults ≡ 0 }
    {
        RealOut { runtime, faults: 0 }
    }

    // Writes once, and again where a signal came between. An output that takes nothing of a piece can't be written to.
    fn write_some(&self, piece: &[u8]) -> Result<usize, Failed>
        ensures within { IfOk result (λ n. n ≤ length piece.now) }
        ensures some { IfOk result (λ n. 0 < length piece.now → 0 < n) }
    {
        for _ in 0..u64::MAX {
            match self.runtime.write_some(piece) {
                Ok(count) if count > 0 || piece.is_empty() => return Ok(count),
                Ok(_) => return Err(Failed),
                Err(why) => {
                    if why.kind() != ErrorKind::Interrupted {
                        return Err(Failed);
                    }
                }
            }
        }
        Err(Failed)
    }
}

impl<R: Print> Sink for RealOut<R> {
    ghost taken = { λ out. None };

    ghost faults = { λ out. out.faults };

    fn write(&mut self, piece: &[u8]) -> Result<usize, Failed> {
        match self.write_some(piece) {
            Ok(count) => Ok(count),
            Err(_) => {
                self.faults = self.faults.saturating_add(1);
                Err(Failed)
            }
        }
    }
}
