// A place that is written to.
ghost use Rattle.std.specs.Prelude.{ℕ, ◌<◌, ◌≤◌, List, [], length, take, Option, IfOk, OnErr};
ghost use Rattle.link_io.specs.Outside.{Rose, Took};

use crate::files::Failed;

/// A place that takes bytes, one piece after the other.
pub trait Sink {
    /// All that it took, where that is told.
    ghost taken: { Self → Option (List ℕ) };

    /// How often a call failed. It stands still at 2^64 - 1.
    ghost faults: { Self → ℕ };

    /// Takes bytes from the front of the piece, and answers how many. Where the piece has bytes and none is taken, the sink has
    /// counted a fault and answers `Failed`; at that answer nothing was taken.
    fn write(&mut self, piece: &[u8]) -> Result<usize, Failed>
        ensures within { IfOk result (λ n. n ≤ length piece.now) }
        ensures some { IfOk result (λ n. 0 < length piece.now → 0 < n) }
        ensures taken { IfOk result
            (λ n. Took (taken self.old) (taken self.new) (take n piece.now)) }
        ensures kept { OnErr result (Took (taken self.old) (taken self.new) []) }
        ensures later { faults self.old ≤ faults self.new }
        ensures failed { OnErr result (Rose (faults self.old) (faults self.new)) };
}
