// Files that are read.
ghost use Rattle.std.specs.Prelude.{◌≡◌, ℕ, ◌≤◌, List, length, Option, Some, IfSome, IfOk, OnErr};
ghost use Rattle.link_io.specs.Outside.{Rose, ReadsAt};

/// A call of the outside failed.
#[derive(Clone, Copy, Debug, PartialEq, Eq)]
pub struct Failed;

/// Files by their names.
pub trait Files {
    /// What a name stands for, where that is told: no file, or one with some bytes.
    ghost holds: { Self → List ℕ → Option (Option (List ℕ)) };

    /// How often a call failed. It stands still at 2^64 - 1.
    ghost faults: { Self → ℕ };

    /// Puts the bytes of the file that stand at `from` and behind it into `buf`, from its front on; the answer is their number.
    /// Where bytes are told and `buf` has room, that is 0 exactly at the file's end. It is a fault to ask for a name without a file.
    fn read_at(&mut self, name: &str, from: u64, buf: &mut [u8]) -> Result<usize, Failed>
        ensures within { IfOk result (λ n. n ≤ length buf.old) }
        ensures read { IfSome (holds self.old name.now) (λ told. IfOk result (λ n.
            (bytes : List ℕ) × (told ≡ Some bytes) × ReadsAt bytes from buf.old buf.new n)) }
        ensures same { (other : List ℕ) → holds self.new other ≡ holds self.old other }
        ensures later { faults self.old ≤ faults self.new }
        ensures failed { OnErr result (Rose (faults self.old) (faults self.new)) };
}
