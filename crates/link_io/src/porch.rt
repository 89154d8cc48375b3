// Porches, which give doors.
ghost use Rattle.std.specs.Prelude.{◌≡◌, ◌≤◌, ℕ, false, All, map, length, Option, IfOk, OnErr};
ghost use Rattle.link_io.specs.Doors.{IsUnvisited};
ghost use Rattle.link_io.specs.Outside.{Rose};
ghost use Rattle.link_io.specs.Porches.{Stock, Stays, Gives, TakesBack, seen};

use crate::answers::PorchFault;
use crate::door::Door;

/// A porch. It gives doors before they are used, and takes them back afterwards.
pub trait Porch {
    /// A door of the porch.
    type Way: Door + Send;

    /// The doors that are still to be given, those that were given back last, and the port of those that were given last, where they are told.
    ghost told: { Self → Option Stock };

    /// How often a call failed, or took back doors of which one had failed. It stands still at 2^64 - 1.
    ghost faults: { Self → ℕ };

    /// Gives `n` doors, through which visitors come who call at this port. No call of them has failed, nobody is out, and where it is
    /// told, nobody was parted. Where the doors of the porch are told, these are the first of those that it still had to give; at an
    /// error it gives none.
    fn doors(&mut self, port: u16, n: u32) -> Result<Vec<Self::Way>, PorchFault>
        ensures count { IfOk result (λ v. length v.items ≡ n) }
        ensures new { IfOk result (λ v. All
            (λ d. (Self.Way.faults d ≡ 0) × (Self.Way.out d ≡ false) × IsUnvisited (Self.Way.queue d)) v.items) }
        ensures given { IfOk result (λ v. Gives (told self.old) (told self.new) port
            (map (λ d. seen (Self.Way.queue d) (Self.Way.faults d)) v.items)) }
        ensures kept { OnErr result (Stays (told self.old) (told self.new)) }
        ensures later { faults self.old ≤ faults self.new }
        ensures failed { result ≡ Err PorchFault.Failed → Rose (faults self.old) (faults self.new) };

    /// Takes doors back. It takes no memory and can't fail. Where one of the doors has failed, that counts as one failure of the porch, and
    /// where none has, as none. Where the doors of the porch are told, these are returned now, and those that were before are forgotten.
    fn back(&mut self, doors: Vec<Self::Way>)
        ensures taken { TakesBack (told self.old) (told self.new)
            (map (λ d. seen (Self.Way.queue d) (Self.Way.faults d)) doors.items) }
        ensures quiet { All (λ d. Self.Way.faults d ≡ 0) doors.items → faults self.new ≡ faults self.old }
        ensures rose { (All (λ d. Self.Way.faults d ≡ 0) doors.items → ⊥) → Rose (faults self.old) (faults self.new) }
        ensures later { faults self.old ≤ faults self.new };
}
