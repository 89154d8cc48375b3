// Doors, through which visitors come.
ghost use Rattle.std.specs.Prelude.{◌≡◌, ◌≤◌, ℕ, Bool, true, false, Option};
ghost use Rattle.link_io.specs.Doors.{Row, IsUnused, Lets, IsEmpty, Rests, Parts};
ghost use Rattle.link_io.specs.Outside.{Rose};

use crate::answers::Accepted;
use crate::link::Link;

/// A door, through which one visitor comes after the other.
pub trait Door: Drop {
    /// The link of a visitor. It can go to another thread, as doors do.
    type Visitor: Link + Send;

    /// The visitors who are still to come and those who were parted, where they are told.
    ghost queue: { Self → Option Row };

    /// Whether a visitor is out, who was given and is not parted yet.
    ghost out: { Self → Bool };

    /// How often a call failed. It stands still at 2^64 - 1.
    ghost faults: { Self → ℕ };

    /// The next visitor, from whom nothing was taken and to whom nothing was sent. Where the visitors are told, it is the first of
    /// those who wait, and `NoMore` comes exactly where nobody waits, unless the door fails or memory is wanting; `NoMore`, `Failed`
    /// and `Memory` change nothing. A visitor who can't be taken in is a failure of the door.
    fn accept(&mut self) -> Accepted<Self::Visitor>
        requires { out self.old ≡ false }
        ensures visitor { (v : Self.Visitor) → result ≡ Accepted.Visitor v → (out self.new ≡ true)
            × (Self.Visitor.faults v ≡ 0) × Lets (queue self.old) (queue self.new) (Self.Visitor.told v) }
        ensures unused { (v : Self.Visitor) → result ≡ Accepted.Visitor v → IsUnused (Self.Visitor.told v) }
        ensures no_more { result ≡ Accepted.NoMore
            → (out self.new ≡ false) × IsEmpty (queue self.old) (queue self.new) }
        ensures failed { result ≡ Accepted.Failed → (out self.new ≡ false)
            × Rose (faults self.old) (faults self.new) × Rests (queue self.old) (queue self.new) }
        ensures memory { result ≡ Accepted.Memory
            → (out self.new ≡ false) × Rests (queue self.old) (queue self.new) }
        ensures quiet { (result ≡ Accepted.Failed → ⊥) → faults self.new ≡ faults self.old }
        ensures later { faults self.old ≤ faults self.new };

    /// Parts from the visitor who is out. It takes no memory and can't fail. Where visitors are told, this one is then the last of
    /// those who were parted.
    fn part(&mut self, link: Self::Visitor)
        requires { out self.old ≡ true }
        ensures out { out self.new ≡ false }
        ensures parted { Parts (queue self.old) (queue self.new) (Self.Visitor.told link) (Self.Visitor.faults link) }
        ensures same { faults self.new ≡ faults self.old };
}
