// Why frames aren't sent to their end.

use py_value::Memory;

/// Why frames aren't sent to their end.
#[derive(Clone, Copy, Debug, PartialEq, Eq)]
pub enum Unsent {
    /// The link failed.
    Failed,
    /// Memory was wanting.
    Memory,
}

impl From<Memory> for Unsent {
    ghost use Rattle.std.specs.Prelude.{◌≡◌};
    ghost use Rattle.session.specs.declared.unsent.Unsent.TheVariants as unsent;

    ghost from_gives = { λ why f. f ≡ unsent.Memory };

    fn from(_: Memory) -> Unsent {
        Unsent::Memory
    }
}
