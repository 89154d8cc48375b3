// Why bytes give no message.
ghost use Rattle.std.specs.Prelude.{◌≡◌};

use py_value::Memory;

/// Why bytes give no message.
#[derive(Clone, Copy, Debug, PartialEq, Eq)]
pub enum MessageFault {
    /// They are no message.
    NotMessage,
    /// Memory was wanting.
    Memory,
}

impl From<Memory> for MessageFault {
    ghost use Rattle.message_json.specs.declared.fault.MessageFault.TheVariants as fault;

    ghost from_gives = { λ _ f. f ≡ fault.Memory };

    fn from(_: Memory) -> Self {
        MessageFault::Memory
    }
}
