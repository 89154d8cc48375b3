// Why an operation on values is refused.
use crate::memory::Memory;
use std::alloc::AllocError;

/// Why an operation on values is refused: the exception that Python raises (Python library reference, "Built-in Exceptions"),
/// a limit of this language, or want of memory.
#[derive(Clone, Copy, Debug, PartialEq, Eq)]
pub enum OpFault {
    /// `TypeError`
    WrongType,
    /// `ValueError`
    Value,
    /// `IndexError`
    Index,
    /// `KeyError`
    Key,
    /// `AttributeError`
    Attribute,
    /// `ZeroDivisionError`
    Zero,
    /// A whole number past the range.
    IntRange,
    /// An operation that Python has, and this language hasn't.
    Subset,
    /// Memory was wanting. No clause says when this comes.
    Memory,
}

impl From<AllocError> for OpFault {
    ghost use Rattle.py_value.specs.declared.op_fault.OpFault.TheVariants as fault;
    ghost use Rattle.std.specs.Prelude.{◌≡◌};

    ghost from_gives = { λ _ e. e ≡ fault.Memory };

    fn from(_: AllocError) -> Self {
        OpFault::Memory
    }
}

impl From<Memory> for OpFault {
    ghost use Rattle.py_value.specs.declared.op_fault.OpFault.TheVariants as fault;
    ghost use Rattle.std.specs.Prelude.{◌≡◌};

    ghost from_gives = { λ _ e. e ≡ fault.Memory };

    fn from(_: Memory) -> Self {
        OpFault::Memory
    }
}
