// What is left of a budget of steps, and why a run stops.
ghost use Rattle.std.specs.Prelude.{◌≡◌, ◌+◌, ◌≤◌, [], OnOk};
ghost use Rattle.run_meaning.specs.Spending.{pay};
ghost use Rattle.py_eval.specs.Meets.{Meets, halt_of, unit};

use py_value::{ErrorKind, Memory, OpFault};
use std::alloc::{AllocError, AllocFailed};

/// Why a run stops before its end.
#[derive(Clone, Copy, Debug, PartialEq, Eq)]
pub enum Halt {
    Memory,
    Fault { kind: ErrorKind, line: u32 },
    Spent { line: u32 },
}

impl From<AllocError> for Halt {
    ghost use Rattle.py_eval.specs.declared.meter.Halt.TheVariants as halt;
    ghost use Rattle.std.specs.Prelude.{◌≡◌};

    ghost from_gives = { λ _ e. e ≡ halt.Memory };

    fn from(_: AllocError) -> Self {
        Halt::Memory
    }
}

impl<T: Drop> From<AllocFailed<T>> for Halt {
    ghost use Rattle.py_eval.specs.declared.meter.Halt.TheVariants as halt;
    ghost use Rattle.std.specs.Prelude.{◌≡◌};

    ghost from_gives = { λ _ e. e ≡ halt.Memory };

    fn from(_: AllocFailed<T>) -> Self {
        Halt::Memory
    }
}

impl From<Memory> for Halt {
    ghost use Rattle.py_eval.specs.declared.meter.Halt.TheVariants as halt;
    ghost use Rattle.std.specs.Prelude.{◌≡◌};

    ghost from_gives = { λ _ e. e ≡ halt.Memory };

    fn from(_: Memory) -> Self {
        Halt::Memory
    }
}

/// Why a run stops at a form that isn't part of the language.
pub fn unknown_form(line: u32) -> Halt
    ensures { result ≡ Halt.Fault ErrorKind.Subset line }
{
    Halt::Fault {
        kind: ErrorKind::Subset,
        line,
    }
}

/// Why a run stops at a fault of an operation.
pub fn halt_at(fault: OpFault, line: u32) -> Halt
    ensures { result ≡ halt_of fault line }
{
    let kind = match fault {
        OpFault::WrongType => ErrorKind::TypeError,
        OpFault::Value => ErrorKind::ValueError,
        OpFault::Index => ErrorKind::IndexError,
        OpFault::Key => ErrorKind::KeyError,
        OpFault::Attribute => ErrorKind::AttributeError,
        OpFault::Zero => ErrorKind::ZeroDivisionError,
        OpFault::IntRange => ErrorKind::IntRange,
        OpFault::Subset => ErrorKind::Subset,
        OpFault::Memory => return Halt::Memory,
    };
    Halt::Fault { kind, line }
}

/// Charges an amount to a line, where so much is left.
#[tactic(auto, unfolding(run_meaning::specs::Spending::pay))]
pub fn charge(left: &mut u64, amount: u64, line: u32) -> Result<(), Halt>
    ensures meets { Meets unit result left.new (pay amount line left.old []) }
    ensures used { left.new ≤ left.old }
    ensures paid { OnOk result (left.new + amount ≡ left.old) }
{
    if *left < amount {
        return Err(Halt::Spent { line });
    }
    *left -= amount;
    Ok(())
}
