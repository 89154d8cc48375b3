// Why a command isn't carried out, and what is written then.
ghost use Rattle.std.specs.Prelude.{◌≡◌, ◌≤◌};
ghost use Rattle.link_io.specs.Outside.{Rose};
ghost use Rattle.nbserve.specs.Refusal.{refusal_of};
ghost use Rattle.nbserve.specs.CommandFault.{status_of, stop_line};
ghost use Rattle.nbserve.specs.Output.{Ended};
ghost use Rattle.program_meaning.specs.Program as program;
ghost use Rattle.program_meaning.specs.Scripts as scripts;

use crate::refusal::{Refusal, refusal_text};
use link_io::{Sink, write_all};
use script_run::ScriptFault;
use std::alloc::Global;

// The program's statuses.
/// All was written.
pub const DONE: u8 = 0;

const REFUSED: u8 = 1;

const USAGE: u8 = 2;

const READ_FAULT: u8 = 3;

/// A write failed.
pub const WRITE_FAULT: u8 = 4;

/// Memory was wanting.
pub const WANT_OF_MEMORY: u8 = 5;

const NO_SCRIPT: u8 = 6;

/// A door failed.
pub const DOOR_FAULT: u8 = 7;

/// Why a command isn't carried out.
#[derive(Debug, Drop)]
pub enum CommandFault {
    /// The words are no form.
    Usage,
    /// A file couldn't be read.
    Unread,
    /// The notebook is refused.
    Refused(Refusal),
    /// The script has a line that can't stand where it stands, as `ScriptFault` tells.
    NoScript { line: u32 },
    /// Memory was wanting.
    Memory,
}

impl From<ScriptFault> for CommandFault {
    ghost use Rattle.std.specs.Prelude.{◌≡◌};
    ghost use Rattle.nbserve.specs.CommandFault.{of_script};

    ghost from_gives = { λ fault why. why ≡ of_script fault };

    fn from(fault: ScriptFault) -> CommandFault {
        match fault {
            ScriptFault::Line { line } => CommandFault::NoScript { line },
            ScriptFault::Memory => CommandFault::Memory,
        }
    }
}

/// Writes the text of a status, and answers the status; or 4 where a write failed, or 5 where memory was wanting and nothing was written.
pub fn end_with<O: Sink>(out: &mut O, text: &[u8], status: u8) -> u8
    ensures ended { Ended status text.now result (O.taken out.old) (O.taken out.new)
        (Rose (O.faults out.old) (O.faults out.new)) }
    ensures writes_later { O.faults out.old ≤ O.faults out.new }
{
    match write_all(out, text) {
        Ok(()) => status,
        Err(_) => WRITE_FAULT,
    }
}

// Writes why a notebook is refused.
fn refuse<O: Sink>(alloc: Global, why: &Refusal, out: &mut O) -> u8
    ensures ended { Ended 1 (program.refusal_text (refusal_of why.now)) result (O.taken out.old)
        (O.taken out.new)
        (Rose (O.faults out.old) (O.faults out.new)) }
    ensures writes_later { O.faults out.old ≤ O.faults out.new }
{
    match refusal_text(alloc, why) {
        Ok(text) => end_with(out, text.as_bytes(), REFUSED),
        Err(_) => WANT_OF_MEMORY,
    }
}

// Writes at which line bytes are no script.
fn refuse_script<O: Sink>(alloc: Global, line: u32, out: &mut O) -> u8
    ensures ended { Ended 6 (scripts.fault_text line) result (O.taken out.old) (O.taken out.new)
        (Rose (O.faults out.old) (O.faults out.new)) }
    ensures writes_later { O.faults out.old ≤ O.faults out.new }
{
    match format!(in alloc; "script {line}\n") {
        Ok(text) => end_with(out, text.as_bytes(), NO_SCRIPT),
        Err(_) => WANT_OF_MEMORY,
    }
}

/// Writes why a command isn't carried out, and answers the status; or 4 where a write failed, or 5 where memory was wanting and nothing was
/// written.
pub fn end_stopped<O: Sink>(alloc: Global, stop: &CommandFault, out: &mut O) -> u8
    ensures ended { Ended (status_of stop.now) (stop_line stop.now) result (O.taken out.old)
        (O.taken out.new)
        (Rose (O.faults out.old) (O.faults out.new)) }
    ensures wanting { stop.now ≡ CommandFault.Memory → (result ≡ 5) × (out.new ≡ out.old) }
    ensures writes_later { O.faults out.old ≤ O.faults out.new }
{
    match stop {
        CommandFault::Usage => end_with(out, b"usage\n", USAGE),
        CommandFault::Unread => end_with(out, b"read fault\n", READ_FAULT),
        CommandFault::Refused(why) => refuse(alloc, why, out),
        CommandFault::NoScript { line } => refuse_script(alloc, *line, out),
        CommandFault::Memory => WANT_OF_MEMORY,
    }
}
