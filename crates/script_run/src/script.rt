// Scripts.
ghost use Rattle.std.specs.Prelude.{◌≡◌, ◌<◌, ◌++◌, codes, length, IfErr, IfOk, MatchOption, Option};
ghost use Rattle.messages.specs.declared.message.Message.{Message};
ghost use Rattle.message_meaning.specs.Messages.{IsReceived};
ghost use Rattle.program_meaning.specs.Scripts.{FirstLine, is_close};
ghost use Rattle.script_run.specs.Script.{IsFault, IsRead};

use message_json::{MessageFault, read_message};
use messages::Message;
use py_tree::{BYTE_LIMIT, whole_line};
use py_value::Memory;
use std::alloc::Global;

/// Why bytes are no script.
#[derive(Clone, Copy, Debug, PartialEq, Eq)]
pub enum ScriptFault {
    /// The line, from 1, that can't stand where it stands; 0 where there are more than 1,048,576 bytes.
    Line { line: u32 },
    /// Memory was wanting.
    Memory,
}

impl From<Memory> for ScriptFault {
    ghost use Rattle.std.specs.Prelude.{◌≡◌};
    ghost use Rattle.script_run.specs.declared.script.ScriptFault.TheVariants as fault;

    ghost from_gives = { λ why f. f ≡ fault.Memory };

    fn from(_: Memory) -> ScriptFault {
        ScriptFault::Memory
    }
}

// The line by which a visitor joins.
const JOIN_LINE: &[u8] = b"join 1";

// What stands before a text that is sent.
const SEND_WORDS: &[u8] = b"send 1 ";

/// The texts that are sent by the script of which these bytes are the text: for each visitor a line `join 1` and then lines `send 1 TEXT`, up to
/// a close message or the end. The last line may lack its line feed.
pub fn read_script(alloc: Global, bytes: &[u8]) -> Result<Vec<&[u8]>, ScriptFault>
    ensures read { IfOk result (λ sent. IsRead bytes.now sent.items) }
    ensures refused { IfErr result (λ fault. IsFault bytes.now fault) }
{
    if bytes.len() > BYTE_LIMIT {
        return Err(ScriptFault::Line { line: 0 });
    }
    let mut sent = Vec::new(alloc);
    let mut there = false;
    let mut count = 0;
    let mut rest = bytes;
    while !rest.is_empty() {
        let (line, behind) = first_line(rest);
        count += 1;
        if there {
            let Some(text) = line.strip_prefix(SEND_WORDS) else {
                return Err(ScriptFault::Line { line: count });
            };
            there = !closes(alloc, text)?;
            if sent.push(text).is_err() {
                return Err(ScriptFault::Memory);
            }
        } else if line == JOIN_LINE {
            there = true;
        } else {
            return Err(ScriptFault::Line { line: count });
        }
        rest = behind;
    }
    Ok(sent)
}

// The first line without its `\n`, which the last line may lack, and what comes after it.
fn first_line(bytes: &[u8]) -> (&[u8], &[u8])
    requires { 0 < length bytes.now }
    ensures { FirstLine bytes.now result.0.now result.1.now }
{
    match whole_line(bytes) {
        Some(cut) => cut,
        None => (bytes, &[]),
    }
}

// Whether the text is a close message.
fn closes(alloc: Global, text: &[u8]) -> Result<bool, Memory>
    ensures { IfOk result
        (λ answer. (m : Option Message) × IsReceived text.now m × (answer ≡ is_close m)) }
{
    match read_message(alloc, text) {
        Ok(message) => Ok(matches!(message, Message::Close)),
        Err(MessageFault::NotMessage) => Ok(false),
        Err(MessageFault::Memory) => Err(Memory),
    }
}
