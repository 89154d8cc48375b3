// Commands that wait for nobody.
ghost use Rattle.std.specs.Prelude.{◌≡◌, ℕ, ◌≤◌, IfErr, IfOk, List, map, OnErr, string_bytes, None};
ghost use Rattle.link_io.specs.Outside.{Rose};
ghost use Rattle.nbserve.specs.Execution.{Carried, IsDone, IsPlayed};
ghost use Rattle.nbserve.specs.CommandFault.{IsStopped, IsUnloaded, IsUnplayed, IsUnread};
ghost use Rattle.nbserve.specs.Output.{RunsTo};
ghost use Rattle.nbserve.specs.Shows.{Shows};
ghost use Rattle.program_meaning.specs.Program.{AreRead, IsLoaded};
ghost use Rattle.program_meaning.specs.Scripts.{Script};
ghost use Rattle.script_run.specs.Script.{AreSent};
ghost use Rattle.command_meaning.specs.Commands.{command_of};
ghost use Rattle.visit_meaning.specs.Runnable.{Runnable};
ghost use Rattle.py_tree.specs.View.{view_cells};

use crate::command_fault::{
    CommandFault, DONE, WANT_OF_MEMORY, WRITE_FAULT, end_stopped, end_with,
};
use crate::loader::load;
use cell_graph::Notebook;
use cli_words::{Command, read_command};
use link_io::{Files, ReadFault, Sink, read_file};
use py_eval::Steps;
use py_tree::BYTE_LIMIT;
use script_run::{PlayFault, play, read_script};
use std::alloc::Global;
use std::sync::ledger::Ledger;

/// The usual budget of a cell, in steps.
pub const USUAL_BUDGET: u64 = 200_000;

// What a visitor sends who opens a notebook.
const OPEN_MESSAGE: &[u8] = b"{\"open\":{}}";

// What stands before each frame of a script: the number of its visitor, which is 1 for all of them.
const VISITOR_LABEL: &[u8] = b"1 ";

// The line behind the frames of a script: how many cached blocks ran, and how many were taken from the cache.
const LAST_LINE: &[u8] = b"end runs 0 hits 0\n";

// The bytes of a file, or one more than the limit where it has more.
fn bytes_in<F: Files>(alloc: Global, files: &mut F, file: &str) -> Result<Vec<u8>, CommandFault>
    ensures read { IfOk result (λ bytes. AreRead (F.holds files.old) file.now bytes.items) }
    ensures unread { IfErr result
        (λ why. IsUnread why (Rose (F.faults files.old) (F.faults files.new))) }
    ensures same { (other : List ℕ) → F.holds files.new other ≡ F.holds files.old other }
    ensures later { F.faults files.old ≤ F.faults files.new }
{
    match read_file(alloc, files, file, BYTE_LIMIT as u64) {
        Ok(bytes) => Ok(bytes),
        Err(ReadFault::Failed) => Err(CommandFault::Unread),
        Err(ReadFault::Memory) => Err(CommandFault::Memory),
    }
}

// The notebook of a file.
pub fn notebook_in<F: Files>(
    alloc: Global,
    files: &mut F,
    file: &str,
) -> Result<Notebook, CommandFault>
    ensures loaded { IfOk result (λ nb. IsLoaded (F.holds files.old) file.now (view_cells nb)) }
    ensures unloaded { IfErr result
        (λ why. IsUnloaded (F.holds files.old)
        (Rose (F.faults files.old) (F.faults files.new)) file.now why) }
    ensures same { (other : List ℕ) → F.holds files.new other ≡ F.holds files.old other }
    ensures later { F.faults files.old ≤ F.faults files.new }
{
    let bytes = bytes_in(alloc, files, file)?;
    load(alloc, bytes.as_slice())
}

// Plays what visitors send, and then writes a last text.
fn perform<O: Sink, L: Ledger>(
    alloc: Global,
    notebook: &Notebook,
    label: &[u8],
    sent: &[&[u8]],
    last: &[u8],
    out: &mut O,
    steps: &mut Steps<L>,
) -> u8
    requires { Runnable (view_cells notebook.now) }
    ensures done { (stays : Script) → AreSent (map (λ text. text.now) sent.now) stays
        → IsDone (view_cells notebook.now) stays label.now last.now result
        (O.taken out.old) (O.taken out.new)
        (Rose (O.faults out.old) (O.faults out.new)) steps.old steps.new }
    ensures writes_later { O.faults out.old ≤ O.faults out.new }
{
    match play(alloc, notebook, USUAL_BUDGET, label, sent, out, steps) {
        Ok(()) => end_with(out, last, DONE),
        Err(PlayFault::WriteFault) => WRITE_FAULT,
        Err(PlayFault::Memory) => WANT_OF_MEMORY,
    }
}

// Plays the script of a file.
fn perform_script<F: Files, O: Sink, L: Ledger>(
    alloc: Global,
    notebook: &Notebook,
    file: &str,
    files: &mut F,
    out: &mut O,
    steps: &mut Steps<L>,
) -> Result<u8, CommandFault>
    requires { Runnable (view_cells notebook.now) }
    ensures played { IfOk result
        (λ status. IsPlayed (F.holds files.old) file.now (view_cells notebook.now) status
        (O.taken out.old) (O.taken out.new)
        (Rose (O.faults out.old) (O.faults out.new)) steps.old steps.new) }
    ensures unplayed { IfErr result
        (λ why. IsUnplayed (F.holds files.old)
        (Rose (F.faults files.old) (F.faults files.new)) file.now why) }
    ensures kept { OnErr result (out.new ≡ out.old) }
    ensures still { OnErr result (steps.new ≡ steps.old) }
    ensures same { (other : List ℕ) → F.holds files.new other ≡ F.holds files.old other }
    ensures later { F.faults files.old ≤ F.faults files.new }
    ensures writes_later { O.faults out.old ≤ O.faults out.new }
{
    let bytes = bytes_in(alloc, files, file)?;
    let sent = read_script(alloc, bytes.as_slice())?;
    Ok(perform(
        alloc,
        notebook,
        VISITOR_LABEL,
        sent.as_slice(),
        LAST_LINE,
        out,
        steps,
    ))
}

// Carries out the command that the words ask for, and answers the status; or why it isn't carried out, and then nothing was written and
// no step counted.
fn carry_out<F: Files, O: Sink, L: Ledger>(
    alloc: Global,
    words: &[String],
    files: &mut F,
    out: &mut O,
    steps: &mut Steps<L>,
) -> Result<u8, CommandFault>
    ensures carried { IfOk result
        (λ status. Carried (F.holds files.old) (map string_bytes words.now) status
        (O.taken out.old) (O.taken out.new)
        (Rose (O.faults out.old) (O.faults out.new)) steps.old steps.new) }
    ensures stopped { IfErr result
        (λ why. IsStopped (F.holds files.old) (Rose (F.faults files.old) (F.faults files.new))
        (map string_bytes words.now) why) }
    ensures untouched { command_of (map string_bytes words.now) ≡ None → files.new ≡ files.old }
    ensures kept { OnErr result (out.new ≡ out.old) }
    ensures still { OnErr result (steps.new ≡ steps.old) }
    ensures same { (other : List ℕ) → F.holds files.new other ≡ F.holds files.old other }
    ensures later { F.faults files.old ≤ F.faults files.new }
    ensures writes_later { O.faults out.old ≤ O.faults out.new }
{
    let Some(command) = read_command(words) else {
        return Err(CommandFault::Usage);
    };
    let notebook = notebook_in(alloc, files, command.notebook())?;
    match command {
        Command::Once { .. } => Ok(perform(
            alloc,
            &notebook,
            b"",
            &[OPEN_MESSAGE],
            b"",
            out,
            steps,
        )),
        Command::Play { script, .. } => perform_script(alloc, &notebook, script, files, out, steps),
    }
}

/// Carries out the command that the words ask for, and answers the program's status: 0 done, 1 refused notebook, 2 usage,
/// 3 read fault, 4 write fault, 5 want of memory, 6 no script. The words don't include the program's own name.
pub fn run_words<F: Files, O: Sink, L: Ledger>(
    alloc: Global,
    words: &[String],
    files: &mut F,
    out: &mut O,
    steps: &mut Steps<L>,
) -> u8
    // What it comes to, whatever is told and whatever fails: the text that was written, and the steps that were counted. At 0 these are the
    // frames of the opening or the text of the script, at 1 why the notebook is refused, at 2 `usage`, at 3 `read fault`, at 6 why the bytes
    // of the script are none; at 4 less than one of these, cut where the write failed; at 5 whole lines of frames, or nothing.
    ensures runs { RunsTo (F.holds files.old) (Rose (F.faults files.old) (F.faults files.new))
        (Rose (O.faults out.old) (O.faults out.new))
        (map string_bytes words.now) result (O.taken out.old) (O.taken out.new) steps.old steps.new }

    // What names of files stand for stays, and no count of faults falls. Words that are no form touch no file.
    ensures same { (other : List ℕ) → F.holds files.new other ≡ F.holds files.old other }
    ensures later { F.faults files.old ≤ F.faults files.new }
    ensures writes_later { O.faults out.old ≤ O.faults out.new }
    ensures untouched { command_of (map string_bytes words.now) ≡ None → files.new ≡ files.old }

    // What follows from `runs` for a status, a command or a file alone.
    ensures shows { Shows (F.holds files.old) (Rose (F.faults files.old) (F.faults files.new))
        (Rose (O.faults out.old) (O.faults out.new))
        (map string_bytes words.now) result (O.taken out.old) (O.taken out.new) steps.old steps.new }
{
    match carry_out(alloc, words, files, out, steps) {
        Ok(status) => status,
        Err(stop) => end_stopped(alloc, &stop, out),
    }
}
