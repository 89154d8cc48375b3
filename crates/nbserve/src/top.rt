// The top call.
ghost use Rattle.std.specs.Prelude.{◌≡◌, ◌⊎◌, ℕ, ◌≤◌, List, map, string_bytes, None};
ghost use Rattle.command_meaning.specs.Commands.{command_of};
ghost use Rattle.command_meaning.specs.Services.{service_of};
ghost use Rattle.link_io.specs.Outside.{Rose};
ghost use Rattle.nbserve.specs.Top.{ComesTo, TopShows};

use crate::commands::run_words;
use crate::serve::serve;
use cli_words::read_service;
use link_io::{Files, Porch, Sink};
use py_eval::Steps;
use std::alloc::Global;
use std::sync::Wait;
use std::sync::ledger::Ledger;
use std::thread::Threads;

/// Does what the words ask for, and answers the program's status: 0 done, 1 refused notebook, 2 usage, 3 read fault, 4 write fault, 5 want of
/// memory, 6 no script, 7 door fault. The words don't include the program's own name. `run` waits for visitors; every other command waits for
/// nobody, as `run_words` does it.
pub fn run_top<R: Threads + Wait + Sync, F: Files, O: Sink, P: Porch, L: Ledger>(
    rt: &R,
    alloc: Global,
    words: &[String],
    files: &mut F,
    out: &mut O,
    porch: &mut P,
    steps: &mut Steps<L>,
) -> u8
    // What it comes to, whatever is told and whatever fails. For `run`: the report at 0, and at 7 where a door failed; `door fault` at 7; why
    // the notebook is refused at 1; `read fault` at 3; less than one of these at 4; nothing at 5. For other words what `run_words` comes to.
    ensures comes { ComesTo (F.holds files.old) (Rose (F.faults files.old) (F.faults files.new))
        (Rose (P.faults porch.old) (P.faults porch.new))
        (Rose (O.faults out.old) (O.faults out.new))
        (map string_bytes words.now) result (O.taken out.old) (O.taken out.new)
        (P.told porch.old) (P.told porch.new) steps.old steps.new }

    // What names of files stand for stays, and no count of faults falls. Words that ask for no service and notebooks that aren't loaded leave the
    // porch, and words that are no form the files.
    ensures same { (other : List ℕ) → F.holds files.new other ≡ F.holds files.old other }
    ensures later { F.faults files.old ≤ F.faults files.new }
    ensures writes_later { O.faults out.old ≤ O.faults out.new }
    ensures doors_later { P.faults porch.old ≤ P.faults porch.new }
    ensures unvisited { service_of (map string_bytes words.now) ≡ None → porch.new ≡ porch.old }
    ensures unasked { (result ≡ 1) ⊎ (result ≡ 3) → porch.new ≡ porch.old }
    ensures untouched { command_of (map string_bytes words.now) ≡ None → service_of (map string_bytes words.now) ≡ None
        → files.new ≡ files.old }

    // What follows from `comes` for a status or the words alone.
    ensures shows { TopShows (F.holds files.old) (Rose (F.faults files.old) (F.faults files.new))
        (Rose (P.faults porch.old) (P.faults porch.new))
        (Rose (O.faults out.old) (O.faults out.new))
        (map string_bytes words.now) result (O.taken out.old) (O.taken out.new)
        (P.told porch.old) (P.told porch.new) steps.old steps.new }
{
    match read_service(words) {
        Some(service) => serve(rt, alloc, service, files, out, porch),
        None => run_words(alloc, words, files, out, steps),
    }
}
