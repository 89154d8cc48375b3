//! The program that opens a notebook, replays visitors of one, or serves it to visitors.
#![tactic(auto)]

ghost use Rattle.std.specs.Prelude.{◌≡◌, ◌<◌, map, string_bytes};
ghost use Rattle.std.specs.Process.{exit_status};
ghost use Rattle.link_io.specs.Outside.{Rose};
ghost use Rattle.nbserve.specs.Top.{ComesTo};

mod command_fault;
mod commands;
pub mod laws;
mod loader;
mod refusal;
mod serve;
#[cfg(test)]
mod tests;
mod top;

use command_fault::WANT_OF_MEMORY;
use link_io::{Files, Porch, RealFiles, RealOut, Sink, TcpPorch};
use py_eval::Steps;
use std::alloc::Global;
use std::env;
use std::io::ErrorKind;
use std::marker::Brand;
use std::process::ExitCode;
use std::sync::Wait;
use std::sync::ledger::{Blank, Ledger};
use std::thread::Threads;
use top::run_top;

// Runs the program, and ends the process with its status.
fn end_process<R: Threads + Wait + Sync, F: Files, O: Sink, P: Porch, L: Ledger>(
    rt: &R,
    alloc: Global,
    words: &[String],
    files: &mut F,
    out: &mut O,
    porch: &mut P,
    steps: &mut Steps<L>,
) -> ExitCode
    ensures { ComesTo (F.holds files.old) (Rose (F.faults files.old) (F.faults files.new))
        (Rose (P.faults porch.old) (P.faults porch.new))
        (Rose (O.faults out.old) (O.faults out.new))
        (map string_bytes words.now) (exit_status result) (O.taken out.old) (O.taken out.new)
        (P.told porch.old) (P.told porch.new) steps.old steps.new }
{
    let status = run_top(rt, alloc, words, files, out, porch, steps);
    ExitCode::from(status)
}

// Runs the program with a new count of steps, which nothing reads.
fn run_counted<R: Threads + Wait + Sync, F: Files, O: Sink, P: Porch, L: Ledger>(
    rt: &R,
    alloc: Global,
    words: &[String],
    files: &mut F,
    out: &mut O,
    porch: &mut P,
    blank: Blank,
) -> ExitCode
    requires { (blank.name ≡ L.name) × (blank.parts ≡ L.parts) × (0 < blank.parts) }
{
    let mut steps = Steps::<L>::new(blank);
    end_process(rt, alloc, words, files, out, porch, &mut steps)
}

// The words of the command line without the program's own name; none where memory is wanting. A word that is no text is no word
// of any command, so there are then no words.
fn words_of(rt: &HostRuntime) -> Option<Vec<String>> {
    let mut words = Vec::new(rt.alloc());
    match env::args(rt) {
        Ok(all) => {
            // `collect` would ask for more room than is needed, and go on where that is refused.
            for word in all.skip(1) {
                words.push(word).ok()?;
            }
        }
        Err(why) if why.kind() == ErrorKind::InvalidData => {}
        Err(_) => return None,
    }
    Some(words)
}

fn main(rt: HostRuntime) -> ExitCode {
    let Some(words) = words_of(&rt) else {
        return ExitCode::from(WANT_OF_MEMORY);
    };
    let mut files = RealFiles::new(&rt);
    let mut out = RealOut::new(&rt);
    let mut porch = TcpPorch::new(rt.alloc(), rt);
    run_counted::<
        HostRuntime,
        RealFiles<&HostRuntime>,
        RealOut<&HostRuntime>,
        TcpPorch<HostRuntime>,
        Brand,
    >(
        &rt,
        rt.alloc(),
        words.as_slice(),
        &mut files,
        &mut out,
        &mut porch,
        Blank::new(1),
    )
}
