// Runs of the program over files of which a call fails, and a sink that is full. The texts that are wanted are written by hand.
ghost use Rattle.std.specs.Prelude.{◌≡◌, ◌<◌};

mod serving;

use crate::top::run_top;
use link_io::{MemFile, MemFiles, MemPorch, MemSink};
use py_eval::Steps;
use std::alloc::{AllocError, Global};
use std::marker::Brand;
use std::sync::Wait;
use std::sync::ledger::{Blank, Ledger};
use std::test::Fail;
use std::thread::Threads;

// What a run of the program answered and wrote.
#[derive(Drop)]
pub struct Answer {
    pub status: u8,
    pub written: Vec<u8>,
}

// A run: its words, which calls of the files fail, and how many bytes the sink has room for.
#[derive(Clone, Copy)]
pub struct Case<'a> {
    pub words: &'a [&'a str],
    pub failing: &'a [u64],
    pub room: usize,
}

// The file `nb.py`.
const SLIDER: &[u8] = b"import marimo
app = marimo.App()
@app.cell
def _():
    import marimo as mo
@app.cell
def _():
    s = mo.ui.slider(0, 10)
@app.cell
def _():
    s.value + 1
if __name__ == \"__main__\":
    app.run()
";

// The file `visit.txt`.
const VISIT: &[u8] = b"join 1
send 1 {\"open\":{}}
";

fn strings(alloc: Global, words: &[&str]) -> Result<Vec<String>, AllocError> {
    let mut strings = Vec::new(alloc);
    for word in words {
        strings.push(String::from_str(alloc, *word)?)?;
    }
    Ok(strings)
}

fn file(alloc: Global, name: &str, bytes: &[u8]) -> Result<MemFile, AllocError> {
    Ok(MemFile {
        name: String::from_str(alloc, name)?,
        bytes: Vec::from_slice(alloc, bytes)?,
    })
}

fn run<R: Threads + Wait + Sync, L: Ledger>(
    rt: &R,
    alloc: Global,
    case: Case<'_>,
    porch: &mut MemPorch,
    blank: Blank,
) -> Result<Answer, AllocError>
    requires { (blank.name ≡ L.name) × (blank.parts ≡ L.parts) × (0 < blank.parts) }
{
    let mut held = Vec::new(alloc);
    held.push(file(alloc, "nb.py", SLIDER)?)?;
    held.push(file(alloc, "visit.txt", VISIT)?)?;
    let mut files = MemFiles {
        files: held,
        failing: Vec::from_slice(alloc, case.failing)?,
        calls: 0,
        faults: 0,
    };
    let mut out = MemSink {
        bytes: Vec::new(alloc),
        room: case.room,
        faults: 0,
    };
    let words = strings(alloc, case.words)?;
    let mut steps = Steps::<L>::new(blank);
    let status = run_top(
        rt,
        alloc,
        words.as_slice(),
        &mut files,
        &mut out,
        porch,
        &mut steps,
    );
    Ok(Answer {
        status,
        written: out.bytes,
    })
}

pub fn answered<R: Threads + Wait + Sync>(
    rt: &R,
    alloc: Global,
    case: Case<'_>,
    porch: &mut MemPorch,
) -> Result<Answer, AllocError> {
    run::<R, Brand>(rt, alloc, case, porch, Blank::new(1))
}

const ONCE: &[&str] = &["once", "nb.py"];

const PLAY: &[&str] = &["script", "nb.py", "visit.txt"];

const FIRST_FRAME: &[u8] =
    b"{\"cell\":0,\"console\":[],\"error\":null,\"output\":null,\"status\":\"ok\"}\n";

#[test]
fn tells_faults(rt: HostRuntime) -> Result<(), Fail> {
    let all = 1_000_000;
    // The first two calls read the notebook.
    let cases: [(&[&str], &[u64], usize, u8, &[u8]); 6] = [
        (ONCE, &[1], all, 3, b"read fault\n"),
        (ONCE, &[2], all, 3, b"read fault\n"),
        (PLAY, &[3], all, 3, b"read fault\n"),
        (PLAY, &[4], 5, 4, b"read "),
        (ONCE, &[], 0, 4, b""),
        (ONCE, &[], 65, 4, FIRST_FRAME),
    ];
    for (words, failing, room, status, wanted) in cases {
        let case = Case {
            words,
            failing,
            room,
        };
        let mut porch = MemPorch::new(rt.alloc(), Vec::new(rt.alloc()));
        let answer = answered(&rt, rt.alloc(), case, &mut porch)?;
        assert_eq!(rt; answer.status, status);
        assert_eq!(rt; answer.written.as_slice(), wanted);
    }
    Ok(())
}
