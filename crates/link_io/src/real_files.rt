// The files of the system.
ghost use Rattle.std.specs.Prelude.{◌≡◌, ◌≤◌, None, length, IfOk};

use crate::files::{Failed, Files};
use arrayvec::ArrayString;
use std::fs::File;
use std::io::{ErrorKind, Read, Seek, SeekFrom};
use std::rt::Files as SystemFiles;

// The most bytes of a path; the system opens no longer one (Linux, `PATH_MAX`).
const PATH_BYTES: usize = 4096;

/// The files of the system, by their paths. The file that was read last stays open, so that to read on needs no seek, and pipes
/// can be read too.
#[derive(Drop)]
pub struct RealFiles<R: SystemFiles> {
    runtime: R,
    name: ArrayString<PATH_BYTES>,
    last: Option<Opened<R::File>>,
    faults: u64,
}

// An open file, and the place that its next byte comes from.
#[derive(Drop)]
struct Opened<F> {
    file: F,
    at: u64,
}

impl<R: SystemFiles> RealFiles<R> {
    /// No file is open yet.
    pub fn new(runtime: R) -> Self
        ensures { result.faults ≡ 0 }
    {
        RealFiles {
            runtime,
            name: ArrayString::new(),
            last: None,
            faults: 0,
        }
    }

    // Opens a file at a place. Only a place past the beginning needs a seek.
    fn open(&mut self, name: &str, from: u64) -> Result<Opened<R::File>, Failed>
        ensures at { IfOk result (λ opened. opened.at ≡ from) }
        ensures faults { self.new.faults ≡ self.old.faults }
    {
        let Ok(kept) = ArrayString::from(name) else {
            return Err(Failed);
        };
        self.name = kept;
        let Ok(mut file) = File::open(&self.runtime, name) else {
            return Err(Failed);
        };
        if from > 0 && file.seek(SeekFrom::Start(from)).is_err() {
            return Err(Failed);
        }
        Ok(Opened { file, at: from })
    }

    // The file at a place: the one that was read last, where it stands there, or else opened anew.
    fn opened_at(&mut self, name: &str, from: u64) -> Result<Opened<R::File>, Failed>
        ensures at { IfOk result (λ opened. opened.at ≡ from) }
        ensures faults { self.new.faults ≡ self.old.faults }
    {
        if let Some(opened) = self.last.take() {
            if opened.at == from && self.name.as_str() == name {
                return Ok(opened);
            }
        }
        self.open(name, from)
    }

    // Reads from a place on. At `Failed` no file is open.
    fn read_from(&mut self, name: &str, from: u64, buf: &mut [u8]) -> Result<usize, Failed>
        ensures within { IfOk result (λ n. n ≤ length buf.old) }
        ensures faults { self.new.faults ≡ self.old.faults }
    {
        let mut opened = self.opened_at(name, from)?;
        let count = read_some(&mut opened.file, buf)?;
        opened.at = from.saturating_add(count as u64);
        self.last = Some(opened);
        Ok(count)
    }
}

impl<R: SystemFiles> Files for RealFiles<R> {
    ghost holds = { λ files name. None };

    ghost faults = { λ files. files.faults };

    fn read_at(&mut self, name: &str, from: u64, buf: &mut [u8]) -> Result<usize, Failed> {
        match self.read_from(name, from, buf) {
            Ok(count) => Ok(count),
            Err(_) => {
                self.faults = self.faults.saturating_add(1);
                Err(Failed)
            }
        }
    }
}

// Reads once, and again where a signal came between.
fn read_some<S: Read>(source: &mut S, buf: &mut [u8]) -> Result<usize, Failed>
    ensures { IfOk result (λ n. n ≤ length buf.old) }
{
    for _ in 0..u64::MAX {
        match source.read(buf) {
            Ok(count) => return Ok(count),
            Err(why) => {
                if why.kind() != ErrorKind::Interrupted {
                    return Err(Failed);
                }
            }
        }
    }
    Err(Failed)
}
