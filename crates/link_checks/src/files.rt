// Files and sinks in memory, and ones that give and take one byte a call.
ghost use Rattle.std.specs.Prelude.{None};

use link_io::{Failed, Files, MemFile, MemFiles, MemSink, ReadFault, Sink, read_file, write_all};
use std::alloc::{AllocError, Global};
use std::test::Fail;

// One file, of which a call gives one byte, and a sink, of which a call takes one byte.
#[derive(Drop)]
struct Slow {
    bytes: Vec<u8>,
    faults: u64,
}

impl Files for Slow {
    ghost holds = { λ slow name. None };

    ghost faults = { λ slow. slow.faults };

    fn read_at(&mut self, name: &str, from: u64, buf: &mut [u8]) -> Result<usize, Failed> {
        let byte = usize::try_from(from).ok().and_then(|at| self.bytes.get(at));
        match (byte, buf.first_mut()) {
            (Some(byte), Some(place)) => {
                *place = *byte;
                Ok(1)
            }
            _ => Ok(0),
        }
    }
}

impl Sink for Slow {
    ghost taken = { λ slow. None };

    ghost faults = { λ slow. slow.faults };

    fn write(&mut self, piece: &[u8]) -> Result<usize, Failed> {
        let Some(byte) = piece.first() else {
            return Ok(0);
        };
        match self.bytes.push(*byte) {
            Ok(()) => Ok(1),
            Err(_) => {
                self.faults = self.faults.saturating_add(1);
                Err(Failed)
            }
        }
    }
}

// The files `ten`, with ten bytes, and `none`, with none. The calls with these numbers fail.
fn two_files(alloc: Global, failing: &[u64]) -> Result<MemFiles, AllocError> {
    let ten = MemFile {
        name: String::from_str(alloc, "ten")?,
        bytes: Vec::from_slice(alloc, b"0123456789")?,
    };
    let none = MemFile {
        name: String::from_str(alloc, "none")?,
        bytes: Vec::new(alloc),
    };
    Ok(MemFiles {
        files: Vec::from_array(alloc, [ten, none])?,
        failing: Vec::from_slice(alloc, failing)?,
        calls: 0,
        faults: 0,
    })
}

#[test]
fn reads_up_to_one_byte_past_the_limit(rt: HostRuntime) -> Result<(), Fail> {
    let mut files = two_files(rt.alloc(), &[])?;
    let cases: [(&str, u64, &[u8]); 5] = [
        ("ten", 20, b"0123456789"),
        ("ten", 10, b"0123456789"),
        ("ten", 9, b"0123456789"),
        ("ten", 4, b"01234"),
        ("none", 4, b""),
    ];
    for (name, limit, want) in cases {
        let got = read_file(rt.alloc(), &mut files, name, limit)?;
        assert_eq!(rt; got.as_slice(), want, "{name} up to {limit}");
    }

    // also where a call gives one byte
    let mut slow = Slow {
        bytes: Vec::new(rt.alloc()),
        faults: 0,
    };
    assert_eq!(rt; write_all(&mut slow, b"hello"), Ok(()));
    let got = read_file(rt.alloc(), &mut slow, "any", 3)?;
    assert_eq!(rt; got.as_slice(), b"hell".as_slice());
    Ok(())
}

#[test]
fn counts_faults(rt: HostRuntime) -> Result<(), Fail> {
    let mut files = two_files(rt.alloc(), &[2])?;
    let unknown = read_file(rt.alloc(), &mut files, "other", 4);
    assert_eq!(rt; unknown.err(), Some(ReadFault::Failed));
    let failing = read_file(rt.alloc(), &mut files, "ten", 20);
    assert_eq!(rt; failing.err(), Some(ReadFault::Failed));
    assert_eq!(rt; files.faults, 2);

    let mut out = MemSink {
        bytes: Vec::new(rt.alloc()),
        room: 8,
        faults: 0,
    };
    assert_eq!(rt; write_all(&mut out, b"hello"), Ok(()));
    assert_eq!(rt; write_all(&mut out, b"world"), Err(Failed));
    assert_eq!(rt; out.bytes.as_slice(), b"hellowor".as_slice());
    assert_eq!(rt; out.faults, 1);
    Ok(())
}
