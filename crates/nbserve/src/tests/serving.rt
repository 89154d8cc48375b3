// Services over a porch in memory. The texts that are wanted are written by hand.
ghost use Rattle.std.specs.Prelude.{IfOk};
ghost use Rattle.link_io.specs.MemDoors.{IsNewDoor};
ghost use Rattle.link_io.specs.MemLinks.{IsFresh};

use crate::tests::{Case, answered};
use link_io::{MemDoor, MemLink, MemPorch};
use std::alloc::{AllocError, Global};
use std::test::Fail;

// A service: its words, which calls of the first door let nobody in, and how many bytes the sink has room for; and what is wanted: the status,
// what is written, how many texts each visitor was sent who was served, and the port for which there were doors.
#[derive(Clone, Copy)]
struct Wanted<'a> {
    words: &'a [&'a str],
    refusing: &'a [u64],
    room: usize,
    status: u8,
    written: &'a [u8],
    texts: &'a [usize],
    port: Option<u16>,
}

const MUCH: usize = 1_000_000;

// Each visitor is sent the frames of three cells and their number.
const CASES: [Wanted<'static>; 8] = [
    Wanted {
        words: &["run", "nb.py", "--port=80"],
        refusing: &[],
        room: MUCH,
        status: 0,
        written: b"visitors 8 closed 8 links 0 memory 0 many 0 doors 0\n",
        texts: &[4, 4, 4, 4, 4, 4, 4, 4],
        port: Some(80),
    },
    Wanted {
        words: &["run", "nb.py", "--workers=2", "--port=65535"],
        refusing: &[],
        room: MUCH,
        status: 0,
        written: b"visitors 4 closed 4 links 0 memory 0 many 0 doors 0\n",
        texts: &[4, 4, 4, 4],
        port: Some(65535),
    },
    Wanted {
        words: &["run", "nb.py", "--visitors=1", "--workers=2", "--port=80"],
        refusing: &[],
        room: MUCH,
        status: 0,
        written: b"visitors 2 closed 2 links 0 memory 0 many 0 doors 0\n",
        texts: &[4, 4],
        port: Some(80),
    },
    Wanted {
        words: &["run", "nb.py", "--workers=2", "--port=80"],
        refusing: &[1],
        room: MUCH,
        status: 7,
        written: b"visitors 4 closed 4 links 0 memory 0 many 0 doors 1\n",
        texts: &[4, 4, 4, 4],
        port: Some(80),
    },
    Wanted {
        words: &["run", "nb.py", "--port=80", "--workers=1"],
        refusing: &[1],
        room: 5,
        status: 4,
        written: b"visit",
        texts: &[4, 4],
        port: Some(80),
    },
    Wanted {
        words: &["run", "nb.py", "--port=80", "--workers=5"],
        refusing: &[],
        room: MUCH,
        status: 7,
        written: b"door fault\n",
        texts: &[],
        port: None,
    },
    Wanted {
        words: &["run", "visit.txt", "--port=80"],
        refusing: &[],
        room: MUCH,
        status: 1,
        written: b"refused 1 Thin\n",
        texts: &[],
        port: None,
    },
    Wanted {
        words: &["run", "other.py", "--port=80"],
        refusing: &[],
        room: MUCH,
        status: 3,
        written: b"read fault\n",
        texts: &[],
        port: None,
    },
];

// A visitor who opens the notebook and sends a close message.
fn opener(alloc: Global) -> Result<MemLink, AllocError>
    ensures { IfOk result (λ link. IsFresh link) }
{
    let open = Vec::from_slice(alloc, b"{\"open\":{}}")?;
    let close = Vec::from_slice(alloc, b"{\"close\":{}}")?;
    Ok(MemLink::new(alloc, Vec::from_array(alloc, [Some(open), Some(close)])?))
}

// A door to which two such visitors come; the calls of these numbers let nobody in.
fn door(alloc: Global, refusing: &[u64]) -> Result<MemDoor, AllocError>
    ensures { IfOk result (λ door. IsNewDoor door) }
{
    let first = opener(alloc)?;
    let second = opener(alloc)?;
    let mut door = MemDoor::new(alloc, Vec::from_array(alloc, [first, second])?)?;
    door.failing = Vec::from_slice(alloc, refusing)?;
    Ok(door)
}

// A porch with four such doors; calls of the first one fail.
fn four_doors(alloc: Global, refusing: &[u64]) -> Result<MemPorch, AllocError> {
    let first = door(alloc, refusing)?;
    let second = door(alloc, &[])?;
    let third = door(alloc, &[])?;
    let fourth = door(alloc, &[])?;
    let doors = Vec::from_array(alloc, [first, second, third, fourth])?;
    Ok(MemPorch::new(alloc, doors))
}

// How many texts each visitor was sent who was parted at the doors that came back.
fn texts_sent(alloc: Global, porch: &MemPorch) -> Result<Vec<usize>, AllocError> {
    let mut counts = Vec::new(alloc);
    for door in porch.returned() {
        for link in door.parted() {
            counts.push(link.sent.len())?;
        }
    }
    Ok(counts)
}

#[test]
fn serves_the_visitors_of_a_porch(rt: HostRuntime) -> Result<(), Fail> {
    let alloc = rt.alloc();
    for wanted in CASES {
        let case = Case {
            words: wanted.words,
            failing: &[],
            room: wanted.room,
        };
        let mut porch = four_doors(alloc, wanted.refusing)?;
        let answer = answered(&rt, alloc, case, &mut porch)?;
        assert_eq!(rt; answer.status, wanted.status);
        assert_eq!(rt; answer.written.as_slice(), wanted.written);
        assert_eq!(rt; texts_sent(alloc, &porch)?.as_slice(), wanted.texts);
        assert_eq!(rt; porch.port(), wanted.port);
    }
    Ok(())
}
