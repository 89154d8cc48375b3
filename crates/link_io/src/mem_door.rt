// Doors in memory: their data.
ghost use Rattle.std.specs.Prelude.{◌≤◌, ◌+◌, All, vec_len, if◌then◌else◌};
ghost use Rattle.std.specs.Vec.{vec_capacity};
ghost use Rattle.link_io.specs.MemLinks.{IsFresh};

use crate::mem_link::MemLink;

/// A door in memory. A call of `accept` fails where its number, the first being 1, is in `failing`, whether or not somebody waits.
#[derive(Debug, Drop)]
pub struct MemDoor {
    /// The numbers of the calls of `accept` that fail.
    pub failing: Vec<u64>,
    /// How often `accept` was called.
    pub calls: u64,
    /// How often a call failed.
    pub faults: u64,
    pub(crate) waiting: Vec<MemLink>,
    pub(crate) parted: Vec<MemLink>,
    pub(crate) has_visitor: bool,
    // nothing was done yet with the visitors who wait
    ghost fresh: { All IsFresh waiting.items },
    // all who wait or are out can be parted in the room that there is
    ghost room: { vec_len waiting + vec_len parted + (if has_visitor then 1 else 0) ≤ vec_capacity parted },
}
