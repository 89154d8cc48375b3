// Visitors who come through doors in memory. The texts that are wanted are written by hand.
ghost use Rattle.std.specs.Prelude.{IfOk};
ghost use Rattle.link_io.specs.MemDoors.{IsNewDoor};
ghost use Rattle.link_io.specs.MemLinks.{IsFresh};

use crate::notebooks::{BUDGET, slider};
use link_io::{MemDoor, MemLink, NoGate};
use std::alloc::{AllocError, Global};
use std::test::Fail;
use ws_server::{Report, serve_doors};

// The texts that each visitor is sent, in the order in which they are sent.
const TEXTS: [&[u8]; 4] = [
    b"{\"cell\":0,\"console\":[],\"error\":null,\"output\":null,\"status\":\"ok\"}",
    b"{\"cell\":1,\"console\":[],\"error\":null,\"output\":null,\"status\":\"ok\"}",
    b"{\"cell\":2,\"console\":[],\"error\":null,\"output\":{\"text\":\"1\",\"type\":\"plain\"},\"status\":\"ok\"}",
    b"{\"done\":3}",
];

// A visitor who opens the notebook and closes.
fn visitor(alloc: Global) -> Result<MemLink, AllocError>
    ensures { IfOk result (λ link. IsFresh link) }
{
    let open = Vec::from_slice(alloc, b"{\"open\":{}}")?;
    let close = Vec::from_slice(alloc, b"{\"close\":{}}")?;
    Ok(MemLink::new(alloc, Vec::from_array(alloc, [Some(open), Some(close)])?))
}

// A door to which one such visitor comes.
fn with_one(alloc: Global) -> Result<MemDoor, AllocError>
    ensures { IfOk result (λ door. IsNewDoor door) }
{
    let only = visitor(alloc)?;
    MemDoor::new(alloc, Vec::from_array(alloc, [only])?)
}

// A door to which two such visitors come.
fn with_two(alloc: Global) -> Result<MemDoor, AllocError>
    ensures { IfOk result (λ door. IsNewDoor door) }
{
    let first = visitor(alloc)?;
    let second = visitor(alloc)?;
    MemDoor::new(alloc, Vec::from_array(alloc, [first, second])?)
}

// What became of a door: how many visitors still wait, how many were parted, and whether each of these was sent exactly the texts.
fn outcome(door: &MemDoor) -> (usize, usize, bool) {
    let mut as_wanted = true;
    for link in door.parted() {
        as_wanted = as_wanted && link.sent.len() == TEXTS.len();
        for (sent, wanted) in link.sent.iter().zip(TEXTS.iter()) {
            as_wanted = as_wanted && sent.as_slice() == *wanted;
        }
    }
    (door.waiting().len(), door.parted().len(), as_wanted)
}

// The report of so many visitors who closed, and of so many faults of doors.
fn closed(visitors: u64, doors: u64) -> Report {
    Report {
        visitors,
        closed: visitors,
        links: 0,
        memory: 0,
        many: 0,
        doors,
    }
}

#[test]
fn serves_each_door(rt: HostRuntime) -> Result<(), Fail> {
    let alloc = rt.alloc();
    let notebook = slider(alloc).ok_or("refused")?;
    let first = with_one(alloc)?;
    let second = with_one(alloc)?;
    let mut doors = Vec::from_array(alloc, [first, second])?;
    let report = serve_doors(&rt, alloc, &notebook, BUDGET, &mut doors, &NoGate, 2);
    assert_eq!(rt; (report, doors.len()), (closed(2, 0), 2));
    for door in &doors {
        assert_eq!(rt; outcome(door), (0, 1, true));
    }
    Ok(())
}

#[test]
fn goes_on_after_a_fault_of_the_door(rt: HostRuntime) -> Result<(), Fail> {
    let alloc = rt.alloc();
    let notebook = slider(alloc).ok_or("refused")?;
    let mut door = with_two(alloc)?;
    door.failing.push(1)?;
    let mut doors = Vec::from_array(alloc, [door])?;
    let report = serve_doors(&rt, alloc, &notebook, BUDGET, &mut doors, &NoGate, 4);
    assert_eq!(rt; report, closed(2, 1));
    assert_eq!(rt; doors.first().map(outcome), Some((0, 2, true)));
    Ok(())
}

#[test]
fn takes_in_no_more_than_the_quota(rt: HostRuntime) -> Result<(), Fail> {
    let alloc = rt.alloc();
    let notebook = slider(alloc).ok_or("refused")?;
    let door = with_two(alloc)?;
    let mut doors = Vec::from_array(alloc, [door])?;
    let report = serve_doors(&rt, alloc, &notebook, BUDGET, &mut doors, &NoGate, 1);
    assert_eq!(rt; report, closed(1, 0));
    assert_eq!(rt; doors.first().map(outcome), Some((1, 1, true)));
    Ok(())
}

// How often a door was asked for a visitor.
fn calls(door: &MemDoor) -> u64 {
    door.calls
}

#[test]
fn ends_when_nobody_comes_any_more(rt: HostRuntime) -> Result<(), Fail> {
    let alloc = rt.alloc();
    let notebook = slider(alloc).ok_or("refused")?;
    let door = with_two(alloc)?;
    let mut doors = Vec::from_array(alloc, [door])?;
    let report = serve_doors(&rt, alloc, &notebook, BUDGET, &mut doors, &NoGate, 9);
    assert_eq!(rt; report, closed(2, 0));
    assert_eq!(rt; doors.first().map(calls), Some(3));
    Ok(())
}
