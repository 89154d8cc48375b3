// Doors and porches in memory.
ghost use Rattle.std.specs.Prelude.{IfOk};
ghost use Rattle.link_io.specs.MemDoors.{IsNewDoor};

use crate::calls::{ends, fails, gives, is_over, refuses, visitor};
use link_io::{Door, Link, MemDoor, MemLink, MemPorch, Porch, PorchFault, Sent};
use std::alloc::{AllocError, Global};
use std::test::Fail;

// A door to which come first a visitor who sends a text and what is no text, and then one who sends nothing.
fn two_visitors(alloc: Global) -> Result<MemDoor, AllocError>
    ensures { IfOk result (λ door. IsNewDoor door) }
{
    let text = Vec::from_slice(alloc, b"one")?;
    let messages = Vec::from_array(alloc, [Some(text), None])?;
    let talker = MemLink::new(alloc, messages);
    let mute = MemLink::new(alloc, Vec::new(alloc));
    MemDoor::new(alloc, Vec::from_array(alloc, [talker, mute])?)
}

// What a link in memory counts: the messages that were taken, the texts that were sent, and the failures.
fn counts(link: Option<&MemLink>) -> Option<(usize, usize, u64)> {
    let link = link?;
    Some((link.taken, link.sent.len(), link.faults))
}

#[test]
fn gives_visitors_in_order(rt: HostRuntime) -> Result<(), Fail> {
    let mut door = two_visitors(rt.alloc())?;
    door.failing.push(1)?;
    if !refuses(&mut door) {
        return Err("the call that is listed doesn't fail".into());
    }
    assert_eq!(rt;
        (door.faults, door.waiting().len(), door.parted().len()),
        (1, 2, 0)
    );

    let mut first = visitor(&mut door).ok_or("nobody comes first")?;
    first.failing_sends.push(2)?;
    assert!(rt; gives(&mut first, b"one"));
    assert_eq!(rt;
        (first.send(b"yes"), first.send(b"no")),
        (Sent::Done, Sent::Failed)
    );
    door.part(first);
    let mut second = visitor(&mut door).ok_or("nobody comes second")?;
    assert!(rt; ends(&mut second));
    door.part(second);
    assert_eq!(rt; counts(door.parted().first()), Some((1, 1, 1)));
    assert_eq!(rt; counts(door.parted().get(1)), Some((0, 0, 0)));
    assert_eq!(rt;
        (door.waiting().len(), door.parted().len(), door.faults),
        (0, 2, 1)
    );
    assert!(rt; is_over(&mut door));
    Ok(())
}

#[test]
fn fails_at_the_end_too(rt: HostRuntime) -> Result<(), Fail> {
    let mut mute = MemLink::new(rt.alloc(), Vec::new(rt.alloc()));
    mute.failing_recvs.push(1)?;
    assert!(rt; fails(&mut mute));
    assert!(rt; ends(&mut mute));
    let mut door = MemDoor::new(rt.alloc(), Vec::new(rt.alloc()))?;
    door.failing.push(1)?;
    if !refuses(&mut door) {
        return Err("the call that is listed doesn't fail".into());
    }
    assert!(rt; is_over(&mut door));
    Ok(())
}

// How many visitors are still to come through the only door, or through the first.
fn comers(doors: &[MemDoor]) -> Option<usize> {
    Some(doors.first()?.waiting().len())
}

#[test]
fn gives_doors_and_takes_them_back(rt: HostRuntime) -> Result<(), Fail> {
    let long = two_visitors(rt.alloc())?;
    let short = MemDoor::new(rt.alloc(), Vec::new(rt.alloc()))?;
    let mut porch = MemPorch::new(rt.alloc(), Vec::from_array(rt.alloc(), [long, short])?);
    assert_eq!(rt; porch.doors(1, 3).err(), Some(PorchFault::Failed));
    assert_eq!(rt; (porch.faults, porch.ahead().len()), (1, 2));

    let first = porch.doors(1, 1)?;
    assert_eq!(rt; (comers(&first), comers(porch.ahead())), (Some(2), Some(0)));
    porch.back(first);
    assert_eq!(rt; (porch.faults, comers(porch.returned())), (1, Some(2)));

    let mut second = porch.doors(1, 1)?;
    assert_eq!(rt; (comers(&second), comers(porch.ahead())), (Some(0), None));
    for door in &mut second {
        door.faults = 1;
    }
    porch.back(second);
    assert_eq!(rt; (porch.faults, comers(porch.returned())), (2, Some(0)));
    Ok(())
}
