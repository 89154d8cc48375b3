// What a visitor says next.
ghost use Rattle.std.specs.Prelude.{◌≡◌, ◌≤◌};
ghost use Rattle.link_io.specs.Outside.{Rose};
ghost use Rattle.session.specs.Talks.{Hears};

use crate::heard::Heard;
use link_io::{Link, Received};
use std::alloc::Global;

/// Takes the visitor's next message. For what is no text the kernel is given no bytes, which are no message.
pub fn hear<K: Link>(alloc: Global, link: &mut K) -> Heard
    ensures hears { Hears (K.told link.old) (K.told link.new) result }
    ensures later { K.faults link.old ≤ K.faults link.new }
    ensures failed { result ≡ Heard.Failed → Rose (K.faults link.old) (K.faults link.new) }
{
    match link.recv() {
        Received::Text(bytes) => Heard::Message(bytes),
        Received::Other => Heard::Message(Vec::new(alloc)),
        Received::End => Heard::End,
        Received::Failed => Heard::Failed,
        Received::Memory => Heard::Memory,
    }
}
