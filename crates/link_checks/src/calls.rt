// Calls of any door and any link, and whether they answer what is wanted.
ghost use Rattle.std.specs.Prelude.{◌≡◌, true, false, IfSome, IsTrue};

use link_io::{Accepted, Door, Link, Received};

// The next visitor, if one comes.
pub(crate) fn visitor<D: Door>(door: &mut D) -> Option<D::Visitor>
    requires { D.out door.old ≡ false }
    ensures { IfSome result (λ link. D.out door.new ≡ true) }
{
    match door.accept() {
        Accepted::Visitor(link) => Some(link),
        _ => None,
    }
}

// Whether the door fails.
pub(crate) fn refuses<D: Door>(door: &mut D) -> bool
    requires { D.out door.old ≡ false }
    ensures { IsTrue result → D.out door.new ≡ false }
{
    matches!(door.accept(), Accepted::Failed)
}

// Whether nobody comes any more.
pub(crate) fn is_over<D: Door>(door: &mut D) -> bool
    requires { D.out door.old ≡ false }
{
    matches!(door.accept(), Accepted::NoMore)
}

// Whether the link gives this text next.
pub(crate) fn gives<L: Link>(link: &mut L, want: &[u8]) -> bool {
    match link.recv() {
        Received::Text(text) => text.as_slice() == want,
        _ => false,
    }
}

// Whether the link gives next what is no text.
pub(crate) fn gives_other<L: Link>(link: &mut L) -> bool {
    matches!(link.recv(), Received::Other)
}

pub(crate) fn ends<L: Link>(link: &mut L) -> bool {
    matches!(link.recv(), Received::End)
}

pub(crate) fn fails<L: Link>(link: &mut L) -> bool {
    matches!(link.recv(), Received::Failed)
}
