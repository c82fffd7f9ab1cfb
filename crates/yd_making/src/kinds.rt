//! The type that a unit holds.

ghost use Rattle.std.specs.Prelude.{◌≡◌, ◌<◌, length};
ghost use Rattle.yd_editing.specs.Basis.{has_type_item};
ghost use Rattle.yd_ops.specs.View.{content_value};
ghost use Rattle.yd_entries.specs.Entries.{is_listed_at};
ghost use Rattle.yd_received.specs.Received.{listed_of};
ghost use Rattle.yd_making.specs.Types.{holds_type, is_type_content};

use yd_ids::Id;
use yd_ops::{Content, Run};
use yd_received::{Entry, Place, Received};

/// The unit with the id is held and not lost, and holds a type. It takes no memory, and time with the
/// logarithm of how many entries there are.
pub(crate) fn has_type(received: &Received, id: Id) -> bool
    ensures { result ≡ has_type_item (listed_of received.now) id }
{
    let entries = received.entries();
    match received.entry_at(id) {
        None => false,
        Some(at) => holds_type(received.runs(), entries.get(at)),
    }
}

/// The units of the entry are in a list, and hold a type. There is one unit then.
fn holds_type(runs: &[Run], entry: Entry) -> bool
    requires { entry.run < length runs.now }
    ensures { result ≡ holds_type runs.now entry }
{
    is_listed(entry.place) && !entry.is_gone && is_type(&runs[entry.run].content)
}

/// Units at the place are in a list.
fn is_listed(place: Place) -> bool
    ensures { result ≡ is_listed_at place }
{
    match place {
        Place::In(_) => true,
        _ => false,
    }
}

/// The content is a type.
fn is_type(content: &Content) -> bool
    ensures { result ≡ is_type_content (content_value content.now) }
{
    match content {
        Content::Nested(_) => true,
        _ => false,
    }
}
