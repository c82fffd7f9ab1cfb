//! What a replica tells, in lines.

ghost use Rattle.std.specs.Prelude.{◌<◌};
ghost use Rattle.yd_arena.specs.Arena.{count_of};

use std::alloc::Global;
use std::io::Write;
use yd_any::Text;
use yd_doc::Replica;
use yd_ids::Id;
use yd_kept::Kept;
use yd_ops::{Kind, List, Parent};
use yd_store::Store;
use yd_view::text;

/// What a replica tells once it has taken all updates.
pub(crate) fn tell(alloc: Global, replica: &Replica, lines: &mut Vec<u8>) -> Option<()> {
    let list = List {
        parent: Parent::Root(Text::copy_of(alloc, "t").ok()?),
        key: None,
    };
    tell_sets(replica, lines)?;
    tell_text(alloc, replica, &list, lines)?;
    tell_list(replica, &list, lines)?;
    tell_store(replica.store(), &list, lines)?;
    tell_types(replica, replica.store().store(), lines)
}

/// How much waits, the state vector, and the delete set.
fn tell_sets(replica: &Replica, lines: &mut Vec<u8>) -> Option<()> {
    let waiting = replica.waiting();
    write!(lines, "\nwaiting {} {}", waiting.structs, waiting.deletes).ok()?;
    write!(lines, "\nvector").ok()?;
    for (client, clock) in replica.vector().iter() {
        write!(lines, " {}:{}", client.0, clock).ok()?;
    }
    write!(lines, "\ndeletes").ok()?;
    for span in replica.deletes().spans() {
        write!(lines, " {}.{}+{}", span.client.0, span.clock, span.len).ok()?;
    }
    Some(())
}

/// The text of a list.
fn tell_text(alloc: Global, replica: &Replica, list: &List, lines: &mut Vec<u8>) -> Option<()> {
    write!(lines, "\ntext ").ok()?;
    let units = text(alloc, replica, list).ok()?;
    units.write_text(lines).ok()
}

/// The ids of a list, as the replica lends them.
fn tell_list(replica: &Replica, list: &List, lines: &mut Vec<u8>) -> Option<()> {
    write!(lines, "\nlist").ok()?;
    let mut view = replica.list(list);
    while let Some(piece) = view.next() {
        tell_ids(piece.id, piece.len, piece.deleted, lines)?;
    }
    Some(())
}

/// The ids of a list, as its store has them.
fn tell_store(kept: &Kept, list: &List, lines: &mut Vec<u8>) -> Option<()> {
    write!(lines, "\nstore").ok()?;
    match kept.number_of(list) {
        None => Some(()),
        Some(number) => tell_places(kept.store(), number, lines),
    }
}

/// The ids at the places that a store links, from the first of a list on.
fn tell_places(store: &Store, list: usize, lines: &mut Vec<u8>) -> Option<()>
    requires { list < count_of store.now.placed }
{
    let mut at = store.first(list);
    for _ in 0..store.len() {
        let Some(place) = at else {
            break;
        };
        if place >= store.len() {
            break;
        }
        if let Some(run) = store.run_of(place) {
            tell_ids(run.id, run.len(), store.is_deleted(place), lines)?;
        }
        at = store.next(place);
    }
    Some(())
}

/// So many ids from one on.
fn tell_ids(id: Id, len: u64, deleted: bool, lines: &mut Vec<u8>) -> Option<()> {
    let mark = if deleted { "-" } else { "" };
    let client = id.client.0;
    for i in 0..len {
        let clock = id.clock.saturating_add(i);
        write!(lines, " {mark}{client}.{clock}").ok()?;
    }
    Some(())
}

/// The units of a store that are types, with their kinds.
fn tell_types(replica: &Replica, store: &Store, lines: &mut Vec<u8>) -> Option<()> {
    write!(lines, "\ntypes").ok()?;
    for place in 0..store.len() {
        if let Some(run) = store.run_of(place) {
            tell_type(replica, run.id, lines)?;
        }
    }
    writeln!(lines).ok()
}

/// An id and the kind of the type that its unit is, if it is one.
fn tell_type(replica: &Replica, id: Id, lines: &mut Vec<u8>) -> Option<()> {
    if let Some(kind) = replica.kind_of(id) {
        write!(lines, " {}.{}={}", id.client.0, id.clock, word_of(kind)).ok()?;
    }
    Some(())
}

/// A kind in a word.
fn word_of(kind: &Kind) -> &'static str {
    match kind {
        Kind::Array => "array",
        Kind::Map => "map",
        Kind::Text => "text",
        _ => "xml",
    }
}
