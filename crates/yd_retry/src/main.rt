//! A program for the check of refused memory: updates are applied to a replica, and one that finds
//! no memory is applied once more, and then `again` is said on err. It prints the text, or ends as
//! without memory, or with status 6 where a replica that found none is not behind or tells something
//! else than before.
#![tactic(auto)]

ghost use Rattle.yd_ops.specs.Valid.{IsValidUpdate};
ghost use Rattle.yd_ops.specs.View.{update_value};

use std::alloc::Global;
use std::process::ExitCode;
use yd_any::Text;
use yd_doc::{Replica, Waiting};
use yd_ids::{Client, Id};
use yd_ops::{List, Parent, Update};
use yd_v1::read_v1;
use yd_view::text;
use yd_world::{Sink, StdSink};

/// A deletion of client 1's unit 0, `bc` behind that unit, `a` as that unit, a pair of client 2, and
/// `x` of client 3. Then the low half of the pair is told as deleted, so that the high one is U+FFFD;
/// `c` is told as deleted, with `d` behind it; and `x` is gone.
const UPDATES: [&[u8]; 8] = [
    &[0, 1, 1, 1, 0, 1],
    &[1, 1, 1, 1, 0x84, 1, 0, 2, 0x62, 0x63, 0],
    &[1, 1, 1, 0, 4, 1, 1, 0x74, 1, 0x61, 0],
    &[1, 1, 2, 0, 4, 1, 1, 0x74, 4, 0xF0, 0x9F, 0x98, 0x80, 0],
    &[1, 1, 3, 0, 4, 1, 1, 0x74, 1, 0x78, 0],
    &[1, 1, 2, 1, 0x81, 2, 0, 1, 0],
    &[1, 2, 1, 2, 0x81, 1, 1, 1, 0x84, 1, 2, 1, 0x64, 0],
    &[1, 1, 3, 0, 0, 1, 0],
];

/// What is seen of the updates that found no memory.
#[derive(Clone, Copy)]
struct Retries {
    /// There was one.
    some: bool,
    /// A replica was not behind then, or told something else than before.
    wrong: bool,
}

fn main(rt: HostRuntime) -> ExitCode {
    let mut retries = Retries {
        some: false,
        wrong: false,
    };
    let Some(bytes) = shown(rt.alloc(), &mut retries) else {
        return ExitCode::from(5);
    };
    if retries.wrong {
        return ExitCode::from(6);
    }
    if retries.some {
        let _ = StdSink::err(&rt).write(b"again\n");
    }
    let mut out = StdSink::out(&rt);
    match out.write(&bytes) {
        Ok(_) => ExitCode::from(0),
        Err(_) => ExitCode::from(4),
    }
}

/// The text of the root `t` after all updates, and a line feed.
fn shown(alloc: Global, retries: &mut Retries) -> Option<Vec<u8>> {
    let mut replica = Replica::new(alloc, Client(9)).ok()?;
    for bytes in UPDATES {
        let update = read_v1(alloc, bytes).ok()?;
        receive(&mut replica, &update, retries)?;
    }
    printed(alloc, &replica)
}

/// Applies an update, and where that finds no memory once more.
fn receive(replica: &mut Replica, update: &Update, retries: &mut Retries) -> Option<()>
    requires { IsValidUpdate (update_value update.now) }
{
    let before = told(replica);
    if replica.apply(update).is_err() {
        retries.some = true;
        retries.wrong |= !replica.is_behind() || told(replica) != before;
        replica.apply(update).ok()?;
        retries.wrong |= replica.is_behind();
    }
    Some(())
}

/// How much waits, the clocks of both clients, and whether the first unit is deleted.
fn told(replica: &Replica) -> (Waiting, u64, u64, bool) {
    let vector = replica.vector();
    let first = Id {
        client: Client(1),
        clock: 0,
    };
    let deleted = replica.deletes().has(first);
    (
        replica.waiting(),
        vector.get(Client(1)),
        vector.get(Client(2)),
        deleted,
    )
}

/// The text of the root `t`, and a line feed.
fn printed(alloc: Global, replica: &Replica) -> Option<Vec<u8>> {
    let list = List {
        parent: Parent::Root(Text::copy_of(alloc, "t").ok()?),
        key: None,
    };
    let units = text(alloc, replica, &list).ok()?;
    let mut bytes = Vec::new(alloc);
    units.write_text(&mut bytes).ok()?;
    bytes.push(10).ok()?;
    Some(bytes)
}
