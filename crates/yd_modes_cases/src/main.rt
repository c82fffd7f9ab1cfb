//! A program for the calls of `yd_modes` that no command makes. It prints a row for each: a root shown
//! as text, in memory; the pieces of a root's list, and of a list under a key; and what a root shows
//! that has so many types inside one another, once it was printed and dropped. Without memory the
//! status is 5. What it has to print was worked by hand.
#![tactic(auto)]

use std::alloc::Global;
use std::io::Write;
use std::process::ExitCode;
use yd_any::Text;
use yd_doc::Replica;
use yd_ids::Client;
use yd_modes::{Mode, Piece, delta, show};
use yd_num::Bytes;
use yd_ops::{List, Parent};
use yd_v1::read_v1;
use yd_value::{Shown, print};
use yd_world::{Sink, StdSink};

/// Client 1, in the root `t`: "ab", a mark that sets `b` to 1, "c", 7 as an any-value, "d", an embed,
/// an array, a mark that ends `b`, "e", and a pair. In the array is 5, and "x" under the key `k` of the
/// root `m`. The low half of the pair is deleted.
const PAGE: &[u8] = &[
    1, 12, 1, 0, // twelve structs, from the clock 0 on
    4, 1, 1, b't', 2, b'a', b'b', // 0 and 1
    0x86, 1, 1, 1, b'b', 1, b'1', // 2
    0x84, 1, 2, 1, b'c', // 3
    0x88, 1, 3, 1, 0x7d, 7, // 4
    0x84, 1, 4, 1, b'd', // 5
    0x85, 1, 5, 3, b'[', b'1', b']', // 6
    0x87, 1, 6, 0, // 7
    0x86, 1, 7, 1, b'b', 4, b'n', b'u', b'l', b'l', // 8
    0x84, 1, 8, 1, b'e', // 9
    0x84, 1, 9, 4, 0xf0, 0x9f, 0x98, 0x80, // 10 and 11
    8, 0, 1, 7, 1, 0x7d, 5, // 12
    0x24, 1, 1, b'm', 1, b'k', 1, b'x', // 13
    1, 1, 1, 11, 1,
];

fn main(rt: HostRuntime) -> ExitCode {
    let mut rows = Vec::new(rt.alloc());
    if tell_all(rt.alloc(), &mut rows).is_none() {
        return ExitCode::from(5);
    }
    let mut out = StdSink::out(&rt);
    match out.write(&rows) {
        Ok(_) => ExitCode::from(0),
        Err(_) => ExitCode::from(4),
    }
}

/// The rows of the page, and of types inside one another.
fn tell_all(alloc: Global, rows: &mut Vec<u8>) -> Option<()> {
    play(alloc, PAGE, None, rows)?;
    for types in [100, 101, 102, 10_000] {
        let update = nested(alloc, types)?;
        play(alloc, update.as_slice(), Some(types), rows)?;
    }
    Some(())
}

/// The rows of a replica that took an update: of the page, or of so many types inside one another.
fn play(alloc: Global, bytes: &[u8], types: Option<u32>, rows: &mut Vec<u8>) -> Option<()> {
    let update = read_v1(alloc, bytes).ok()?;
    let mut replica = Replica::new(alloc, Client(9)).ok()?;
    replica.apply(&update).ok()?;
    match types {
        None => tell_page(alloc, &replica, rows),
        Some(types) => tell_types(alloc, &replica, types, rows),
    }
}

/// The rows of the page.
fn tell_page(alloc: Global, page: &Replica, rows: &mut Vec<u8>) -> Option<()> {
    let text = show(alloc, page, &root(alloc, "t")?, Mode::Text).ok()?;
    write!(rows, "text ").ok()?;
    tell(text, rows)?;
    let own = List {
        parent: root(alloc, "t")?,
        key: None,
    };
    for piece in delta(alloc, page, &own).ok()? {
        write!(rows, "piece ").ok()?;
        tell_piece(piece, rows)?;
    }
    let under_key = List {
        parent: root(alloc, "m")?,
        key: Some(Text::copy_of(alloc, "k").ok()?),
    };
    for piece in delta(alloc, page, &under_key).ok()? {
        write!(rows, "piece under a key ").ok()?;
        tell_piece(piece, rows)?;
    }
    Some(())
}

/// The row of the root `r`, in which so many types lie inside one another.
fn tell_types(alloc: Global, replica: &Replica, types: u32, rows: &mut Vec<u8>) -> Option<()> {
    let list = show(alloc, replica, &root(alloc, "r")?, Mode::Array).ok()?;
    write!(rows, "{types} types ").ok()?;
    tell(list, rows)
}

/// Prints what a piece inserts, and its attributes behind that.
fn tell_piece(piece: Piece, rows: &mut Vec<u8>) -> Option<()> {
    print(&piece.insert, rows).ok()?;
    rows.push(b' ').ok()?;
    tell(Shown::Fields(piece.attributes), rows)
}

/// Prints a value and drops it.
fn tell(value: Shown, rows: &mut Vec<u8>) -> Option<()> {
    print(&value, rows).ok()?;
    rows.push(b'\n').ok()
}

/// The root with a name.
fn root(alloc: Global, name: &str) -> Option<Parent> {
    Some(Parent::Root(Text::copy_of(alloc, name).ok()?))
}

/// The update of client 1 that has an array in the root `r`, and further ones, each in the one before.
fn nested(alloc: Global, types: u32) -> Option<Bytes> {
    let mut bytes = Bytes::new(alloc);
    bytes.push_byte(1).ok()?;
    bytes.push_unsigned(u64::from(types)).ok()?;
    bytes.push_all(&[1, 0, 7, 1, 1, b'r', 0]).ok()?;
    for clock in 1..types {
        bytes.push_all(&[7, 0, 1]).ok()?;
        bytes.push_unsigned(u64::from(clock - 1)).ok()?;
        bytes.push_byte(0).ok()?;
    }
    bytes.push_byte(0).ok()?;
    Some(bytes)
}
