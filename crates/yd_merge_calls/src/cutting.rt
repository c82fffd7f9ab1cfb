//! Cutting a text by a vector.

use std::alloc::Global;
use std::test::Fail;
use yd_ids::{Client, Vector};
use yd_merge::cut;
use yd_v1::{read_v1, write_v1};

/// Client 1: "abc" in the root `t`.
const TEXT: [u8; 13] = [1, 1, 1, 0, 4, 1, 1, 0x74, 3, 0x61, 0x62, 0x63, 0];
/// Its units from clock 1 on: "bc", made behind the first.
const BEHIND: [u8; 11] = [1, 1, 1, 1, 0x84, 1, 0, 2, 0x62, 0x63, 0];
/// Client 1: one character of two units.
const PAIR: [u8; 14] = [1, 1, 1, 0, 4, 1, 1, 0x74, 4, 0xf0, 0x9f, 0x98, 0x80, 0];
/// Client 1: "abc" again, which is deleted and told so, and a deletion names it.
const DELETED: [u8; 14] = [1, 1, 1, 0, 1, 1, 1, 0x74, 3, 1, 1, 1, 0, 3];
/// The last of these units, with all deletions.
const LAST: [u8; 13] = [1, 1, 1, 2, 0x81, 1, 1, 1, 1, 1, 1, 0, 3];

/// The cut of an update at a clock of client 1, in V1.
fn cut_at(alloc: Global, bytes: &[u8], clock: u32) -> Result<Vec<u8>, Fail> {
    let update = read_v1(alloc, bytes)?;
    let mut vector = Vector::new(alloc);
    vector.raise(Client(1), u64::from(clock))?;
    let part = cut(alloc, &update, &vector)?;
    let bytes = write_v1(alloc, &part)?;
    Ok(bytes)
}

#[test]
fn a_cut_has_what_is_not_below_the_vector(rt: HostRuntime) -> Result<(), Fail> {
    let bytes = cut_at(rt.alloc(), &TEXT, 1)?;
    assert_eq!(rt; bytes.as_slice(), BEHIND.as_slice());
    let bytes = cut_at(rt.alloc(), &TEXT, 3)?;
    assert_eq!(rt; bytes.as_slice(), [0, 0].as_slice());
    Ok(())
}

#[test]
fn a_cut_keeps_a_pair_whole(rt: HostRuntime) -> Result<(), Fail> {
    let bytes = cut_at(rt.alloc(), &PAIR, 1)?;
    assert_eq!(rt; bytes.as_slice(), PAIR.as_slice());
    Ok(())
}

#[test]
fn a_cut_has_all_deletions(rt: HostRuntime) -> Result<(), Fail> {
    let bytes = cut_at(rt.alloc(), &DELETED, 2)?;
    assert_eq!(rt; bytes.as_slice(), LAST.as_slice());
    Ok(())
}
